//! Metadata that tells one file from another, and a changed file from the same file before.

ghost use Rattle.std.specs.Prelude.{◌≡◌, ◌↔◌, IsTrue};
ghost use Rattle.std.specs.Fs.{metadata_len};

use std::fs::Metadata;
use std::os::unix::fs::MetadataExt;

/// The system's metadata of a file at some time.
#[derive(Clone, Copy, Debug)]
pub(crate) struct FileLook {
    pub(crate) device: u64,
    pub(crate) number: u64,
    pub(crate) len: u64,
    // when it was last changed
    pub(crate) seconds: i64,
    pub(crate) nanoseconds: i64,
}

impl FileLook {
    pub(crate) fn of(metadata: &Metadata) -> FileLook
        // The standard library doesn't give the other numbers.
        ensures { result.len ≡ metadata_len metadata.now }
    {
        FileLook {
            device: metadata.dev(),
            number: metadata.ino(),
            len: metadata.len(),
            seconds: metadata.mtime(),
            nanoseconds: metadata.mtime_nsec(),
        }
    }

    /// Whether both looks show the same file, and that it wasn't changed between them.
    pub(crate) fn is_same(&self, other: &FileLook) -> bool
        ensures { IsTrue result ↔ self.now ≡ other.now }
    {
        self.device == other.device
            && self.number == other.number
            && self.len == other.len
            && self.seconds == other.seconds
            && self.nanoseconds == other.nanoseconds
    }
}
