//! What kind of thing is at a path, by the mode that the system gives.

ghost use Rattle.std.specs.Prelude.{◌≡◌};
ghost use Rattle.std.specs.Fs.{metadata_mode};
ghost use Rattle.rb_files.specs.Entries.{kind_of, kind_of_bits, special};

use rb_report::check::Failure;
use std::fs::Metadata;
use std::os::unix::fs::MetadataExt;

/// What kind of thing is at a path.
#[derive(Clone, Copy)]
pub(crate) enum Kind {
    Folder,
    File,
    Link,
    Pipe,
    Socket,
    Device,
    Unknown,
}

impl Kind {
    pub(crate) fn of(metadata: &Metadata) -> Kind
        ensures { result ≡ kind_of (metadata_mode metadata.now) }
    {
        kind_of_bits(metadata.mode() & 0o170_000)
    }

    /// Why a thing of this kind is no script, if its kind alone says so.
    pub(crate) fn special(self) -> Option<Failure>
        ensures { result ≡ special self }
    {
        match self {
            Kind::Pipe => Some(Failure::Pipe),
            Kind::Socket => Some(Failure::Socket),
            Kind::Device => Some(Failure::Device),
            Kind::Folder | Kind::File | Kind::Link | Kind::Unknown => None,
        }
    }
}

// By the values of C's S_IFMT.
fn kind_of_bits(bits: u32) -> Kind
    ensures { result ≡ kind_of_bits bits }
{
    match bits {
        0o040_000 => Kind::Folder,
        0o100_000 => Kind::File,
        0o120_000 => Kind::Link,
        0o010_000 => Kind::Pipe,
        0o140_000 => Kind::Socket,
        0o020_000 | 0o060_000 => Kind::Device,
        _ => Kind::Unknown,
    }
}
