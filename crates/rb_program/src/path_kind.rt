//! What is at a path.

ghost use Rattle.std.specs.Prelude.{◌≡◌, ◌≢◌, ◌↔◌, ℕ, List, ⊤};
ghost use Rattle.std.specs.Fs.{IsFile, file_type};

use std::fs;
use std::fs::Metadata;
use std::rt::Files;

/// What is at a path.
#[derive(Clone, Copy)]
pub enum PathKind {
    File,
    /// Something else, such as a folder.
    Other,
    /// Nothing that the system tells of.
    Nothing,
}

/// Tells what is at a path. Code over it is proved for all that a system may tell.
pub trait PathKinds {
    ghost use Rattle.rb_program.specs.declared.path_kind.PathKind.{PathKind};

    // the system tells that this is at the path
    ghost tells_kind: { Self → List ℕ → PathKind → Type 0 };

    /// What is at the path.
    fn kind_at(&self, path: &str) -> PathKind
        ensures { tells_kind self.now path.now result };
}

// What is in the file system is not known.
impl<R: Files> PathKinds for R {
    ghost tells_kind = { λ _ _ _. ⊤ };

    fn kind_at(&self, path: &str) -> PathKind {
        match fs::metadata(self, path) {
            Ok(metadata) => kind_of(&metadata),
            Err(_) => PathKind::Nothing,
        }
    }
}

// What the system describes so.
fn kind_of(metadata: &Metadata) -> PathKind
    ensures file { (result ≡ PathKind.File) ↔ IsFile (file_type metadata.now) }
    ensures there { result ≢ PathKind.Nothing }
{
    if metadata.is_file() {
        PathKind::File
    } else {
        PathKind::Other
    }
}
