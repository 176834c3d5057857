//! What a search asks of a tree of files and folders.

ghost use Rattle.std.specs.Prelude.{◌≡◌, IfErr, IfOk, List, Option, Result, String, ⊤, ℕ};
ghost use Rattle.std.specs.declared.alloc.Global.{Global};
ghost use Rattle.rb_files.specs.Names.{AreInOrder};
ghost use Rattle.rb_files.specs.PathErrors.{IsOfReading};
ghost use Rattle.rb_files.specs.declared.entry.PathEntry.{PathEntry};
ghost use Rattle.rb_files.specs.declared.listing.Listing.{Listing};
ghost use Rattle.rb_files.specs.declared.path_error.PathError.{PathError};

use crate::entry::{PathEntry, entry_at};
use crate::ignored::ignored_in;
use crate::listing::{Listing, listed};
use crate::path_error::PathError;
use std::alloc::Global;
use std::fs;
use std::rt::Files;

/// A tree of files and folders, as a search asks about it.
pub(crate) trait Tree {
    // what it may say of a path, of a folder's ignore file, and of a folder's names
    ghost entries: { Self → List ℕ → Result PathEntry PathError → Type 0 };

    ghost ignores: { Self → List ℕ → Result (Option (String Global)) PathError → Type 0 };

    ghost listings: { Self → List ℕ → Result Listing PathError → Type 0 };

    fn alloc(&self) -> Global;

    /// What is at the path, after following its links.
    fn entry_at(&self, path: &str) -> Result<PathEntry, PathError>
        ensures told { entries self.now path.now result }
        ensures why { IfErr result IsOfReading };

    /// The text of the folder's ignore file, if it has one.
    fn ignored_in(&self, folder: &str) -> Result<Option<String>, PathError>
        ensures told { ignores self.now folder.now result }
        ensures why { IfErr result IsOfReading };

    /// The names in the folder.
    fn listed(&self, folder: &str) -> Result<Listing, PathError>
        ensures told { listings self.now folder.now result }
        ensures why { IfErr result IsOfReading };

    /// Whether a folder is at the path now. A name that vanishes before it is visited is known to have been one.
    fn is_folder_now(&self, path: &str) -> bool;
}

/// The system's tree. What it says is not known, but that a folder's names are in order.
#[derive(Drop)]
pub(crate) struct SystemTree<'a, R>(pub(crate) &'a R);

impl<'a, R: Files + AllocGlobal> Tree for SystemTree<'a, R> {
    ghost entries = { λ _ _ _. ⊤ };

    ghost ignores = { λ _ _ _. ⊤ };

    ghost listings = { λ _ _ said. IfOk said (λ listing. AreInOrder listing.names.items) };

    fn alloc(&self) -> Global {
        self.0.alloc()
    }

    fn entry_at(&self, path: &str) -> Result<PathEntry, PathError> {
        entry_at(self.0, path)
    }

    fn ignored_in(&self, folder: &str) -> Result<Option<String>, PathError> {
        ignored_in(self.0, folder)
    }

    fn listed(&self, folder: &str) -> Result<Listing, PathError> {
        listed(self.0, folder)
    }

    fn is_folder_now(&self, path: &str) -> bool {
        match fs::metadata(self.0, path) {
            Ok(metadata) => metadata.is_dir(),
            Err(_) => false,
        }
    }
}
