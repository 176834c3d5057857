//! Where a book is written.

ghost use Rattle.std.specs.Prelude.{[], List, OnOk, Option, ◌∷◌};
ghost use Rattle.rb_book.specs.Sites.{AddsFiles, SiteFile};

use crate::fault::BookFault;

/// A place for the files of a book.
pub trait Site {
    // the files that were written, in their order, if that is known
    ghost files: { Self → Option (List SiteFile) };

    /// Writes a new file. Names in its path are separated by slashes; the folders are made where they are missing.
    ///
    /// # Errors
    ///
    /// Why it was not written. Nothing is left of it then, if it can be removed.
    fn write(&mut self, path: &str, text: &[u8]) -> Result<(), BookFault>
        ensures { OnOk result (AddsFiles (files self.old) (files self.new) ((path.now, text.now) ∷ [])) };
}
