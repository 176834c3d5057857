//! What makes the page and the picture of a script.

ghost use Rattle.std.specs.Prelude.{IfOk, List, ℕ};

use crate::fault::BookFault;
use std::alloc::Global;

/// Makes the page and the picture of a script.
pub trait ChapterTexts {
    // the text is a page of the script with these bytes, under a name, between a front and a back
    ghost is_page: { Self → List ℕ → List ℕ → List ℕ → List ℕ → List ℕ → Type 0 };

    // the text is a picture of the script, under a name
    ghost is_picture: { Self → List ℕ → List ℕ → List ℕ → Type 0 };

    /// The page of a script under a name: its rows between a front and a back.
    ///
    /// # Errors
    ///
    /// `NoScript`, `PageTooLarge`, and `OutOfMemory`.
    fn page(
        &self,
        alloc: Global,
        script: &[u8],
        name: &[u8],
        front: &[u8],
        back: &[u8],
    ) -> Result<Vec<u8>, BookFault>
        ensures { IfOk result (λ text. is_page self.now script.now name.now front.now back.now text.items) };

    /// The picture of a script under a name.
    ///
    /// # Errors
    ///
    /// `NoScript`, `PictureTooLarge`, and `OutOfMemory`.
    fn picture(&self, alloc: Global, script: &[u8], name: &[u8]) -> Result<Vec<u8>, BookFault>
        ensures { IfOk result (λ text. is_picture self.now script.now name.now text.items) };
}
