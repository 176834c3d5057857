//! Lines that are written in place.

ghost use Rattle.std.specs.Prelude.{◌≡◌, ◌++◌, List, ℕ, OnOk};

use crate::line_text::LineText;
use std::alloc::AllocError;

/// A line that can be written directly into the text of a list of lines.
pub trait WrittenLine {
    ghost bytes: { Self → List ℕ };

    /// Appends the bytes of the line to a text. If memory runs out, the text is unspecified.
    fn add_to(&self, text: &mut LineText) -> Result<(), AllocError>
        ensures { OnOk result (text.new ≡ text.old ++ bytes self.now) };
}
