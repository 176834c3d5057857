//! The parts of a block, line by line, from the first line of its head.

ghost use Rattle.std.specs.Prelude.{◌≡◌};
ghost use Rattle.rb_script_report.specs.Doubts.{next_part};

use rb_script::{continues, is_separator};

/// The part of a block that a line belongs to.
#[derive(Clone, Copy, Debug, PartialEq, Eq)]
pub(crate) enum BlockPart {
    /// It is the first of the head, or one that the head asks for.
    Head,
    /// It is input, or the line `----` that ends it.
    Input,
    /// It is below the line `----`.
    Expected,
}

impl BlockPart {
    /// The part of the next line.
    pub(crate) fn after(self, line: &[u8]) -> BlockPart
        ensures { result ≡ next_part self line.now }
    {
        match self {
            BlockPart::Head if continues(line) => BlockPart::Head,
            BlockPart::Head => BlockPart::Input,
            BlockPart::Input if is_separator(line) => BlockPart::Expected,
            BlockPart::Input => BlockPart::Input,
            BlockPart::Expected => BlockPart::Expected,
        }
    }
}
