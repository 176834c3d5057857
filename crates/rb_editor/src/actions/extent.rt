//! The lines of a directive.

ghost use Rattle.std.specs.Prelude.{◌≡◌};
ghost use Rattle.rb_editor.specs.BlockLines.{StandsIn};
ghost use Rattle.rb_editor.specs.Extents.{extent_of, has_line};

use crate::offers::{BlockLines, begins_rule};
use rb_script::{Block, Lines};

/// The lines of a directive, counted from 0.
#[derive(Clone, Copy, Debug, PartialEq, Eq)]
pub(crate) struct Extent {
    /// Where its head begins.
    pub(crate) head: usize,
    /// Where its expectation begins.
    pub(crate) expected: usize,
    /// The line after its expectation.
    pub(crate) end: usize,
    /// Whether the expectation is in the double form.
    pub(crate) is_double: bool,
}

/// Some lines, from the first to the last, counted from 0.
#[derive(Clone, Copy, Debug, PartialEq, Eq)]
pub(crate) struct LineSpan {
    pub(crate) first: usize,
    pub(crate) last: usize,
}

/// Finds the lines of the directive whose head begins on this line, counted from 1.
#[tactic(auto, unfolding(crate::specs::Extents::extent_of))]
pub(crate) fn extent_of(lines: &Lines, line: usize, block: &Block) -> Extent
    requires { StandsIn lines.now line block.now }
    ensures { result ≡ extent_of lines.now line block.now }
{
    let at = BlockLines::of_block(lines, line, block);
    Extent {
        head: at.from,
        expected: at.below,
        end: at.end,
        is_double: begins_rule(lines, at.below),
    }
}

/// Whether it has one of these lines.
pub(crate) fn has_line(span: LineSpan, extent: Extent) -> bool
    ensures { result ≡ has_line span.first span.last extent }
{
    extent.head <= span.last && span.first < extent.end
}
