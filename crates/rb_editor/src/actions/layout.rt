//! Where a script is in its text, and which of its lines look like a mistake.

ghost use Rattle.std.specs.Prelude.{◌≡◌};
ghost use Rattle.rb_editor.specs.Layouts.{line_at};

use rb_lsp::document::{Encoding, LineTable, Position, offset};
use rb_script_report::{Layout, Warning};

/// A script's lines and those of its heads, where each line begins in an editor, and the lines that look like a mistake.
#[derive(Drop)]
pub(crate) struct ScriptLayout {
    pub(crate) script: Layout,
    pub(crate) table: LineTable,
    pub(crate) slips: Vec<Warning>,
}

/// Finds the line of a position, counted from 0.
pub(crate) fn line_at(encoding: Encoding, position: Position, text: &[u8]) -> usize
    ensures { result ≡ line_at encoding position text.now }
{
    let before = &text[..offset(encoding, position, text)];
    before.iter().filter(|b| **b == b'\n').count()
}
