//! Positions and ranges as JSON.

ghost use Rattle.std.specs.Prelude.{◌≡◌, ◌++◌, OnOk};
ghost use Rattle.rb_lsp.specs.Tables.{IsTable, start_of};
ghost use Rattle.rb_editor.specs.Texts.{position_text, range_member, range_text};

use rb_lsp::document::{Encoding, LineTable, Position};
use rb_text::{Piece, add_pieces};
use std::alloc::AllocError;

/// Adds a position.
#[tactic(auto, unfolding(crate::specs::Texts::position_text))]
pub(crate) fn add_position(out: &mut Vec<u8>, position: Position) -> Result<(), AllocError>
    ensures { OnOk result (out.new.items ≡ out.old.items ++ position_text position) }
{
    add_pieces(
        out,
        &[
            Piece::Bytes(b"{\"line\":"),
            Piece::Number(position.line),
            Piece::Bytes(b",\"character\":"),
            Piece::Number(position.character),
            Piece::Bytes(b"}"),
        ],
    )
}

/// Adds the range between two positions.
#[tactic(auto, unfolding(crate::specs::Texts::range_text))]
pub(crate) fn add_range(out: &mut Vec<u8>, start: Position, end: Position) -> Result<(), AllocError>
    ensures { OnOk result (out.new.items ≡ out.old.items ++ range_text start end) }
{
    out.extend_from_slice(b"{\"start\":")?;
    add_position(out, start)?;
    out.extend_from_slice(b",\"end\":")?;
    add_position(out, end)?;
    out.extend_from_slice(b"}")?;
    Ok(())
}

/// Adds the beginning of an object whose first member is the range between two positions.
///
/// # Errors
///
/// If memory was refused. A part of it may have been added then.
#[tactic(auto, unfolding(crate::specs::Texts::range_member))]
pub fn add_range_member(out: &mut Vec<u8>, start: Position, end: Position) -> Result<(), AllocError>
    ensures { OnOk result (out.new.items ≡ out.old.items ++ range_member start end) }
{
    out.extend_from_slice(b"{\"range\":")?;
    add_range(out, start, end)
}

/// Finds where a line of a text begins, by the table of its lines.
pub(crate) fn start_of(_encoding: Encoding, _text: &[u8], table: &LineTable, n: usize) -> Position
    requires { IsTable _encoding _text.now table.now }
    ensures { result ≡ start_of _encoding n _text.now }
{
    table.start_of(n)
}
