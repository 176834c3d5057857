//! Rows.

ghost use Rattle.std.specs.Prelude.{◌≡◌, ◌++◌, IsOk, codes, map};
ghost use Rattle.std.specs.List.{flat_map};
ghost use Rattle.rb_script.specs.Writes.{Writes};
ghost use Rattle.rb_view.specs.Rows.{cell_text, front_text, next_text, plain_cell, row_text, row, before};

use crate::rows::cell::Cell;
use crate::rows::plain::put_in_page;
use rb_script::{Sink, WriteFault};
use rb_text::put_pieces;

/// The place of a row.
#[derive(Clone, Copy, Debug, PartialEq, Eq)]
pub enum RowPlace {
    /// It is the first: the list begins before it.
    First,
    /// It follows another.
    Next,
}

// The text before a row, and the row up to its name.
fn opening(place: RowPlace) -> &'static [u8]
    ensures { result.now ≡ before place ++ codes "[\"" }
{
    match place {
        RowPlace::First => b"[[\"",
        RowPlace::Next => b",\n[\"",
    }
}

/// Writes a row of this name, with these cells.
pub fn put_row<S: Sink>(
    sink: &mut S,
    place: RowPlace,
    name: &[u8],
    cells: &[Cell<'_>],
) -> Result<(), WriteFault>
    ensures wrote { Writes result (S.held sink.old) (S.held sink.new) (before place ++ row_text (row name.now (map plain_cell cells.now))) }
    ensures all { S.takes_all sink.old → IsOk result × S.takes_all sink.new }
{
    put_front(sink, place, name)?;
    put_cells(sink, cells)?;
    sink.put(b"]")
}

/// Writes a row up to its name.
pub(crate) fn put_front<S: Sink>(
    sink: &mut S,
    place: RowPlace,
    name: &[u8],
) -> Result<(), WriteFault>
    ensures wrote { Writes result (S.held sink.old) (S.held sink.new) (before place ++ front_text name.now) }
    ensures all { S.takes_all sink.old → IsOk result × S.takes_all sink.new }
{
    sink.put(opening(place))?;
    put_in_page(sink, name)?;
    sink.put(b"\"")
}

/// Writes cells, each after a comma.
pub(crate) fn put_cells<S: Sink>(sink: &mut S, cells: &[Cell<'_>]) -> Result<(), WriteFault>
    ensures wrote { Writes result (S.held sink.old) (S.held sink.new) (flat_map cell_text (map plain_cell cells.now)) }
    ensures all { S.takes_all sink.old → IsOk result × S.takes_all sink.new }
{
    put_pieces(sink, cells)
}

/// Writes a row that follows another.
#[tactic(auto, unfolding(crate::specs::Rows::next_text))]
pub(crate) fn put_next<S: Sink>(
    sink: &mut S,
    name: &[u8],
    cells: &[Cell<'_>],
) -> Result<(), WriteFault>
    ensures wrote { Writes result (S.held sink.old) (S.held sink.new) (next_text (row name.now (map plain_cell cells.now))) }
    ensures all { S.takes_all sink.old → IsOk result × S.takes_all sink.new }
{
    put_row(sink, RowPlace::Next, name, cells)
}

/// Writes the text after the last row.
pub fn put_end<S: Sink>(sink: &mut S) -> Result<(), WriteFault>
    ensures wrote { Writes result (S.held sink.old) (S.held sink.new) (codes "]\n") }
    ensures all { S.takes_all sink.old → IsOk result × S.takes_all sink.new }
{
    sink.put(b"]\n")
}
