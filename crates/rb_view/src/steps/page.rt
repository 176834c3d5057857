//! A page.

ghost use Rattle.std.specs.Prelude.{◌++◌, IsOk};
ghost use Rattle.rb_script.specs.Writes.{Writes};
ghost use Rattle.rb_view.specs.Pages.{page_joined, rows_joined};

use crate::rows::{Cell, RowPlace, put_end, put_row, put_texts};
use rb_script::{Lines, Sink, WriteFault};
use rb_text::put_pieces;

/// The format of the rows.
pub const FORMAT: u64 = 2;

/// The parts of a page before the text of the steps, and those after it.
#[derive(Clone, Copy)]
pub struct Frame<'a> {
    pub front: &'a [&'a [u8]],
    pub back: &'a [&'a [u8]],
}

/// Writes the text of the steps that these rows are, of a script of this name. Takes no memory. On a failure what was written is a
/// beginning of the text.
pub fn put_steps<S: Sink>(sink: &mut S, name: &[u8], steps: &Lines) -> Result<(), WriteFault>
    ensures wrote { Writes result (S.held sink.old) (S.held sink.new) (rows_joined name.now steps.now) }
    ensures all { S.takes_all sink.old → IsOk result × S.takes_all sink.new }
{
    put_row(
        sink,
        RowPlace::First,
        b"raftbench",
        &[Cell::Number(FORMAT), Cell::Text(name)],
    )?;
    put_texts(sink, steps)?;
    put_end(sink)
}

/// Writes a page of them.
pub fn put_page<S: Sink>(
    sink: &mut S,
    frame: Frame<'_>,
    name: &[u8],
    steps: &Lines,
) -> Result<(), WriteFault>
    ensures wrote { Writes result (S.held sink.old) (S.held sink.new) (page_joined frame.entry.front.now frame.entry.back.now name.now steps.now) }
    ensures all { S.takes_all sink.old → IsOk result × S.takes_all sink.new }
{
    put_pieces(sink, frame.front)?;
    put_steps(sink, name, steps)?;
    put_pieces(sink, frame.back)
}
