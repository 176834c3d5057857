//! The rows of a node's events.

ghost use Rattle.std.specs.Prelude.{IsOk};
ghost use Rattle.std.specs.List.{flat_map};
ghost use Rattle.rb_script.specs.Writes.{Writes};
ghost use Rattle.rb_texts.specs.EventForms.{plain_pieces};
ghost use Rattle.rb_view.specs.EventRows.{event_rows, given_text, value_cells};
ghost use Rattle.rb_view.specs.Rows.{cell_text, next_text};

use crate::rows::cell::Cell;
use crate::rows::message::flag;
use crate::rows::row::{RowPlace, put_cells, put_front};
use rb_message::Event;
use rb_script::{Sink, WriteFault};
use rb_texts::{EventPiece, EventPieces, EventShown, event_form};

/// Writes the row of an event, unless its form has none.
#[tactic(auto, unfolding(crate::specs::EventRows::event_rows, crate::specs::Rows::next_text))]
pub(crate) fn put_event<S: Sink>(sink: &mut S, event: &Event) -> Result<(), WriteFault>
    ensures wrote { Writes result (S.held sink.old) (S.held sink.new) (flat_map next_text (event_rows event.now)) }
    ensures all { S.takes_all sink.old → IsOk result × S.takes_all sink.new }
{
    let form = event_form(event);
    if form.is_hidden() {
        return Ok(());
    }
    put_front(sink, RowPlace::Next, form.name)?;
    put_cells(sink, &[Cell::Number(event.id)])?;
    put_values(sink, form.shown, &form.pieces)?;
    sink.put(b"]")
}

// Writes the value of a piece.
fn put_value<S: Sink>(sink: &mut S, piece: EventPiece<'_>) -> Result<(), WriteFault>
    ensures wrote { Writes result (S.held sink.old) (S.held sink.new) (given_text piece.entry) }
    ensures all { S.takes_all sink.old → IsOk result × S.takes_all sink.new }
{
    match piece {
        EventPiece::Words(_) => Ok(()),
        EventPiece::Number(_, n) => put_cells(sink, &[Cell::Number(n)]),
        EventPiece::Place(_, first, second) | EventPiece::Range(_, first, second) => {
            put_cells(sink, &[Cell::Number(first), Cell::Number(second)])
        }
        EventPiece::Name(_, name) => put_cells(sink, &[Cell::Text(name)]),
        EventPiece::Answer(_, granted) => put_cells(sink, &[Cell::Number(flag(granted))]),
        EventPiece::Config(_, config) => put_cells(sink, &[Cell::Config(config)]),
    }
}

fn put_each<S: Sink>(sink: &mut S, pieces: &[EventPiece<'_>]) -> Result<(), WriteFault>
    ensures wrote { Writes result (S.held sink.old) (S.held sink.new) (flat_map given_text pieces.now) }
    ensures all { S.takes_all sink.old → IsOk result × S.takes_all sink.new }
{
    for piece in pieces {
        put_value(sink, *piece)?;
    }
    Ok(())
}

// Writes the cells after the node.
fn put_values<S: Sink>(
    sink: &mut S,
    shown: EventShown,
    pieces: &EventPieces<'_>,
) -> Result<(), WriteFault>
    ensures wrote { Writes result (S.held sink.old) (S.held sink.new) (flat_map cell_text (value_cells shown (plain_pieces pieces.now))) }
    ensures all { S.takes_all sink.old → IsOk result × S.takes_all sink.new }
{
    match shown {
        EventShown::Values => put_each(sink, pieces.as_slice()),
        EventShown::Nothing | EventShown::Node => Ok(()),
    }
}
