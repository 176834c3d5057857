//! Messages as rows.

ghost use Rattle.std.specs.Prelude.{◌≡◌, ◌++◌, IsOk, map};
ghost use Rattle.std.specs.List.{flat_map};
ghost use Rattle.rb_script.specs.Writes.{Writes};
ghost use Rattle.rb_view.specs.MessageRows.{field_text, flag, message_row, said};
ghost use Rattle.rb_view.specs.Rows.{cell_text, next_text, plain_cell, row};

use crate::rows::cell::Cell;
use crate::rows::row::{RowPlace, put_cells, put_front};
use rb_message::{Message, MessageKind};
use rb_script::{Sink, WriteFault};
use rb_texts::{MessageField, kind_fields};

/// 1 for yes, 0 for no.
pub fn flag(yes: bool) -> u64
    ensures { result ≡ flag yes }
{
    if yes { 1 } else { 0 }
}

/// Writes a message as a row of this name.
pub(crate) fn put_message<S: Sink>(
    sink: &mut S,
    name: &[u8],
    message: &Message,
) -> Result<(), WriteFault>
    ensures wrote { Writes result (S.held sink.old) (S.held sink.new) (next_text (message_row name.now message.now)) }
    ensures all { S.takes_all sink.old → IsOk result × S.takes_all sink.new }
{
    let cells = [
        Cell::Number(message.from),
        Cell::Number(message.to),
        Cell::Text(message.kind.message_type().text()),
        Cell::Number(message.term),
    ];
    put_said(sink, name, &cells, &message.kind)
}

// Writes the cells of a message's field.
fn put_field<S: Sink>(sink: &mut S, field: MessageField<'_>) -> Result<(), WriteFault>
    ensures wrote { Writes result (S.held sink.old) (S.held sink.new) (field_text field.entry) }
    ensures all { S.takes_all sink.old → IsOk result × S.takes_all sink.new }
{
    match field {
        MessageField::Nothing => put_cells(sink, &[]),
        MessageField::Number(_, n) => put_cells(sink, &[Cell::Number(n)]),
        MessageField::Place(_, term, index) => {
            put_cells(sink, &[Cell::Number(term), Cell::Number(index)])
        }
        MessageField::Answer(yes) | MessageField::Flag(_, yes) | MessageField::Refused(yes) => {
            put_cells(sink, &[Cell::Number(flag(yes))])
        }
        MessageField::Body(body) => put_cells(sink, &[Cell::Body(body)]),
    }
}

fn put_fields<S: Sink>(sink: &mut S, fields: &[MessageField<'_>]) -> Result<(), WriteFault>
    ensures wrote { Writes result (S.held sink.old) (S.held sink.new) (flat_map field_text fields.now) }
    ensures all { S.takes_all sink.old → IsOk result × S.takes_all sink.new }
{
    for field in fields {
        put_field(sink, *field)?;
    }
    Ok(())
}

// Writes the cells of what a message says.
fn put_kind<S: Sink>(sink: &mut S, kind: &MessageKind) -> Result<(), WriteFault>
    ensures wrote { Writes result (S.held sink.old) (S.held sink.new) (flat_map cell_text (said kind.now)) }
    ensures all { S.takes_all sink.old → IsOk result × S.takes_all sink.new }
{
    put_fields(sink, &kind_fields(kind))
}

// Writes a row with these cells, and a message's fields.
fn put_said<S: Sink>(
    sink: &mut S,
    name: &[u8],
    cells: &[Cell<'_>],
    kind: &MessageKind,
) -> Result<(), WriteFault>
    ensures wrote { Writes result (S.held sink.old) (S.held sink.new) (next_text (row name.now (map plain_cell cells.now ++ said kind.now))) }
    ensures all { S.takes_all sink.old → IsOk result × S.takes_all sink.new }
{
    put_front(sink, RowPlace::Next, name)?;
    put_cells(sink, cells)?;
    put_kind(sink, kind)?;
    sink.put(b"]")
}
