//! Rows in memory: texts, of which each is that of one row or more, with what is before it in a list.

ghost use Rattle.std.specs.Prelude.{◌≡◌, ◌++◌, ◌∷◌, [], IfOk, IsOk, OnOk, map};
ghost use Rattle.rb_script.specs.Writes.{Writes};
ghost use Rattle.rb_texts.specs.Items.{plain_item};
ghost use Rattle.rb_view.specs.ItemRows.{item_text};
ghost use Rattle.rb_view.specs.Kept.{joined, line_rows, texts_of};
ghost use Rattle.rb_view.specs.Rows.{next_text, plain_cell, row};

use crate::rows::cell::Cell;
use crate::rows::item::put_item;
use crate::rows::row::put_next;
use rb_script::{Lines, Sink, WriteFault};
use rb_texts::Item;
use std::alloc::AllocError;

// Nearly all rows are shorter, and one that is longer takes more room.
const ROOM: usize = 100;

// A text in memory.
#[derive(Drop)]
struct RowBytes {
    bytes: Vec<u8>,
}

impl Sink for RowBytes {
    ghost use Rattle.std.specs.Prelude.{Some};

    ghost held = { λ t. Some t.bytes.items };

    ghost takes_all = { λ _. ⊥ };

    fn put(&mut self, bytes: &[u8]) -> Result<(), WriteFault> {
        match self.bytes.extend_from_slice(bytes) {
            Ok(()) => Ok(()),
            Err(_) => Err(WriteFault),
        }
    }
}

// The text of an item's rows.
#[tactic(auto, unfolding(crate::specs::ItemRows::item_text))]
fn text_of_item(lines: &Lines, item: &Item<'_>) -> Result<Vec<u8>, AllocError>
    ensures { IfOk result (λ text. text.items ≡ item_text (plain_item item.now)) }
{
    let mut sink = RowBytes {
        bytes: lines.new_text(ROOM)?,
    };
    match put_item(&mut sink, item) {
        Ok(()) => Ok(sink.bytes),
        Err(_) => Err(AllocError),
    }
}

/// Adds the text of an item's rows, as one. If memory is refused, the contents of `texts` are unknown.
pub fn keep_item(texts: &mut Lines, item: &Item<'_>) -> Result<(), AllocError>
    ensures { OnOk result (texts.new ≡ texts.old ++ item_text (plain_item item.now) ∷ []) }
{
    let text = text_of_item(texts, item)?;
    texts.push(text.as_slice())
}

// The text of a row that follows another.
fn text_of_row(lines: &Lines, name: &[u8], cells: &[Cell<'_>]) -> Result<Vec<u8>, AllocError>
    ensures { IfOk result (λ text. text.items ≡ next_text (row name.now (map plain_cell cells.now))) }
{
    let mut sink = RowBytes {
        bytes: lines.new_text(ROOM)?,
    };
    match put_next(&mut sink, name, cells) {
        Ok(()) => Ok(sink.bytes),
        Err(_) => Err(AllocError),
    }
}

/// Adds the text of a row that follows another. If memory is refused, the contents of `texts` are unknown.
pub fn keep_row(texts: &mut Lines, name: &[u8], cells: &[Cell<'_>]) -> Result<(), AllocError>
    ensures { OnOk result (texts.new ≡ texts.old ++ next_text (row name.now (map plain_cell cells.now)) ∷ []) }
{
    let text = text_of_row(texts, name, cells)?;
    texts.push(text.as_slice())
}

/// Adds a row of this name for each line.
pub fn keep_lines(texts: &mut Lines, name: &[u8], lines: &Lines) -> Result<(), AllocError>
    ensures { OnOk result (texts.new ≡ texts.old ++ texts_of (line_rows name.now lines.now)) }
{
    for i in 0..lines.len() {
        keep_row(texts, name, &[Cell::Text(lines.line(i))])?;
    }
    Ok(())
}

/// Adds other texts.
pub fn keep_texts(texts: &mut Lines, more: &Lines) -> Result<(), AllocError>
    ensures { OnOk result (texts.new ≡ texts.old ++ more.now) }
{
    for i in 0..more.len() {
        texts.push(more.line(i))?;
    }
    Ok(())
}

/// Writes texts, one after the other.
pub fn put_texts<S: Sink>(sink: &mut S, texts: &Lines) -> Result<(), WriteFault>
    ensures wrote { Writes result (S.held sink.old) (S.held sink.new) (joined texts.now) }
    ensures all { S.takes_all sink.old → IsOk result × S.takes_all sink.new }
{
    for i in 0..texts.len() {
        sink.put(texts.line(i))?;
    }
    Ok(())
}
