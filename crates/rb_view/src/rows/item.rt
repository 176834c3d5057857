//! The rows of items.

ghost use Rattle.std.specs.Prelude.{◌≡◌, ◌∷◌, ◌++◌, [], IsOk, codes};
ghost use Rattle.std.specs.List.{flat_map};
ghost use Rattle.rb_script.specs.Writes.{Writes};
ghost use Rattle.rb_texts.specs.Errors.{word_text};
ghost use Rattle.rb_texts.specs.Items.{plain_item};
ghost use Rattle.rb_view.specs.ItemRows.{entry_row, error_row, hard_row, item_rows};
ghost use Rattle.rb_view.specs.Rows.{next_text, number, row, text};

use crate::rows::cell::Cell;
use crate::rows::event::put_event;
use crate::rows::message::put_message;
use crate::rows::names::verb_name;
use crate::rows::row::put_next;
use rb_message::HardState;
use rb_raftlog::Entry;
use rb_script::{Sink, WriteFault};
use rb_texts::Item;
use rb_vocab::DirectiveError;

/// Writes the rows of an item: one if it happened, none if it shows a node's state.
#[tactic(auto, unfolding(crate::specs::ItemRows::item_rows))]
pub fn put_item<S: Sink>(sink: &mut S, item: &Item<'_>) -> Result<(), WriteFault>
    ensures wrote { Writes result (S.held sink.old) (S.held sink.new) (flat_map next_text (item_rows (plain_item item.now))) }
    ensures all { S.takes_all sink.old → IsOk result × S.takes_all sink.new }
{
    match item {
        Item::Ready(id) => put_number_row(sink, b"ready", *id),
        Item::HardState(hard) => put_hard(sink, hard),
        Item::Snapshot(term, index) => put_snapshot(sink, *term, *index),
        Item::Save(index, entry) => put_entry(sink, b"save", *index, entry),
        Item::Apply(index, entry) => put_entry(sink, b"apply", *index, entry),
        Item::Send(message) => put_message(sink, b"send", message),
        Item::NothingReady(id) => put_number_row(sink, b"nothing-ready", *id),
        Item::Moved(verb, message) => put_message(sink, verb_name(*verb), message),
        Item::NoMessages => put_next(sink, b"no-messages", &[]),
        Item::Stopped(rounds) => put_number_row(sink, b"stopped", *rounds),
        Item::Event(event) => put_event(sink, event),
        Item::Error(error) => put_error(sink, error),
        Item::NothingElse
        | Item::RaftState(_)
        | Item::RaftLog(_)
        | Item::Entry(_, _, _)
        | Item::Config(_)
        | Item::Progress(_, _) => Ok(()),
    }
}

// Writes a row of one number.
fn put_number_row<S: Sink>(sink: &mut S, name: &[u8], n: u64) -> Result<(), WriteFault>
    ensures wrote { Writes result (S.held sink.old) (S.held sink.new) (next_text (row name.now (number n ∷ []))) }
    ensures all { S.takes_all sink.old → IsOk result × S.takes_all sink.new }
{
    put_next(sink, name, &[Cell::Number(n)])
}

fn put_snapshot<S: Sink>(sink: &mut S, term: u64, index: u64) -> Result<(), WriteFault>
    ensures wrote { Writes result (S.held sink.old) (S.held sink.new) (next_text (row (codes "snapshot") (number term ∷ number index ∷ []))) }
    ensures all { S.takes_all sink.old → IsOk result × S.takes_all sink.new }
{
    put_next(
        sink,
        b"snapshot",
        &[Cell::Number(term), Cell::Number(index)],
    )
}

fn put_hard<S: Sink>(sink: &mut S, hard: &HardState) -> Result<(), WriteFault>
    ensures wrote { Writes result (S.held sink.old) (S.held sink.new) (next_text (hard_row hard.now)) }
    ensures all { S.takes_all sink.old → IsOk result × S.takes_all sink.new }
{
    let cells = [
        Cell::Number(hard.term),
        Cell::Number(hard.vote),
        Cell::Number(hard.commit),
    ];
    put_next(sink, b"hard", &cells)
}

/// Writes an entry at an index, as a row of this name.
pub(crate) fn put_entry<S: Sink>(
    sink: &mut S,
    name: &[u8],
    index: u64,
    entry: &Entry,
) -> Result<(), WriteFault>
    ensures wrote { Writes result (S.held sink.old) (S.held sink.new) (next_text (entry_row name.now index entry.now)) }
    ensures all { S.takes_all sink.old → IsOk result × S.takes_all sink.new }
{
    let cells = [
        Cell::Number(index),
        Cell::Number(entry.term),
        Cell::Body(&entry.body),
    ];
    put_next(sink, name, &cells)
}

// Writes why a directive is refused.
#[tactic(auto, unfolding(rb_texts::specs::Errors::error_text))]
fn put_error<S: Sink>(sink: &mut S, error: &DirectiveError<'_>) -> Result<(), WriteFault>
    ensures wrote { Writes result (S.held sink.old) (S.held sink.new) (next_text (error_row error.now)) }
    ensures all { S.takes_all sink.old → IsOk result × S.takes_all sink.new }
{
    match error {
        DirectiveError::UnknownDirective(name) => {
            put_quoting(sink, b"unknown directive ", name.bytes())
        }
        DirectiveError::UnsupportedOption(key) => {
            put_quoting(sink, b"unsupported option ", key.bytes())
        }
        DirectiveError::BadArgument(word) => put_quoting(sink, b"bad argument ", word.bytes()),
        DirectiveError::MissingArgument(name) => {
            put_quoting(sink, b"missing argument ", name.bytes())
        }
        DirectiveError::NoSuchNode(id) => {
            put_next(sink, b"error", &[Cell::Counting(b"no node ", *id)])
        }
        DirectiveError::TooManyNodes => put_sentence(sink, b"too many nodes"),
        DirectiveError::IndexTooLow => put_sentence(sink, b"index must be above 1"),
        DirectiveError::AlreadyCompacted => put_sentence(sink, b"already compacted"),
        DirectiveError::IndexPastApplied => put_sentence(sink, b"index past applied"),
        DirectiveError::BadChange(word) => put_quoting(sink, b"bad change ", word.bytes()),
        DirectiveError::FirstVersionTakesOne => {
            put_sentence(sink, b"v1 takes one change and no transition")
        }
    }
}

fn put_sentence<S: Sink>(sink: &mut S, sentence: &[u8]) -> Result<(), WriteFault>
    ensures wrote { Writes result (S.held sink.old) (S.held sink.new) (next_text (row (codes "error") (text sentence.now ∷ []))) }
    ensures all { S.takes_all sink.old → IsOk result × S.takes_all sink.new }
{
    put_next(sink, b"error", &[Cell::Text(sentence)])
}

fn put_quoting<'a, S: Sink>(sink: &mut S, front: &'a [u8], word: &'a [u8]) -> Result<(), WriteFault>
    ensures wrote { Writes result (S.held sink.old) (S.held sink.new) (next_text (row (codes "error") (text (front.now ++ word_text word.now) ∷ []))) }
    ensures all { S.takes_all sink.old → IsOk result × S.takes_all sink.new }
{
    put_next(sink, b"error", &[Cell::Quoting(front, word)])
}
