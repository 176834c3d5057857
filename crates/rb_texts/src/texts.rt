//! The line of each item.

ghost use Rattle.std.specs.Prelude.{◌≡◌, ◌++◌, codes, decimal, OnOk};
ghost use Rattle.rb_texts.specs.Entries.{entry_text, place_text};
ghost use Rattle.rb_texts.specs.Items.{plain_item};
ghost use Rattle.rb_texts.specs.Messages.{message_text, verb_text};
ghost use Rattle.rb_texts.specs.Texts.{line_of, is_event_shown, is_shown, item_text, unsaved_text};

use crate::configs::add_config;
use crate::entries::add_entry;
use crate::errors::add_error;
use crate::event_forms::event_form;
use crate::events::add_event;
use crate::item::{Item, Verb};
use crate::messages::{add_message, verb_name};
use crate::piece::{LinePiece, add_bytes, add_numbered, add_pieces, shown_if};
use crate::states::{add_hard_state, add_log, add_node, add_progress};
use rb_message::{Event, Message};
use rb_raftlog::Entry;
use rb_script::{LineText, Lines, WrittenLine};
use rb_vocab::Level;
use std::alloc::AllocError;

/// Adds the line of the item, or nothing where the level hides it. Where memory runs out, nothing is known of what
/// `lines` holds then: it is only good for being dropped.
pub fn put(lines: &mut Lines, level: Level, item: &Item<'_>) -> Result<(), AllocError>
    ensures { OnOk result (lines.new ≡ lines.old ++ line_of level (plain_item item.now)) }
{
    if !is_shown(level, item) {
        return Ok(());
    }
    lines.push_written(item)
}

impl WrittenLine for Item<'_> {
    ghost use Rattle.rb_texts.specs.Items.{plain_item};
    ghost use Rattle.rb_texts.specs.Texts.{item_text};

    ghost bytes = { λ item. item_text (plain_item item) };

    fn add_to(&self, text: &mut LineText) -> Result<(), AllocError> {
        add_item(text, self)
    }
}

fn is_event_shown(level: Level, event: &Event) -> bool
    ensures { result ≡ is_event_shown level event.now }
{
    let form = event_form(event);
    !form.is_hidden() && level.rank() <= form.level.rank()
}

/// Whether a level shows an item.
pub fn is_shown(level: Level, item: &Item<'_>) -> bool
    ensures { result ≡ is_shown level (plain_item item.now) }
{
    match item {
        Item::NothingElse | Item::Error(_) => true,
        Item::Event(event) => is_event_shown(level, event),
        _ => level.rank() <= Level::Fatal.rank(),
    }
}

// Adds a number between two texts.
fn add_counted<'a>(
    line: &mut LineText,
    before: &'a [u8],
    n: u64,
    after: &'a [u8],
) -> Result<(), AllocError>
    ensures { OnOk result (line.new ≡ line.old ++ (before.now ++ decimal n ++ after.now)) }
{
    add_pieces(
        line,
        &[LinePiece::Field(before, n), LinePiece::Bytes(after)],
    )
}

fn add_snapshot(line: &mut LineText, term: u64, index: u64) -> Result<(), AllocError>
    ensures { OnOk result (line.new ≡ line.old ++ (codes "  snapshot " ++ place_text term index)) }
{
    add_pieces(
        line,
        &[
            LinePiece::Bytes(b"  snapshot "),
            LinePiece::Place(term, index),
        ],
    )
}

// Adds a text, and an entry.
fn add_entry_after<'a>(
    line: &mut LineText,
    text: &'a [u8],
    index: u64,
    entry: &'a Entry,
) -> Result<(), AllocError>
    ensures { OnOk result (line.new ≡ line.old ++ (text.now ++ entry_text index entry.now)) }
{
    add_bytes(line, text)?;
    add_entry(line, index, entry)
}

// Adds an entry of a log, with a mark if it isn't durable.
fn add_log_entry(
    line: &mut LineText,
    index: u64,
    entry: &Entry,
    unsaved: bool,
) -> Result<(), AllocError>
    ensures { OnOk result (line.new ≡ line.old ++ (entry_text index entry.now ++ unsaved_text unsaved)) }
{
    add_entry(line, index, entry)?;
    add_bytes(line, shown_if(unsaved, b" unsaved"))
}

// Adds a text, and a message.
fn add_message_after<'a>(
    line: &mut LineText,
    text: &'a [u8],
    message: &'a Message,
) -> Result<(), AllocError>
    ensures { OnOk result (line.new ≡ line.old ++ (text.now ++ message_text message.now)) }
{
    add_bytes(line, text)?;
    add_message(line, message)
}

fn add_moved(line: &mut LineText, verb: Verb, message: &Message) -> Result<(), AllocError>
    ensures { OnOk result (line.new ≡ line.old ++ (verb_text verb ++ message_text message.now)) }
{
    add_message_after(line, verb_name(verb), message)
}

#[tactic(auto, unfolding(crate::specs::Texts::item_text))]
fn add_item(line: &mut LineText, item: &Item<'_>) -> Result<(), AllocError>
    ensures { OnOk result (line.new ≡ line.old ++ item_text (plain_item item.now)) }
{
    match item {
        Item::NothingElse => add_bytes(line, b"ok"),
        Item::Ready(id) => add_numbered(line, *id, b" ready"),
        Item::HardState(hard) => add_hard_state(line, hard),
        Item::Snapshot(term, index) => add_snapshot(line, *term, *index),
        Item::Save(index, entry) => add_entry_after(line, b"  save ", *index, entry),
        Item::Apply(index, entry) => add_entry_after(line, b"  apply ", *index, entry),
        Item::Send(message) => add_message_after(line, b"  send ", message),
        Item::NothingReady(id) => add_numbered(line, *id, b" has nothing ready"),
        Item::Moved(verb, message) => add_moved(line, *verb, message),
        Item::NoMessages => add_bytes(line, b"no messages"),
        Item::Stopped(rounds) => add_counted(line, b"stopped after ", *rounds, b" rounds"),
        Item::RaftState(node) => add_node(line, node),
        Item::RaftLog(log) => add_log(line, log),
        Item::Entry(index, entry, unsaved) => add_log_entry(line, *index, entry, *unsaved),
        Item::Config(config) => add_config(line, config),
        Item::Progress(id, view) => add_progress(line, *id, view),
        Item::Event(event) => add_event(line, event),
        Item::Error(error) => add_error(line, error),
    }
}
