//! Items as objects of JSON.

ghost use Rattle.std.specs.Prelude.{◌≡◌, ◌++◌, ◌∷◌, [], codes, drop, IfOk, OnOk, MatchOption, None, Some};
ghost use Rattle.rb_vocab.specs.MessageTypes.{type_text};
ghost use Rattle.rb_message.specs.Messages.{type_of};
ghost use Rattle.rb_texts.specs.Items.{plain_item};
ghost use Rattle.rb_texts.specs.Texts as texts;
ghost use Rattle.rb_view.specs.ItemRows as rows;
ghost use Rattle.rb_view.specs.Objects.{about, first_object, front, kind_members, message_members, message_of, moved_node, node_member, node_of, number_member, object, reason_member, row_member, said, text_member, way_members};

use crate::rows::{keep_item, past, reason_line};
use rb_message::Message;
use rb_script::Lines;
use rb_text::{Json, Piece, add_pieces};
use rb_texts::{Item, Reason, Verb, reason_front, reason_of};
use std::alloc::{AllocError, Global};

// Most objects are shorter, and one that is longer takes more room.
const ROOM: usize = 200;

// The text before a row in a page: a comma and a line end.
const ROW_FRONT: usize = 2;

// ---- the node and the message of an item

fn moved_node(verb: Verb, message: &Message) -> u64
    ensures { result ≡ moved_node verb message.now }
{
    match verb {
        Verb::Deliver => message.to,
        Verb::Drop => 0,
        Verb::Queue | Verb::NoRoomFor => message.from,
    }
}

/// The node of an item, if this node's ready is shown; 0 for none.
#[tactic(auto, unfolding(crate::specs::Objects::node_of))]
pub(crate) fn node_of(ready: u64, item: &Item<'_>) -> u64
    ensures { result ≡ node_of ready (plain_item item.now) }
{
    match item {
        Item::Ready(id) | Item::NothingReady(id) => *id,
        Item::HardState(_) | Item::Snapshot(_, _) | Item::Save(_, _) | Item::Apply(_, _) => ready,
        Item::Send(message) => message.from,
        Item::Moved(verb, message) => moved_node(*verb, message),
        Item::RaftState(node) => node.id,
        Item::Event(event) => event.id,
        Item::NothingElse
        | Item::NoMessages
        | Item::Stopped(_)
        | Item::RaftLog(_)
        | Item::Entry(_, _, _)
        | Item::Config(_)
        | Item::Progress(_, _)
        | Item::Error(_) => 0,
    }
}

// The message that an item is about.
fn message_of<'a>(item: &'a Item<'_>) -> Option<&'a Message>
    ensures { MatchOption result (message_of (plain_item item.now) ≡ None) (λ m. message_of (plain_item item.now) ≡ Some m.now) }
{
    match item {
        Item::Send(message) => Some(message),
        Item::Moved(_, message) => Some(message),
        _ => None,
    }
}

// ---- members

fn add_number(text: &mut Vec<u8>, name: &[u8], n: u64) -> Result<(), AllocError>
    ensures { OnOk result (text.new.items ≡ text.old.items ++ number_member name.now n) }
{
    let pieces = [
        Piece::Bytes(b",\""),
        Piece::Bytes(name),
        Piece::Bytes(b"\":"),
        Piece::Number(n),
    ];
    add_pieces(text, &pieces)
}

fn add_text<'a>(text: &mut Vec<u8>, name: &'a [u8], bytes: &'a [u8]) -> Result<(), AllocError>
    ensures { OnOk result (text.new.items ≡ text.old.items ++ text_member name.now bytes.now) }
{
    let pieces = [
        Piece::Bytes(b",\""),
        Piece::Bytes(name),
        Piece::Bytes(b"\":\""),
        Piece::Escaped(Json::Page, bytes),
        Piece::Bytes(b"\""),
    ];
    add_pieces(text, &pieces)
}

fn add_node(text: &mut Vec<u8>, node: u64) -> Result<(), AllocError>
    ensures { OnOk result (text.new.items ≡ text.old.items ++ node_member node) }
{
    if node == 0 {
        return Ok(());
    }
    add_number(text, b"node", node)
}

fn add_type(text: &mut Vec<u8>, message: &Message) -> Result<(), AllocError>
    ensures { OnOk result (text.new.items ≡ text.old.items ++ text_member (codes "type") (type_text (type_of message.now.kind))) }
{
    add_text(text, b"type", message.kind.message_type().text())
}

fn add_kind(text: &mut Vec<u8>, number: u64, message: &Message) -> Result<(), AllocError>
    ensures { OnOk result (text.new.items ≡ text.old.items ++ kind_members number message.now) }
{
    add_number(text, b"message", number)?;
    add_type(text, message)
}

fn add_way(text: &mut Vec<u8>, message: &Message) -> Result<(), AllocError>
    ensures { OnOk result (text.new.items ≡ text.old.items ++ way_members message.now) }
{
    add_number(text, b"from", message.from)?;
    add_number(text, b"to", message.to)?;
    add_number(text, b"term", message.term)
}

fn add_message(text: &mut Vec<u8>, number: u64, message: &Message) -> Result<(), AllocError>
    ensures { OnOk result (text.new.items ≡ text.old.items ++ message_members number (Some message.now)) }
{
    add_kind(text, number, message)?;
    add_way(text, message)
}

fn add_message_of(text: &mut Vec<u8>, number: u64, item: &Item<'_>) -> Result<(), AllocError>
    ensures { OnOk result (text.new.items ≡ text.old.items ++ message_members number (message_of (plain_item item.now))) }
{
    match message_of(item) {
        Some(message) => add_message(text, number, message),
        None => Ok(()),
    }
}

// The line of an item, whatever its level is.
fn line_of(alloc: Global, item: &Item<'_>) -> Result<Lines, AllocError>
    ensures { IfOk result (λ lines. lines ≡ texts.item_text (plain_item item.now) ∷ []) }
{
    let mut lines = Lines::new(alloc);
    lines.push_written(item)?;
    Ok(lines)
}

fn add_line(alloc: Global, text: &mut Vec<u8>, item: &Item<'_>) -> Result<(), AllocError>
    ensures { OnOk result (text.new.items ≡ text.old.items ++ text_member (codes "text") (texts.item_text (plain_item item.now))) }
{
    let lines = line_of(alloc, item)?;
    add_text(text, b"text", lines.line(0))
}

fn add_reason(alloc: Global, text: &mut Vec<u8>, reason: Option<Reason>) -> Result<(), AllocError>
    ensures { OnOk result (text.new.items ≡ text.old.items ++ reason_member reason) }
{
    match reason {
        Some(reason) => {
            let lines = reason_line(alloc, &reason)?;
            add_text(text, b"reason", past(lines.line(0), reason_front(&reason)))
        }
        None => Ok(()),
    }
}

// The text of an item's row.
fn row_of(alloc: Global, item: &Item<'_>) -> Result<Lines, AllocError>
    ensures { IfOk result (λ lines. lines ≡ rows.item_text (plain_item item.now) ∷ []) }
{
    let mut lines = Lines::new(alloc);
    keep_item(&mut lines, item)?;
    Ok(lines)
}

fn add_row_text(text: &mut Vec<u8>, row: &[u8]) -> Result<(), AllocError>
    ensures { OnOk result (text.new.items ≡ text.old.items ++ row_member row.now) }
{
    if row.is_empty() {
        return Ok(());
    }
    let pieces = [
        Piece::Bytes(b",\"row\":"),
        Piece::Bytes(past(row, ROW_FRONT)),
    ];
    add_pieces(text, &pieces)
}

fn add_row(alloc: Global, text: &mut Vec<u8>, item: &Item<'_>) -> Result<(), AllocError>
    ensures { OnOk result (text.new.items ≡ text.old.items ++ row_member (rows.item_text (plain_item item.now))) }
{
    let lines = row_of(alloc, item)?;
    add_row_text(text, lines.line(0))
}

// ---- objects

/// The place of a directive: its number in the script, from 1, and the line of its head.
#[derive(Clone, Copy)]
pub(crate) struct Standing {
    pub(crate) place: u64,
    pub(crate) line: u64,
}

fn add_front(text: &mut Vec<u8>, at: Standing) -> Result<(), AllocError>
    ensures { OnOk result (text.new.items ≡ text.old.items ++ front at.place at.line) }
{
    let pieces = [Piece::Bytes(b"{\"directive\":"), Piece::Number(at.place)];
    add_pieces(text, &pieces)?;
    add_number(text, b"line", at.line)
}

fn add_about(
    text: &mut Vec<u8>,
    at: Standing,
    node: u64,
    number: u64,
    item: &Item<'_>,
) -> Result<(), AllocError>
    ensures { OnOk result (text.new.items ≡ text.old.items ++ about at.place at.line node number (plain_item item.now)) }
{
    add_front(text, at)?;
    add_node(text, node)?;
    add_message_of(text, number, item)
}

fn add_said(alloc: Global, text: &mut Vec<u8>, item: &Item<'_>) -> Result<(), AllocError>
    ensures { OnOk result (text.new.items ≡ text.old.items ++ said (plain_item item.now)) }
{
    add_line(alloc, text, item)?;
    add_reason(alloc, text, reason_of(item)?)?;
    add_row(alloc, text, item)
}

/// The object of an item, at a directive that is there: it is of this node, and its message has this number.
pub(crate) fn object(
    alloc: Global,
    at: Standing,
    node: u64,
    number: u64,
    item: &Item<'_>,
) -> Result<Vec<u8>, AllocError>
    ensures { IfOk result (λ text. text.items ≡ object at.place at.line node number (plain_item item.now)) }
{
    let mut text = Vec::with_capacity(alloc, ROOM)?;
    add_about(&mut text, at, node, number, item)?;
    add_said(alloc, &mut text, item)?;
    add_pieces(&mut text, &[Piece::Bytes(b"}")])?;
    Ok(text)
}

/// The first object, which names the format and the script.
pub(crate) fn first_object(alloc: Global, format: u64, name: &[u8]) -> Result<Vec<u8>, AllocError>
    ensures { IfOk result (λ text. text.items ≡ first_object format name.now) }
{
    let mut text = Vec::with_capacity(alloc, ROOM)?;
    add_pieces(&mut text, &[Piece::Bytes(b"{\"raftbench\":\"trace\"")])?;
    add_number(&mut text, b"format", format)?;
    add_text(&mut text, b"script", name)?;
    add_pieces(&mut text, &[Piece::Bytes(b"}")])?;
    Ok(text)
}
