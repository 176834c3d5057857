//! Messages.
//!
//! A message shows its sender and receiver, etcd raft's name of its type, its term if it has one, and its fields. An append shows the
//! number of its entries, and a snapshot its term and index.

ghost use Rattle.std.specs.Prelude.{◌≡◌, ◌++◌, codes, decimal, OnOk};
ghost use Rattle.rb_texts.specs.Messages.{answer_text, kind_text, term_text, message_text, verb_text};

use crate::fields::{add_fields, kind_fields};
use crate::item::Verb;
use crate::piece::{add_bytes, add_field, add_numbered};
use rb_message::{Message, MessageKind};
use rb_script::LineText;
use std::alloc::AllocError;

pub(crate) fn answer_name(granted: bool) -> &'static [u8]
    ensures { result.now ≡ answer_text granted }
{
    if granted { b"granted" } else { b"refused" }
}

pub(crate) fn verb_name(verb: Verb) -> &'static [u8]
    ensures { result.now ≡ verb_text verb }
{
    match verb {
        Verb::Deliver => b"deliver ",
        Verb::Drop => b"drop ",
        Verb::Queue => b"queue ",
        Verb::NoRoomFor => b"no room for ",
    }
}

// Adds what a message says.
fn add_kind(line: &mut LineText, kind: &MessageKind) -> Result<(), AllocError>
    ensures { OnOk result (line.new ≡ line.old ++ kind_text kind.now) }
{
    add_fields(line, &kind_fields(kind))
}

// Adds the term, but of a message that is of no term.
fn add_term(line: &mut LineText, message: &Message) -> Result<(), AllocError>
    ensures { OnOk result (line.new ≡ line.old ++ term_text message.now) }
{
    if !message.kind.has_term() {
        return Ok(());
    }
    add_field(line, b" term=", message.term)
}

// Adds who sent a message to whom.
fn add_way(line: &mut LineText, from: u64, to: u64) -> Result<(), AllocError>
    ensures { OnOk result (line.new ≡ line.old ++ (decimal from ++ codes "->" ++ decimal to ++ codes " ")) }
{
    add_numbered(line, from, b"->")?;
    add_numbered(line, to, b" ")
}

pub(crate) fn add_message(line: &mut LineText, message: &Message) -> Result<(), AllocError>
    ensures { OnOk result (line.new ≡ line.old ++ message_text message.now) }
{
    add_way(line, message.from, message.to)?;
    add_bytes(line, message.kind.message_type().text())?;
    add_term(line, message)?;
    add_kind(line, &message.kind)
}
