//! Messages in few words: the type, the term, and their most important fields.

use crate::chart::measure::cut;
use crate::chart::painting::fitted;
use crate::chart::sentence::{sentence, with_line, with_one, with_two};
use crate::chart::sizes::MOST_LABEL;
use rb_message::{Append, Message, MessageKind};
use rb_text::{Piece, add_pieces};
use rb_texts::{Item, MessageField, kind_fields};
use rb_vocab::MessageType;
use std::alloc::{AllocError, Global};

/// The name of a type, without the prefix that all of them have.
pub(crate) fn short_name(message_type: MessageType) -> &'static [u8] {
    let name = message_type.text();
    name.strip_prefix(b"Msg".as_slice()).unwrap_or(name)
}

// The name of a field as a word.
fn word(name: &[u8]) -> &[u8] {
    name.strip_suffix(b"=".as_slice()).unwrap_or(name)
}

// Adds a field, with this text before a number that follows another.
fn add_field<'a>(
    text: &mut Vec<u8>,
    comma: &'a [u8],
    field: MessageField<'a>,
) -> Result<(), AllocError> {
    match field {
        MessageField::Number(name, n) => {
            let pieces = [
                Piece::Bytes(comma),
                Piece::Bytes(word(name)),
                Piece::Bytes(b" "),
                Piece::Number(n),
            ];
            add_pieces(text, &pieces)
        }
        MessageField::Place(name, term, index) => {
            let pieces = [
                Piece::Bytes(comma),
                Piece::Bytes(word(name)),
                Piece::Bytes(b" "),
                Piece::Number(term),
                Piece::Bytes(b"/"),
                Piece::Number(index),
            ];
            add_pieces(text, &pieces)
        }
        MessageField::Answer(true) => add_pieces(text, &[Piece::Bytes(b" granted")]),
        MessageField::Answer(false) => add_pieces(text, &[Piece::Bytes(b" refused")]),
        MessageField::Flag(shown, true) => add_pieces(text, &[Piece::Bytes(shown)]),
        _ => Ok(()),
    }
}

// A name, and fields after it.
fn field_words(
    alloc: Global,
    name: &[u8],
    fields: &[MessageField<'_>],
) -> Result<Vec<u8>, AllocError> {
    let mut text = sentence(alloc, &[Piece::Bytes(name)])?;
    let mut comma: &[u8] = b"";
    for field in fields {
        add_field(&mut text, comma, *field)?;
        if let MessageField::Number(..) | MessageField::Place(..) = field {
            comma = b",";
        }
    }
    Ok(text)
}

fn append_words(alloc: Global, name: &[u8], append: &Append) -> Result<Vec<u8>, AllocError> {
    let count = append.entries().len();
    if count == 0 {
        return with_one(alloc, name, b" commit ", append.commit());
    }
    let pieces = [
        Piece::Bytes(name),
        Piece::Bytes(b" +"),
        Piece::Number(count as u64),
        Piece::Bytes(b" after "),
        Piece::Number(append.prev_term()),
        Piece::Bytes(b"/"),
        Piece::Number(append.prev()),
    ];
    sentence(alloc, &pieces)
}

// The fields of a message, after its name. Appends and proposals show fewer, and a snapshot and a transfer of leadership other words.
fn words_behind(alloc: Global, message: &Message, name: &[u8]) -> Result<Vec<u8>, AllocError> {
    match &message.kind {
        MessageKind::Append(append) => append_words(alloc, name, append),
        MessageKind::Snapshot(install) => {
            let snapshot = install.snapshot();
            with_two(alloc, name, b" ", snapshot.term, b"/", snapshot.index)
        }
        MessageKind::Proposal(_) => with_line(
            alloc,
            &[Piece::Bytes(name), Piece::Bytes(b" ")],
            &Item::Send(message),
            b"MsgProp ",
        ),
        MessageKind::TransferLeader { target } => with_one(alloc, name, b" to ", *target),
        kind => field_words(alloc, name, &kind_fields(kind)),
    }
}

/// A message's type, its term if it has one, and its most important fields.
pub(crate) fn message_words(alloc: Global, message: &Message) -> Result<Vec<u8>, AllocError> {
    let name = short_name(message.kind.message_type());
    if message.term == 0 {
        return words_behind(alloc, message, name);
    }
    let name = with_one(alloc, name, b" t", message.term)?;
    words_behind(alloc, message, name.as_slice())
}

/// The part of these words that fits at its arrow: without the term if there is no room for it.
pub(crate) fn label_words(
    alloc: Global,
    message: &Message,
    words: &[u8],
) -> Result<Vec<u8>, AllocError> {
    if cut(words, MOST_LABEL).is_none() {
        return Vec::from_slice(alloc, words);
    }
    let words = words_behind(alloc, message, short_name(message.kind.message_type()))?;
    fitted(alloc, words.as_slice(), MOST_LABEL)
}

/// The receiver of a message, before its label.
pub(crate) fn aim_words(alloc: Global, message: &Message) -> Result<Vec<u8>, AllocError> {
    let pieces = [
        Piece::Bytes("→".as_bytes()),
        Piece::Number(message.to),
        Piece::Bytes(b" "),
    ];
    sentence(alloc, &pieces)
}
