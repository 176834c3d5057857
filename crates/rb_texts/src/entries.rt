//! Entries of a log.
//!
//! An entry is named by its term and its index (Ongaro's thesis, section 3.5) and shown with what it brings: a payload in quotes, whole,
//! or a change of the configuration by its words, each a letter and an id.

ghost use Rattle.std.specs.Prelude.{◌≡◌, ◌++◌, codes, OnOk};
ghost use Rattle.std.specs.List.{flat_map};
ghost use Rattle.rb_texts.specs.Entries.{transition_text, letter, change_word, body_text, entry_text};

use crate::piece::{LinePiece, add_bytes, add_pieces, add_place, add_quoted};
use rb_raftlog::{Body, Entry};
use rb_script::LineText;
use rb_vocab::{Transition, Word, WordKind};
use std::alloc::AllocError;

/// The name of a transition.
pub fn transition_name(transition: Transition) -> &'static [u8]
    ensures { result.now ≡ transition_text transition }
{
    transition.text()
}

fn letter(kind: WordKind) -> &'static [u8]
    ensures { result.now ≡ letter kind }
{
    match kind {
        WordKind::Voter => b"v",
        WordKind::Learner => b"l",
        WordKind::Remove => b"r",
        WordKind::Update => b"u",
    }
}

fn add_word(line: &mut LineText, word: &Word) -> Result<(), AllocError>
    ensures { OnOk result (line.new ≡ line.old ++ change_word word.now) }
{
    let pieces = [
        LinePiece::Bytes(b" "),
        LinePiece::Bytes(letter(word.kind)),
        LinePiece::Number(word.id),
    ];
    add_pieces(line, &pieces)
}

fn add_words(line: &mut LineText, words: &[Word]) -> Result<(), AllocError>
    ensures { OnOk result (line.new ≡ line.old ++ flat_map change_word words.now) }
{
    for word in words {
        add_word(line, word)?;
    }
    Ok(())
}

fn add_change(line: &mut LineText, transition: Transition, words: &[Word]) -> Result<(), AllocError>
    ensures { OnOk result (line.new ≡ line.old ++ (codes "change " ++ transition_text transition ++ flat_map change_word words.now)) }
{
    let pieces = [
        LinePiece::Bytes(b"change "),
        LinePiece::Bytes(transition_name(transition)),
    ];
    add_pieces(line, &pieces)?;
    add_words(line, words)
}

#[tactic(auto, unfolding(crate::specs::Entries::body_text))]
pub(crate) fn add_body(line: &mut LineText, body: &Body) -> Result<(), AllocError>
    ensures { OnOk result (line.new ≡ line.old ++ body_text body.now) }
{
    match body {
        Body::Payload(bytes) => add_quoted(line, bytes.as_slice()),
        Body::Change { transition, words } => add_change(line, *transition, words.as_slice()),
    }
}

pub(crate) fn add_entry(line: &mut LineText, index: u64, entry: &Entry) -> Result<(), AllocError>
    ensures { OnOk result (line.new ≡ line.old ++ entry_text index entry.now) }
{
    add_place(line, entry.term, index)?;
    add_bytes(line, b" ")?;
    add_body(line, &entry.body)
}
