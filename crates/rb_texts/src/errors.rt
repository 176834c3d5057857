//! Errors of directives.
//!
//! An error quotes the first bytes of the word that is wrong.

ghost use Rattle.std.specs.Prelude.{◌≡◌, ◌++◌, OnOk};
ghost use Rattle.rb_texts.specs.Errors.{error_text, word_text};

use crate::piece::{LinePiece, add_bytes, add_pieces};
use rb_script::LineText;
use rb_vocab::DirectiveError;
use std::alloc::AllocError;

// How many bytes of a word an error shows.
const WORD_SHOWN: usize = 64;

#[tactic(auto, unfolding(crate::specs::Errors::error_text))]
pub(crate) fn add_error(line: &mut LineText, error: &DirectiveError<'_>) -> Result<(), AllocError>
    ensures { OnOk result (line.new ≡ line.old ++ error_text error.now) }
{
    match error {
        DirectiveError::UnknownDirective(name) => {
            add_word(line, b"error: unknown directive ", name.bytes())
        }
        DirectiveError::UnsupportedOption(key) => {
            add_word(line, b"error: unsupported option ", key.bytes())
        }
        DirectiveError::BadArgument(word) => {
            add_word(line, b"error: bad argument ", word.bytes())
        }
        DirectiveError::MissingArgument(name) => {
            add_word(line, b"error: missing argument ", name.bytes())
        }
        DirectiveError::NoSuchNode(id) => {
            add_pieces(line, &[LinePiece::Field(b"error: no node ", *id)])
        }
        DirectiveError::TooManyNodes => add_bytes(line, b"error: too many nodes"),
        DirectiveError::IndexTooLow => add_bytes(line, b"error: index must be above 1"),
        DirectiveError::AlreadyCompacted => add_bytes(line, b"error: already compacted"),
        DirectiveError::IndexPastApplied => add_bytes(line, b"error: index past applied"),
        DirectiveError::BadChange(word) => add_word(line, b"error: bad change ", word.bytes()),
        DirectiveError::FirstVersionTakesOne => {
            add_bytes(line, b"error: v1 takes one change and no transition")
        }
    }
}

// Adds a text, and the first bytes of a word in quotes.
fn add_word<'a>(line: &mut LineText, text: &'a [u8], word: &'a [u8]) -> Result<(), AllocError>
    ensures { OnOk result (line.new ≡ line.old ++ (text.now ++ word_text word.now)) }
{
    let shown = &word[..word.len().min(WORD_SHOWN)];
    add_pieces(line, &[LinePiece::Bytes(text), LinePiece::Quoted(shown)])
}
