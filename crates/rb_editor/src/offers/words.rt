//! The words among the arguments of a head, which may be unfinished.

ghost use Rattle.std.specs.Prelude.{◌≡◌, ◌≤◌, if◌then◌else◌};
ghost use Rattle.rb_script.specs.declared.limits.TheConstants.{MAX_ARGUMENTS};
ghost use Rattle.rb_editor.specs.Words.{arguments_of, first_word, is_option, word_count, words_before};

use crate::offers::unfinished::{argument_at, begins, begins_space};
use rb_script::{ByteClass, MAX_ARGUMENTS};

/// Gives the bytes after the name of a head.
pub(crate) fn arguments_of(head: &[u8]) -> &[u8]
    ensures { result.now ≡ arguments_of head.now }
{
    ByteClass::Word.after(ByteClass::Space.after(head))
}

// Whether the argument at the front has a key.
fn is_option(bytes: &[u8]) -> bool
    ensures { result ≡ is_option bytes.now }
{
    begins(b'=', ByteClass::Word.after(bytes))
}

// Counts the argument at the front, if it is a word.
fn word_count(bytes: &[u8]) -> usize
    ensures value { result ≡ word_count bytes.now }
    ensures few { result ≤ 1 }
{
    if is_option(bytes) { 0 } else { 1 }
}

/// Finds the first word among these arguments, as far as it is written; an empty one if there is none.
pub(crate) fn first_word(bytes: &[u8]) -> &[u8]
    ensures { result.now ≡ first_word MAX_ARGUMENTS bytes.now }
{
    let mut left = bytes;
    for _ in 0..MAX_ARGUMENTS {
        if !begins_space(left) {
            return b"";
        }
        let argument = ByteClass::Space.after(left);
        if !is_option(argument) {
            return ByteClass::Word.front(argument);
        }
        match argument_at(argument) {
            Ok(rest) => left = rest,
            Err(_) => return b"",
        }
    }
    b""
}

/// Counts the words among these arguments before the one in which they end.
pub(crate) fn words_before(bytes: &[u8]) -> usize
    ensures { result ≡ words_before MAX_ARGUMENTS bytes.now }
{
    let mut left = bytes;
    let mut words = 0;
    for _ in 0..MAX_ARGUMENTS {
        if !begins_space(left) {
            return words;
        }
        let argument = ByteClass::Space.after(left);
        match argument_at(argument) {
            Ok(rest) => {
                words += word_count(argument);
                left = rest;
            }
            Err(_) => return words,
        }
    }
    words
}
