//! The parts of a cell's text.
//!
//! A text that is made of several values, as a configuration is, needs no memory of its own: its parts go out one after another, each as
//! it is between quotes.

ghost use Rattle.std.specs.Prelude.{◌≡◌, ◌++◌, ℕ, List, IsOk, codes, decimal};
ghost use Rattle.std.specs.List.{flat_map};
ghost use Rattle.rb_script.specs.Writes.{Writes};
ghost use Rattle.rb_texts.specs.Configs.{ids_text, part_text};
ghost use Rattle.rb_texts.specs.Entries.{letter, change_word};
ghost use Rattle.rb_texts.specs.Quoted as quotes;
ghost use Rattle.rb_text.specs.Json.{in_page};
ghost use Rattle.rb_view.specs.Commas.{comma_before};
ghost use Rattle.rb_view.specs.Spans.{span_text};

use crate::rows::plain::{are_plain, put_in_page};
use itoa::Buffer;
use rb_script::{Sink, WriteFault};
use rb_text::hex_digit;
use rb_vocab::{Word, WordKind};

/// A part of a text.
#[derive(Clone, Copy)]
pub(crate) enum TextSpan<'a> {
    /// The bytes as they are.
    Bytes(&'a [u8]),
    /// A number in decimal digits.
    Number(u64),
    /// Bytes as a line shows them inside double quotes.
    Inside(&'a [u8]),
    /// Ids with a comma between each two.
    Ids(&'a [u64]),
    /// A part of a configuration, which is left out without ids.
    Part(&'a [u8], &'a [u64]),
    /// The words of a change, each after a blank.
    Words(&'a [Word]),
}

/// A part of a text, which has a text of its own.
pub(crate) trait TextPart {
    ghost text: { Self → List ℕ };

    /// Writes the part, as it is between quotes. On a failure a beginning of that was written.
    fn put<S: Sink>(&self, sink: &mut S) -> Result<(), WriteFault>
        ensures wrote { Writes result (S.held sink.old) (S.held sink.new) (flat_map in_page (text self.now)) }
        ensures all { S.takes_all sink.old → IsOk result × S.takes_all sink.new };
}

/// Writes the parts, each as it is between quotes.
pub(crate) fn put_parts<S: Sink, P: TextPart>(sink: &mut S, parts: &[P]) -> Result<(), WriteFault>
    ensures wrote { Writes result (S.held sink.old) (S.held sink.new) (flat_map in_page (flat_map P.text parts.now)) }
    ensures all { S.takes_all sink.old → IsOk result × S.takes_all sink.new }
{
    for part in parts {
        part.put(sink)?;
    }
    Ok(())
}

impl TextPart for TextSpan<'_> {
    ghost text = { span_text };

    fn put<S: Sink>(&self, sink: &mut S) -> Result<(), WriteFault> {
        match *self {
            TextSpan::Bytes(bytes) => put_in_page(sink, bytes),
            TextSpan::Number(n) => put_digits(sink, n),
            TextSpan::Inside(bytes) => put_inside(sink, bytes),
            TextSpan::Ids(ids) => put_ids(sink, ids),
            TextSpan::Part(name, ids) => put_part(sink, name, ids),
            TextSpan::Words(words) => put_parts(sink, words),
        }
    }
}

fn put_digits<S: Sink>(sink: &mut S, n: u64) -> Result<(), WriteFault>
    ensures wrote { Writes result (S.held sink.old) (S.held sink.new) (flat_map in_page (decimal n)) }
    ensures all { S.takes_all sink.old → IsOk result × S.takes_all sink.new }
{
    let mut digits = Buffer::new();
    put_in_page(sink, digits.format(n).as_bytes())
}

// ---- bytes inside double quotes

// Whether a line shows the byte as it is.
fn is_plain(b: u8) -> bool
    ensures { result ≡ quotes.is_plain b }
{
    b' ' <= b && b <= b'~' && b != b'"' && b != b'\\'
}

// The byte by its number, as a line shows it.
fn numbered(b: u8) -> [u8; 4]
    ensures { result ≡ quotes.numbered b }
{
    [b'\\', b'x', hex_digit(b / 16), hex_digit(b % 16)]
}

// Writes bytes as a line shows them inside double quotes. Most are shown as they are.
fn put_inside<S: Sink>(sink: &mut S, bytes: &[u8]) -> Result<(), WriteFault>
    ensures wrote { Writes result (S.held sink.old) (S.held sink.new) (flat_map in_page (flat_map quotes.escaped bytes.now)) }
    ensures all { S.takes_all sink.old → IsOk result × S.takes_all sink.new }
{
    if are_plain(bytes) {
        sink.put(bytes)
    } else {
        put_parts(sink, bytes)
    }
}

impl TextPart for u8 {
    ghost text = { quotes.escaped };

    fn put<S: Sink>(&self, sink: &mut S) -> Result<(), WriteFault> {
        if is_plain(*self) {
            put_in_page(sink, &[*self])
        } else {
            put_in_page(sink, &numbered(*self))
        }
    }
}

// ---- ids

// An id, after a comma.
impl TextPart for u64 {
    ghost text = { comma_before };

    fn put<S: Sink>(&self, sink: &mut S) -> Result<(), WriteFault> {
        put_in_page(sink, b",")?;
        put_digits(sink, *self)
    }
}

fn put_ids<S: Sink>(sink: &mut S, ids: &[u64]) -> Result<(), WriteFault>
    ensures wrote { Writes result (S.held sink.old) (S.held sink.new) (flat_map in_page (ids_text ids.now)) }
    ensures all { S.takes_all sink.old → IsOk result × S.takes_all sink.new }
{
    let Some((first, rest)) = ids.split_first() else {
        return Ok(());
    };
    put_digits(sink, *first)?;
    put_parts(sink, rest)
}

fn put_part<S: Sink>(sink: &mut S, name: &[u8], ids: &[u64]) -> Result<(), WriteFault>
    ensures wrote { Writes result (S.held sink.old) (S.held sink.new) (flat_map in_page (part_text name.now ids.now)) }
    ensures all { S.takes_all sink.old → IsOk result × S.takes_all sink.new }
{
    if ids.is_empty() {
        return Ok(());
    }
    put_in_page(sink, name)?;
    put_ids(sink, ids)?;
    put_in_page(sink, b")")
}

// ---- words of a change

// The letter of a word, after a blank.
fn letter(kind: WordKind) -> &'static [u8]
    ensures { result.now ≡ codes " " ++ letter kind }
{
    match kind {
        WordKind::Voter => b" v",
        WordKind::Learner => b" l",
        WordKind::Remove => b" r",
        WordKind::Update => b" u",
    }
}

impl TextPart for Word {
    ghost text = { change_word };

    fn put<S: Sink>(&self, sink: &mut S) -> Result<(), WriteFault> {
        put_in_page(sink, letter(self.kind))?;
        put_digits(sink, self.id)
    }
}
