//! Names of files and words of arguments, as they are shown.
//!
//! They may have any bytes. If one has a control character, an end of a line, a mark that turns the direction of text, a character that isn't seen,
//! or bytes that are not UTF-8, all of it but printable ASCII is shown by numbers, as `\x0a`. So a name is a part of its line, and acts in nothing.

ghost use Rattle.std.specs.Prelude.{◌≡◌, ◌||◌, if◌then◌else◌, IfOk, IsOk};
ghost use Rattle.std.specs.List.{list_any};
ghost use Rattle.rb_script.specs.Writes.{Writes};
ghost use Rattle.rb_report.specs.Names.{acts_in_line, acts_past_ascii, by_number, has_acting_char, is_control, is_printable, name_byte, shown_name};

use rb_script::{Sink, Through, WriteFault};
use rb_text::{Escape, hex_digit, put_escaped};
use std::alloc::{AllocError, Global};
use std::str;

/// A byte by its number.
pub fn by_number(b: u8) -> [u8; 4]
    ensures { result ≡ by_number b }
{
    [b'\\', b'x', hex_digit(b / 16), hex_digit(b % 16)]
}

// How the bytes of a name that acts are written.
struct InAscii;

impl Escape for InAscii {
    ghost text = { λ _ b. name_byte b };

    fn put<S: Sink>(&self, sink: &mut S, b: u8) -> Result<(), WriteFault> {
        sink.put(name_text(b, &[b], &by_number(b)))
    }
}

// The byte itself, or its number if it isn't printable.
fn name_text<'a>(b: u8, itself: &'a [u8], number: &'a [u8]) -> &'a [u8]
    ensures { result.now ≡ (if is_printable b then itself.now else number.now) }
{
    if is_printable(b) { itself } else { number }
}

fn is_printable(b: u8) -> bool
    ensures { result ≡ is_printable b }
{
    b' ' <= b && b <= b'~' && b != b'\\'
}

/// Writes a name as it is shown.
pub fn put_name<S: Sink>(sink: &mut S, name: &[u8]) -> Result<(), WriteFault>
    ensures wrote { Writes result (S.held sink.old) (S.held sink.new) (shown_name name.now) }
    ensures all { S.takes_all sink.old → IsOk result × S.takes_all sink.new }
{
    if acts_in_line(name) {
        put_escaped(sink, &InAscii, name)
    } else {
        sink.put(name)
    }
}

/// Copies a name as it is shown.
pub fn shown_name(alloc: Global, name: &[u8]) -> Result<Vec<u8>, AllocError>
    ensures { IfOk result (λ shown. shown.items ≡ shown_name name.now) }
{
    let mut sink = Through(Vec::new(alloc));
    match put_name(&mut sink, name) {
        Ok(()) => Ok(sink.0),
        Err(_) => Err(AllocError),
    }
}

/// Whether something of a name acts.
pub fn acts_in_line(name: &[u8]) -> bool
    ensures { result ≡ acts_in_line name.now }
{
    has_control(name) || has_acting_char(name)
}

fn has_control(name: &[u8]) -> bool
    ensures { result ≡ list_any is_control name.now }
{
    name.iter().any(|b| is_control(*b))
}

fn is_control(b: u8) -> bool
    ensures { result ≡ is_control b }
{
    b < b' ' || b == 127
}

// Whether a character past ASCII acts, or isn't seen.
fn acts_past_ascii(c: char) -> bool
    ensures { result ≡ acts_past_ascii c }
{
    let code = c as u32;
    (0x80 <= code && code < 0xa0)
        || code == 0x61c
        || (0x200b <= code && code <= 0x200f)
        || (0x2028 <= code && code <= 0x202e)
        || (0x2060 <= code && code <= 0x2069)
        || code == 0xfeff
        || (0xe_0000 <= code && code <= 0xe_007f)
}

/// Whether a character past ASCII acts in these bytes, or they are no text.
pub fn has_acting_char(bytes: &[u8]) -> bool
    ensures { result ≡ has_acting_char bytes.now }
{
    match str::from_utf8(bytes) {
        Ok(text) => text.chars().any(|c| acts_past_ascii(c)),
        Err(_) => true,
    }
}
