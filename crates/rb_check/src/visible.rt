//! Output for people and programs acts in no terminal and in no log.
//!
//! A script may have any bytes. If one has a control character, a mark that turns the direction of text, a character that isn't seen, or bytes that
//! are not UTF-8, all of it but printable ASCII is shown by numbers, as `\x1b`, and without colours: then the only bytes that act are line ends, which
//! the program itself writes, and tabs. Names have neither: texts get them as `rb_report` shows them.

ghost use Rattle.std.specs.Prelude.{◌≡◌, ◌||◌, [], if◌then◌else◌, None, IfOk, IsOk};
ghost use Rattle.std.specs.List.{list_any};
ghost use Rattle.rb_script.specs.Writes.{Writes};
ghost use Rattle.rb_report.specs.Names.{by_number};
ghost use Rattle.rb_check.specs.Visible.{acts, stays, visible_byte, json_byte, byte_shown, is_harmful, showing_of_lines, text_shown};

use rb_bench::Outlet;
use rb_report::check::{by_number, has_acting_char};
use rb_script::{Lines, Sink, Through, WriteFault};
use rb_text::{Escape, put_escaped};
use std::alloc::{AllocError, Global};

/// How bytes go out.
#[derive(Clone, Copy, Debug, PartialEq, Eq)]
pub enum Showing {
    /// As they are.
    AsIs,
    /// All but printable ASCII, tabs and ends of lines by their numbers, and backslashes too, so that no two bytes look alike.
    Visible,
    /// As they are in JSON, with DEL by its number.
    Json,
}

impl Escape for Showing {
    ghost text = { byte_shown };

    fn put<S: Sink>(&self, sink: &mut S, b: u8) -> Result<(), WriteFault> {
        match *self {
            Showing::AsIs => sink.put(&[b]),
            Showing::Visible => put_visible_byte(sink, b),
            Showing::Json => put_json_byte(sink, b),
        }
    }
}

fn stays(b: u8) -> bool
    ensures { result ≡ stays b }
{
    b == b'\n' || b == b'\t' || (b' ' <= b && b <= b'~' && b != b'\\')
}

/// The byte itself, or its number if it isn't printable.
pub(crate) fn visible_text<'a>(b: u8, itself: &'a [u8], number: &'a [u8]) -> &'a [u8]
    ensures { result.now ≡ (if stays b then itself.now else number.now) }
{
    if stays(b) { itself } else { number }
}

fn put_visible_byte<S: Sink>(sink: &mut S, b: u8) -> Result<(), WriteFault>
    ensures wrote { Writes result (S.held sink.old) (S.held sink.new) (visible_byte b) }
    ensures all { S.takes_all sink.old → IsOk result × S.takes_all sink.new }
{
    sink.put(visible_text(b, &[b], &by_number(b)))
}

fn put_json_byte<S: Sink>(sink: &mut S, b: u8) -> Result<(), WriteFault>
    ensures wrote { Writes result (S.held sink.old) (S.held sink.new) (json_byte b) }
    ensures all { S.takes_all sink.old → IsOk result × S.takes_all sink.new }
{
    if b == 127 {
        sink.put(b"\\u007f")
    } else {
        sink.put(&[b])
    }
}

fn put_shown<S: Sink>(sink: &mut S, showing: Showing, bytes: &[u8]) -> Result<(), WriteFault>
    ensures wrote { Writes result (S.held sink.old) (S.held sink.new) (text_shown showing bytes.now) }
    ensures all { S.takes_all sink.old → IsOk result × S.takes_all sink.new }
{
    match showing {
        Showing::AsIs => sink.put(bytes),
        Showing::Visible | Showing::Json => put_escaped(sink, &showing, bytes),
    }
}

/// A sink before another. Bytes that act in a terminal are put by their numbers.
#[derive(Drop)]
pub struct VisibleSink<S> {
    pub sink: S,
    pub(crate) showing: Showing,
}

impl<S> VisibleSink<S> {
    ghost use Rattle.std.specs.Prelude.{◌≡◌};
    ghost use Rattle.rb_check.specs.Visible.{showing_of_lines};

    /// A screen for what is shown of a script with these lines. If a byte of them acts, bytes are put by their numbers.
    pub fn of_script(sink: S, lines: &Lines) -> VisibleSink<S>
        ensures { result.showing ≡ showing_of_lines lines.now }
    {
        let showing = showing_of_lines(lines);
        VisibleSink { sink, showing }
    }
}

impl<S: Sink> Sink for VisibleSink<S> {
    // Other bytes go out than are put.
    ghost held = { λ _. None };

    ghost takes_all = { λ _. ⊥ };

    fn put(&mut self, bytes: &[u8]) -> Result<(), WriteFault> {
        put_shown(&mut self.sink, self.showing, bytes)
    }
}

impl<S: Outlet> Outlet for VisibleSink<S> {
    ghost handed = { λ _. None };

    fn flush(&mut self) -> Result<(), WriteFault> {
        self.sink.flush()
    }
}

// Whether the byte acts in a terminal.
fn acts(b: u8) -> bool
    ensures { result ≡ acts b }
{
    (b < b' ' && b != b'\t') || b == 127
}

// Whether a byte of the line does.
fn has_control(line: &[u8]) -> bool
    ensures { result ≡ list_any acts line.now }
{
    line.iter().any(|b| acts(*b))
}

// Whether a line has something that would act, or is no text.
fn is_harmful(line: &[u8]) -> bool
    ensures { result ≡ is_harmful line.now }
{
    has_control(line) || has_acting_char(line)
}

// Whether one of the lines has.
fn are_harmful(lines: &Lines) -> bool
    ensures { result ≡ list_any is_harmful lines.now }
{
    for i in 0..lines.len() {
        if is_harmful(lines.line(i)) {
            return true;
        }
    }
    false
}

/// How what is shown of a script goes out, which has these lines.
pub(crate) fn showing_of_lines(lines: &Lines) -> Showing
    ensures { result ≡ showing_of_lines lines.now }
{
    if are_harmful(lines) {
        Showing::Visible
    } else {
        Showing::AsIs
    }
}

/// Copies what is shown of a script with these lines. If a byte of them acts, bytes are there by their numbers.
pub fn shown_of_script(alloc: Global, lines: &Lines, bytes: &[u8]) -> Result<Vec<u8>, AllocError>
    ensures { IfOk result (λ shown. shown.items ≡ text_shown (showing_of_lines lines.now) bytes.now) }
{
    let mut sink = Through(Vec::new(alloc));
    match put_shown(&mut sink, showing_of_lines(lines), bytes) {
        Ok(()) => Ok(sink.0),
        Err(_) => Err(AllocError),
    }
}
