//! Pieces of a line: words, and arguments.

ghost use Rattle.std.specs.Prelude.{◌≡◌, ◌+◌, ◌≤◌, false, drop, if◌then◌else◌, length, take};
ghost use Rattle.rb_lsp.specs.declared.document.limits.TheConstants.{MAX_TEXT};
ghost use Rattle.rb_editor.specs.Selections.{ends, inside_after, inside_of, piece_end, piece_span, piece_start};

use crate::actions::correction::ends_word;
use rb_script::is_space;

/// A kind of pieces of a line.
#[derive(Clone, Copy, Debug, PartialEq, Eq)]
pub(crate) enum PieceKind {
    /// A name, a key or a value.
    Word,
    /// What is between blanks that aren't in parentheses.
    Argument,
}

/// The text from one offset up to another.
#[derive(Clone, Copy, Debug, PartialEq, Eq)]
pub(crate) struct OffsetSpan {
    pub(crate) from: usize,
    pub(crate) to: usize,
}

// Whether a byte ends a piece, which is within parentheses or isn't.
fn ends(kind: PieceKind, inside: bool, b: u8) -> bool
    ensures { result ≡ ends kind inside b }
{
    match kind {
        PieceKind::Word => ends_word(b),
        PieceKind::Argument => is_space(b) && !inside,
    }
}

// Whether what follows a byte is within parentheses.
fn inside_after(inside: bool, b: u8) -> bool
    ensures { result ≡ inside_after inside b }
{
    match b {
        b'(' => true,
        b')' => false,
        _ => inside,
    }
}

// Whether what follows these bytes is within parentheses.
fn inside_of(bytes: &[u8]) -> bool
    ensures { result ≡ inside_of false bytes.now }
{
    let mut inside = false;
    for b in bytes {
        inside = inside_after(inside, *b);
    }
    inside
}

// Gives where the piece of the next byte begins, by whether this one ends the piece that began here.
fn next_start(is_end: bool, start: usize, next: usize) -> usize
    ensures { result ≡ (if is_end then next else start) }
{
    if is_end { next } else { start }
}

// Finds where the piece begins that these bytes end in.
fn piece_start(kind: PieceKind, bytes: &[u8]) -> usize
    ensures value { result ≡ piece_start kind 0 0 false bytes.now }
    ensures within { result ≤ length bytes.now }
{
    let mut start = 0;
    let mut inside = false;
    for (at, b) in bytes.iter().enumerate() {
        start = next_start(ends(kind, inside, *b), start, at + 1);
        inside = inside_after(inside, *b);
    }
    start
}

// Finds where a piece of a line ends that goes on at a column, within parentheses or not.
fn piece_end(kind: PieceKind, column: usize, begins_inside: bool, line: &[u8]) -> usize
    requires { column ≤ length line.now }
    ensures value { result ≡ piece_end kind column begins_inside (drop column line.now) }
    ensures within { result ≤ length line.now }
{
    let mut inside = begins_inside;
    for i in column..line.len() {
        let b = line[i];
        if ends(kind, inside, b) {
            return i;
        }
        inside = inside_after(inside, b);
    }
    line.len()
}

/// Finds the piece of a line around a column, where the line begins at an offset of its text.
pub(crate) fn piece_span(kind: PieceKind, begin: usize, column: usize, line: &[u8]) -> OffsetSpan
    requires begin { begin ≤ MAX_TEXT }
    requires within { column ≤ length line.now }
    ensures { result ≡ piece_span kind begin column line.now }
{
    let front = &line[..column];
    let end = piece_end(kind, column, inside_of(front), line);
    OffsetSpan {
        from: begin + piece_start(kind, front),
        to: begin + end,
    }
}
