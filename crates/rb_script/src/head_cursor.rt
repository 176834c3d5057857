//! A cursor over a joined head.

ghost use Rattle.std.specs.Prelude.{◌≡◌, ◌+◌, ◌-◌, ◌<◌, ◌≤◌, ◌++◌, ◌∷◌, ℕ, length, take, drop, slice_get};
ghost use Rattle.rb_script.specs.Lines.{Line};
ghost use Rattle.rb_script.specs.Joined.{joined, behind_piece};
ghost use Rattle.rb_script.specs.Runs.{while_of, after_while};
ghost use Rattle.rb_script.specs.Tokens.{line_at, token, IsPart};
ghost use Rattle.rb_script.specs.ByteClasses.{is_of};

use crate::line_part::LinePart;
use crate::marks::{before_backslash, is_space};
use crate::span::Span;
use std::marker::Model;

/// Classes of bytes, which separate the tokens of a head.
#[derive(Clone, Copy)]
pub enum ByteClass {
    /// A space or a tab.
    Space,
    /// A separator of values within parentheses: a blank or a comma.
    Gap,
    /// A byte of a name or a key.
    Word,
    /// A byte of a value without parentheses.
    Value,
    /// A byte of a value within parentheses.
    Piece,
    /// A byte of a list within parentheses.
    Inside,
}

impl ByteClass {
    /// Whether the class contains the byte.
    fn has(self, b: u8) -> bool
        ensures { result ≡ is_of self b }
    {
        match self {
            ByteClass::Space => is_space(b),
            ByteClass::Gap => is_space(b) || b == b',',
            ByteClass::Word => !(is_space(b) || b == b'=' || b == b'(' || b == b')'),
            ByteClass::Value => !is_space(b),
            ByteClass::Piece => !(is_space(b) || b == b',' || b == b'(' || b == b')'),
            ByteClass::Inside => !(b == b'(' || b == b')'),
        }
    }

    /// Counts the bytes of the class at the front.
    fn run_len(self, bytes: &[u8]) -> usize
        ensures len { result ≤ length bytes.now }
        ensures run { take result bytes.now ≡ while_of (is_of self) bytes.now }
        ensures rest { drop result bytes.now ≡ after_while (is_of self) bytes.now }
    {
        for (i, b) in bytes.iter().enumerate() {
            if !self.has(*b) {
                return i;
            }
        }
        bytes.len()
    }

    /// The bytes of the class at the front.
    pub fn front(self, bytes: &[u8]) -> &[u8]
        ensures { result.now ≡ while_of (is_of self) bytes.now }
    {
        &bytes[..self.run_len(bytes)]
    }

    /// The bytes after those of the class at the front.
    pub fn after(self, bytes: &[u8]) -> &[u8]
        ensures { result.now ≡ after_while (is_of self) bytes.now }
    {
        &bytes[self.run_len(bytes)..]
    }
}

/// The piece of the joined head that a line contributes, and whether the next line continues it.
fn piece_of(head: &LinePart, line: usize) -> (&[u8], bool)
    requires { line < length head.now }
    ensures joined { joined (drop line head.now) ≡ result.0.now ++ behind_piece result.1 (drop (line + 1) head.now) }
    ensures part { result.0.now ≡ take (length result.0.now) (line_at head.now line) }
    ensures fits { length result.0.now ≤ length (line_at head.now line) }
{
    let text = head.line(line);
    match before_backslash(text) {
        Some(body) => (body, true),
        None => (text, false),
    }
}

/// A position in a joined head: the rest of one line's piece, and the lines after it.
#[derive(Drop)]
pub(crate) struct HeadCursor<'a> {
    head: &'a LinePart,
    line: usize,
    piece: &'a [u8],
    at: usize,
    is_continued: bool,
}

impl<'a> Model for HeadCursor<'a> {
    ghost use Rattle.std.specs.Prelude.{◌+◌, ◌++◌, drop};
    ghost use Rattle.rb_script.specs.Joined.{behind_piece};
    ghost use Rattle.rb_script.specs.HeadPositions.{HeadPosition, IsHeadPosition};

    ghost Value = { HeadPosition };

    ghost view = { λ c. record { head = c.head.now; left = drop c.at c.piece.now ++ behind_piece c.is_continued (drop (c.line + 1) c.head.now) } };

    ghost invariant = { λ c. IsHeadPosition c.head.now c.line c.piece.now c.at };
}

impl<'a> HeadCursor<'a> {
    ghost use Rattle.std.specs.Prelude.{◌≡◌, ◌<◌, ◌^◌, length, drop, slice_get, option_copied};
    ghost use Rattle.std.specs.List.{AllByRecursion};
    ghost use Rattle.rb_script.specs.Valid.{IsLine};
    ghost use Rattle.rb_script.specs.Joined.{joined};
    ghost use Rattle.rb_script.specs.Runs.{while_of, after_while};
    ghost use Rattle.rb_script.specs.Tokens.{token, IsPart};
    ghost use Rattle.rb_script.specs.ByteClasses.{is_of, IsWithinLine};

    /// Starts at the beginning of the joined head.
    pub(crate) fn new(head: &'a LinePart) -> HeadCursor<'a>
        requires there { 0 < length head.now }
        requires few { length head.now < 2 ^ 32 }
        requires lines { AllByRecursion IsLine head.now }
        ensures head { result.head ≡ head.now }
        ensures left { result.left ≡ joined head.now }
    {
        let (piece, is_continued) = piece_of(head, 0);
        HeadCursor {
            head,
            line: 0,
            piece,
            at: 0,
            is_continued,
        }
    }

    /// The next byte. The pieces of two lines are separated by one blank.
    pub(crate) fn peek(&self) -> Option<u8>
        ensures { result ≡ slice_get self.now.left 0 }
    {
        if self.at < self.piece.len() {
            Some(self.piece[self.at])
        } else if self.is_continued {
            Some(b' ')
        } else {
            None
        }
    }

    /// Skips the next byte.
    pub(crate) fn advance(&mut self)
        requires { 0 < length self.old.left }
        ensures left { self.new.left ≡ drop 1 self.old.left }
        ensures head { self.new.head ≡ self.old.head }
    {
        if self.at < self.piece.len() {
            self.at += 1;
        } else {
            let count = self.head.len();
            let next = self.line + 1;
            let (piece, is_continued) = if next < count {
                self.line = next;
                piece_of(self.head, next)
            } else {
                (&[] as &[u8], false)
            };
            self.piece = piece;
            self.at = 0;
            self.is_continued = is_continued;
        }
    }

    /// Skips the bytes of the class.
    pub(crate) fn skip(&mut self, class: ByteClass)
        ensures left { self.new.left ≡ after_while (is_of class) self.old.left }
        ensures head { self.new.head ≡ self.old.head }
    {
        while let Some(b) = self.peek() {
            if !class.has(b) {
                break;
            }
            self.advance();
        }
    }

    /// Skips the bytes of the class, and returns their span. The class doesn't contain the space that joins two lines, so the
    /// span is within one line.
    #[tactic(auto, using(crate::proofs::TokenLaws::line_short))]
    pub(crate) fn take(&mut self, class: ByteClass) -> Span
        requires { IsWithinLine class }
        ensures token { token self.old.head result ≡ while_of (is_of class) self.old.left }
        ensures left { self.new.left ≡ after_while (is_of class) self.old.left }
        ensures head { self.new.head ≡ self.old.head }
        ensures part { IsPart self.old.head result }
    {
        let start = self.at;
        let end = start + class.run_len(&self.piece[start..]);
        self.at = end;
        Span {
            line: self.line as u32,
            start: start as u32,
            end: end as u32,
        }
    }
}
