//! Lists of byte lines, and splitting bytes into lines.

ghost use Rattle.std.specs.Prelude.{◌≡◌, ◌↔◌, ◌+◌, ◌<◌, ◌≤◌, ◌^◌, [], ◌∷◌, ◌++◌, length, slice_get, OnOk, IfOk, OnErr, MatchOption, IfSome, IfNone, IsTrue, Some, ℕ, ◌≢◌, slice_index, vec_capacity};
ghost use Rattle.rb_script.specs.Lines.{lines, text_of, without_returns};
ghost use Rattle.rb_script.specs.Flat.{between, ends_of, from_start};
ghost use Rattle.rb_script.specs.LineStorage.{stored_lines};

use crate::flat::FlatLines;
use crate::line_part::LinePart;
use crate::shared_lines::SharedLines;
use crate::written_line::WrittenLine;
use memchr::memchr_iter;
use std::alloc::{AllocError, Global};
use std::marker::Model;

/// A list of byte lines. A line may contain any bytes.
pub struct Lines {
    kept: LineStorage,
}

// Written by hand, so that dropping one is a call for the prover, and is proved only here.
impl Drop for Lines {
    fn drop(self) {
        let Lines { kept: _ } = self;
    }
}

/// The storage of lines.
pub(crate) enum LineStorage {
    /// The list owns its memory.
    Own(FlatLines),
    /// The list is a slice of shared lines.
    Part(LinePart),
}

// Written by hand, so that dropping one is a call for the prover, and is proved only here.
impl Drop for LineStorage {
    fn drop(self) {
        match self {
            LineStorage::Own(_) | LineStorage::Part(_) => {}
        }
    }
}

impl Model for Lines {
    ghost use Rattle.std.specs.Prelude.{List, ℕ};
    ghost use Rattle.rb_script.specs.LineStorage.{stored_lines};

    ghost Value = { List (List ℕ) };

    ghost view = { λ a. stored_lines a.kept };
}

impl Lines {
    /// Makes an empty list. Allocates nothing.
    pub fn new(alloc: Global) -> Self
        ensures { result ≡ [] }
    {
        Lines {
            kept: LineStorage::Own(FlatLines::new(alloc)),
        }
    }

    /// All lines, without copying.
    pub(crate) fn whole(all: SharedLines) -> Self
        ensures { result ≡ all }
    {
        Lines {
            kept: LineStorage::Part(LinePart::whole(all)),
        }
    }

    /// Borrows the lines from one position to another, without copying.
    pub(crate) fn part(all: &SharedLines, from: usize, to: usize) -> Result<Self, AllocError>
        requires order { from ≤ to }
        requires within { to ≤ length all.now }
        ensures { IfOk result (λ part. part ≡ between from to all.now) }
    {
        Ok(Lines {
            kept: LineStorage::Part(LinePart::new(all, from, to)?),
        })
    }

    /// Appends a line.
    pub fn push(&mut self, line: &[u8]) -> Result<(), AllocError>
        ensures ok { OnOk result (self.new ≡ self.old ++ line.now ∷ []) }
        ensures err { OnErr result (self.new ≡ self.old) }
    {
        self.kept.push(line)
    }

    /// Appends a line that is written in place. If memory runs out, the contents are unspecified, and the list should be dropped.
    pub fn push_written<W: WrittenLine>(&mut self, line: &W) -> Result<(), AllocError>
        ensures { OnOk result (self.new ≡ self.old ++ W.bytes line.now ∷ []) }
    {
        self.kept.push_written(line)
    }

    /// Makes an empty text with room for this many bytes, for a line of many pieces.
    pub fn new_text(&self, room: usize) -> Result<Vec<u8>, AllocError>
        ensures empty { IfOk result (λ text. text.items ≡ []) }
        ensures room { IfOk result (λ text. room ≤ vec_capacity text) }
    {
        Vec::with_capacity(self.allocator(), room)
    }

    /// The number of lines.
    pub fn len(&self) -> usize
        ensures { result ≡ length self.now }
    {
        match &self.kept {
            LineStorage::Own(own) => own.len(),
            LineStorage::Part(part) => part.len(),
        }
    }

    /// Whether there are no lines.
    pub fn is_empty(&self) -> bool
        ensures { IsTrue result ↔ (self.now ≡ []) }
    {
        self.len() == 0
    }

    /// Line `i`, counted from 0, without its end.
    pub fn line(&self, i: usize) -> &[u8]
        requires { i < length self.now }
        ensures { slice_get self.now i ≡ Some result.now }
    {
        match &self.kept {
            LineStorage::Own(own) => own.line(i),
            LineStorage::Part(part) => part.line(i),
        }
    }

    /// The lines as one text, each followed by LF.
    pub fn text(&self) -> &[u8]
        ensures { result.now ≡ text_of self.now }
    {
        match &self.kept {
            LineStorage::Own(own) => own.text(),
            LineStorage::Part(part) => part.text(),
        }
    }

    /// Copies the lines, or shares them if they are shared.
    pub fn try_copy(&self) -> Result<Lines, AllocError>
        ensures { IfOk result (λ copy. copy ≡ self.now) }
    {
        let kept = match &self.kept {
            LineStorage::Own(own) => LineStorage::Own(own.try_copy()?),
            LineStorage::Part(part) => LineStorage::Part(part.try_copy()?),
        };
        Ok(Lines { kept })
    }

    /// Compares the lines.
    pub fn same(&self, other: &Lines) -> bool
        ensures { IsTrue result ↔ (self.now ≡ other.now) }
    {
        let (ends, start) = self.ends();
        let (others, other_start) = other.ends();
        are_as_long(ends, start, others, other_start) && is_same(self.text(), other.text())
    }

    // Where the lines end in their text, and where the first one begins.
    fn ends(&self) -> (&[usize], usize)
        ensures { result.0.now ≡ ends_of result.1 self.now }
    {
        match &self.kept {
            LineStorage::Own(own) => own.ends(),
            LineStorage::Part(part) => part.ends(),
        }
    }

    // The allocator.
    fn allocator(&self) -> Global {
        match &self.kept {
            LineStorage::Own(own) => own.allocator(),
            LineStorage::Part(part) => part.allocator(),
        }
    }
}

impl LineStorage {
    ghost use Rattle.std.specs.Prelude.{◌≡◌, [], ◌∷◌, ◌++◌, OnOk, OnErr};
    ghost use Rattle.rb_script.specs.LineStorage.{stored_lines};

    // Appends a line. Shared lines are copied first.
    fn push(&mut self, line: &[u8]) -> Result<(), AllocError>
        ensures ok { OnOk result (stored_lines self.new ≡ stored_lines self.old ++ line.now ∷ []) }
        ensures err { OnErr result (stored_lines self.new ≡ stored_lines self.old) }
    {
        match self {
            LineStorage::Own(own) => own.push(line),
            LineStorage::Part(part) => {
                *self = LineStorage::Own(copy_with_line(part, line)?);
                Ok(())
            }
        }
    }

    // Appends a line that is written in place.
    fn push_written<W: WrittenLine>(&mut self, line: &W) -> Result<(), AllocError>
        ensures { OnOk result (stored_lines self.new ≡ stored_lines self.old ++ W.bytes line.now ∷ []) }
    {
        match self {
            LineStorage::Own(own) => own.push_written(line),
            LineStorage::Part(part) => {
                *self = LineStorage::Own(copy_with_written(part, line)?);
                Ok(())
            }
        }
    }
}

// Copies shared lines, and appends this one.
fn copy_with_line(part: &LinePart, line: &[u8]) -> Result<FlatLines, AllocError>
    ensures { IfOk result (λ own. own ≡ part.now ++ line.now ∷ []) }
{
    let mut own = part.own()?;
    own.push(line)?;
    Ok(own)
}

// Does the same with a line that is written in place. It is a function of its own and not inlined: a function clears its frame when it
// begins, and a line that is appended to lines of its own shouldn't pay for this one's.
#[inline(never)]
fn copy_with_written<W: WrittenLine>(part: &LinePart, line: &W) -> Result<FlatLines, AllocError>
    ensures { IfOk result (λ own. own ≡ part.now ++ W.bytes line.now ∷ []) }
{
    let mut own = part.own()?;
    own.push_written(line)?;
    Ok(own)
}

// Compares the lengths of two lists' lines, by where they end.
fn are_as_long(ends: &[usize], start: usize, others: &[usize], other_start: usize) -> bool
    ensures { IsTrue result ↔ (from_start start ends.now ≡ from_start other_start others.now) }
{
    if ends.len() != others.len() {
        return false;
    }
    for i in 0..ends.len() {
        if ends[i].saturating_sub(start) != others[i].saturating_sub(other_start) {
            return false;
        }
    }
    true
}

/// Compares the bytes.
fn is_same(line: &[u8], other: &[u8]) -> bool
    ensures { IsTrue result ↔ (line.now ≡ other.now) }
{
    line == other
}

/// Trims the carriage returns at the end of a line, which belong to the line's end.
pub fn without_returns(line: &[u8]) -> &[u8]
    ensures value { result.now ≡ without_returns line.now }
    ensures shorter { length result.now ≤ length line.now }
{
    let mut front = line;
    while let Some((last, shorter)) = front.split_last() {
        if *last != b'\r' {
            break;
        }
        front = shorter;
    }
    front
}

/// Splits the bytes into lines, without their ends.
pub fn lines_of(alloc: Global, bytes: &[u8]) -> Result<Lines, AllocError>
    ensures { IfOk result (λ all. all ≡ lines bytes.now) }
{
    Ok(Lines {
        kept: LineStorage::Own(FlatLines::of(alloc, bytes)?),
    })
}

/// Finds the first LF.
pub(crate) fn line_feed(bytes: &[u8]) -> Option<usize>
    ensures none { IfNone result ((k : ℕ) → k < length bytes.now → slice_index bytes.now k ≢ 10) }
    ensures found { IfSome result (λ end. (end < length bytes.now) × (slice_index bytes.now end ≡ 10)) }
    ensures first { IfSome result (λ end. (k : ℕ) → k < end → slice_index bytes.now k ≢ 10) }
{
    let mut feeds = memchr_iter(b'\n', bytes);
    feeds.next()
}

/// Splits off the first line of a script's bytes, without its line feed. `None` if there are no bytes.
pub fn next_line(bytes: &[u8]) -> Option<(&[u8], &[u8])>
    ensures cut { MatchOption result (bytes.now ≡ []) (λ found. lines bytes.now ≡ found.0.now ∷ lines found.1.now) }
    ensures shorter { IfSome result (λ found. length found.1.now < length bytes.now) }
{
    if bytes.is_empty() {
        return None;
    }
    match line_feed(bytes) {
        Some(end) => Some((without_returns(&bytes[..end]), &bytes[end + 1..])),
        None => Some((without_returns(bytes), &[])),
    }
}
