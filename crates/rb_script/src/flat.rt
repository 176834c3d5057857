//! Lines of bytes, in one buffer.

ghost use Rattle.std.specs.Prelude.{◌≡◌, ◌≢◌, ◌<◌, ◌≤◌, ℕ, [], ◌∷◌, ◌++◌, length, slice_get, slice_index, OnOk, IfOk, OnErr, IsTrue, Some};
ghost use Rattle.rb_script.specs.Lines.{lines, text_of, line_text};
ghost use Rattle.rb_script.specs.Flat.{ends_of, parted, line_start, between, IsFlat};

use crate::line_text::LineText;
use crate::lines::{line_feed, next_line};
use crate::written_line::WrittenLine;
use memchr::memchr;
use smallvec::SmallVec;
use std::alloc::{AllocError, Global};
use std::marker::Model;

/// A list of byte lines that owns its memory. A line may contain any bytes.
pub(crate) struct FlatLines {
    // each line, followed by LF
    text: LineText,
    // where each line ends in the text, after its LF; most lists are short
    ends: SmallVec<usize, 4>,
}

// Written by hand, so that dropping one is a call for the prover, and is proved only here.
impl Drop for FlatLines {
    fn drop(self) {
        let FlatLines { text: _, ends: _ } = self;
    }
}

impl Model for FlatLines {
    ghost use Rattle.std.specs.Prelude.{List, ℕ};
    ghost use Rattle.rb_script.specs.Flat.{parted, IsFlat};

    ghost Value = { List (List ℕ) };

    ghost view = { λ a. parted 0 a.ends.items a.text };

    ghost invariant = { λ a. IsFlat a.ends.items a.text };
}

impl FlatLines {
    /// Makes an empty list. Allocates nothing.
    pub(crate) fn new(alloc: Global) -> Self
        ensures { result ≡ [] }
    {
        FlatLines {
            text: LineText::new(alloc),
            ends: SmallVec::new(alloc),
        }
    }

    /// Makes an empty list, with room for this many bytes of text.
    fn with_room(alloc: Global, room: usize) -> Result<Self, AllocError>
        ensures { IfOk result (λ all. all ≡ []) }
    {
        Ok(FlatLines {
            text: LineText::with_room(alloc, room)?,
            ends: SmallVec::new(alloc),
        })
    }

    /// Splits the bytes into lines, without their ends.
    pub(crate) fn of(alloc: Global, bytes: &[u8]) -> Result<Self, AllocError>
        ensures { IfOk result (λ all. all ≡ lines bytes.now) }
    {
        if is_already_canonical(bytes) {
            FlatLines::of_text(alloc, bytes)
        } else {
            FlatLines::one_by_one(alloc, bytes)
        }
    }

    // Splits bytes that are already canonical: the text is copied at once.
    fn of_text(alloc: Global, bytes: &[u8]) -> Result<Self, AllocError>
        requires { text_of (lines bytes.now) ≡ bytes.now }
        ensures { IfOk result (λ all. all ≡ lines bytes.now) }
    {
        let ends = line_ends(alloc, bytes)?;
        Ok(FlatLines {
            text: LineText::of(alloc, bytes)?,
            ends: SmallVec::from_vec(ends),
        })
    }

    // Splits any bytes. Their text is at most one LF longer than the bytes.
    fn one_by_one(alloc: Global, bytes: &[u8]) -> Result<Self, AllocError>
        ensures { IfOk result (λ all. all ≡ lines bytes.now) }
    {
        let mut all = FlatLines::with_room(alloc, bytes.len().saturating_add(1))?;
        let mut rest = bytes;
        while let Some((line, after)) = next_line(rest) {
            all.push(line)?;
            rest = after;
        }
        Ok(all)
    }

    /// The allocator.
    pub(crate) fn allocator(&self) -> Global {
        self.text.allocator()
    }

    /// Appends a line.
    pub(crate) fn push(&mut self, line: &[u8]) -> Result<(), AllocError>
        ensures ok { OnOk result (self.new ≡ self.old ++ line.now ∷ []) }
        ensures err { OnErr result (self.new ≡ self.old) }
    {
        append_line(&mut self.text, &mut self.ends, line)
    }

    /// Appends a line that is written in place. If memory runs out, the contents are unspecified.
    pub(crate) fn push_written<W: WrittenLine>(&mut self, line: &W) -> Result<(), AllocError>
        ensures { OnOk result (self.new ≡ self.old ++ W.bytes line.now ∷ []) }
    {
        write_or_clear(&mut self.text, &mut self.ends, line)
    }

    /// The number of lines.
    pub(crate) fn len(&self) -> usize
        ensures { result ≡ length self.now }
    {
        self.ends.len()
    }

    /// Line `i`, counted from 0, without its end.
    pub(crate) fn line(&self, i: usize) -> &[u8]
        requires { i < length self.now }
        ensures { slice_get self.now i ≡ Some result.now }
    {
        line_of(self.text.as_slice(), self.ends.as_slice(), i)
    }

    /// The lines as one text, each followed by LF.
    pub(crate) fn text(&self) -> &[u8]
        ensures { result.now ≡ text_of self.now }
    {
        self.text.as_slice()
    }

    /// Where the lines end in their text, and where the first one begins.
    pub(crate) fn ends(&self) -> (&[usize], usize)
        ensures { result.0.now ≡ ends_of result.1 self.now }
    {
        (self.ends.as_slice(), 0)
    }

    /// Where the lines from one position to another end in the whole text, and where the first one begins.
    pub(crate) fn ends_between(&self, from: usize, to: usize) -> (&[usize], usize)
        requires order { from ≤ to }
        requires within { to ≤ length self.now }
        ensures { result.0.now ≡ ends_of result.1 (between from to self.now) }
    {
        let ends = self.ends.as_slice();
        (&ends[from..to], start_of(ends, from))
    }

    /// The text of the lines from one position to another.
    pub(crate) fn text_between(&self, from: usize, to: usize) -> &[u8]
        requires order { from ≤ to }
        requires within { to ≤ length self.now }
        ensures { result.now ≡ text_of (between from to self.now) }
    {
        text_part(self.text.as_slice(), self.ends.as_slice(), from, to)
    }

    /// Copies the lines into new memory.
    pub(crate) fn try_copy(&self) -> Result<FlatLines, AllocError>
        ensures { IfOk result (λ copy. copy ≡ self.now) }
    {
        let alloc = self.allocator();
        Ok(FlatLines {
            text: LineText::of(alloc, self.text.as_slice())?,
            ends: SmallVec::from_slice(alloc, self.ends.as_slice())?,
        })
    }

    /// Copies the lines from one position to another into new memory.
    pub(crate) fn copy_between(&self, from: usize, to: usize) -> Result<FlatLines, AllocError>
        requires order { from ≤ to }
        requires within { to ≤ length self.now }
        ensures { IfOk result (λ copy. copy ≡ between from to self.now) }
    {
        let mut copy = FlatLines::new(self.allocator());
        for i in from..to {
            copy.push(self.line(i))?;
        }
        Ok(copy)
    }
}

// Whether the bytes contain no carriage return.
fn has_no_return(bytes: &[u8]) -> bool
    ensures { IsTrue result → (k : ℕ) → k < length bytes.now → slice_index bytes.now k ≢ 13 }
{
    match memchr(b'\r', bytes) {
        Some(_) => false,
        None => true,
    }
}

// Whether the bytes are the text of their lines: each line ends with LF, without carriage returns.
fn is_already_canonical(bytes: &[u8]) -> bool
    ensures { IsTrue result → text_of (lines bytes.now) ≡ bytes.now }
{
    match bytes.last() {
        Some(last) => *last == b'\n' && has_no_return(bytes),
        None => true,
    }
}

// Finds where each line ends, in bytes that are already canonical. A `Vec` is faster here than a `SmallVec`, since there are many lines.
fn line_ends(alloc: Global, bytes: &[u8]) -> Result<Vec<usize>, AllocError>
    requires { text_of (lines bytes.now) ≡ bytes.now }
    ensures { IfOk result (λ ends. ends.items ≡ ends_of 0 (lines bytes.now)) }
{
    let mut ends = Vec::new(alloc);
    let mut rest = bytes;
    let mut end = 0;
    while let Some(feed) = line_feed(rest) {
        end += feed + 1;
        ends.push(end)?;
        rest = &rest[feed + 1..];
    }
    Ok(ends)
}

// Appends the line with its LF, and its end. Reserves first, so that a failure changes nothing.
fn append_line(
    text: &mut LineText,
    ends: &mut SmallVec<usize, 4>,
    line: &[u8],
) -> Result<(), AllocError>
    ensures text { OnOk result (text.new ≡ text.old ++ line_text line.now) }
    ensures ends { OnOk result (ends.new.items ≡ ends.old.items ++ length text.new ∷ []) }
    ensures err { OnErr result ((text.new ≡ text.old) × (ends.new.items ≡ ends.old.items)) }
{
    ends.reserve(1)?;
    text.push_line(line)?;
    ends.push(text.len())?;
    Ok(())
}

// Writes the line with its LF, and appends its end.
fn write_line<W: WrittenLine>(
    text: &mut LineText,
    ends: &mut SmallVec<usize, 4>,
    line: &W,
) -> Result<(), AllocError>
    ensures text { OnOk result (text.new ≡ text.old ++ line_text (W.bytes line.now)) }
    ensures ends { OnOk result (ends.new.items ≡ ends.old.items ++ length text.new ∷ []) }
{
    line.add_to(text)?;
    text.push(b'\n')?;
    ends.push(text.len())?;
    Ok(())
}

// Does the same, or clears all lines if only a part of this one was written.
fn write_or_clear<W: WrittenLine>(
    text: &mut LineText,
    ends: &mut SmallVec<usize, 4>,
    line: &W,
) -> Result<(), AllocError>
    ensures text { OnOk result (text.new ≡ text.old ++ line_text (W.bytes line.now)) }
    ensures ends { OnOk result (ends.new.items ≡ ends.old.items ++ length text.new ∷ []) }
    ensures err { OnErr result ((text.new ≡ []) × (ends.new.items ≡ [])) }
{
    match write_line(text, ends, line) {
        Ok(()) => Ok(()),
        Err(refusal) => {
            text.clear();
            ends.clear();
            Err(refusal)
        }
    }
}

// Where a line begins, or where the next would after the last.
fn start_of(ends: &[usize], i: usize) -> usize
    requires { i ≤ length ends.now }
    ensures { result ≡ line_start 0 ends.now i }
{
    if i == 0 { 0 } else { ends[i - 1] }
}

// Line `i` of the text, without its LF.
fn line_of<'a>(text: &'a [u8], ends: &[usize], i: usize) -> &'a [u8]
    requires flat { IsFlat ends.now text.now }
    requires line { i < length ends.now }
    ensures { slice_get (parted 0 ends.now text.now) i ≡ Some result.now }
{
    let whole = text_part(text, ends, i, i + 1);
    &whole[..whole.len() - 1]
}

// The text of the lines from one position to another.
fn text_part<'a>(text: &'a [u8], ends: &[usize], from: usize, to: usize) -> &'a [u8]
    requires flat { IsFlat ends.now text.now }
    requires order { from ≤ to }
    requires within { to ≤ length ends.now }
    ensures { result.now ≡ text_of (between from to (parted 0 ends.now text.now)) }
{
    let start = start_of(ends, from);
    let end = start_of(ends, to);
    &text[start..end]
}
