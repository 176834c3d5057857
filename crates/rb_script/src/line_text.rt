//! A text, into which lines are written.

ghost use Rattle.std.specs.Prelude.{◌≡◌, [], ◌∷◌, ◌++◌, length, OnOk, IfOk, OnErr};
ghost use Rattle.rb_script.specs.Lines.{line_text};
ghost use Rattle.rb_script.specs.LineTexts.{stored_bytes};

use crate::short_text::{SHORT, ShortText};
use std::alloc::{AllocError, Global};
use std::marker::Model;

// The capacity of a text that outgrows its value. Most texts of two or three lines fit in it.
const ROOM: usize = 104;

/// The text of lines. A short one needs no allocation.
pub struct LineText {
    kept: TextBytes,
    // the allocator
    alloc: Global,
}

// Written by hand, so that dropping one is a call for the prover, and is proved only here.
impl Drop for LineText {
    fn drop(self) {
        let LineText { kept: _, alloc: _ } = self;
    }
}

/// The storage of a text.
pub(crate) enum TextBytes {
    /// In the value itself.
    Short(ShortText),
    /// On the heap.
    Long(Vec<u8>),
}

// Written by hand, so that dropping one is a call for the prover, and is proved only here.
impl Drop for TextBytes {
    fn drop(self) {
        match self {
            TextBytes::Short(_) | TextBytes::Long(_) => {}
        }
    }
}

impl Model for LineText {
    ghost use Rattle.std.specs.Prelude.{List, ℕ};
    ghost use Rattle.rb_script.specs.LineTexts.{stored_bytes};

    ghost Value = { List ℕ };

    ghost view = { λ t. stored_bytes t.kept };
}

impl LineText {
    /// Makes an empty text. Allocates nothing.
    pub(crate) fn new(alloc: Global) -> Self
        ensures { result ≡ [] }
    {
        LineText {
            kept: TextBytes::Short(ShortText::new()),
            alloc,
        }
    }

    /// Makes an empty text with room for this many bytes.
    pub(crate) fn with_room(alloc: Global, room: usize) -> Result<Self, AllocError>
        ensures { IfOk result (λ text. text ≡ []) }
    {
        if room <= SHORT {
            return Ok(LineText::new(alloc));
        }
        Ok(LineText {
            kept: TextBytes::Long(Vec::with_capacity(alloc, room)?),
            alloc,
        })
    }

    /// Makes a text of these bytes.
    pub(crate) fn of(alloc: Global, bytes: &[u8]) -> Result<Self, AllocError>
        ensures { IfOk result (λ text. text ≡ bytes.now) }
    {
        let mut text = LineText::with_room(alloc, bytes.len())?;
        text.extend_from_slice(bytes)?;
        Ok(text)
    }

    /// The allocator.
    pub(crate) fn allocator(&self) -> Global {
        self.alloc
    }

    /// The number of bytes.
    #[inline(always)]
    pub fn len(&self) -> usize
        ensures { result ≡ length self.now }
    {
        match &self.kept {
            TextBytes::Short(short) => short.len(),
            TextBytes::Long(long) => long.len(),
        }
    }

    /// The bytes.
    #[inline(always)]
    pub fn as_slice(&self) -> &[u8]
        ensures { result.now ≡ self.now }
    {
        match &self.kept {
            TextBytes::Short(short) => short.as_slice(),
            TextBytes::Long(long) => long.as_slice(),
        }
    }

    /// Appends a byte.
    #[inline(always)]
    pub fn push(&mut self, byte: u8) -> Result<(), AllocError>
        ensures ok { OnOk result (self.new ≡ self.old ++ byte ∷ []) }
        ensures err { OnErr result (self.new ≡ self.old) }
    {
        self.kept.push(self.alloc, byte)
    }

    /// Appends bytes.
    #[inline(always)]
    pub fn extend_from_slice(&mut self, bytes: &[u8]) -> Result<(), AllocError>
        ensures ok { OnOk result (self.new ≡ self.old ++ bytes.now) }
        ensures err { OnErr result (self.new ≡ self.old) }
    {
        self.kept.extend_from_slice(self.alloc, bytes)
    }

    /// Appends a line with its LF.
    pub(crate) fn push_line(&mut self, line: &[u8]) -> Result<(), AllocError>
        ensures ok { OnOk result (self.new ≡ self.old ++ line_text line.now) }
        ensures err { OnErr result (self.new ≡ self.old) }
    {
        self.kept.push_line(self.alloc, line)
    }

    /// Removes all bytes.
    pub(crate) fn clear(&mut self)
        ensures { self.new ≡ [] }
    {
        self.kept = TextBytes::Short(ShortText::new());
    }
}

impl TextBytes {
    ghost use Rattle.std.specs.Prelude.{◌≡◌, [], ◌∷◌, ◌++◌, OnOk, OnErr};
    ghost use Rattle.rb_script.specs.Lines.{line_text};
    ghost use Rattle.rb_script.specs.LineTexts.{stored_bytes};

    #[inline(always)]
    fn push(&mut self, alloc: Global, byte: u8) -> Result<(), AllocError>
        ensures ok { OnOk result (stored_bytes self.new ≡ stored_bytes self.old ++ byte ∷ []) }
        ensures err { OnErr result (stored_bytes self.new ≡ stored_bytes self.old) }
    {
        match self {
            TextBytes::Long(long) => {
                long.push(byte)?;
                Ok(())
            }
            TextBytes::Short(short) => {
                if short.len() < SHORT {
                    short.push(byte);
                    Ok(())
                } else {
                    self.grow(alloc, &[byte])
                }
            }
        }
    }

    #[inline(always)]
    fn extend_from_slice(&mut self, alloc: Global, bytes: &[u8]) -> Result<(), AllocError>
        ensures ok { OnOk result (stored_bytes self.new ≡ stored_bytes self.old ++ bytes.now) }
        ensures err { OnErr result (stored_bytes self.new ≡ stored_bytes self.old) }
    {
        match self {
            TextBytes::Long(long) => long.extend_from_slice(bytes),
            TextBytes::Short(short) => {
                if bytes.len() <= SHORT - short.len() {
                    short.extend_from_slice(bytes);
                    Ok(())
                } else {
                    self.grow(alloc, bytes)
                }
            }
        }
    }

    // Appends bytes to a text that has no more room in its value. Few texts need this, each of them once.
    #[cold]
    #[inline(never)]
    fn grow(&mut self, alloc: Global, bytes: &[u8]) -> Result<(), AllocError>
        ensures ok { OnOk result (stored_bytes self.new ≡ stored_bytes self.old ++ bytes.now) }
        ensures err { OnErr result (stored_bytes self.new ≡ stored_bytes self.old) }
    {
        match self {
            TextBytes::Short(short) => {
                *self = TextBytes::Long(longer(alloc, short, bytes)?);
                Ok(())
            }
            TextBytes::Long(long) => long.extend_from_slice(bytes),
        }
    }

    fn push_line(&mut self, alloc: Global, line: &[u8]) -> Result<(), AllocError>
        ensures ok { OnOk result (stored_bytes self.new ≡ stored_bytes self.old ++ line_text line.now) }
        ensures err { OnErr result (stored_bytes self.new ≡ stored_bytes self.old) }
    {
        match self {
            TextBytes::Short(short) => {
                if line.len() < SHORT - short.len() {
                    short.extend_from_slice(line);
                    short.push(b'\n');
                } else {
                    *self = TextBytes::Long(longer_line(alloc, short, line)?);
                }
                Ok(())
            }
            TextBytes::Long(long) => add_line(long, line),
        }
    }
}

// Makes a text that no longer fits in the value, with more bytes and room for an LF.
fn longer(alloc: Global, short: &ShortText, bytes: &[u8]) -> Result<Vec<u8>, AllocError>
    ensures { IfOk result (λ long. long.items ≡ short.now ++ bytes.now) }
{
    let most = short.len().saturating_add(bytes.len()).saturating_add(1);
    let mut long = Vec::with_capacity(alloc, most.max(ROOM))?;
    long.extend_from_slice(short.as_slice())?;
    long.extend_from_slice(bytes)?;
    Ok(long)
}

// Does the same with a line and its LF.
fn longer_line(alloc: Global, short: &ShortText, line: &[u8]) -> Result<Vec<u8>, AllocError>
    ensures { IfOk result (λ long. long.items ≡ short.now ++ line_text line.now) }
{
    let mut long = longer(alloc, short, line)?;
    long.push(b'\n')?;
    Ok(long)
}

// Appends the line with its LF. Reserves first, so that a failure changes nothing.
fn add_line(long: &mut Vec<u8>, line: &[u8]) -> Result<(), AllocError>
    ensures ok { OnOk result (long.new.items ≡ long.old.items ++ line_text line.now) }
    ensures err { OnErr result (long.new.items ≡ long.old.items) }
{
    long.reserve(line.len() + 1)?;
    long.extend_from_slice(line)?;
    long.push(b'\n')?;
    Ok(())
}
