//! A short text, stored in the value itself.

ghost use Rattle.std.specs.Prelude.{◌≡◌, ◌+◌, ◌<◌, ◌≤◌, [], ◌∷◌, ◌++◌, length, take};

use std::marker::Model;

/// The most bytes of a short text: enough for `ok`, an error, an event, or a line or two of a node.
pub(crate) const SHORT: usize = 46;

/// A text of at most [`SHORT`] bytes, with its length.
#[derive(Drop)]
pub(crate) struct ShortText {
    bytes: [u8; SHORT],
    len: u8,
}

impl Model for ShortText {
    ghost use Rattle.std.specs.Prelude.{List, ℕ, take};
    ghost use Rattle.rb_script.specs.ShortTexts.{IsShort};

    ghost Value = { List ℕ };

    ghost view = { λ s. take s.len s.bytes };

    ghost invariant = { λ s. IsShort s.bytes s.len };
}

impl ShortText {
    /// Makes an empty text.
    pub(crate) fn new() -> ShortText
        ensures { result ≡ [] }
    {
        ShortText {
            bytes: [0; SHORT],
            len: 0,
        }
    }

    /// The number of bytes.
    #[inline(always)]
    pub(crate) fn len(&self) -> usize
        ensures len { result ≡ length self.now }
        ensures most { result ≤ SHORT }
    {
        self.len as usize
    }

    /// The bytes.
    #[inline(always)]
    pub(crate) fn as_slice(&self) -> &[u8]
        ensures { result.now ≡ self.now }
    {
        &self.bytes[..self.len as usize]
    }

    /// Appends bytes.
    #[inline(always)]
    pub(crate) fn extend_from_slice(&mut self, bytes: &[u8])
        requires { length self.old + length bytes.now ≤ SHORT }
        ensures { self.new ≡ self.old ++ bytes.now }
    {
        let start = self.len as usize;
        put_at(&mut self.bytes, start, bytes);
        self.len = (start + bytes.len()) as u8;
    }

    /// Appends a byte.
    #[inline(always)]
    pub(crate) fn push(&mut self, byte: u8)
        requires { length self.old < SHORT }
        ensures { self.new ≡ self.old ++ byte ∷ [] }
    {
        self.bytes[self.len as usize] = byte;
        self.len += 1;
    }
}

// Copies the bytes to this position.
#[inline(always)]
fn put_at(all: &mut [u8], start: usize, bytes: &[u8])
    requires { start + length bytes.now ≤ length all.old }
    ensures len { length all.new ≡ length all.old }
    ensures put { take (start + length bytes.now) all.new ≡ take start all.old ++ bytes.now }
{
    all[start..start + bytes.len()].copy_from_slice(bytes);
}
