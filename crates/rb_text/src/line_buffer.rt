//! A line, received byte by byte.

ghost use Rattle.std.specs.Prelude.{◌≡◌, ◌↔◌, ◌≤◌, ℕ, List, [], length, vec_capacity, IfOk, IsTrue};
ghost use Rattle.rb_script.specs.Lines.{without_returns};
ghost use Rattle.rb_text.specs.Begun.{Holds};
ghost use Rattle.rb_text.specs.Pushing.{Pushes};

use rb_script::{MAX_LINE, without_returns};
use std::alloc::{AllocError, Global};
use std::marker::Model;

/// The result of pushing a byte.
#[derive(Clone, Copy, Debug, PartialEq, Eq)]
pub enum PushByte {
    /// The line continues.
    Continue,
    /// The byte ends the line.
    EndOfLine,
    /// The line is too long.
    TooLong,
}

/// The bytes of a line so far, at most [`MAX_LINE`]. Further bytes are carriage returns of the line's end, which needn't be
/// stored, or the line is too long.
#[derive(Drop)]
pub struct LineBuffer {
    bytes: Vec<u8>,
}

impl Model for LineBuffer {
    ghost use Rattle.std.specs.Prelude.{◌≤◌, List, ℕ, length, vec_capacity};
    ghost use Rattle.rb_script.specs.declared.limits.TheConstants.{MAX_LINE};

    ghost Value = { List ℕ };

    ghost view = { λ a. a.bytes.items };

    ghost invariant = { λ a. (MAX_LINE ≤ vec_capacity a.bytes) × (length a.bytes.items ≤ MAX_LINE) };
}

impl LineBuffer {
    /// Makes an empty line, with room for the longest one.
    ///
    /// # Errors
    ///
    /// If there is no memory. No other call allocates.
    pub fn new(alloc: Global) -> Result<LineBuffer, AllocError>
        ensures { IfOk result (λ line. line ≡ []) }
    {
        let bytes = Vec::with_capacity(alloc, MAX_LINE)?;
        Ok(LineBuffer { bytes })
    }

    /// Pushes a byte of the line, or the LF that ends it. After `TooLong` the line is unchanged.
    pub fn push(&mut self, byte: u8) -> PushByte
        ensures { (begun : List ℕ) → Holds begun self.old → Pushes result begun byte self.old self.new }
    {
        if byte == b'\n' {
            return PushByte::EndOfLine;
        }
        if self.bytes.len() < MAX_LINE {
            self.bytes.push(byte).unwrap();
            return PushByte::Continue;
        }
        if byte == b'\r' {
            PushByte::Continue
        } else {
            PushByte::TooLong
        }
    }

    /// The line so far, without the carriage returns at its end.
    pub fn line(&self) -> &[u8]
        ensures value { result.now ≡ without_returns self.now }
        ensures begun { (begun : List ℕ) → Holds begun self.now → result.now ≡ without_returns begun }
    {
        without_returns(self.bytes.as_slice())
    }

    /// Whether the line has no bytes so far.
    pub fn is_empty(&self) -> bool
        ensures { IsTrue result ↔ (self.now ≡ []) }
    {
        self.bytes.is_empty()
    }

    /// Clears the buffer for the next line.
    pub fn clear(&mut self)
        ensures value { self.new ≡ [] }
        ensures begun { Holds [] self.new }
    {
        self.bytes.clear();
    }
}
