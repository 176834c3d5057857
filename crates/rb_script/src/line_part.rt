//! A slice of shared lines.

ghost use Rattle.std.specs.Prelude.{◌≡◌, ◌↔◌, ◌<◌, ◌≤◌, [], length, slice_get, IfOk, IsTrue, Some};
ghost use Rattle.rb_script.specs.Lines.{text_of};
ghost use Rattle.rb_script.specs.Flat.{between, ends_of};

use crate::flat::FlatLines;
use crate::shared_lines::SharedLines;
use std::alloc::{AllocError, Global};
use std::marker::Model;

/// Shared lines from one position to another. A copy costs a pointer.
pub(crate) struct LinePart {
    all: SharedLines,
    from: usize,
    to: usize,
}

// Written by hand, so that dropping one is a call for the prover, and is proved only here.
impl Drop for LinePart {
    fn drop(self) {
        let LinePart {
            all: _,
            from: _,
            to: _,
        } = self;
    }
}

impl Model for LinePart {
    ghost use Rattle.std.specs.Prelude.{List, ℕ};
    ghost use Rattle.rb_script.specs.Flat.{between, IsWithin};

    ghost Value = { List (List ℕ) };

    ghost view = { λ p. between p.from p.to p.all };

    ghost invariant = { λ p. IsWithin p.from p.to p.all };
}

impl LinePart {
    /// All lines, without copying.
    pub(crate) fn whole(all: SharedLines) -> Self
        ensures { result ≡ all }
    {
        let to = all.len();
        LinePart { all, from: 0, to }
    }

    /// Borrows the lines from one position to another, without copying.
    pub(crate) fn new(all: &SharedLines, from: usize, to: usize) -> Result<Self, AllocError>
        requires order { from ≤ to }
        requires within { to ≤ length all.now }
        ensures { IfOk result (λ part. part ≡ between from to all.now) }
    {
        Ok(LinePart {
            all: all.try_copy()?,
            from,
            to,
        })
    }

    /// The allocator.
    pub(crate) fn allocator(&self) -> Global {
        self.all.allocator()
    }

    /// The number of lines.
    pub(crate) fn len(&self) -> usize
        ensures { result ≡ length self.now }
    {
        self.to - self.from
    }

    /// Whether there are no lines.
    pub(crate) fn is_empty(&self) -> bool
        ensures { IsTrue result ↔ (self.now ≡ []) }
    {
        self.len() == 0
    }

    /// Line `i`, counted from 0, without its end.
    pub(crate) fn line(&self, i: usize) -> &[u8]
        requires { i < length self.now }
        ensures { slice_get self.now i ≡ Some result.now }
    {
        self.all.line(self.from + i)
    }

    /// Where the lines end in the whole text, and where the first one begins.
    pub(crate) fn ends(&self) -> (&[usize], usize)
        ensures { result.0.now ≡ ends_of result.1 self.now }
    {
        self.all.ends_between(self.from, self.to)
    }

    /// The lines as one text, each followed by LF.
    pub(crate) fn text(&self) -> &[u8]
        ensures { result.now ≡ text_of self.now }
    {
        self.all.text_between(self.from, self.to)
    }

    /// Copies the pointer to the lines.
    pub(crate) fn try_copy(&self) -> Result<Self, AllocError>
        ensures { IfOk result (λ copy. copy ≡ self.now) }
    {
        LinePart::new(&self.all, self.from, self.to)
    }

    /// Copies the lines into new memory.
    pub(crate) fn own(&self) -> Result<FlatLines, AllocError>
        ensures { IfOk result (λ copy. copy ≡ self.now) }
    {
        self.all.copy_between(self.from, self.to)
    }
}
