//! Immutable lines that copies share.

ghost use Rattle.std.specs.Prelude.{◌≡◌, ◌<◌, ◌≤◌, length, slice_get, IfOk, Some};
ghost use Rattle.rb_script.specs.Lines.{text_of};
ghost use Rattle.rb_script.specs.Flat.{between, ends_of};

use crate::flat::FlatLines;
use std::alloc::{AllocError, Global};
use std::marker::Model;
use std::rc::Rc;

/// Immutable lines. A copy costs a pointer.
pub(crate) struct SharedLines {
    lines: Rc<FlatLines>,
}

// Written by hand, so that dropping one is a call for the prover, and is proved only here.
impl Drop for SharedLines {
    fn drop(self) {
        let SharedLines { lines: _ } = self;
    }
}

impl Model for SharedLines {
    ghost use Rattle.std.specs.Prelude.{List, ℕ};

    ghost Value = { List (List ℕ) };

    ghost view = { λ a. a.lines.value };
}

impl SharedLines {
    /// Makes the lines shared.
    pub(crate) fn new(alloc: Global, lines: FlatLines) -> Result<Self, AllocError>
        ensures { IfOk result (λ all. all ≡ lines) }
    {
        Ok(SharedLines {
            lines: Rc::new(alloc, lines)?,
        })
    }

    /// The allocator.
    pub(crate) fn allocator(&self) -> Global {
        self.lines.allocator()
    }

    /// The number of lines.
    pub(crate) fn len(&self) -> usize
        ensures { result ≡ length self.now }
    {
        self.lines.len()
    }

    /// Line `i`, counted from 0, without its end.
    pub(crate) fn line(&self, i: usize) -> &[u8]
        requires { i < length self.now }
        ensures { slice_get self.now i ≡ Some result.now }
    {
        self.lines.line(i)
    }

    /// Where the lines from one position to another end in the whole text, and where the first one begins.
    pub(crate) fn ends_between(&self, from: usize, to: usize) -> (&[usize], usize)
        requires order { from ≤ to }
        requires within { to ≤ length self.now }
        ensures { result.0.now ≡ ends_of result.1 (between from to self.now) }
    {
        self.lines.ends_between(from, to)
    }

    /// The text of the lines from one position to another.
    pub(crate) fn text_between(&self, from: usize, to: usize) -> &[u8]
        requires order { from ≤ to }
        requires within { to ≤ length self.now }
        ensures { result.now ≡ text_of (between from to self.now) }
    {
        self.lines.text_between(from, to)
    }

    /// Copies the lines from one position to another into new memory.
    pub(crate) fn copy_between(&self, from: usize, to: usize) -> Result<FlatLines, AllocError>
        requires order { from ≤ to }
        requires within { to ≤ length self.now }
        ensures { IfOk result (λ copy. copy ≡ between from to self.now) }
    {
        self.lines.copy_between(from, to)
    }

    /// Copies the pointer to the lines.
    pub(crate) fn try_copy(&self) -> Result<Self, AllocError>
        ensures { IfOk result (λ copy. copy ≡ self.now) }
    {
        Ok(SharedLines {
            lines: self.lines.clone()?,
        })
    }
}
