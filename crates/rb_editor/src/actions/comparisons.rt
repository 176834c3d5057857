//! The diffs of a text's mismatches, kept for the document's next text, so that an edit compares only what it changes.
//!
//! A diff depends on the expectation, on the output, and on whether enough cells are left to compare them. If these are the same, so is the diff.
//! At most one diff is kept for each mismatch, and those that the next text doesn't use are dropped. The text of a kept diff is part of its
//! mismatch's message, its expected lines are shared with the script, and its output is a copy of the session's. So what is kept is at most
//! as long as the outputs and the messages together.

ghost use Rattle.std.specs.Prelude.{◌≡◌, IfSome, IsTrue};
ghost use Rattle.rb_editor.specs.Comparisons.{IsDiffOf};

use rb_script::Lines;
use std::alloc::{AllocError, Global};
use std::mem;

/// The diff of an expectation and an output.
#[derive(Drop)]
pub(crate) struct Diff {
    /// Its text, without the end of its last line.
    pub(crate) text: Vec<u8>,
    /// How many cells were left for it.
    pub(crate) left: usize,
    /// How many of these it took to compare the lines. None if they weren't compared.
    pub(crate) cells: usize,
}

// A diff, and the lines that it compares.
#[derive(Drop)]
struct Comparison {
    expected: Lines,
    output: Lines,
    diff: Diff,
    ghost made: { IsDiffOf diff.left expected output diff },
}

impl Comparison {
    // Copies the lines, or shares them if they are shared.
    fn new(diff: Diff, expected: &Lines, output: &Lines) -> Result<Comparison, AllocError>
        requires { IsDiffOf diff.left expected.now output.now diff }
    {
        Ok(Comparison {
            expected: expected.try_copy()?,
            output: output.try_copy()?,
            diff,
        })
    }

    // Whether the diff stays the same if this many cells are left: enough for lines that were compared, or no more than before for others.
    fn holds_with(&self, left: usize) -> bool
        ensures { IsTrue result → IsDiffOf left self.now.expected self.now.output self.now.diff }
    {
        if self.diff.cells == 0 {
            left <= self.diff.left
        } else {
            self.diff.cells <= left
        }
    }

    // Whether it compares these lines.
    fn is_of(&self, expected: &Lines, output: &Lines) -> bool
        ensures expected { IsTrue result → self.now.expected ≡ expected.now }
        ensures output { IsTrue result → self.now.output ≡ output.now }
    {
        self.expected.same(expected) && self.output.same(output)
    }
}

/// The diffs of a text's mismatches so far, and those of the text before that weren't used yet.
#[derive(Drop)]
pub(crate) struct Comparisons {
    // In reverse order: the next one is the last.
    old: Vec<Comparison>,
    new: Vec<Comparison>,
    // The number of the text's mismatches that are left.
    due: usize,
}

impl Comparisons {
    /// Keeps nothing.
    pub(crate) fn none(alloc: Global) -> Comparisons {
        Comparisons {
            old: Vec::new(alloc),
            new: Vec::new(alloc),
            due: 0,
        }
    }

    /// Starts the next text, which has this many mismatches.
    pub(crate) fn begin(&mut self, mismatches: usize) {
        mem::swap(&mut self.old, &mut self.new);
        self.old.reverse();
        self.new.clear();
        self.due = mismatches;
    }

    /// Ends a text: drops the diffs that it didn't use.
    pub(crate) fn end(&mut self) {
        self.old.clear();
    }

    // Takes the next diff, if it is that of these lines with this many cells left.
    fn take_next(&mut self, left: usize, expected: &Lines, output: &Lines) -> Option<Diff>
        ensures known { IfSome result (λ d. IsDiffOf left expected.now output.now d) }
        ensures made { IfSome result (λ d. IsDiffOf d.left expected.now output.now d) }
    {
        let next = self.old.pop()?;
        if next.holds_with(left) && next.is_of(expected, output) {
            return Some(next.diff);
        }
        let _ = self.old.push(next);
        None
    }

    /// Takes the diff of the text's next mismatch, if it is kept.
    ///
    /// An edit changes a range of mismatches, and the others stay in order. So if the next kept diff is another, the edit has changed this mismatch.
    /// If more diffs are kept than mismatches are left, it has also removed some: the surplus is dropped. If as many are kept, the next one is.
    pub(crate) fn take(&mut self, left: usize, expected: &Lines, output: &Lines) -> Option<Diff>
        ensures known { IfSome result (λ d. IsDiffOf left expected.now output.now d) }
        ensures made { IfSome result (λ d. IsDiffOf d.left expected.now output.now d) }
    {
        let due = self.due;
        self.due = due.saturating_sub(1);
        let found = self.take_next(left, expected, output);
        if found.is_some() || self.old.len() < due {
            return found;
        }
        self.old.truncate(due);
        let found = self.take_next(left, expected, output);
        self.old.truncate(self.due);
        found
    }

    /// Keeps the diff of these lines for the next text. If memory is refused, it isn't kept.
    pub(crate) fn keep(&mut self, diff: Diff, expected: &Lines, output: &Lines)
        requires { IsDiffOf diff.left expected.now output.now diff }
    {
        if let Ok(comparison) = Comparison::new(diff, expected, output) {
            let _ = self.new.push(comparison);
        }
    }
}
