//! A session, and reading its state.

use crate::blocks::block_at;
use rb_machine::Machine;
use rb_script::{Block, ChunkedList, Lines, Script};
use std::alloc::Global;
use std::marker::Model;

/// A script with the outputs of one run, and checkpoints of that run.
pub struct Session<M: Machine> {
    pub(crate) alloc: Global,
    pub(crate) script: Script,
    pub(crate) checkpoint_interval: usize,
    pub(crate) outputs: ChunkedList<Lines>,
    pub(crate) mismatches: Vec<usize>,
    // the checkpoints: their points, and their clusters
    pub(crate) points: Vec<usize>,
    pub(crate) kept: Vec<M>,
}

// Written by hand, so that dropping one is a call for the prover, and is proved only here.
impl<M: Machine> Drop for Session<M> {
    fn drop(self) {
        let Session {
            alloc: _,
            script: _,
            checkpoint_interval: _,
            outputs: _,
            mismatches: _,
            points: _,
            kept: _,
        } = self;
    }
}

impl<M: Machine> Model for Session<M> {
    ghost use Rattle.std.specs.Prelude.{map};
    ghost use Rattle.rb_replay.specs.Holding.{Holding, IsOneRun};

    ghost Value = { Holding };

    ghost view = { λ s. record { script = s.script; checkpoint_interval = s.checkpoint_interval; outputs = s.outputs; mismatches = s.mismatches.items; points = s.points.items; kept = map M.meaning s.kept.items } };

    ghost invariant = { λ s. IsOneRun (record { script = s.script; checkpoint_interval = s.checkpoint_interval; outputs = s.outputs; mismatches = s.mismatches.items; points = s.points.items; kept = map M.meaning s.kept.items }) };
}

/// The result of an edit.
#[derive(Clone, Copy, Debug, PartialEq, Eq)]
pub struct Changed {
    /// The number of executed directives.
    pub executed: u64,
    /// The number of mismatches after it.
    pub mismatches: usize,
}

impl<M: Machine> Session<M> {
    ghost use Rattle.std.specs.Prelude.{◌≡◌, ◌==◌, ◌<◌, Some, length, option_copied, slice_get};
    ghost use Rattle.rb_replay.specs.Holding.{Holding, IsOneRun};
    ghost use Rattle.rb_replay.specs.Run.{at_place, output_at, outputs};
    ghost use Rattle.rb_replay.specs.Report.{mismatches};

    /// The number of directives.
    pub fn len(&self) -> usize
        ensures len { result ≡ length self.now.script.blocks }
        // The session is that of one run of its script.
        ensures fresh { IsOneRun self.now }
    {
        self.script.len()
    }

    /// Whether the script has no directives.
    pub fn is_empty(&self) -> bool
        ensures { result ≡ (length self.now.script.blocks == 0) }
    {
        self.script.is_empty()
    }

    /// The block at a place, counted from 1.
    pub fn block(&self, place: usize) -> Option<&Block>
        ensures { option_copied result ≡ at_place self.now.script.blocks place }
    {
        self.script.block(place)
    }

    /// The output of the directive at a place, counted from 1.
    pub fn output(&self, place: usize) -> Option<&Lines>
        ensures { option_copied result ≡ output_at self.now.script place }
    {
        match place {
            0 => None,
            _ => self.outputs.get(place - 1),
        }
    }

    /// The block of the directive at an index, counted from 0.
    pub fn block_at(&self, index: usize) -> &Block
        requires { index < length self.now.script.blocks }
        ensures { slice_get self.now.script.blocks index ≡ Some result.now }
    {
        block_at(&self.script, index)
    }

    /// The output of the directive at an index, counted from 0.
    pub fn output_at(&self, index: usize) -> &Lines
        requires { index < length self.now.script.blocks }
        ensures { slice_get (outputs self.now.script) index ≡ Some result.now }
    {
        self.outputs.at(index)
    }

    /// The places of mismatches, in order.
    pub fn mismatches(&self) -> &[usize]
        ensures { result.now ≡ mismatches self.now.script }
    {
        self.mismatches.as_slice()
    }

    /// The points of the checkpoints, in order. Point `i` is after the first `i` directives.
    pub fn checkpoints(&self) -> &[usize]
        ensures { result.now ≡ self.now.points }
    {
        self.points.as_slice()
    }
}
