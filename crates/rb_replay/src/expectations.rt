//! Edits that only change expectations.

use crate::session::{Changed, Session};
use crate::splice::{Compared, Splice};
use rb_machine::Machine;
use rb_script::Script;
use std::alloc::AllocError;

impl<M: Machine> Session<M> {
    ghost use Rattle.std.specs.Prelude.{◌≡◌, ◌-◌, ◌≤◌, [], length, take, drop, IfOk, OnOk, OnErr};
    ghost use Rattle.rb_replay.specs.Run.{directives, outputs};
    ghost use Rattle.rb_replay.specs.Report.{mismatches};
    ghost use Rattle.rb_replay.specs.Holding.{Holding, IsOneRun};
    ghost use Rattle.rb_replay.specs.Splices.{IsUpdated, no_splice};

    /// Replaces the script by one with another expectation at this place.
    pub(crate) fn expect(&mut self, new: Script, place: usize) -> Result<Changed, AllocError>
        requires same { directives new ≡ directives self.old.script }
        requires first { 1 ≤ place }
        requires within { place ≤ length self.old.script.blocks }
        requires new_mismatches { IsUpdated self.old.script new no_splice (place - 1) (take 1 (drop (place - 1) (outputs self.old.script))) place }
        ensures script { OnOk result (self.new.script ≡ new) }
        ensures checkpoint_interval { self.new.checkpoint_interval ≡ self.old.checkpoint_interval }
        ensures points { self.new.points ≡ self.old.points }
        ensures executed { IfOk result (λ changed. changed.executed ≡ 0) }
        ensures mismatches { IfOk result (λ changed. changed.mismatches ≡ length self.new.mismatches) }
        ensures fresh { IsOneRun self.new }
        ensures err { OnErr result (self.new ≡ self.old) }
    {
        let splice = Splice {
            front: 0,
            old_rest: 0,
            new_rest: 0,
        };
        let compared = Compared {
            from: place - 1,
            to: place,
            old_stop: place,
        };
        let mismatches = self.new_mismatches(&new, splice, &self.outputs, compared)?;
        self.mismatches = mismatches;
        self.script = new;
        Ok(Changed {
            executed: 0,
            mismatches: self.mismatches.len(),
        })
    }

    /// Replaces the script by one whose directives expect their outputs.
    pub(crate) fn accept(&mut self, new: Script) -> Changed
        requires same { directives new ≡ directives self.old.script }
        requires none { mismatches new ≡ [] }
        ensures script { self.new.script ≡ new }
        ensures checkpoint_interval { self.new.checkpoint_interval ≡ self.old.checkpoint_interval }
        ensures points { self.new.points ≡ self.old.points }
        ensures executed { result.executed ≡ 0 }
        ensures mismatches { result.mismatches ≡ length self.new.mismatches }
        ensures fresh { IsOneRun self.new }
    {
        self.mismatches.clear();
        self.script = new;
        Changed {
            executed: 0,
            mismatches: 0,
        }
    }
}
