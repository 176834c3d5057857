//! Edits a session.

ghost use Rattle.std.specs.Prelude.{◌≡◌};
ghost use Rattle.rb_replay.specs.Reuse.{effect_of};

use crate::ready::install_checkpoints;
use crate::session::{Changed, Session};
use crate::splice::{Common, Effect, Splice};
use rb_machine::{Count, Machine};
use rb_script::{Edit, EditFault, Script};
use std::alloc::AllocError;

/// The effect of an edit on the run.
fn effect_of(edit: &Edit) -> Effect
    ensures { result ≡ effect_of edit.now }
{
    match edit {
        Edit::Insert(place, _) => replay_between(
            place.saturating_sub(1),
            place.saturating_sub(1),
            *place,
        ),
        Edit::Replace(place, _) => replay_between(place.saturating_sub(1), *place, *place),
        Edit::Remove(place) => replay_between(
            place.saturating_sub(1),
            *place,
            place.saturating_sub(1),
        ),
        Edit::Expect(place, _) => Effect::Expect(*place),
        Edit::Accept => Effect::Accept,
    }
}

fn replay_between(front: usize, old_rest: usize, new_rest: usize) -> Effect
    ensures { result ≡ Effect.Replay (record { front = front; old_rest = old_rest; new_rest = new_rest }) }
{
    Effect::Replay(Splice {
        front,
        old_rest,
        new_rest,
    })
}

impl<M: Machine> Session<M> {
    ghost use Rattle.std.specs.Prelude.{◌≡◌, ◌≢◌, ◌+◌, ◌≤◌, ◌^◌, ℕ, length, IfOk, IfErr, OnOk, OnErr, Ok, Err};
    ghost use Rattle.rb_script.specs.declared.limits.TheConstants.{MAX_DIRECTIVES};
    ghost use Rattle.rb_script.specs.Script.{PlainScript};
    ghost use Rattle.rb_script.specs.Edits.{edited, EditFails};
    ghost use Rattle.rb_replay.specs.Run.{outputs};
    ghost use Rattle.rb_replay.specs.Holding.{Holding, IsOneRun};
    ghost use Rattle.rb_replay.specs.Reuse.{change_by, IsChange, StayWhole, IsCost, Reuses, IsCostFor};
    ghost use Rattle.rb_replay.specs.After.{IsAnswer};

    /// Applies an edit, and reruns what it changes. A refused edit changes nothing. The first fault in the order of [`EditFault`] is
    /// reported. All but `OutOfMemory` are found before anything runs.
    pub fn edit(&mut self, edit: &Edit, meter: &mut M::Meter) -> Result<Changed, EditFault>
        requires { M.Meter.count_of meter.old ≤ 2 ^ 62 }
        // After an accepted edit the session is that of one run of the new script. A refused edit changes nothing.
        ensures answer { IsAnswer self.old edit.now result self.new }
        // Which fault is reported.
        ensures faults { IfErr result (λ fault. EditFails fault (edited self.old.script edit.now (outputs self.old.script))) }
        // Faults of the script are found whether or not there is memory.
        ensures early { IfErr (edited self.old.script edit.now (outputs self.old.script)) (λ fault. result ≡ Err fault) }
        // It executes as many directives as it reports; a refused edit none, or at most as many if memory ran out.
        ensures counted { IfOk result (λ changed. M.Meter.count_of meter.new ≡ M.Meter.count_of meter.old + changed.executed) }
        ensures not_run { IfErr result (λ fault. fault ≢ EditFault.OutOfMemory → M.Meter.count_of meter.new ≡ M.Meter.count_of meter.old) }
        ensures refused { OnErr result ((new : PlainScript) → edited self.old.script edit.now (outputs self.old.script) ≡ Ok new → (n : ℕ) → IsCostFor self.old edit.now new n → M.Meter.count_of meter.new ≤ M.Meter.count_of meter.old + n) }
        // The meter never falls, and rises by at most `MAX_DIRECTIVES`.
        ensures least { M.Meter.count_of meter.old ≤ M.Meter.count_of meter.new }
        ensures most { M.Meter.count_of meter.new ≤ M.Meter.count_of meter.old + MAX_DIRECTIVES }
        // In any case the session is that of one run of its script.
        ensures fresh { IsOneRun self.new }
    {
        let new = self.script.edited(edit, &self.outputs)?;
        match effect_of(edit) {
            Effect::Replay(splice) => Ok(self.replay(new, splice, Common::Blocks, meter)?),
            Effect::Expect(place) => Ok(self.expect(new, place)?),
            Effect::Accept => Ok(self.accept(new)),
        }
    }

    /// Replaces the script, and reruns what changed.
    pub(crate) fn replay(
        &mut self,
        new: Script,
        splice: Splice,
        common: Common,
        meter: &mut M::Meter,
    ) -> Result<Changed, AllocError>
        requires change { IsChange (change_by self.old new splice) }
        requires whole { common ≡ Common.Blocks → StayWhole (change_by self.old new splice) }
        requires few { length new.blocks ≤ MAX_DIRECTIVES }
        requires meter { M.Meter.count_of meter.old ≤ 2 ^ 62 }
        ensures script { OnOk result (self.new.script ≡ new) }
        ensures checkpoint_interval { self.new.checkpoint_interval ≡ self.old.checkpoint_interval }
        ensures reuse { IfOk result (λ changed. Reuses (change_by self.old new splice) changed.executed self.new.points) }
        ensures counted { IfOk result (λ changed. M.Meter.count_of meter.new ≡ M.Meter.count_of meter.old + changed.executed) }
        ensures mismatches { IfOk result (λ changed. changed.mismatches ≡ length self.new.mismatches) }
        ensures fresh { IsOneRun self.new }
        ensures err { OnErr result (self.new ≡ self.old) }
        ensures refused { OnErr result ((n : ℕ) → IsCost (change_by self.old new splice) n → M.Meter.count_of meter.new ≤ M.Meter.count_of meter.old + n) }
        ensures least { M.Meter.count_of meter.old ≤ M.Meter.count_of meter.new }
        ensures most { M.Meter.count_of meter.new ≤ M.Meter.count_of meter.old + length new.blocks }
    {
        let ready = self.prepare(&new, splice, common, meter)?;
        self.kept.reserve(ready.running.kept.len())?;
        // Nothing can fail from here on.
        let executed = (ready.running.at - ready.running.from) as u64;
        let mismatches = ready.mismatches.len();
        self.outputs = ready.outputs;
        self.points = ready.points;
        self.mismatches = ready.mismatches;
        self.script = new;
        install_checkpoints(
            ready.running,
            ready.rejoin,
            &mut self.points,
            &mut self.kept,
        );
        Ok(Changed {
            executed,
            mismatches,
        })
    }
}
