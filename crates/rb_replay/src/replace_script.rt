//! Replacing the script of a session.

use crate::longest::longest_splice;
use crate::session::{Changed, Session};
use crate::splice::Common;
use rb_machine::{Count, Machine};
use rb_script::Script;
use std::alloc::AllocError;

impl<M: Machine> Session<M> {
    ghost use Rattle.std.specs.Prelude.{◌≡◌, ◌+◌, ◌≤◌, ◌^◌, ℕ, length, IfOk, OnErr};
    ghost use Rattle.rb_script.specs.declared.limits.TheConstants.{MAX_DIRECTIVES};
    ghost use Rattle.rb_replay.specs.Holding.{Holding, IsOneRun};
    ghost use Rattle.rb_replay.specs.Replacements.{IsReplacement, IsReplacementCost};

    /// Replaces the script, and reruns the difference: from the last checkpoint in the longest common front of directives, to a checkpoint
    /// in the longest common rest where the clusters are equal. If only expectations, comments or the tail differ, nothing runs.
    ///
    /// # Errors
    ///
    /// If there is no memory. Nothing is changed then.
    pub fn replace_script(
        &mut self,
        script: Script,
        meter: &mut M::Meter,
    ) -> Result<Changed, AllocError>
        requires few { length script.blocks ≤ MAX_DIRECTIVES }
        requires meter { M.Meter.count_of meter.old ≤ 2 ^ 62 }
        // The session is that of one run of the script. If there is no memory, it is unchanged.
        ensures answer { IsReplacement self.old script result self.new }
        // It executes as many directives as it reports, or at most as many if memory ran out.
        ensures counted { IfOk result (λ changed. M.Meter.count_of meter.new ≡ M.Meter.count_of meter.old + changed.executed) }
        ensures refused { OnErr result ((n : ℕ) → IsReplacementCost self.old script n → M.Meter.count_of meter.new ≤ M.Meter.count_of meter.old + n) }
        // The meter never falls, and rises by at most the number of directives.
        ensures least { M.Meter.count_of meter.old ≤ M.Meter.count_of meter.new }
        ensures most { M.Meter.count_of meter.new ≤ M.Meter.count_of meter.old + length script.blocks }
        // In any case the session is that of one run of its script.
        ensures fresh { IsOneRun self.new }
    {
        let splice = longest_splice(&self.script, &script);
        self.replay(script, splice, Common::Directives, meter)
    }
}
