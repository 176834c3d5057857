//! Preparing a change: everything new is made before the session is changed.

use crate::differing::list_differing;
use crate::points::{count_below, joined};
use crate::ready::Ready;
use crate::run::Rerun;
use crate::session::Session;
use crate::splice::{Common, Compared, Splice};
use rb_machine::{Count, Machine};
use rb_script::{ChunkedList, Lines, Script};
use std::alloc::AllocError;

impl<M: Machine> Session<M> {
    ghost use Rattle.std.specs.Prelude.{◌≡◌, ◌+◌, ◌-◌, ◌≤◌, ◌^◌, ℕ, length, take, drop, IfOk, OnErr};
    ghost use Rattle.rb_script.specs.declared.limits.TheConstants.{MAX_DIRECTIVES};
    ghost use Rattle.rb_replay.specs.Run.{outputs};
    ghost use Rattle.rb_replay.specs.Report.{mismatches};
    ghost use Rattle.rb_replay.specs.Holding.{Holding};
    ghost use Rattle.rb_replay.specs.Reuse.{change_by, IsChange, StayWhole, IsCost};
    ghost use Rattle.rb_replay.specs.Splices.{IsRerun, IsRejoin, IsUpdated, IsReady};

    /// The mismatches of the new script. Those of the front stay, outputs are compared between two points, and those of the rest are moved.
    pub(crate) fn new_mismatches(
        &self,
        new: &Script,
        splice: Splice,
        new_outputs: &ChunkedList<Lines>,
        compared: Compared,
    ) -> Result<Vec<usize>, AllocError>
        requires few { length new.now.blocks ≤ MAX_DIRECTIVES }
        requires small { splice.new_rest ≤ MAX_DIRECTIVES }
        requires order { compared.from ≤ compared.to }
        requires there { compared.to ≤ length new_outputs.now }
        requires new_mismatches { IsUpdated self.now.script new.now splice compared.from (take (compared.to - compared.from) (drop compared.from new_outputs.now)) compared.old_stop }
        ensures { IfOk result (λ v. v.items ≡ mismatches new.now) }
    {
        let Compared { from, to, old_stop } = compared;
        let fresh = list_differing(self.alloc, new, new_outputs, from, to)?;
        let front = count_below(&self.mismatches, from + 1);
        let rest = count_below(&self.mismatches, old_stop + 1);
        joined(
            self.alloc,
            &self.mismatches[..front],
            &fresh,
            &self.mismatches[rest..],
            splice,
        )
    }

    /// The mismatches of the new script after a run. If any expectation may differ, all outputs are compared.
    fn mismatches_after(
        &self,
        new: &Script,
        splice: Splice,
        common: Common,
        run: &Rerun<M>,
        new_outputs: &ChunkedList<Lines>,
    ) -> Result<Vec<usize>, AllocError>
        requires change { IsChange (change_by self.now new.now splice) }
        requires whole { common ≡ Common.Blocks → StayWhole (change_by self.now new.now splice) }
        requires few { length new.now.blocks ≤ MAX_DIRECTIVES }
        requires run { IsRerun M.meaning (change_by self.now new.now splice) run.now }
        requires outputs { new_outputs.now ≡ outputs new.now }
        ensures { IfOk result (λ v. v.items ≡ mismatches new.now) }
    {
        match common {
            Common::Blocks => {
                let compared = Compared {
                    from: run.running.from,
                    to: run.running.at,
                    old_stop: self.bounds(new, splice, run).old_stop,
                };
                self.new_mismatches(new, splice, new_outputs, compared)
            }
            Common::Directives => list_differing(self.alloc, new, new_outputs, 0, new.len()),
        }
    }

    /// Assembles the new outputs, mismatches and points after a run.
    fn assemble(
        &self,
        new: &Script,
        splice: Splice,
        common: Common,
        run: Rerun<M>,
        rejoin: Rejoin,
    ) -> Result<Ready<M>, AllocError>
        requires change { IsChange (change_by self.now new.now splice) }
        requires whole { common ≡ Common.Blocks → StayWhole (change_by self.now new.now splice) }
        requires few { length new.now.blocks ≤ MAX_DIRECTIVES }
        requires run { IsRerun M.meaning (change_by self.now new.now splice) run }
        requires rejoin { IsRejoin (change_by self.now new.now splice) run.met rejoin }
        ensures ready { IfOk result (IsReady M.meaning (change_by self.now new.now splice) self.now.kept) }
        ensures running { IfOk result (λ ready. ready.running ≡ run.running) }
    {
        // The old outputs before the run, its own, and the old ones after it.
        let outputs = self.outputs.splice(
            self.alloc,
            run.running.from,
            &run.running.outputs,
            rejoin.old_stop,
        )?;
        let mismatches = self.mismatches_after(new, splice, common, &run, &outputs)?;
        let points = joined(
            self.alloc,
            &self.points[..rejoin.front],
            &run.running.points,
            &self.points[rejoin.rest..],
            splice,
        )?;
        Ok(Ready {
            running: run.running,
            rejoin,
            outputs,
            points,
            mismatches,
        })
    }

    /// Reruns what changed. Changes nothing but the meter.
    pub(crate) fn prepare(
        &self,
        new: &Script,
        splice: Splice,
        common: Common,
        meter: &mut M::Meter,
    ) -> Result<Ready<M>, AllocError>
        requires change { IsChange (change_by self.now new.now splice) }
        requires whole { common ≡ Common.Blocks → StayWhole (change_by self.now new.now splice) }
        requires few { length new.now.blocks ≤ MAX_DIRECTIVES }
        requires meter { M.Meter.count_of meter.old ≤ 2 ^ 62 }
        ensures ready { IfOk result (IsReady M.meaning (change_by self.now new.now splice) self.now.kept) }
        ensures counted { IfOk result (λ ready. M.Meter.count_of meter.new ≡ M.Meter.count_of meter.old + (ready.running.at - ready.running.from)) }
        ensures refused { OnErr result ((n : ℕ) → IsCost (change_by self.now new.now splice) n → M.Meter.count_of meter.new ≤ M.Meter.count_of meter.old + n) }
        ensures least { M.Meter.count_of meter.old ≤ M.Meter.count_of meter.new }
        ensures most { M.Meter.count_of meter.new ≤ M.Meter.count_of meter.old + length new.now.blocks }
    {
        let run = self.run_on(new, splice, meter)?;
        let rejoin = self.rejoin(new, splice, &run);
        self.assemble(new, splice, common, run, rejoin)
    }
}

/// Which part of the old run stays, and which is reused, by indices.
#[derive(Clone, Copy)]
pub(crate) struct Rejoin {
    // outputs are reused from this old point on
    pub(crate) old_stop: usize,
    // the number of old points that stay, and the index of the first one that is reused
    pub(crate) front: usize,
    pub(crate) rest: usize,
}

/// Where the old run continues, by old points.
#[derive(Clone, Copy)]
struct Bounds {
    // the old run is reused from here on
    old_stop: usize,
    // points below this one stay
    front: usize,
}

impl<M: Machine> Session<M> {
    ghost use Rattle.std.specs.Prelude.{◌≡◌, ◌≤◌, length};
    ghost use Rattle.rb_script.specs.declared.limits.TheConstants.{MAX_DIRECTIVES};
    ghost use Rattle.rb_replay.specs.Holding.{Holding};
    ghost use Rattle.rb_replay.specs.Reuse.{change_by, IsChange};
    ghost use Rattle.rb_replay.specs.Splices.{old_stop, front_bound, IsRerun, IsRejoin};

    /// Finds where the old run continues.
    fn bounds(&self, new: &Script, splice: Splice, run: &Rerun<M>) -> Bounds
        requires change { IsChange (change_by self.now new.now splice) }
        requires few { length new.now.blocks ≤ MAX_DIRECTIVES }
        requires run { IsRerun M.meaning (change_by self.now new.now splice) run.now }
        ensures old_stop { result.old_stop ≡ old_stop (change_by self.now new.now splice) run.now.met }
        ensures front { result.front ≡ front_bound (change_by self.now new.now splice) run.now.met }
    {
        let after = run.running.from + 1;
        match run.met {
            None => Bounds {
                old_stop: self.script.len(),
                front: after,
            },
            Some(at) => Bounds {
                old_stop: at - splice.new_rest + splice.old_rest,
                front: after.min(at),
            },
        }
    }

    /// Finds the same by indices of points.
    pub(crate) fn rejoin(&self, new: &Script, splice: Splice, run: &Rerun<M>) -> Rejoin
        requires change { IsChange (change_by self.now new.now splice) }
        requires few { length new.now.blocks ≤ MAX_DIRECTIVES }
        requires run { IsRerun M.meaning (change_by self.now new.now splice) run.now }
        ensures { IsRejoin (change_by self.now new.now splice) run.now.met result }
    {
        let bounds = self.bounds(new, splice, run);
        Rejoin {
            old_stop: bounds.old_stop,
            front: count_below(&self.points, bounds.front),
            rest: count_below(&self.points, bounds.old_stop + 1),
        }
    }
}
