//! Running a script, and rerunning a changed script from a checkpoint.

ghost use Rattle.std.specs.Prelude.{◌≡◌, ◌+◌, ◌<◌, ◌≤◌, ◌^◌, ℕ, [], length, IfOk, OnOk, ◌-◌, map, IsTrue, false, Contains, slice_index};
ghost use Rattle.rb_script.specs.declared.limits.TheConstants.{MAX_DIRECTIVES};
ghost use Rattle.rb_script.specs.Script.{PlainScript};
ghost use Rattle.rb_replay.specs.Run.{state};
ghost use Rattle.rb_replay.specs.Running.{HasRun, PacedAt, PacedOn};
ghost use Rattle.rb_machine.specs.Cluster.{Cluster};
ghost use Rattle.rb_replay.specs.Points.{IsRising};
ghost use Rattle.rb_replay.specs.Splices.{IsNext};

use crate::blocks::block_at;
use crate::points::{count_below, find_start};
use crate::session::Session;
use crate::splice::Splice;
use rb_machine::{Count, Machine};
use rb_script::{Lines, Script};
use std::alloc::{AllocError, Global};
use std::rc::Rc;

/// The results so far of a run from a point on.
#[derive(Drop)]
pub(crate) struct Run<M> {
    pub(crate) alloc: Global,
    // shared with the session
    pub(crate) outputs: Vec<Rc<Lines>>,
    // the checkpoints on the way: their points, and their machines
    pub(crate) points: Vec<usize>,
    pub(crate) kept: Vec<M>,
    pub(crate) checkpoint_interval: usize,
    // the points where it began, and where it is
    pub(crate) from: usize,
    pub(crate) at: usize,
    // the number of directives until the next checkpoint
    pub(crate) until_checkpoint: usize,
}

impl<M: Machine> Run<M> {
    /// Starts a run.
    pub(crate) fn new(alloc: Global, checkpoint_interval: usize, from: usize) -> Run<M>
        ensures outputs { result.outputs.items ≡ [] }
        ensures points { result.points.items ≡ [] }
        ensures kept { result.kept.items ≡ [] }
        ensures checkpoint_interval { result.checkpoint_interval ≡ checkpoint_interval }
        ensures from { result.from ≡ from }
        ensures at { result.at ≡ from }
        ensures until_checkpoint { result.until_checkpoint ≡ checkpoint_interval }
    {
        Run {
            alloc,
            outputs: Vec::new(alloc),
            points: Vec::new(alloc),
            kept: Vec::new(alloc),
            checkpoint_interval,
            from,
            at: from,
            until_checkpoint: checkpoint_interval,
        }
    }

    /// Retains a checkpoint after each checkpoint interval.
    pub(crate) fn retain_checkpoint(&mut self, machine: &M) -> Result<(), AllocError>
        requires spaced { 1 ≤ self.old.checkpoint_interval }
        requires paced { PacedAt self.old }
        ensures paced { OnOk result (PacedOn self.new) }
        ensures run { (s : PlainScript) → HasRun M.meaning s self.old → M.meaning machine.now ≡ state s self.old.at → OnOk result (HasRun M.meaning s self.new) }
        ensures checkpoint_interval { self.new.checkpoint_interval ≡ self.old.checkpoint_interval }
        ensures from { self.new.from ≡ self.old.from }
        ensures at { self.new.at ≡ self.old.at }
    {
        if self.until_checkpoint > 0 {
            return Ok(());
        }
        self.kept.push(machine.try_copy()?)?;
        self.points.push(self.at)?;
        self.until_checkpoint = self.checkpoint_interval;
        Ok(())
    }

    /// Runs the next directive of the script.
    pub(crate) fn step(
        &mut self,
        machine: M,
        script: &Script,
        meter: &mut M::Meter,
    ) -> Result<M, AllocError>
        requires there { self.old.at < length script.now.blocks }
        requires few { length script.now.blocks ≤ MAX_DIRECTIVES }
        requires run { HasRun M.meaning script.now self.old }
        requires paced { PacedOn self.old }
        requires machine { M.meaning machine ≡ state script.now self.old.at }
        requires meter { M.Meter.count_of meter.old < 2 ^ 63 }
        ensures run { OnOk result (HasRun M.meaning script.now self.new) }
        ensures paced { OnOk result (PacedAt self.new) }
        ensures machine { IfOk result (λ next. M.meaning next ≡ state script.now self.new.at) }
        ensures checkpoint_interval { self.new.checkpoint_interval ≡ self.old.checkpoint_interval }
        ensures from { self.new.from ≡ self.old.from }
        ensures at { OnOk result (self.new.at ≡ self.old.at + 1) }
        ensures counted { M.Meter.count_of meter.new ≡ M.Meter.count_of meter.old + 1 }
    {
        let block = block_at(script, self.at);
        let (next, lines) = machine.run(block.directive(), meter)?;
        self.outputs.push(Rc::new(self.alloc, lines)?)?;
        self.at += 1;
        self.until_checkpoint -= 1;
        Ok(next)
    }
}

/// A rerun, and the point where it met an old cluster, if it did.
#[derive(Drop)]
pub(crate) struct Rerun<M> {
    pub(crate) running: Run<M>,
    pub(crate) met: Option<usize>,
}

/// Whether there is a checkpoint at the point. The index is its own, or that of the next checkpoint.
fn is_kept(points: &[usize], index: usize, point: usize) -> bool
    requires rising { IsRising 0 points.now }
    requires next { IsNext points.now point index }
    ensures kept { IsTrue result → (index < length points.now) × (slice_index points.now index ≡ point) × Contains points.now point }
    ensures none { result ≡ false → (Contains points.now point → ⊥) × IsNext points.now (point + 1) index }
{
    match points.get(index) {
        Some(kept) => *kept == point,
        None => false,
    }
}

/// Whether the machine's cluster equals the old checkpoint for this point of the new script. If it doesn't, the index moves on to the
/// next checkpoint.
fn meets<M: Machine>(
    splice: Splice,
    points: &[usize],
    kept: &[M],
    index: &mut usize,
    machine: &M,
    at: usize,
) -> bool
    requires paired { length kept.now ≡ length points.now }
    requires rising { IsRising 0 points.now }
    requires small { at + splice.old_rest < 2 ^ 63 }
    requires next { IsNext points.now (at - splice.new_rest + splice.old_rest) index.old }
    ensures met { (f : ℕ → Cluster) → map M.meaning kept.now ≡ map f points.now → IsTrue result → (splice.new_rest ≤ at) × Contains points.now (at - splice.new_rest + splice.old_rest) × (M.meaning machine.now ≡ f (at - splice.new_rest + splice.old_rest)) }
    ensures unmet { (f : ℕ → Cluster) → map M.meaning kept.now ≡ map f points.now → result ≡ false → splice.new_rest ≤ at → Contains points.now (at - splice.new_rest + splice.old_rest) → M.meaning machine.now ≡ f (at - splice.new_rest + splice.old_rest) → ⊥ }
    ensures next { result ≡ false → IsNext points.now (at + 1 - splice.new_rest + splice.old_rest) index.new }
{
    if at < splice.new_rest {
        return false;
    }
    let here = *index;
    if !is_kept(points, here, at - splice.new_rest + splice.old_rest) {
        return false;
    }
    *index = here + 1;
    machine.same(&kept[here])
}

impl<M: Machine> Session<M> {
    ghost use Rattle.std.specs.Prelude.{◌≡◌, ◌+◌, ◌-◌, ◌≤◌, ◌^◌, ℕ, length, IfOk, OnErr};
    ghost use Rattle.rb_script.specs.declared.limits.TheConstants.{MAX_DIRECTIVES};
    ghost use Rattle.rb_replay.specs.Run.{state};
    ghost use Rattle.rb_replay.specs.Points.{last_up_to};
    ghost use Rattle.rb_replay.specs.Holding.{Holding};
    ghost use Rattle.rb_replay.specs.Reuse.{change_by, IsChange, IsCost};
    ghost use Rattle.rb_replay.specs.Splices.{IsRerun};

    /// Copies the last checkpoint up to a point, with its own point.
    ///
    /// # Errors
    ///
    /// If memory was refused.
    pub fn last_checkpoint(&self, front: usize) -> Result<(usize, M), AllocError>
        requires { front ≤ MAX_DIRECTIVES }
        ensures point { IfOk result (λ found. found.0 ≡ last_up_to front self.now.points) }
        ensures machine { IfOk result (λ found. M.meaning found.1 ≡ state self.now.script found.0) }
    {
        let index = find_start(&self.points, front);
        let machine = self.kept[index].try_copy()?;
        Ok((self.points[index], machine))
    }

    /// Reruns the new script from the last checkpoint to the first equal one, or to its end.
    pub(crate) fn run_on(
        &self,
        new: &Script,
        splice: Splice,
        meter: &mut M::Meter,
    ) -> Result<Rerun<M>, AllocError>
        requires change { IsChange (change_by self.now new.now splice) }
        requires few { length new.now.blocks ≤ MAX_DIRECTIVES }
        requires meter { M.Meter.count_of meter.old ≤ 2 ^ 62 }
        ensures run { IfOk result (IsRerun M.meaning (change_by self.now new.now splice)) }
        ensures counted { IfOk result (λ run. M.Meter.count_of meter.new ≡ M.Meter.count_of meter.old + (run.running.at - run.running.from)) }
        ensures refused { OnErr result ((n : ℕ) → IsCost (change_by self.now new.now splice) n → M.Meter.count_of meter.new ≤ M.Meter.count_of meter.old + n) }
        ensures least { M.Meter.count_of meter.old ≤ M.Meter.count_of meter.new }
        ensures most { M.Meter.count_of meter.new ≤ M.Meter.count_of meter.old + length new.now.blocks }
    {
        let (from, mut machine) = self.last_checkpoint(splice.front)?;
        let mut running = Run::new(self.alloc, self.checkpoint_interval, from);
        let mut index = count_below(&self.points, splice.old_rest);
        'steps: while !meets(
            splice,
            &self.points,
            &self.kept,
            &mut index,
            &machine,
            running.at,
        ) {
            running.retain_checkpoint(&machine)?;
            if running.at == new.len() {
                return Ok(Rerun { running, met: None });
            }
            machine = running.step(machine, new, meter)?;
        }
        let at = running.at;
        running.kept.push(machine)?;
        running.points.push(at)?;
        Ok(Rerun {
            running,
            met: Some(at),
        })
    }
}
