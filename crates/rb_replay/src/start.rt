//! Starting a session.

ghost use Rattle.std.specs.Prelude.{◌≡◌, ◌+◌, ◌≤◌, ◌^◌, length, map, IfOk, OnOk, OnErr};
ghost use Rattle.rb_script.specs.declared.limits.TheConstants.{MAX_DIRECTIVES};
ghost use Rattle.rb_script.specs.Shared.{values};
ghost use Rattle.rb_replay.specs.Run.{state, outputs};
ghost use Rattle.rb_replay.specs.Points.{start_points};

use crate::checkpoint_interval::is_checkpoint_interval;
use crate::differing::list_differing;
use crate::fault::StartFault;
use crate::outputs::Outputs;
use crate::run::Run;
use crate::session::Session;
use rb_machine::{Count, Machine};
use rb_script::{ChunkedList, MAX_DIRECTIVES, Script};
use std::alloc::{AllocError, Global};

impl<M: Machine> Session<M> {
    ghost use Rattle.std.specs.Prelude.{◌≡◌, ◌≢◌, ◌+◌, ◌≤◌, ◌^◌, ◌∷◌, [], ℕ, true, false, length, IfOk, IfErr, IfSome, OnOk, OnErr, Ok, Err};
    ghost use Rattle.rb_script.specs.declared.limits.TheConstants.{MAX_DIRECTIVES};
    ghost use Rattle.rb_script.specs.Script.{PlainScript};
    ghost use Rattle.rb_script.specs.Reads.{Reads};
    ghost use Rattle.rb_script.specs.Reading.{read_of, early_fault};
    ghost use Rattle.rb_replay.specs.Run.{outputs as run_outputs};
    ghost use Rattle.rb_replay.specs.Points.{start_points};
    ghost use Rattle.rb_replay.specs.Holding.{Holding, IsFresh, IsOneRun};
    ghost use Rattle.rb_replay.specs.Start.{is_checkpoint_interval, TellsStartFault, RisesFor};

    /// Reads the script of the bytes and runs it whole. Clusters are kept every so many directives: each
    /// 1 to 64, which is looked at first.
    pub fn start(
        alloc: Global,
        bytes: &[u8],
        every: u64,
        meter: &mut M::Meter,
    ) -> Result<Session<M>, StartFault>
        requires { M.Meter.count_of meter.old ≤ 2 ^ 62 }
        // The script is the one of the bytes, and what is held is what one run of it gives.
        ensures script { IfOk result (λ s. Reads bytes.now s.script) }
        ensures fresh { IfOk result IsFresh }
        ensures checkpoint_interval { IfOk result (λ s. s.checkpoint_interval ≡ every) }
        // Clusters are kept at 0, `every`, twice `every` and so on, up to the end.
        ensures points { IfOk result (λ s. s.points ≡ start_points every (length s.script.blocks)) }
        // Each directive is executed once.
        ensures counted { IfOk result (λ s. M.Meter.count_of meter.new ≡ M.Meter.count_of meter.old + length s.script.blocks) }
        // The checkpoint interval is looked at before anything else.
        ensures bad_spacing { is_checkpoint_interval every ≡ false → result ≡ Err StartFault.BadSpacing }
        ensures spaced { result ≡ Err StartFault.BadSpacing → is_checkpoint_interval every ≡ false }
        // What is the script of the bytes is started, unless memory runs out.
        ensures only { (s : PlainScript) → Reads bytes.now s → is_checkpoint_interval every ≡ true → IfErr result (λ fault. fault ≡ StartFault.OutOfMemory) }
        // Which fault of reading it is; these are found whether or not there is memory.
        ensures refused { IfErr result (λ fault. TellsStartFault fault (read_of bytes.now)) }
        ensures early { is_checkpoint_interval every ≡ true → IfSome (early_fault bytes.now) (λ fault. result ≡ Err (StartFault.Script fault)) }
        // A refused start has executed nothing, or for want of memory at most the directives of the script.
        ensures risen { IfErr result (λ fault. RisesFor fault bytes.now (M.Meter.count_of meter.old) (M.Meter.count_of meter.new)) }
    {
        if !is_checkpoint_interval(every) {
            return Err(StartFault::BadSpacing);
        }
        Session::begin(alloc, bytes, every as usize, meter)
    }

    /// The session of a script that was run elsewhere, where it printed these, for whoever edits no directive: nothing is executed, and the
    /// empty cluster alone is kept, so an edit runs all that is before it.
    pub fn from_outputs(
        alloc: Global,
        script: Script,
        outputs: Outputs,
    ) -> Result<Session<M>, AllocError>
        requires few { length script.blocks ≤ MAX_DIRECTIVES }
        requires outputs { outputs ≡ run_outputs script }
        ensures script { IfOk result (λ s. s.script ≡ script) }
        ensures run { IfOk result IsOneRun }
        ensures points { IfOk result (λ s. s.points ≡ 0 ∷ []) }
    {
        let outputs = outputs.chunked()?;
        let mismatches = list_differing(alloc, &script, &outputs, 0, script.len())?;
        let mut points = Vec::new(alloc);
        points.push(0)?;
        let mut kept = Vec::new(alloc);
        kept.push(M::empty(alloc)?)?;
        Ok(Session {
            alloc,
            script,
            checkpoint_interval: MAX_DIRECTIVES + 1,
            outputs,
            mismatches,
            points,
            kept,
        })
    }

    /// Reads the script of the bytes, runs it whole, and compares the outputs with what is expected.
    fn begin(
        alloc: Global,
        bytes: &[u8],
        checkpoint_interval: usize,
        meter: &mut M::Meter,
    ) -> Result<Session<M>, StartFault>
        requires checkpoint_interval { 1 ≤ checkpoint_interval }
        requires meter { M.Meter.count_of meter.old ≤ 2 ^ 62 }
        ensures script { IfOk result (λ s. Reads bytes.now s.script) }
        ensures run { IfOk result IsOneRun }
        ensures checkpoint_interval { IfOk result (λ s. s.checkpoint_interval ≡ checkpoint_interval) }
        ensures points { IfOk result (λ s. s.points ≡ start_points checkpoint_interval (length s.script.blocks)) }
        ensures counted { IfOk result (λ s. M.Meter.count_of meter.new ≡ M.Meter.count_of meter.old + length s.script.blocks) }
        ensures spaced { result ≢ Err StartFault.BadSpacing }
        ensures only { (s : PlainScript) → Reads bytes.now s → IfErr result (λ fault. fault ≡ StartFault.OutOfMemory) }
        ensures refused { IfErr result (λ fault. TellsStartFault fault (read_of bytes.now)) }
        ensures early { IfSome (early_fault bytes.now) (λ fault. result ≡ Err (StartFault.Script fault)) }
        ensures risen { IfErr result (λ fault. RisesFor fault bytes.now (M.Meter.count_of meter.old) (M.Meter.count_of meter.new)) }
    {
        let script = Script::read(alloc, bytes)?;
        let running = run_whole(alloc, &script, checkpoint_interval, meter)?;
        let outputs = ChunkedList::of(alloc, running.outputs)?;
        let mismatches = list_differing(alloc, &script, &outputs, 0, script.len())?;
        Ok(Session {
            alloc,
            script,
            checkpoint_interval,
            outputs,
            mismatches,
            points: running.points,
            kept: running.kept,
        })
    }
}

/// Runs the script from the empty cluster to its end.
fn run_whole<M: Machine>(
    alloc: Global,
    script: &Script,
    checkpoint_interval: usize,
    meter: &mut M::Meter,
) -> Result<Run<M>, AllocError>
    requires least { 1 ≤ checkpoint_interval }
    requires few { length script.now.blocks ≤ MAX_DIRECTIVES }
    requires meter { M.Meter.count_of meter.old ≤ 2 ^ 62 }
    ensures outputs { IfOk result (λ c. values c.outputs.items ≡ outputs script.now) }
    ensures points { IfOk result (λ c. c.points.items ≡ start_points checkpoint_interval (length script.now.blocks)) }
    ensures states { IfOk result (λ c. map M.meaning c.kept.items ≡ map (state script.now) c.points.items) }
    ensures counted { OnOk result (M.Meter.count_of meter.new ≡ M.Meter.count_of meter.old + length script.now.blocks) }
    ensures refused { OnErr result (M.Meter.count_of meter.new ≤ M.Meter.count_of meter.old + length script.now.blocks) }
{
    let mut machine = M::empty(alloc)?;
    // A step takes the machine away, so what is kept at point 0 is copied before the first.
    let first = machine.try_copy()?;
    let mut running = Run::new(alloc, checkpoint_interval, 0);
    while running.at < script.len() {
        machine = running.step(machine, script, meter)?;
        running.retain_checkpoint(&machine)?;
    }
    // It comes in now, since a run counts its points from the first that it keeps on the way.
    running.kept.insert(0, first)?;
    running.points.insert(0, 0)?;
    Ok(running)
}
