//! The steps of the script that some bytes are.

ghost use Rattle.std.specs.Prelude.{◌≡◌, ◌≢◌, Err, IfErr, IfOk, IfSome, MatchOption};
ghost use Rattle.rb_script.specs.HeadLines.{AreHeadLines};
ghost use Rattle.rb_script.specs.Lines.{lines};
ghost use Rattle.rb_script.specs.Script.{PlainScript};
ghost use Rattle.rb_script.specs.Reads.{Reads};
ghost use Rattle.rb_script.specs.Reading.{early_fault, read_of};
ghost use Rattle.rb_replay.specs.Report.{mismatches};
ghost use Rattle.rb_bench.specs.Faults.{TellsFault};
ghost use Rattle.rb_bench.specs.Runs.{status_of};
ghost use Rattle.rb_program.specs.Written.{AreRowsOf, AreStepsOf, IsPastPage, RowsHaveNoRoom};

use crate::reading::read_script;
use rb_bench::BenchFault;
use rb_cluster::{Cluster, Meter};
use rb_machine::Machine;
use rb_raftlog::SplitLog;
use rb_replay::Session;
use rb_report::check::Status;
use rb_script::{Lines, ScriptWithLines};
use rb_view::steps::{StepMachine, steps_of};
use std::alloc::{AllocError, Global};

/// The rows of a script after the first, each as a text, and the status of its report.
#[derive(Drop)]
pub(crate) struct ScriptSteps {
    pub(crate) texts: Lines,
    pub(crate) status: Status,
}

// Runs a script, which was read from the bytes, each directive once, and gives a session on it and its rows; none only if a page has no room for them.
fn rows<M: StepMachine>(
    alloc: Global,
    read: ScriptWithLines,
    bytes: &[u8],
) -> Result<Option<(Session<M>, Lines)>, AllocError>
    requires reads { Reads bytes.now read.script }
    requires lines { read.lines ≡ lines bytes.now }
    requires heads { AreHeadLines 1 (lines bytes.now) read.script.blocks read.heads.items }
    ensures script { IfOk result (λ ran. IfSome ran (λ r. r.0.script ≡ read.script)) }
    ensures rows { IfOk result (λ ran. MatchOption ran (RowsHaveNoRoom bytes.now read.script) (λ r. AreRowsOf bytes.now read.script r.1)) }
{
    let ran = steps_of(alloc, read, bytes, &mut Meter::new())?;
    Ok(ran)
}

/// The status of the mismatches.
pub(crate) fn status<M: Machine>(session: &Session<M>) -> Status
    ensures { result ≡ status_of (mismatches session.now.script) }
{
    if session.mismatches().is_empty() {
        Status::Matched
    } else {
        Status::Mismatched
    }
}

/// Reads the script of the bytes, runs it once, and gives its steps; none only if a page has no room for their rows.
///
/// # Errors
///
/// `Script` if the bytes are not a script, and `OutOfMemory`.
pub(crate) fn read_steps(alloc: Global, bytes: &[u8]) -> Result<Option<ScriptSteps>, BenchFault>
    ensures read { IfOk result (λ steps. MatchOption steps (IsPastPage bytes.now) (λ s. AreStepsOf bytes.now s.texts s.status)) }
    // A script is refused only if memory is refused.
    ensures only { (s : PlainScript) → Reads bytes.now s → IfErr result (λ fault. fault ≡ BenchFault.OutOfMemory) }
    ensures refused { IfErr result (λ fault. TellsFault fault (read_of bytes.now)) }
    // A script that is too long is refused whether or not there is memory.
    ensures early { IfSome (early_fault bytes.now) (λ fault. result ≡ Err (BenchFault.Script fault)) }
    // Nothing else is read or written, and no spacing is looked at.
    ensures own { IfErr result (λ fault. (fault ≢ BenchFault.Io) × (fault ≢ BenchFault.Spacing)) }
{
    let read = read_script(alloc, bytes)?;
    let Ok(ran) = rows::<Cluster<SplitLog>>(alloc, read, bytes) else {
        return Err(BenchFault::OutOfMemory);
    };
    let Some((session, texts)) = ran else {
        return Ok(None);
    };
    Ok(Some(ScriptSteps {
        texts,
        status: status(&session),
    }))
}
