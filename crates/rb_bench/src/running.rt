//! One run of a script, from bytes to bytes.

ghost use Rattle.std.specs.Prelude.{◌≡◌, ◌≢◌, ◌↔◌, ◌⊎◌, ◌≤◌, true, false, ℕ, List, length, Err, IsErrOf, IsOk, IfSome, OnOk};
ghost use Rattle.std.specs.Io.KnownBytes.{Consumes};
ghost use Rattle.rb_text.specs.Asked.{AsksFor, Fails};
ghost use Rattle.rb_script.specs.Reading.{early_fault};
ghost use Rattle.rb_script.specs.Writes.{Writes};
ghost use Rattle.rb_replay.specs.Start.{is_checkpoint_interval};
ghost use Rattle.rb_bench.specs.Handed.{IsHandedOn};
ghost use Rattle.rb_bench.specs.Runs.{Answers, RunsOver, IsWritten, text_for, status_for, most_read};

use crate::fault::BenchFault;
use crate::outlet::Outlet;
use crate::progress::RunProgress;
use crate::runner::Runner;
use crate::starting::BenchSession;
use rb_replay::is_checkpoint_interval;
use rb_report::check::Status;
use rb_script::{MAX_SCRIPT, Sink, WriteFault};
use rb_text::{Source, read_up_to};
use std::alloc::Global;
use std::mem::forget;

/// The text that a run writes.
#[derive(Clone, Copy, Debug, PartialEq, Eq)]
pub enum Mode {
    /// The report: each mismatch, and the counts.
    Run,
    /// The script, with each expectation replaced by the output.
    Rewrite,
}

/// Reads a script, runs it and writes the text of `mode`. Returns the program's status: `Matched`, or `Mismatched` if a report has
/// mismatches. `every` is the checkpoint interval, 1 to 64; it is checked, and has no other effect. Reports to `progress` which directive runs, and
/// the end of the run before anything is written.
///
/// The memory of the run isn't freed, since the program ends after it. To run many scripts, use sessions of rb_replay.
///
/// # Errors
///
/// `Spacing` before anything is read. `Io` if a call of the source or the writer fails; the writer is called only for a script.
/// `OutOfMemory`, and `Script` if the bytes are not a script.
pub fn run_over<S: Source, W: Outlet, P: RunProgress>(
    alloc: Global,
    source: &mut S,
    writer: &mut W,
    mode: Mode,
    every: u64,
    progress: &P,
) -> Result<Status, BenchFault>
    // Found before anything is read.
    ensures checkpoint_interval { IsErrOf result BenchFault.Spacing ↔ (is_checkpoint_interval every ≡ false) }
    ensures unread { IsErrOf result BenchFault.Spacing → (source.new ≡ source.old) × (writer.new ≡ writer.old) }
    // At most one byte more than a script may have is read, by at most as many calls.
    ensures consumed { (taken : List ℕ) × (length taken ≤ most_read) × Consumes (S.left source.old) (S.left source.new) taken }
    ensures asked { IsErrOf result BenchFault.Spacing ⊎ AsksFor (S.left source.old) (S.asked source.old) (S.asked source.new) most_read }
    // A call of the source that failed is a failure of the whole.
    ensures unfailed { OnOk result (Fails (S.asked source.old) (S.asked source.new) 0) }
    // Where the source's bytes are known.
    ensures answered { is_checkpoint_interval every ≡ true → IfSome (S.left source.old) (λ all. RunsOver mode all (S.left source.new) result (W.held writer.old) (W.held writer.new)) }
    // The text is flushed.
    ensures handed { OnOk result (IsHandedOn (W.handed writer.new) (W.held writer.new)) }
    // No failure is answered where no call failed.
    ensures io { S.gives_all source.old → W.takes_all writer.old → result ≢ Err BenchFault.Io }
{
    if !is_checkpoint_interval(every) {
        return Err(BenchFault::Spacing);
    }
    let bytes = read_up_to(alloc, source, MAX_SCRIPT + 1)?;
    run_read(alloc, bytes, writer, mode, progress)
}

// Runs the script of the bytes and writes the text of `mode`.
fn run_read<W: Outlet, P: RunProgress>(
    alloc: Global,
    bytes: Vec<u8>,
    writer: &mut W,
    mode: Mode,
    progress: &P,
) -> Result<Status, BenchFault>
    ensures own { result ≢ Err BenchFault.Spacing }
    ensures answered { Answers mode bytes.items result (W.held writer.old) (W.held writer.new) }
    // Faults of length are found whether or not there is memory.
    ensures early { IfSome (early_fault bytes.items) (λ fault. result ≡ Err (BenchFault.Script fault)) }
    ensures handed { OnOk result (IsHandedOn (W.handed writer.new) (W.held writer.new)) }
    ensures io { W.takes_all writer.old → result ≢ Err BenchFault.Io }
{
    // No edit follows, and no text depends on checkpoints.
    let mut runner = Runner::new(alloc, progress);
    let run = runner.run_script(&bytes, false)?;
    drop(bytes);
    let status = write_run(&run.session, writer, mode);
    // To give it back piece by piece would take a short run a tenth of its time.
    forget(run);
    status
}

/// Writes the text of `mode` of a session's script, and returns the status.
///
/// # Errors
///
/// `Io` if the writer fails.
pub fn write_run<W: Outlet>(
    session: &BenchSession,
    writer: &mut W,
    mode: Mode,
) -> Result<Status, BenchFault>
    ensures wrote { IsWritten mode session.now.script result (W.held writer.old) (W.held writer.new) }
    ensures handed { OnOk result (IsHandedOn (W.handed writer.new) (W.held writer.new)) }
    ensures all { W.takes_all writer.old → IsOk result }
{
    write_out(session, writer, mode)?;
    Ok(status(session, mode))
}

// Writes what the mode asks for, and hands it on.
fn write_out<W: Outlet>(
    session: &BenchSession,
    writer: &mut W,
    mode: Mode,
) -> Result<(), WriteFault>
    ensures wrote { Writes result (W.held writer.old) (W.held writer.new) (text_for mode session.now.script) }
    ensures handed { OnOk result (IsHandedOn (W.handed writer.new) (W.held writer.new)) }
    ensures all { W.takes_all writer.old → IsOk result × W.takes_all writer.new }
{
    match put_text(session, writer, mode) {
        Ok(()) => writer.flush(),
        Err(fault) => Err(fault),
    }
}

// Writes what the mode asks for.
fn put_text<S: Sink>(session: &BenchSession, sink: &mut S, mode: Mode) -> Result<(), WriteFault>
    ensures wrote { Writes result (S.held sink.old) (S.held sink.new) (text_for mode session.now.script) }
    ensures all { S.takes_all sink.old → IsOk result × S.takes_all sink.new }
{
    match mode {
        Mode::Run => session.write_report(sink),
        Mode::Rewrite => session.write_rewritten(sink),
    }
}

// The status of what the mode asks for.
pub(crate) fn status(session: &BenchSession, mode: Mode) -> Status
    ensures { result ≡ status_for mode session.now.script }
{
    match mode {
        Mode::Run => {
            if session.mismatches().is_empty() {
                Status::Matched
            } else {
                Status::Mismatched
            }
        }
        Mode::Rewrite => Status::Matched,
    }
}
