//! The trace of a script, from bytes to bytes.

ghost use Rattle.std.specs.Prelude.{◌≡◌, ◌≢◌, ◌≤◌, ℕ, List, length, Err, IsOk, IfErr, IfOk, IfSome, OnOk};
ghost use Rattle.std.specs.Io.KnownBytes.{Consumes};
ghost use Rattle.rb_text.specs.Asked.{AsksFor, Fails};
ghost use Rattle.rb_script.specs.HeadLines.{AreHeadLines};
ghost use Rattle.rb_script.specs.Lines.{lines, text_of};
ghost use Rattle.rb_script.specs.Reading.{early_fault, read_of};
ghost use Rattle.rb_script.specs.Reads.{Reads};
ghost use Rattle.rb_script.specs.Script.{PlainScript};
ghost use Rattle.rb_script.specs.Writes.{Writes};
ghost use Rattle.rb_bench.specs.Faults.{TellsFault};
ghost use Rattle.rb_bench.specs.Handed.{IsHandedOn};
ghost use Rattle.rb_bench.specs.Runs.{most_read};
ghost use Rattle.rb_program.specs.Traced.{AreLinesOf, IsTraceOf, Traces, TracesOver};

use crate::reading::read_script;
use crate::script_steps::status;
use rb_bench::{BenchFault, Outlet};
use rb_cluster::{Cluster, Meter};
use rb_raftlog::{RaftLog, SplitLog};
use rb_replay::Session;
use rb_report::check::Status;
use rb_script::{Lines, MAX_SCRIPT, ScriptWithLines, Sink, WriteFault};
use rb_text::{Source, read_up_to};
use rb_view::trace::trace_of;
use std::alloc::{AllocError, Global};

/// Reads a script, runs it and writes its trace, under this name. The answer is the program's status: `Matched`, or `Mismatched` where there are
/// mismatches.
///
/// # Errors
///
/// `Io` where a call of the source failed, or of the writer, which is called only for a script whose trace is all there. `OutOfMemory`, and
/// `Script` where what was read is no script, as [`trace_bytes`] answers.
pub(crate) fn trace_over<S: Source, W: Outlet>(
    alloc: Global,
    source: &mut S,
    writer: &mut W,
    name: &[u8],
) -> Result<Status, BenchFault>
    // No more than needed is read from the source, whatever the result, in as few calls.
    ensures consumed { (taken : List ℕ) × (length taken ≤ most_read) × Consumes (S.left source.old) (S.left source.new) taken }
    ensures asked { AsksFor (S.left source.old) (S.asked source.old) (S.asked source.new) most_read }
    // A call of the source that failed is a failure of the whole.
    ensures unfailed { OnOk result (Fails (S.asked source.old) (S.asked source.new) 0) }
    // If the source's bytes are known.
    ensures answered { IfSome (S.left source.old) (λ all. TracesOver name.now all (S.left source.new) result (W.held writer.old) (W.held writer.new)) }
    // The output was flushed.
    ensures handed { OnOk result (IsHandedOn (W.handed writer.new) (W.held writer.new)) }
    // Without a failed call the result is not a failure.
    ensures io { S.gives_all source.old → W.takes_all writer.old → result ≢ Err BenchFault.Io }
{
    let bytes = read_up_to(alloc, source, MAX_SCRIPT + 1)?;
    trace_bytes(alloc, bytes.as_slice(), writer, name)
}

/// Runs the script of the bytes and writes its trace, as [`trace_over`] does with its input.
///
/// # Errors
///
/// `Script` where the bytes are no script, `Io` where they are one and the writer failed, and `OutOfMemory`, of which nothing is written.
pub(crate) fn trace_bytes<W: Outlet>(
    alloc: Global,
    bytes: &[u8],
    writer: &mut W,
    name: &[u8],
) -> Result<Status, BenchFault>
    ensures answered { Traces name.now bytes.now result (W.held writer.old) (W.held writer.new) }
    // A script that is too long is refused whether or not there is memory.
    ensures early { IfSome (early_fault bytes.now) (λ fault. result ≡ Err (BenchFault.Script fault)) }
    ensures handed { OnOk result (IsHandedOn (W.handed writer.new) (W.held writer.new)) }
    ensures io { W.takes_all writer.old → result ≢ Err BenchFault.Io }
{
    let trace = read_trace(alloc, bytes, name)?;
    match write_out(writer, &trace.lines) {
        Ok(()) => Ok(trace.status),
        Err(_) => Err(BenchFault::Io),
    }
}

// The lines of a trace, and the status that a report of its script would have.
#[derive(Drop)]
struct ScriptTrace {
    lines: Lines,
    status: Status,
}

// Runs a script, which was read from the bytes, each directive once, and gives a session on it and the lines of its trace.
fn traced<L: RaftLog>(
    alloc: Global,
    read: ScriptWithLines,
    bytes: &[u8],
    name: &[u8],
) -> Result<(Session<Cluster<L>>, Lines), AllocError>
    requires reads { Reads bytes.now read.script }
    requires heads { AreHeadLines 1 (lines bytes.now) read.script.blocks read.heads.items }
    ensures script { IfOk result (λ ran. ran.0.script ≡ read.script) }
    ensures lines { IfOk result (λ ran. AreLinesOf name.now bytes.now read.script ran.1) }
{
    let ran = trace_of(
        alloc,
        name,
        read.script,
        read.heads.as_slice(),
        &mut Meter::new(),
    )?;
    Ok(ran)
}

// Reads the script of the bytes, runs it once, and gives its trace.
fn read_trace(alloc: Global, bytes: &[u8], name: &[u8]) -> Result<ScriptTrace, BenchFault>
    ensures read { IfOk result (λ trace. IsTraceOf name.now bytes.now trace.lines trace.status) }
    // A script is refused only if memory is refused.
    ensures only { (s : PlainScript) → Reads bytes.now s → IfErr result (λ fault. fault ≡ BenchFault.OutOfMemory) }
    ensures refused { IfErr result (λ fault. TellsFault fault (read_of bytes.now)) }
    // A script that is too long is refused whether or not there is memory.
    ensures early { IfSome (early_fault bytes.now) (λ fault. result ≡ Err (BenchFault.Script fault)) }
    // Nothing else is read or written, and no spacing is looked at.
    ensures own { IfErr result (λ fault. (fault ≢ BenchFault.Io) × (fault ≢ BenchFault.Spacing)) }
{
    let read = read_script(alloc, bytes)?;
    let Ok((session, lines)) = traced::<SplitLog>(alloc, read, bytes, name) else {
        return Err(BenchFault::OutOfMemory);
    };
    Ok(ScriptTrace {
        lines,
        status: status(&session),
    })
}

// Writes a trace, and hands it on.
fn write_out<W: Outlet>(writer: &mut W, lines: &Lines) -> Result<(), WriteFault>
    ensures wrote { Writes result (W.held writer.old) (W.held writer.new) (text_of lines.now) }
    ensures handed { OnOk result (IsHandedOn (W.handed writer.new) (W.held writer.new)) }
    ensures all { W.takes_all writer.old → IsOk result × W.takes_all writer.new }
{
    match writer.put(lines.text()) {
        Ok(()) => writer.flush(),
        Err(fault) => Err(fault),
    }
}
