//! The page of a script, from bytes to bytes.

ghost use Rattle.std.specs.Prelude.{◌≡◌, ◌≢◌, ◌≤◌, ℕ, List, length, Err, IfOk, IsOk, IfSome, OnOk};
ghost use Rattle.std.specs.Io.KnownBytes.{Consumes};
ghost use Rattle.rb_text.specs.Asked.{AsksFor, Fails};
ghost use Rattle.rb_script.specs.Reading.{early_fault};
ghost use Rattle.rb_script.specs.Writes.{Writes};
ghost use Rattle.rb_bench.specs.Handed.{IsHandedOn};
ghost use Rattle.rb_bench.specs.Runs.{most_read};
ghost use Rattle.rb_view.specs.Pages.{page_joined};
ghost use Rattle.rb_program.specs.Written.{Tells, TellsOver};

use crate::script_steps::read_steps;
use rb_bench::{BenchFault, Outlet};
use rb_report::check::Status;
use rb_script::{Lines, MAX_SCRIPT, WriteFault};
use rb_text::{Source, read_up_to};
use rb_view::steps::{Frame, put_page};
use std::alloc::Global;

/// Reads a script, runs it and writes its page, under this name. The answer is the program's status: `Matched`, or `Mismatched` where there are
/// mismatches; `Refused` if a page has no room for its rows, of which nothing is written.
///
/// # Errors
///
/// `Io` where a call of the source failed, or of the writer, which is called only for a script whose rows
/// are all there. `OutOfMemory`, and `Script` where what was read is no script, as [`page_bytes`] answers.
pub(crate) fn page_over<S: Source, W: Outlet>(
    alloc: Global,
    source: &mut S,
    writer: &mut W,
    frame: Frame<'_>,
    name: &[u8],
) -> Result<Status, BenchFault>
    // No more than needed is read from the source, whatever the result, in as few calls.
    ensures consumed { (taken : List ℕ) × (length taken ≤ most_read) × Consumes (S.left source.old) (S.left source.new) taken }
    ensures asked { AsksFor (S.left source.old) (S.asked source.old) (S.asked source.new) most_read }
    // If the source's bytes are known.
    // A call of the source that failed is a failure of the whole.
    ensures unfailed { OnOk result (Fails (S.asked source.old) (S.asked source.new) 0) }
    ensures answered { IfSome (S.left source.old) (λ all. TellsOver (page_joined frame.entry.front.now frame.entry.back.now name.now) all (S.left source.new) result (W.held writer.old) (W.held writer.new)) }
    // The output was flushed.
    ensures handed { IfOk result (λ status. status ≢ Status.Refused → IsHandedOn (W.handed writer.new) (W.held writer.new)) }
    // Without a failed call the result is not a failure.
    ensures io { S.gives_all source.old → W.takes_all writer.old → result ≢ Err BenchFault.Io }
{
    let bytes = read_up_to(alloc, source, MAX_SCRIPT + 1)?;
    page_bytes(alloc, bytes.as_slice(), writer, frame, name)
}

/// Runs the script of the bytes and writes its page, as [`page_over`] does with its input.
///
/// # Errors
///
/// `Script` where the bytes are no script, `Io` where they are one and the writer failed, and `OutOfMemory`, of which nothing is written.
pub(crate) fn page_bytes<W: Outlet>(
    alloc: Global,
    bytes: &[u8],
    writer: &mut W,
    frame: Frame<'_>,
    name: &[u8],
) -> Result<Status, BenchFault>
    ensures answered { Tells (page_joined frame.entry.front.now frame.entry.back.now name.now) bytes.now result (W.held writer.old) (W.held writer.new) }
    // A script that is too long is refused whether or not there is memory.
    ensures early { IfSome (early_fault bytes.now) (λ fault. result ≡ Err (BenchFault.Script fault)) }
    ensures handed { IfOk result (λ status. status ≢ Status.Refused → IsHandedOn (W.handed writer.new) (W.held writer.new)) }
    ensures io { W.takes_all writer.old → result ≢ Err BenchFault.Io }
{
    let Some(steps) = read_steps(alloc, bytes)? else {
        return Ok(Status::Refused);
    };
    match write_out(writer, frame, name, &steps.texts) {
        Ok(()) => Ok(steps.status),
        Err(_) => Err(BenchFault::Io),
    }
}

// Writes a page, and hands it on.
fn write_out<W: Outlet>(
    writer: &mut W,
    frame: Frame<'_>,
    name: &[u8],
    texts: &Lines,
) -> Result<(), WriteFault>
    ensures wrote { Writes result (W.held writer.old) (W.held writer.new) (page_joined frame.entry.front.now frame.entry.back.now name.now texts.now) }
    ensures handed { OnOk result (IsHandedOn (W.handed writer.new) (W.held writer.new)) }
    ensures all { W.takes_all writer.old → IsOk result × W.takes_all writer.new }
{
    match put_page(writer, frame, name, texts) {
        Ok(()) => writer.flush(),
        Err(fault) => Err(fault),
    }
}
