//! The picture of a script, from bytes to bytes.

ghost use Rattle.std.specs.Prelude.{◌≡◌, ◌≢◌, ◌≤◌, ℕ, List, length, Err, IfOk, IfSome, IsOk, OnOk};
ghost use Rattle.std.specs.Io.KnownBytes.{Consumes};
ghost use Rattle.rb_text.specs.Asked.{AsksFor, Fails};
ghost use Rattle.rb_script.specs.Reading.{early_fault};
ghost use Rattle.rb_script.specs.Writes.{Writes};
ghost use Rattle.rb_bench.specs.Handed.{IsHandedOn};
ghost use Rattle.rb_bench.specs.Runs.{most_read};
ghost use Rattle.rb_view.specs.Charts.{chart_text};
ghost use Rattle.rb_program.specs.Drawn.{Draws, DrawsOver};

use crate::reading::read_script;
use crate::script_chart::picture_of;
use rb_bench::{BenchFault, Outlet};
use rb_report::check::Status;
use rb_script::{MAX_SCRIPT, WriteFault};
use rb_text::{Source, read_up_to};
use rb_view::chart::{Chart, ChartPart, STYLE, put_chart};
use std::alloc::Global;

/// Reads a script, runs it and writes the picture of its run, or of a part of it, under this name. The answer is the program's status:
/// `Matched`, or `Mismatched` where an output is not the expected one; `Refused` where more happens than a picture has room for, of which
/// nothing is written.
///
/// # Errors
///
/// `Io` where a call of the source failed, or of the writer, which is called only for a script whose picture is all there. `OutOfMemory`, and
/// `Script` where what was read is no script, as [`chart_bytes`] answers.
pub(crate) fn chart_over<S: Source, W: Outlet>(
    alloc: Global,
    source: &mut S,
    writer: &mut W,
    name: &[u8],
    part: ChartPart,
) -> Result<Status, BenchFault>
    // No more than needed is read from the source, whatever the result, in as few calls.
    ensures consumed { (taken : List ℕ) × (length taken ≤ most_read) × Consumes (S.left source.old) (S.left source.new) taken }
    ensures asked { AsksFor (S.left source.old) (S.asked source.old) (S.asked source.new) most_read }
    // If the source's bytes are known.
    // A call of the source that failed is a failure of the whole.
    ensures unfailed { OnOk result (Fails (S.asked source.old) (S.asked source.new) 0) }
    ensures answered { IfSome (S.left source.old) (λ all. DrawsOver STYLE.now part all (S.left source.new) result (W.held writer.old) (W.held writer.new)) }
    // The output was flushed.
    ensures handed { IfOk result (λ status. status ≢ Status.Refused → IsHandedOn (W.handed writer.new) (W.held writer.new)) }
    // Without a failed call the result is not a failure.
    ensures io { S.gives_all source.old → W.takes_all writer.old → result ≢ Err BenchFault.Io }
{
    let bytes = read_up_to(alloc, source, MAX_SCRIPT + 1)?;
    chart_bytes(alloc, bytes.as_slice(), writer, name, part)
}

/// Runs the script of the bytes and writes its picture, as [`chart_over`] does with its input.
///
/// # Errors
///
/// `Script` where the bytes are no script, `Io` where they are one and the writer failed, and `OutOfMemory`, of which nothing is written.
pub(crate) fn chart_bytes<W: Outlet>(
    alloc: Global,
    bytes: &[u8],
    writer: &mut W,
    name: &[u8],
    part: ChartPart,
) -> Result<Status, BenchFault>
    ensures answered { Draws STYLE.now part bytes.now result (W.held writer.old) (W.held writer.new) }
    // A script that is too long is refused whether or not there is memory.
    ensures early { IfSome (early_fault bytes.now) (λ fault. result ≡ Err (BenchFault.Script fault)) }
    ensures handed { IfOk result (λ status. status ≢ Status.Refused → IsHandedOn (W.handed writer.new) (W.held writer.new)) }
    ensures io { W.takes_all writer.old → result ≢ Err BenchFault.Io }
{
    let read = read_script(alloc, bytes)?;
    let Ok(picture) = picture_of(alloc, name, bytes, read, part) else {
        return Err(BenchFault::OutOfMemory);
    };
    let Some(picture) = picture else {
        return Ok(Status::Refused);
    };
    match put_out(writer, &picture.chart) {
        Ok(()) => Ok(picture.status),
        Err(_) => Err(BenchFault::Io),
    }
}

// Writes a picture, and hands it on.
fn put_out<W: Outlet>(writer: &mut W, chart: &Chart) -> Result<(), WriteFault>
    ensures wrote { Writes result (W.held writer.old) (W.held writer.new) (chart_text STYLE.now chart.now) }
    ensures handed { OnOk result (IsHandedOn (W.handed writer.new) (W.held writer.new)) }
    ensures all { W.takes_all writer.old → IsOk result × W.takes_all writer.new }
{
    match put_chart(writer, chart) {
        Ok(()) => writer.flush(),
        Err(fault) => Err(fault),
    }
}
