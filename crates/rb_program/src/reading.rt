//! Reading a script with its lines, for whatever is made of it.

ghost use Rattle.std.specs.Prelude.{◌≡◌, ◌≢◌, Err, IfErr, IfOk, IfSome};
ghost use Rattle.rb_script.specs.HeadLines.{AreHeadLines};
ghost use Rattle.rb_script.specs.Lines.{lines};
ghost use Rattle.rb_script.specs.Script.{PlainScript};
ghost use Rattle.rb_script.specs.Reads.{Reads};
ghost use Rattle.rb_script.specs.Reading.{early_fault, read_of};
ghost use Rattle.rb_replay.specs.Start.{TellsStartFault};
ghost use Rattle.rb_bench.specs.Faults.{TellsFault};

use rb_bench::BenchFault;
use rb_replay::StartFault;
use rb_script::ScriptWithLines;
use std::alloc::Global;

// Reads the script of the bytes.
fn script_of(alloc: Global, bytes: &[u8]) -> Result<ScriptWithLines, StartFault>
    ensures read { IfOk result (λ read. Reads bytes.now read.script) }
    ensures lines { IfOk result (λ read. read.lines ≡ lines bytes.now) }
    ensures heads { IfOk result (λ read. AreHeadLines 1 (lines bytes.now) read.script.blocks read.heads.items) }
    ensures only { (s : PlainScript) → Reads bytes.now s → IfErr result (λ fault. fault ≡ StartFault.OutOfMemory) }
    ensures refused { IfErr result (λ fault. TellsStartFault fault (read_of bytes.now)) }
    ensures early { IfSome (early_fault bytes.now) (λ fault. result ≡ Err (StartFault.Script fault)) }
    ensures spaced { result ≢ Err StartFault.BadSpacing }
{
    let read = ScriptWithLines::read(alloc, bytes)?;
    Ok(read)
}

/// Reads the script of the bytes.
///
/// # Errors
///
/// `Script` where the bytes are no script, and `OutOfMemory`.
pub(crate) fn read_script(alloc: Global, bytes: &[u8]) -> Result<ScriptWithLines, BenchFault>
    ensures read { IfOk result (λ read. Reads bytes.now read.script) }
    ensures lines { IfOk result (λ read. read.lines ≡ lines bytes.now) }
    ensures heads { IfOk result (λ read. AreHeadLines 1 (lines bytes.now) read.script.blocks read.heads.items) }
    // What is a script is refused for want of memory alone.
    ensures only { (s : PlainScript) → Reads bytes.now s → IfErr result (λ fault. fault ≡ BenchFault.OutOfMemory) }
    ensures refused { IfErr result (λ fault. TellsFault fault (read_of bytes.now)) }
    // What is too long is found whether or not there is memory.
    ensures early { IfSome (early_fault bytes.now) (λ fault. result ≡ Err (BenchFault.Script fault)) }
    // Nothing else is read or written, and no spacing is looked at.
    ensures own { IfErr result (λ fault. (fault ≢ BenchFault.Io) × (fault ≢ BenchFault.Spacing)) }
{
    let read = script_of(alloc, bytes)?;
    Ok(read)
}
