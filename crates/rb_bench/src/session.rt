//! A session over a source and an outlet.

ghost use Rattle.std.specs.Prelude.{◌≡◌, ◌≢◌, ◌↔◌, ◌⊎◌, ◌<◌, ℕ, List, length, Ok, Err, Some, None, true, false, IsOk, IfErr, IfOk, IfSome, MatchResult, OnOk, OnErr};
ghost use Rattle.rb_script.specs.Script.{PlainScript};
ghost use Rattle.rb_script.specs.Reads.{Reads};
ghost use Rattle.rb_script.specs.Reading.{read_of, early_fault};
ghost use Rattle.rb_replay.specs.Start.{is_checkpoint_interval};
ghost use Rattle.rb_text.specs.Left.{left_of};
ghost use Rattle.rb_text.specs.Asked.{AsksFor, Fails, GoesOn, HasCallsFor, Stops, size_of};
ghost use Rattle.rb_bench.specs.Handed.{IsHandedOn};
ghost use Rattle.rb_bench.specs.Turns.{TurnsOut};
ghost use Rattle.rb_bench.specs.Faults.{TellsFault};
ghost use Rattle.rb_bench.specs.Serves.{TalksOut, ServesOut};
ghost use Rattle.rb_bench.specs.Stopping.{AnswersCame, IsUnfinished, ServesCame, StopsBehind, TakesTurn};

use crate::fault::BenchFault;
use crate::hear::hear;
use crate::limits::MAX_READS;
use crate::outlet::Outlet;
use crate::respond::reply_to;
use crate::send::send;
use crate::starting::{BenchSession, started};
use rb_report::check::Status;
use rb_text::{LineReader, Source};
use std::alloc::Global;

/// Serves a session of the script over a source and a writer, with a checkpoint interval of `every`. Reads one command a line, and
/// answers each before it reads the next. Returns the program's status: `Matched` if the input ended and there are no mismatches,
/// `Mismatched` if there are some, and `Failed` if a line was too long or the input ended within the lines of a command.
///
/// # Errors
///
/// `Spacing`, `Script` and `OutOfMemory` before the first read. A command for which there is no memory is refused, and the session
/// continues. `Io` at the first error of the source or the writer, also an interrupted call or a write that accepts no byte, and after
/// [`MAX_READS`] calls of the source.
pub fn serve<S: Source, W: Outlet>(
    alloc: Global,
    script: &[u8],
    every: u64,
    source: &mut S,
    writer: &mut W,
) -> Result<Status, BenchFault>
    // The text is the conversation over the input, and the status is that of its end. If the source or the writer fails, a
    // beginning of it is written.
    ensures talk { ServesOut (S.left source.old) result script.now every (W.held writer.old) (W.held writer.new) }
    // If the source fails, exactly the answers to complete commands are written.
    ensures whole { W.takes_all writer.old → result ≡ Err BenchFault.Io
        → ServesCame script.now every (S.left source.old) (S.left source.new) (W.held writer.old) (W.held writer.new) }
    // A call of the source that failed is a failure of the whole.
    ensures unfailed { OnOk result (Fails (S.asked source.old) (S.asked source.new) 0) }
    // The checkpoint interval is checked first.
    ensures checkpoint_interval { (result ≡ Err BenchFault.Spacing) ↔ (is_checkpoint_interval every ≡ false) }
    // Where the bytes are a script, memory is refused or a call fails.
    ensures only { (s : PlainScript) → Reads script.now s → is_checkpoint_interval every ≡ true → IfErr result (λ fault. (fault ≡ BenchFault.OutOfMemory) ⊎ (fault ≡ BenchFault.Io)) }
    // Which fault of the script it is.
    ensures refused { IfErr result (λ fault. TellsFault fault (read_of script.now)) }
    // Faults of length are found whether or not there is memory.
    ensures early { is_checkpoint_interval every ≡ true → IfSome (early_fault script.now) (λ fault. result ≡ Err (BenchFault.Script fault)) }
    // But for a failed call, nothing was read or written.
    ensures untouched { IfErr result (λ fault. fault ≢ BenchFault.Io → (source.new ≡ source.old) × (writer.new ≡ writer.old)) }
    // The answers are flushed.
    ensures handed { OnOk result (IsHandedOn (W.handed writer.old) (W.held writer.old) → IsHandedOn (W.handed writer.new) (W.held writer.new)) }
    // The source is asked no more often than its bytes ask for.
    ensures asked { (source.new ≡ source.old) ⊎ AsksFor (S.left source.old) (S.asked source.old) (S.asked source.new) MAX_READS }
    // No failure is answered where no call failed.
    ensures io { (bytes : List ℕ) → S.left source.old ≡ Some bytes → length bytes < MAX_READS
        → S.gives_all source.old → W.takes_all writer.old → result ≢ Err BenchFault.Io }
{
    let mut session = started(alloc, script, every)?;
    let Ok(mut input) = LineReader::new(alloc, MAX_READS) else {
        return Err(BenchFault::OutOfMemory);
    };
    converse(alloc, &mut session, &mut input, source, writer)
}

/// Answers command after command, up to the end of the session.
fn converse<S: Source, W: Outlet>(
    alloc: Global,
    session: &mut BenchSession,
    input: &mut LineReader,
    source: &mut S,
    writer: &mut W,
) -> Result<Status, BenchFault>
    ensures out { TalksOut (left_of input.old (S.left source.old)) result session.old (W.held writer.old) (W.held writer.new) }
    ensures whole { W.takes_all writer.old → OnErr result (AnswersCame session.old (left_of input.old (S.left source.old)) (S.left source.new) (W.held writer.old) (W.held writer.new)) }
    ensures unfailed { OnOk result (Fails (S.asked source.old) (S.asked source.new) 0) }
    ensures io { IfErr result (λ fault. fault ≡ BenchFault.Io) }
    ensures handed { OnOk result (IsHandedOn (W.handed writer.old) (W.held writer.old) → IsHandedOn (W.handed writer.new) (W.held writer.new)) }
    ensures stops { Stops input.old (S.left source.old) (S.asked source.old) (S.asked source.new) }
    ensures all { S.gives_all source.old → HasCallsFor input.old (S.left source.old) → W.takes_all writer.old → IsOk result }
{
    'turns: loop {
        match serve_one(alloc, session, input, source, writer) {
            Ok(None) => {}
            Ok(Some(status)) => return Ok(status),
            Err(fault) => return Err(fault),
        }
    }
}

/// Reads one command, and answers it. The status is there if that ends the session.
fn serve_one<S: Source, W: Outlet>(
    alloc: Global,
    session: &mut BenchSession,
    input: &mut LineReader,
    source: &mut S,
    writer: &mut W,
) -> Result<Option<Status>, BenchFault>
    ensures out { TurnsOut (left_of input.old (S.left source.old)) (left_of input.new (S.left source.new)) result session.old session.new (W.held writer.old) (W.held writer.new) }
    ensures io { IfErr result (λ fault. fault ≡ BenchFault.Io) }
    ensures handed { OnOk result (IsHandedOn (W.handed writer.old) (W.held writer.old) → IsHandedOn (W.handed writer.new) (W.held writer.new)) }
    ensures goes { OnOk result (GoesOn input.old input.new (S.left source.old) (S.left source.new) (S.asked source.old) (S.asked source.new)) }
    ensures stops { OnErr result (Stops input.old (S.left source.old) (S.asked source.old) (S.asked source.new)) }
    // Each command takes some of the input, and its lines whole.
    ensures smaller { result ≡ Ok None → size_of input.new < size_of input.old }
    ensures takes { IfOk result (λ status. TakesTurn status input.old input.new (S.left source.old) (S.left source.new)) }
    // Over a writer that takes all only reading stops it, and then nothing is written.
    ensures taking { W.takes_all writer.old → MatchResult result (λ _. W.takes_all writer.new)
        (λ _. StopsBehind IsUnfinished input.old (S.left source.old) (S.left source.new) × (W.held writer.new ≡ W.held writer.old)) }
    ensures all { S.gives_all source.old → HasCallsFor input.old (S.left source.old) → W.takes_all writer.old
        → IsOk result × S.gives_all source.new × W.takes_all writer.new }
{
    let Ok(heard) = hear(alloc, input, source) else {
        return Err(BenchFault::Io);
    };
    let (reply, status) = reply_to(alloc, session, heard);
    send(writer, session, reply)?;
    Ok(status)
}
