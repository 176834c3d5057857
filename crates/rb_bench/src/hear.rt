//! Reading a command with its lines, or the end of the input.

ghost use Rattle.std.specs.Prelude.{◌<◌, IsOk, IfOk, OnOk, OnErr};
ghost use Rattle.rb_text.specs.Left.{left_of};
ghost use Rattle.rb_text.specs.Asked.{GoesOn, HasCallsFor, Stops, size_of};
ghost use Rattle.rb_bench.specs.Hearing.{HearsOf, IsCommand};
ghost use Rattle.rb_bench.specs.Stopping.{IsUnfinished, StopsBehind, TakesHeard};

use crate::command::{Command, command_of};
use crate::gather::gather;
use crate::given_lines::GivenLines;
use rb_text::{InputFault, LineReader, Next, Source};
use std::alloc::Global;

/// The input that was read.
#[derive(Drop)]
pub(crate) enum HeardCommand {
    /// A command, and its lines.
    Command(Command, GivenLines),
    /// The end.
    End,
    /// A line that is too long.
    LineTooLong,
    /// The end, where a command still wanted lines.
    CutOff,
}

/// Reads the next command and all lines that are given to it.
pub(crate) fn hear<S: Source>(
    alloc: Global,
    input: &mut LineReader,
    source: &mut S,
) -> Result<HeardCommand, InputFault>
    ensures heard { IfOk result (λ heard. HearsOf (left_of input.old (S.left source.old)) (left_of input.new (S.left source.new)) heard) }
    ensures takes { IfOk result (λ heard. TakesHeard heard input.old input.new (S.left source.old) (S.left source.new)) }
    // If reading stops, no further command was complete.
    ensures failed { OnErr result (StopsBehind IsUnfinished input.old (S.left source.old) (S.left source.new)) }
    ensures goes { OnOk result (GoesOn input.old input.new (S.left source.old) (S.left source.new) (S.asked source.old) (S.asked source.new)) }
    ensures stops { OnErr result (Stops input.old (S.left source.old) (S.asked source.old) (S.asked source.new)) }
    ensures all { S.gives_all source.old → HasCallsFor input.old (S.left source.old) → IsOk result × S.gives_all source.new }
    ensures smaller { IfOk result (λ heard. IsCommand heard → size_of input.new < size_of input.old) }
{
    match input.next(source)? {
        Next::Line => {}
        Next::TooLong => return Ok(HeardCommand::LineTooLong),
        Next::End => return Ok(HeardCommand::End),
    }
    gather(alloc, command_of(input.line()), input, source)
}
