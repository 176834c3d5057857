//! Taking the lines that a command is given.

ghost use Rattle.std.specs.Prelude.{◌≡◌, IsOk, IfOk, OnOk, OnErr};
ghost use Rattle.rb_text.specs.Left.{left_of};
ghost use Rattle.rb_text.specs.Asked.{GoesOn, HasCallsFor, Stops};
ghost use Rattle.rb_bench.specs.Talk.{given_count};
ghost use Rattle.rb_bench.specs.Hearing.{GathersOf};
ghost use Rattle.rb_bench.specs.Stopping.{AreTooFew, StopsBehind, TakesHeard};

use crate::command::Command;
use crate::given_lines::GivenLines;
use crate::hear::HeardCommand;
use rb_text::{InputFault, LineReader, Next, Source};
use std::alloc::Global;

/// How many lines are given to a command.
pub(crate) fn given_count(command: Command) -> usize
    ensures { result ≡ given_count command }
{
    match command {
        Command::Given(_, _, count) => count,
        _ => 0,
    }
}

/// Takes the lines of a command, all of them whether or not there is memory.
pub(crate) fn gather<S: Source>(
    alloc: Global,
    command: Command,
    input: &mut LineReader,
    source: &mut S,
) -> Result<HeardCommand, InputFault>
    ensures heard { IfOk result (λ heard. GathersOf (left_of input.old (S.left source.old)) (left_of input.new (S.left source.new)) command heard) }
    ensures takes { IfOk result (λ heard. TakesHeard heard input.old input.new (S.left source.old) (S.left source.new)) }
    ensures failed { OnErr result (StopsBehind (AreTooFew (given_count command)) input.old (S.left source.old) (S.left source.new)) }
    ensures goes { OnOk result (GoesOn input.old input.new (S.left source.old) (S.left source.new) (S.asked source.old) (S.asked source.new)) }
    ensures stops { OnErr result (Stops input.old (S.left source.old) (S.asked source.old) (S.asked source.new)) }
    ensures all { S.gives_all source.old → HasCallsFor input.old (S.left source.old) → IsOk result × S.gives_all source.new }
{
    let mut given = GivenLines::new(alloc);
    let count = given_count(command);
    let mut taken: usize = 0;
    while taken < count {
        match input.next(source)? {
            Next::Line => given.add(input.line()),
            Next::TooLong => return Ok(HeardCommand::LineTooLong),
            Next::End => return Ok(HeardCommand::CutOff),
        }
        taken += 1;
    }
    Ok(HeardCommand::Command(command, given))
}
