//! What a directive would print.

ghost use Rattle.std.specs.Prelude.{◌≡◌, ◌+◌, ◌<◌, ◌≤◌, ◌++◌, ◌^◌, ℕ, codes, IfOk};
ghost use Rattle.rb_view.specs.Looks.{answer_in, question};

use rb_machine::{Count, Machine};
use rb_script::{Block, Lines, ScriptFault};
use std::alloc::{AllocError, Global};

/// The output of the directive with this text. It is run on a copy.
#[tactic(auto, unfolding(crate::specs::Looks::answer_in))]
pub(crate) fn answer<M: Machine>(
    alloc: Global,
    machine: &M,
    question: &[u8],
    meter: &mut M::Meter,
) -> Result<Lines, AllocError>
    requires { M.Meter.count_of meter.old < 2 ^ 63 }
    ensures answer { IfOk result (λ lines. lines ≡ answer_in (M.meaning machine.now) question.now) }
    ensures counted { M.Meter.count_of meter.new ≤ M.Meter.count_of meter.old + 1 }
{
    match Block::read(alloc, question) {
        Ok(block) => {
            let (_after, lines) = machine.try_copy()?.run(block.directive(), meter)?;
            Ok(lines)
        }
        Err(ScriptFault::OutOfMemory) => Err(AllocError),
        Err(_) => Ok(Lines::new(alloc)),
    }
}

/// The text of a directive that prints at each level.
pub(crate) fn question(alloc: Global, head: &[u8]) -> Result<Vec<u8>, AllocError>
    ensures { IfOk result (λ text. text.items ≡ question head.now) }
{
    let mut text = Vec::new(alloc);
    text.extend_from_slice(head)?;
    text.extend_from_slice(b" log-level=debug\n----\n")?;
    Ok(text)
}
