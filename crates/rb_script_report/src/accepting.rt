//! The expected lines of a script after its outputs are accepted, and the outputs that are left.
//!
//! An output is accepted if its directive is picked, unless it is a new error: one that the directive doesn't expect already, and that
//! no comment expects.

ghost use Rattle.std.specs.Prelude.{◌≡◌, ◌&&◌, ◌∷◌, ◌++◌, [], not, IfOk, IsOk, length};
ghost use Rattle.rb_script.specs.Shared.{values};
ghost use Rattle.rb_script.specs.Writes.{Writes};
ghost use Rattle.rb_replay.specs.Run.{outputs};
ghost use Rattle.rb_script_report.specs.Errors.{is_unexpected};
ghost use Rattle.rb_script_report.specs.Accepting.{is_left, accepted_lines, accepted_of, left_heads, one_left, left_shown, all_left};

use crate::accept_options::{AcceptOptions, is_picked};
use crate::answers::{block_at, number_at, output_at};
use crate::errors::{first_line, is_unexpected};
use crate::layout::Layout;
use crate::put::is_same;
use rb_machine::Machine;
use rb_replay::Session;
use rb_report::check::{FileLine, put_left};
use rb_script::{Block, ChunkedList, Lines, Sink, WriteFault};
use std::alloc::{AllocError, Global};
use std::rc::Rc;

// Whether the output is a new error, and new errors are not accepted.
fn is_refused(errors: bool, text: &Lines, line: usize, output: &Lines) -> bool
    ensures { result ≡ (not errors && is_unexpected text.now line output.now) }
{
    !errors && is_unexpected(text, line, output)
}

// Whether the output is not accepted.
fn is_left(
    wanted: AcceptOptions<'_>,
    text: &Lines,
    line: usize,
    block: &Block,
    output: &Lines,
) -> bool
    ensures { result ≡ is_left wanted.entry text.now line block.now output.now }
{
    (!is_picked(wanted.picked, line) || is_refused(wanted.errors, text, line, output))
        && !is_same(block.expected(), output)
}

// The directive's expected lines after its output is accepted or left.
fn accepted_lines(
    wanted: AcceptOptions<'_>,
    text: &Lines,
    line: usize,
    block: &Block,
    output: &Lines,
) -> Result<Lines, AllocError>
    ensures { IfOk result (λ made. made ≡ accepted_lines wanted.entry text.now line block.now output.now) }
{
    if is_left(wanted, text, line, block, output) {
        return block.expected().try_copy();
    }
    output.try_copy()
}

/// The expected lines of each directive after outputs are accepted.
pub(crate) fn accepted_of<M: Machine>(
    alloc: Global,
    session: &Session<M>,
    heads: &[usize],
    text: &Lines,
    wanted: AcceptOptions<'_>,
) -> Result<ChunkedList<Lines>, AllocError>
    requires { length heads.now ≡ length session.now.script.blocks }
    ensures { IfOk result (λ all. all ≡ accepted_of wanted.entry text.now heads.now session.now.script.blocks (outputs session.now.script)) }
{
    let mut all = Vec::new(alloc);
    for i in 0..session.len() {
        let block = block_at(session, i);
        let output = output_at(session, i);
        let line = number_at(heads, i);
        let lines = accepted_lines(wanted, text, line, block, output)?;
        all.push(Rc::new(alloc, lines)?)?;
    }
    ChunkedList::of(alloc, all)
}

// Adds the line of the head if its output is not accepted.
fn push_left(
    left: &mut Vec<usize>,
    wanted: AcceptOptions<'_>,
    text: &Lines,
    line: usize,
    block: &Block,
    output: &Lines,
) -> Result<(), AllocError>
    ensures { IfOk result (λ _. left.new.items ≡ left.old.items ++ one_left wanted.entry text.now line block.now output.now) }
{
    if is_left(wanted, text, line, block, output) {
        left.push(line)?;
    }
    Ok(())
}

/// The lines of the heads whose outputs are not accepted.
pub(crate) fn left_heads<M: Machine>(
    alloc: Global,
    session: &Session<M>,
    heads: &[usize],
    text: &Lines,
    wanted: AcceptOptions<'_>,
) -> Result<Vec<usize>, AllocError>
    requires { length heads.now ≡ length session.now.script.blocks }
    ensures { IfOk result (λ left. left.items ≡ left_heads wanted.entry text.now heads.now session.now.script.blocks (outputs session.now.script)) }
{
    let mut left = Vec::new(alloc);
    for i in 0..session.len() {
        let block = block_at(session, i);
        let output = output_at(session, i);
        let line = number_at(heads, i);
        push_left(&mut left, wanted, text, line, block, output)?;
    }
    Ok(left)
}

// Writes the note on a directive whose output is not accepted.
fn put_if_left<S: Sink>(
    sink: &mut S,
    wanted: AcceptOptions<'_>,
    text: &Lines,
    place: FileLine<'_>,
    block: &Block,
    output: &Lines,
) -> Result<(), WriteFault>
    ensures wrote { Writes result (S.held sink.old) (S.held sink.new) (left_shown wanted.entry text.now place.entry.path.now place.entry.line block.now output.now) }
    ensures all { S.takes_all sink.old → IsOk result × S.takes_all sink.new }
{
    let line = place.line;
    if !(is_picked(wanted.picked, line) && is_left(wanted, text, line, block, output)) {
        return Ok(());
    }
    put_left(sink, place, &block.directive(), first_line(output))
}

/// Names the outputs of the session's script that are picked but not accepted. The layout is the script's. If the writer fails, a beginning of the
/// text was written.
pub fn put_left_errors<M: Machine, S: Sink>(
    sink: &mut S,
    session: &Session<M>,
    layout: &Layout,
    path: &[u8],
    wanted: AcceptOptions<'_>,
) -> Result<(), WriteFault>
    requires { length layout.now.heads.items ≡ length session.now.script.blocks }
    ensures wrote { Writes result (S.held sink.old) (S.held sink.new) (all_left wanted.entry layout.now.text path.now layout.now.heads.items session.now.script.blocks (outputs session.now.script)) }
    ensures all { S.takes_all sink.old → IsOk result × S.takes_all sink.new }
{
    let heads = layout.heads.as_slice();
    for i in 0..session.len() {
        let block = block_at(session, i);
        let output = output_at(session, i);
        let line = number_at(heads, i);
        let place = FileLine { path, line };
        put_if_left(sink, wanted, &layout.text, place, block, output)?;
    }
    Ok(())
}
