//! A script's own bytes with other expectations: only the lines of those that change are replaced.
//!
//! All other bytes stay. New lines end as the line `----` above them, and the file ends as it ended. An expectation
//! in the double form stays in it. This module doesn't promise that the text can be read back: the caller reads it back.

ghost use Rattle.std.specs.Prelude.{◌≡◌, ◌<◌, ◌≤◌, ◌+◌, ◌-◌, ◌^◌, ◌||◌, ◌∷◌, ◌++◌, if◌then◌else◌, ℕ, List, [], IfOk, length, drop};
ghost use Rattle.rb_script.specs.declared.limits.TheConstants.{MAX_SCRIPT};
ghost use Rattle.rb_script.specs.Lines.{Line};
ghost use Rattle.rb_script.specs.Marks.{rule};
ghost use Rattle.rb_script.specs.Runs.{head_of};
ghost use Rattle.rb_script.specs.Script.{PlainBlock, needs_double};
ghost use Rattle.rb_script_report.specs.Layouts.{IsLayout};
ghost use Rattle.rb_script_report.specs.WholeLines.{after_lines, last_end, ended, unended, with_ends};
ghost use Rattle.rb_script_report.specs.Splices.{IsAbove, lines_above, is_double, lines_of, in_form, expecting_below, replaced, lines_below, spliced_from, spliced};

use crate::answers::{block_at, number_at};
use crate::layout::Layout;
use crate::put::is_same;
use crate::whole_lines::{after_lines, is_ended, last_end, split_lines, unended};
use rb_machine::Machine;
use rb_replay::Session;
use rb_script::{Block, ChunkedList, Lines, continues, is_rule, needs_double, next_line};
use std::alloc::{AllocError, Global};

// ---- an expectation

// Whether the bytes begin with an expectation in the double form.
fn is_double(bytes: &[u8]) -> bool
    ensures { result ≡ is_double bytes.now }
{
    match next_line(bytes) {
        Some((line, _)) => is_rule(line),
        None => false,
    }
}

// How many lines an expectation has.
fn lines_of(is_double: bool, expected: &Lines) -> usize
    requires { length expected.now + 3 < 2 ^ 64 }
    ensures { result ≡ lines_of is_double expected.now }
{
    if is_double {
        expected.len() + 3
    } else {
        expected.len()
    }
}

fn push_bytes(made: &mut Vec<u8>, bytes: &[u8]) -> Result<(), AllocError>
    ensures { IfOk result (λ _. made.new.items ≡ made.old.items ++ bytes.now) }
{
    made.extend_from_slice(bytes)
}

// Appends a line with an end.
fn push_line(made: &mut Vec<u8>, end: &[u8], line: &[u8]) -> Result<(), AllocError>
    ensures { IfOk result (λ _. made.new.items ≡ made.old.items ++ (line.now ++ end.now)) }
{
    made.extend_from_slice(line)?;
    made.extend_from_slice(end)
}

// Appends lines, each with this end.
fn push_lines(made: &mut Vec<u8>, end: &[u8], lines: &Lines) -> Result<(), AllocError>
    ensures { IfOk result (λ _. made.new.items ≡ made.old.items ++ with_ends end.now lines.now) }
{
    for i in 0..lines.len() {
        push_line(made, end, lines.line(i))?;
    }
    Ok(())
}

// Does the same between the lines ---- of the double form.
fn push_double(made: &mut Vec<u8>, end: &[u8], lines: &Lines) -> Result<(), AllocError>
    ensures { IfOk result (λ _. made.new.items ≡ made.old.items ++ with_ends end.now (rule ∷ lines.now ++ rule ∷ rule ∷ [])) }
{
    push_line(made, end, b"----")?;
    push_lines(made, end, lines)?;
    push_line(made, end, b"----")?;
    push_line(made, end, b"----")?;
    Ok(())
}

// Whether the double form is used for these lines.
fn takes_double(was_double: bool, lines: &Lines) -> bool
    ensures { result ≡ (was_double || needs_double lines.now) }
{
    was_double || needs_double(lines)
}

// Appends lines in their form, each with this end.
fn push_form(
    made: &mut Vec<u8>,
    end: &[u8],
    was_double: bool,
    lines: &Lines,
) -> Result<(), AllocError>
    ensures { IfOk result (λ _. made.new.items ≡ made.old.items ++ with_ends end.now (in_form was_double lines.now)) }
{
    if takes_double(was_double, lines) {
        push_double(made, end, lines)
    } else {
        push_lines(made, end, lines)
    }
}

// Appends the lines up to a line ----. If the file ends there, it gets the end of the line above it.
fn push_above(made: &mut Vec<u8>, above: &[u8], end: &[u8]) -> Result<(), AllocError>
    requires { end.now ≡ last_end above.now }
    ensures { IfOk result (λ _. made.new.items ≡ made.old.items ++ ended above.now) }
{
    if is_ended(above) {
        push_bytes(made, above)
    } else {
        push_line(made, end, above)
    }
}

// Appends the same, and an expectation below them.
fn push_expecting(
    made: &mut Vec<u8>,
    above: &[u8],
    was_double: bool,
    lines: &Lines,
) -> Result<(), AllocError>
    ensures { IfOk result (λ _. made.new.items ≡ made.old.items ++ expecting_below above.now was_double lines.now) }
{
    let end = last_end(above);
    push_above(made, above, end)?;
    push_form(made, end, was_double, lines)?;
    Ok(())
}

// The text with an end after its last line, or without it.
fn ending(text: Vec<u8>, is_ended: bool) -> Vec<u8>
    ensures { result.items ≡ (if is_ended then text.items else unended text.items) }
{
    if is_ended {
        return text;
    }
    let mut text = text;
    let count = unended(text.as_slice()).len();
    text.truncate(count);
    text
}

// ---- the script

// The text so far, the bytes that are left, and how many lines are above them.
#[derive(Drop)]
struct Splicing<'a> {
    made: Vec<u8>,
    rest: &'a [u8],
    passed: usize,
}

impl<'a> Splicing<'a> {
    // Goes on below that many lines, and replaces the expectation there.
    fn replace(&mut self, above: usize, old: &Lines, new: &Lines) -> Result<(), AllocError>
        requires { above + length old.now + 3 < 2 ^ 64 }
        ensures made { IfOk result (λ _. self.new.made.items ≡ self.old.made.items ++ replaced (above - self.old.passed) self.old.rest.now new.now) }
        ensures rest { IfOk result (λ _. self.new.rest.now ≡ after_lines (lines_below (above - self.old.passed) self.old.rest.now old.now) (after_lines (above - self.old.passed) self.old.rest.now)) }
        ensures passed { IfOk result (λ _. self.new.passed ≡ above + lines_below (above - self.old.passed) self.old.rest.now old.now) }
    {
        let (front, from) = split_lines(self.rest, above.saturating_sub(self.passed));
        let was_double = is_double(from);
        push_expecting(&mut self.made, front, was_double, new)?;
        let count = lines_of(was_double, old);
        self.rest = after_lines(from, count);
        self.passed = above + count;
        Ok(())
    }

    // Does so if the expectation changes.
    fn expect(&mut self, above: usize, old: &Lines, new: &Lines) -> Result<(), AllocError>
        requires { above + length old.now + 3 < 2 ^ 64 }
        ensures { (head : ℕ) (heads : List ℕ) (b : PlainBlock) (bs : List PlainBlock) (es : List (List Line)) → b.expected ≡ old.now → lines_above head b ≡ above
            → IfOk result (λ _. self.new.made.items ++ spliced_from self.new.passed self.new.rest.now heads bs es ≡ self.old.made.items ++ spliced_from self.old.passed self.old.rest.now (head ∷ heads) (b ∷ bs) (new.now ∷ es)) }
    {
        if is_same(old, new) {
            return Ok(());
        }
        self.replace(above, old, new)?;
        Ok(())
    }
}

// How many lines the head has that begins after this number of lines.
fn head_len(text: &Lines, at: usize) -> usize
    requires { at ≤ length text.now }
    ensures { result ≡ length (head_of (drop at text.now)) }
{
    for i in at..text.len() {
        if !continues(text.line(i)) {
            return i - at + 1;
        }
    }
    text.len() - at
}

// How many lines of input the block has.
fn inputs_of(block: &Block) -> usize
    ensures { result ≡ length block.now.input }
{
    block.directive().inputs()
}

// How many lines are above the expectation of the block whose head begins on the line.
fn lines_above(text: &Lines, head: usize, block: &Block) -> usize
    requires above { IsAbove text.now head block.now }
    requires short { length text.now ≤ MAX_SCRIPT }
    ensures value { lines_above head block.now ≡ result }
    ensures room { result + length block.now.expected + 3 < 2 ^ 64 }
{
    head + head_len(text, head.saturating_sub(1)) + inputs_of(block)
}

// ---- of a session

/// The bytes of the session's script, which has this layout in them, with these expectations.
pub(crate) fn spliced<M: Machine>(
    alloc: Global,
    session: &Session<M>,
    bytes: &[u8],
    layout: &Layout,
    expected: &ChunkedList<Lines>,
) -> Result<Vec<u8>, AllocError>
    requires layout { IsLayout bytes.now session.now.script layout.now }
    requires expected { length expected.now ≡ length session.now.script.blocks }
    ensures { IfOk result (λ made. made.items ≡ spliced bytes.now layout.now.heads.items session.now.script.blocks expected.now) }
{
    let heads = layout.heads.as_slice();
    let mut splice = Splicing {
        made: Vec::with_capacity(alloc, bytes.len())?,
        rest: bytes,
        passed: 0,
    };
    for i in 0..session.len() {
        let block = block_at(session, i);
        let head = number_at(heads, i);
        let above = lines_above(&layout.text, head, block);
        splice.expect(above, block.expected(), expected.at(i))?;
    }
    let rest = splice.rest;
    push_bytes(&mut splice.made, rest)?;
    Ok(ending(splice.made, is_ended(bytes)))
}
