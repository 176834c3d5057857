//! Reading the blocks of a script.

ghost use Rattle.std.specs.Prelude.{◌≡◌, ◌+◌, ◌^◌, ◌<◌, ◌≤◌, ℕ, [], ◌∷◌, ◌++◌, true, false, length, drop, not, slice_index, vec_len, IsTrue, IfOk, IfErr, IfSome, IfNone, MatchOption, None, Ok, Err};
ghost use Rattle.std.specs.List.{list_all, AllByRecursion};
ghost use Rattle.rb_script.specs.Lines.{lines};
ghost use Rattle.rb_script.specs.Marks.{is_lead, is_plain, in_run};
ghost use Rattle.rb_script.specs.Reads.{begins_lead, begins_rule, is_readable};
ghost use Rattle.rb_script.specs.Results.{Fails, Gives};
ghost use Rattle.rb_script.specs.Runs.{head_of, after_head};
ghost use Rattle.rb_script.specs.Expectations.{after_blank, to_pair, then_blank, plain_at, expectation_at};
ghost use Rattle.rb_script.specs.Blocks.{closed_or, block_at, blocks_at};
ghost use Rattle.rb_script.specs.Reading.{parts_of, is_one, block_of, long_line, no_long_line, capped, early_fault, read_of};
ghost use Rattle.rb_script.specs.Found.{RunsTo, seen, pair_seen};
ghost use Rattle.rb_script.specs.Flat.{between};
ghost use Rattle.rb_script.specs.Script.{PlainBlock, text, needs_double};
ghost use Rattle.rb_script.specs.Valid.{IsLine};
ghost use Rattle.rb_script.specs.Shared.{values, parts_view, IsKeptScript};
ghost use Rattle.rb_script.specs.HeadLines.{AreHeadLines};

use crate::block::Block;
use crate::chunked_list::ChunkedList;
use crate::expected::Expected;
use crate::fault::ScriptFault;
use crate::flat::FlatLines;
use crate::front::Front;
use crate::limits::{MAX_DIRECTIVES, MAX_LINE, MAX_SCRIPT};
use crate::line_part::LinePart;
use crate::lines::{Lines, next_line};
use crate::marks::{LineKind, is_blank, is_rule};
use crate::script::Script;
use crate::shared_lines::SharedLines;
use crate::tokens::{Tokens, tokens_of};
use crate::with_lines::ScriptWithLines;
use memchr::memrchr;
use std::alloc::{AllocError, Global};
use std::rc::Rc;

// Lines are counted from 0. Each function reads from a position on, which may be after the last line.

/// Finds where the run of lines ends. Inlined, so that each kind has its own code.
#[inline(always)]
fn run(all: &SharedLines, start: usize, kind: LineKind) -> usize
    requires { start ≤ length all.now }
    ensures { RunsTo (in_run kind) all.now start result }
{
    for at in start..all.len() {
        if !kind.has(all.line(at)) {
            return at;
        }
    }
    all.len()
}

/// Finds where the first line and its continuation lines end.
fn head(all: &SharedLines, start: usize) -> usize
    requires { start ≤ length all.now }
    ensures order { (start ≤ result) × (result ≤ length all.now) }
    ensures run { between start result all.now ≡ head_of (drop start all.now) }
    ensures rest { drop result all.now ≡ after_head (drop start all.now) }
{
    let last = run(all, start, LineKind::Continued);
    if last == all.len() {
        return last;
    }
    last + 1
}

/// The position after a line ----, if there is one.
fn after_rule(all: &SharedLines, at: usize) -> Option<usize>
    requires { at ≤ length all.now }
    ensures none { IfNone result (begins_rule (drop at all.now) ≡ false) }
    ensures found { IfSome result (λ after. (begins_rule (drop at all.now) ≡ true) × (after ≡ at + 1)) }
    ensures within { IfSome result (λ after. after ≤ length all.now) }
{
    if at < all.len() && is_rule(all.line(at)) {
        Some(at + 1)
    } else {
        None
    }
}

/// The position after a blank line, if there is one.
fn after_blank(all: &SharedLines, at: usize) -> usize
    requires { at ≤ length all.now }
    ensures rest { drop result all.now ≡ after_blank (drop at all.now) }
    ensures within { result ≤ length all.now }
{
    if at < all.len() && is_blank(all.line(at)) {
        at + 1
    } else {
        at
    }
}

/// Whether no line ---- is the last one or directly before another.
pub(crate) fn is_readable(lines: &Lines) -> bool
    ensures { result ≡ is_readable lines.now }
{
    let mut after_rule = false;
    for i in 0..lines.len() {
        let rule = is_rule(lines.line(i));
        if rule && after_rule {
            return false;
        }
        after_rule = rule;
    }
    !after_rule
}

/// Finds where the run of lines that aren't blank ends, and whether a line ---- is among them, so that only the double form can show them.
fn plain_run(all: &SharedLines, start: usize) -> (usize, bool)
    requires { start ≤ length all.now }
    ensures run { RunsTo is_plain all.now start result.0 }
    ensures form { result.1 ≡ needs_double (between start result.0 all.now) }
{
    let mut is_double = false;
    for at in start..all.len() {
        let line = all.line(at);
        if is_blank(line) {
            return (at, is_double);
        }
        is_double |= is_rule(line);
    }
    (all.len(), is_double)
}

/// Reads a plain expectation, and returns the position after it.
fn plain(all: &SharedLines, start: usize) -> Result<Option<(Expected, usize)>, AllocError>
    requires { start ≤ length all.now }
    ensures found { IfOk result (λ found. seen all.now found ≡ plain_at (drop start all.now)) }
    ensures within { IfOk result (λ found. IfSome found (λ p. p.1 ≤ length all.now)) }
{
    let (end, is_double) = plain_run(all, start);
    let part = Lines::part(all, start, end)?;
    let expected = Expected::in_form(part, is_double);
    if expected.is_readable() {
        Ok(Some((expected, after_blank(all, end))))
    } else {
        Ok(None)
    }
}

/// Finds the first two neighbouring lines ----: the position of the first, and the position after both.
fn pair(all: &SharedLines, start: usize) -> Option<(usize, usize)>
    requires { start ≤ length all.now }
    ensures found { pair_seen all.now start result ≡ to_pair (drop start all.now) }
    ensures order { IfSome result (λ p. start ≤ p.0) }
    ensures within { IfSome result (λ p. (p.0 ≤ length all.now) × (p.1 ≤ length all.now)) }
{
    for at in start..all.len() {
        if is_rule(all.line(at)) {
            if let Some(after) = after_rule(all, at + 1) {
                return Some((at, after));
            }
        }
    }
    None
}

/// Reads an expectation in the double form, after its first line ----, and returns the position after it.
fn double(all: &SharedLines, start: usize) -> Result<Option<(Expected, usize)>, AllocError>
    requires { start ≤ length all.now }
    ensures found { IfOk result (λ found. seen all.now found ≡ then_blank (to_pair (drop start all.now))) }
    ensures within { IfOk result (λ found. IfSome found (λ p. p.1 ≤ length all.now)) }
{
    let Some((close, after)) = pair(all, start) else {
        return Ok(None);
    };
    let part = Lines::part(all, start, close)?;
    let expected = Expected::new(part);
    Ok(Some((expected, after_blank(all, after))))
}

/// Reads the expectation at this position, and returns the position after it. If it isn't closed, the fault has the line before it.
#[tactic(auto, unfolding(crate::specs::Expectations::expectation_at))]
fn expectation(all: &SharedLines, start: usize) -> Result<(Expected, usize), ScriptFault>
    requires { start ≤ length all.now }
    ensures found { Gives (λ p. (p.0, drop p.1 all.now)) result (closed_or (ScriptFault.NotClosed start) (expectation_at (drop start all.now))) }
    ensures within { IfOk result (λ p. p.1 ≤ length all.now) }
{
    let found = match after_rule(all, start) {
        Some(after) => double(all, after)?,
        None => plain(all, start)?,
    };
    found.ok_or(ScriptFault::NotClosed(start))
}

/// Reads a block, whose lead begins at `from` and whose head begins at `start`, and returns the position after it.
fn block(
    alloc: Global,
    all: &SharedLines,
    from: usize,
    start: usize,
    number: usize,
) -> Result<(Rc<Block>, usize), ScriptFault>
    requires few { length all.now < 2 ^ 32 }
    requires from { from ≤ start }
    requires start { start ≤ length all.now }
    requires number { number ≡ start + 1 }
    requires lead { list_all is_lead (between from start all.now) ≡ true }
    requires lead_lines { AllByRecursion IsLine (between from start all.now) }
    requires lines { AllByRecursion IsLine (drop start all.now) }
    requires head { begins_lead (drop start all.now) ≡ false }
    ensures gives { Gives (λ p. (p.0.value, drop p.1 all.now)) result (block_at (1 + length all.now) (between from start all.now) (drop start all.now)) }
    ensures within { IfOk result (λ p. p.1 ≤ length all.now) }
{
    let below = head(all, start);
    let tokens = tokens_of(alloc, all, start, below, number)?;
    let separator = run(all, below, LineKind::Input);
    if separator == all.len() {
        return Err(ScriptFault::NoSeparator(number));
    }
    let (expected, after) = expectation(all, separator + 1)?;
    let front = Front::new(all, from, start, below, separator, tokens)?;
    let block = Rc::new(alloc, Block::new(front, expected))?;
    Ok((block, after))
}

/// The blocks, the line numbers of their heads, the tail, and the length of the canonical text.
#[derive(Drop)]
struct Parts {
    blocks: Vec<Rc<Block>>,
    heads: Vec<usize>,
    tail: LinePart,
    text_len: usize,
}

/// Reads the blocks and the tail.
fn blocks(alloc: Global, all: &SharedLines) -> Result<Parts, ScriptFault>
    requires lines { AllByRecursion IsLine all.now }
    requires few { length all.now < 2 ^ 32 }
    ensures gives { Gives parts_view result (blocks_at MAX_DIRECTIVES (1 + length all.now) all.now) }
    ensures heads { IfOk result (λ p. AreHeadLines 1 all.now (parts_view p).blocks p.heads.items) }
    ensures len { IfOk result (λ p. p.text_len ≡ capped (length (text (parts_view p)))) }
{
    let mut found = Vec::new(alloc);
    let mut heads = Vec::new(alloc);
    let mut text_len: usize = 0;
    let mut at = 0;
    loop {
        let start = run(all, at, LineKind::Lead);
        if start == all.len() {
            let tail = LinePart::new(all, at, start)?;
            return Ok(Parts {
                text_len: text_len.saturating_add(tail.text().len()),
                blocks: found,
                heads,
                tail,
            });
        }
        if found.len() == MAX_DIRECTIVES {
            return Err(ScriptFault::TooManyDirectives);
        }
        let number = start + 1;
        let (block, after) = block(alloc, all, at, start, number)?;
        text_len = text_len.saturating_add(block.text_len());
        push_block(&mut found, block)?;
        heads.push(number)?;
        at = after;
    }
}

/// Appends a block.
fn push_block(found: &mut Vec<Rc<Block>>, block: Rc<Block>) -> Result<(), AllocError>
    ensures items { IfOk result (λ _. values found.new.items ≡ values found.old.items ++ block.value ∷ []) }
    ensures len { IfOk result (λ _. vec_len found.new ≡ vec_len found.old + 1) }
{
    Ok(found.push(block)?)
}

/// Finds the last LF that can end a line of the longest length.
fn last_newline_within(bytes: &[u8]) -> Option<usize>
    requires { MAX_LINE < length bytes.now }
    ensures { IfSome result (λ end. (end ≤ MAX_LINE) × (slice_index bytes.now end ≡ 10)) }
{
    memrchr(b'\n', &bytes[..MAX_LINE + 1])
}

/// Whether each stretch of `MAX_LINE + 1` bytes has an LF, so that no line is too long. This is faster than going line by line.
fn has_short_lines(bytes: &[u8]) -> bool
    ensures { IsTrue result → (n : ℕ) → long_line n (lines bytes.now) ≡ None }
{
    let mut rest = bytes;
    while rest.len() > MAX_LINE {
        let Some(end) = last_newline_within(rest) else {
            return false;
        };
        rest = &rest[end + 1..];
    }
    true
}

/// Reports the first line that is too long.
fn check_lines(bytes: &[u8]) -> Result<(), ScriptFault>
    requires { length bytes.now ≤ MAX_SCRIPT }
    ensures { result ≡ no_long_line (long_line 1 (lines bytes.now)) }
{
    if has_short_lines(bytes) {
        return Ok(());
    }
    let mut rest = bytes;
    let mut number = 1;
    while let Some((line, after)) = next_line(rest) {
        if line.len() > MAX_LINE {
            return Err(ScriptFault::LineTooLong(number));
        }
        rest = after;
        number += 1;
    }
    Ok(())
}

/// Splits the bytes into lines. Lengths are checked before anything is allocated. The blocks borrow from these lines.
#[tactic(auto, using(crate::proofs::ValidLaws::checked_lines), unfolding(crate::specs::Reading::parts_of))]
fn short_lines(alloc: Global, bytes: &[u8]) -> Result<SharedLines, ScriptFault>
    ensures lines { IfOk result (λ all. all ≡ lines bytes.now) }
    ensures few { IfOk result (λ all. length all < 2 ^ 32) }
    ensures valid { IfOk result (λ all. AllByRecursion IsLine all) }
    ensures parts { IfOk result (λ all. parts_of bytes.now ≡ blocks_at MAX_DIRECTIVES (1 + length all) all) }
    ensures failed { IfErr result (λ fault. Fails fault (parts_of bytes.now)) }
    ensures passed { IfOk result (λ _. early_fault bytes.now ≡ None) }
    ensures early { IfSome (early_fault bytes.now) (λ fault. result ≡ Err fault) }
{
    if bytes.len() > MAX_SCRIPT {
        return Err(ScriptFault::TooLong);
    }
    check_lines(bytes)?;
    Ok(SharedLines::new(alloc, FlatLines::of(alloc, bytes)?)?)
}

/// Makes a script of the blocks and the tail.
fn whole(
    alloc: Global,
    blocks: Vec<Rc<Block>>,
    tail: LinePart,
    text_len: usize,
) -> Result<Script, AllocError>
    requires { IsKeptScript (record { blocks = values blocks.items; tail = tail }) text_len }
    ensures { IfOk result (λ s. s ≡ record { blocks = values blocks.items; tail = tail }) }
{
    Ok(Script {
        alloc,
        blocks: ChunkedList::of(alloc, blocks)?,
        tail,
        text_len,
    })
}

/// Reads a script, with its lines and the line numbers of its heads, or reports the first fault.
#[tactic(auto, unfolding(crate::specs::Reading::read_of, crate::specs::Reading::fits_text))]
pub(crate) fn with_lines(alloc: Global, bytes: &[u8]) -> Result<ScriptWithLines, ScriptFault>
    ensures exact { Gives (λ read. read.script) result (read_of bytes.now) }
    ensures lines { IfOk result (λ read. read.lines ≡ lines bytes.now) }
    ensures heads { IfOk result (λ read. AreHeadLines 1 (lines bytes.now) read.script.blocks read.heads.items) }
    ensures early { IfSome (early_fault bytes.now) (λ fault. result ≡ Err fault) }
{
    let all = short_lines(alloc, bytes)?;
    let parts = blocks(alloc, &all)?;
    if parts.text_len > MAX_SCRIPT {
        return Err(ScriptFault::TooLong);
    }
    let script = whole(alloc, parts.blocks, parts.tail, parts.text_len)?;
    Ok(ScriptWithLines {
        script,
        lines: Lines::whole(all),
        heads: parts.heads,
    })
}

/// Reads a script, or reports the first fault.
pub(crate) fn script(alloc: Global, bytes: &[u8]) -> Result<Script, ScriptFault>
    ensures exact { Gives (λ s. s) result (read_of bytes.now) }
    ensures early { IfSome (early_fault bytes.now) (λ fault. result ≡ Err fault) }
{
    match with_lines(alloc, bytes) {
        Ok(read) => Ok(read.script),
        Err(fault) => Err(fault),
    }
}

/// Takes the block out of its pointer, or copies it if it is shared.
fn unshared(block: Rc<Block>) -> Result<Block, AllocError>
    ensures { IfOk result (λ b. b ≡ block.value) }
{
    match Rc::try_unwrap(block) {
        Ok(block) => Ok(block),
        Err(shared) => shared.try_copy(),
    }
}

/// Checks that the parts are one block, of an allowed length.
#[tactic(auto, unfolding(crate::specs::Reading::fits_text))]
fn check_alone(parts: &Parts) -> Result<(), ScriptFault>
    requires { parts.now.text_len ≡ capped (length (text (parts_view parts.now))) }
    ensures { result ≡ is_one (parts_view parts.now) }
{
    if parts.blocks.len() != 1 || !parts.tail.is_empty() {
        return Err(ScriptFault::NotOneBlock);
    }
    if parts.text_len > MAX_SCRIPT {
        return Err(ScriptFault::TooLong);
    }
    Ok(())
}

/// Returns the last block.
fn last(mut blocks: Vec<Rc<Block>>) -> Result<Block, ScriptFault>
    ensures { (b : PlainBlock) → values blocks.items ≡ b ∷ [] → Gives {X = PlainBlock} {Y = PlainBlock} (λ b. b) result (Ok b) }
{
    match blocks.pop() {
        Some(block) => Ok(unshared(block)?),
        None => Err(ScriptFault::NotOneBlock),
    }
}

/// Reads bytes that are one block, or reports the first fault.
#[tactic(auto, unfolding(crate::specs::Reading::block_of))]
pub(crate) fn one_block(alloc: Global, bytes: &[u8]) -> Result<Block, ScriptFault>
    ensures exact { Gives (λ b. b) result (block_of bytes.now) }
    ensures early { IfSome (early_fault bytes.now) (λ fault. result ≡ Err fault) }
{
    let all = short_lines(alloc, bytes)?;
    let parts = blocks(alloc, &all)?;
    check_alone(&parts)?;
    last(parts.blocks)
}
