//! Lines of a script that are probably a mistake.
//!
//! If an empty line is missing, the next directive is read as expected output, and accepting would delete it. If a line `----` is missing, it
//! is read as input.

ghost use Rattle.std.specs.Prelude.{◌≡◌, ◌++◌, [], ◌+◌, ◌^◌, ◌<◌, ◌==◌, IfOk, length, drop, slice_index_or};
ghost use Rattle.std.specs.List.{list_any};
ghost use Rattle.std.specs.Str.{bytes_eq};
ghost use Rattle.rb_replay.specs.Run.{outputs};
ghost use Rattle.rb_script_report.specs.Doubts.{reads_alone, looks_like_directive, input_warning, expected_warning, warning_kind_of, one_warning, warnings_from, takes_input, warnings_in, last_line, all_warnings};

use crate::answers::{block_at, number_at, output_at};
use crate::layout::Layout;
use crate::names::begins_with_name;
use crate::part::BlockPart;
use crate::put::is_same;
use crate::text::is_same_text;
use rb_directive::Name;
use rb_machine::Machine;
use rb_replay::Session;
use rb_report::check::WarningKind;
use rb_script::{Block, Lines, ScriptFault, is_lead, is_separator};
use std::alloc::{AllocError, Global};

/// A line that is probably a mistake.
#[derive(Clone, Copy, Debug, PartialEq, Eq)]
pub struct Warning {
    /// The line, which counts from 1.
    pub line: usize,
    /// What is wrong with it.
    pub doubt: WarningKind,
}

// Whether the line is a directive if a line ---- is below it.
fn reads_alone(alloc: Global, line: &[u8]) -> Result<bool, AllocError>
    ensures { IfOk result (λ reads. reads ≡ reads_alone line.now) }
{
    let mut block = Lines::new(alloc);
    block.push(line)?;
    block.push(b"")?;
    block.push(b"----")?;
    match Block::read(alloc, block.text()) {
        Ok(_) => Ok(true),
        Err(ScriptFault::OutOfMemory) => Err(AllocError),
        Err(_) => Ok(false),
    }
}

fn looks_like_directive(alloc: Global, line: &[u8]) -> Result<bool, AllocError>
    ensures { IfOk result (λ looks. looks ≡ looks_like_directive line.now) }
{
    if !begins_with_name(line) {
        return Ok(false);
    }
    reads_alone(alloc, line)
}

// Whether the line is among these.
fn is_among(lines: &Lines, line: &[u8]) -> bool
    ensures { result ≡ list_any (λ came. bytes_eq came line.now) lines.now }
{
    for i in 0..lines.len() {
        if is_same_text(lines.line(i), line) {
            return true;
        }
    }
    false
}

fn input_warning(alloc: Global, takes: bool, line: &[u8]) -> Result<Option<WarningKind>, AllocError>
    ensures { IfOk result (λ doubt. doubt ≡ input_warning takes line.now) }
{
    if is_separator(line) || is_lead(line) {
        return Ok(None);
    }
    if looks_like_directive(alloc, line)? {
        return Ok(Some(WarningKind::InInput));
    }
    if takes {
        return Ok(None);
    }
    Ok(Some(WarningKind::Unread))
}

fn expected_warning(
    alloc: Global,
    output: &Lines,
    line: &[u8],
) -> Result<Option<WarningKind>, AllocError>
    ensures { IfOk result (λ doubt. doubt ≡ expected_warning output.now line.now) }
{
    if !looks_like_directive(alloc, line)? {
        return Ok(None);
    }
    if is_among(output, line) {
        return Ok(None);
    }
    Ok(Some(WarningKind::InExpectation))
}

// What is wrong with a line of a block.
fn warning_kind_of(
    alloc: Global,
    takes: bool,
    output: &Lines,
    part: BlockPart,
    line: &[u8],
) -> Result<Option<WarningKind>, AllocError>
    ensures { IfOk result (λ doubt. doubt ≡ warning_kind_of takes output.now part line.now) }
{
    match part {
        BlockPart::Head => Ok(None),
        BlockPart::Input => input_warning(alloc, takes, line),
        BlockPart::Expected => expected_warning(alloc, output, line),
    }
}

// The line at an index, or an empty one if there is none.
fn line_at(text: &Lines, index: usize) -> &[u8]
    ensures { result.now ≡ slice_index_or text.now index [] }
{
    if index < text.len() {
        text.line(index)
    } else {
        b""
    }
}

fn push_warning(
    found: &mut Vec<Warning>,
    line: usize,
    doubt: Option<WarningKind>,
) -> Result<(), AllocError>
    ensures { IfOk result (λ _. found.new.items ≡ found.old.items ++ one_warning line doubt) }
{
    if let Some(doubt) = doubt {
        found.push(Warning { line, doubt })?;
    }
    Ok(())
}

// The lines of a block: `count` lines of a text, from an index on.
#[derive(Clone, Copy)]
struct WarnedLines<'a> {
    text: &'a Lines,
    start: usize,
    count: usize,
}

// Adds the warnings of the lines of a block. The first line is its head.
fn push_from(
    alloc: Global,
    found: &mut Vec<Warning>,
    takes: bool,
    output: &Lines,
    lines: WarnedLines<'_>,
) -> Result<(), AllocError>
    requires { lines.start + lines.count < 2 ^ 64 }
    ensures { IfOk result (λ _. found.new.items ≡ found.old.items ++ warnings_from takes output.now lines.entry.text.now BlockPart.Head lines.entry.start lines.entry.count) }
{
    let mut part = BlockPart::Head;
    let mut at = lines.start;
    let mut left = lines.count;
    while left > 0 {
        let line = line_at(lines.text, at);
        let doubt = warning_kind_of(alloc, takes, output, part, line)?;
        push_warning(found, at + 1, doubt)?;
        part = part.after(line);
        at += 1;
        left -= 1;
    }
    Ok(())
}

fn takes_input(block: &Block) -> bool
    ensures { result ≡ takes_input block.now }
{
    block.directive().name() == Name::ProposeConfChange.text()
}

fn has_no_input(block: &Block) -> bool
    ensures { result ≡ (length block.now.input == 0) }
{
    block.directive().inputs() == 0
}

// Adds the warnings of a block.
fn push_block(
    alloc: Global,
    found: &mut Vec<Warning>,
    lines: WarnedLines<'_>,
    block: &Block,
    output: &Lines,
) -> Result<(), AllocError>
    requires { lines.start + lines.count < 2 ^ 64 }
    ensures { IfOk result (λ _. found.new.items ≡ found.old.items ++ warnings_in lines.entry.text.now lines.entry.start lines.entry.count block.now output.now) }
{
    if is_same(block.expected(), output) && has_no_input(block) {
        return Ok(());
    }
    push_from(alloc, found, takes_input(block), output, lines)
}

// The line above the head after the one at the index.
fn last_line(text: &Lines, heads: &[usize], index: usize) -> usize
    requires { index < length heads.now }
    ensures { result ≡ last_line text.now (drop (index + 1) heads.now) }
{
    match heads.get(index + 1) {
        Some(line) => line.saturating_sub(1),
        None => text.len(),
    }
}

/// The lines of the session's script that are probably a mistake, in order. The layout is the script's.
pub fn warnings<M: Machine>(
    alloc: Global,
    session: &Session<M>,
    layout: &Layout,
) -> Result<Vec<Warning>, AllocError>
    requires { length layout.now.heads.items ≡ length session.now.script.blocks }
    ensures { IfOk result (λ found. found.items ≡ all_warnings layout.now.text layout.now.heads.items session.now.script.blocks (outputs session.now.script)) }
{
    let heads = layout.heads.as_slice();
    let mut found = Vec::new(alloc);
    for i in 0..session.len() {
        let block = block_at(session, i);
        let output = output_at(session, i);
        let text = &layout.text;
        let start = number_at(heads, i).saturating_sub(1);
        let count = last_line(text, heads, i).saturating_sub(start);
        let lines = WarnedLines { text, start, count };
        push_block(alloc, &mut found, lines, block, output)?;
    }
    Ok(found)
}
