//! The lines of a script's blocks.

ghost use Rattle.std.specs.Prelude.{◌≡◌, ◌≢◌, ◌≤◌, ◌<◌, ◌^◌, ◌-◌, length, drop, slice_get, IfOk, IfSome, OnOk, Some};
ghost use Rattle.rb_script.specs.declared.fault.ScriptFault.TheVariants.{OutOfMemory};
ghost use Rattle.rb_script.specs.HeadLines.{AreHeadLines};
ghost use Rattle.rb_script.specs.Reads.{Reads, begins_rule};
ghost use Rattle.rb_editor.specs.BlockLines.{all_lines, behind_head, blocks_of, mark_lines, script_of};

use rb_script::{Block, Lines, Script, ScriptFault, ScriptWithLines, continues, is_rule};
use std::alloc::{AllocError, Global};

/// The lines of a block, by their numbers in the text, which count from 0.
#[derive(Clone, Copy)]
pub struct BlockLines {
    /// The first line of its head.
    pub from: usize,
    /// The line after its head.
    pub body: usize,
    /// The line below its separator.
    pub below: usize,
    /// The line after its expectation.
    pub end: usize,
}

/// The lines that mark the double form of an expectation: one above it, and two after it.
const DOUBLE_LINES: usize = 3;

// Finds the line after the head that begins on a line.
fn behind_head(text: &Lines, from: usize) -> usize
    requires { from ≤ length text.now }
    ensures value { result ≡ behind_head text.now from }
    ensures within { result ≤ length text.now }
    ensures counted { length text.now < 2 ^ 64 }
{
    let count = text.len();
    for i in from..count {
        if !continues(text.line(i)) {
            return i + 1;
        }
    }
    count
}

/// Whether there is a line after this many, and it is `----`.
pub fn begins_rule(text: &Lines, below: usize) -> bool
    ensures { result ≡ begins_rule (drop below text.now) }
{
    below < text.len() && is_rule(text.line(below))
}

// Counts the lines that mark the form of the expectation that begins on a line.
fn mark_lines(text: &Lines, below: usize) -> usize
    ensures { result ≡ mark_lines text.now below }
{
    if begins_rule(text, below) {
        DOUBLE_LINES
    } else {
        0
    }
}

impl BlockLines {
    ghost use Rattle.std.specs.Prelude.{◌≡◌};
    ghost use Rattle.rb_editor.specs.BlockLines.{StandsIn, block_lines};

    /// Finds the lines of a block whose head begins on this line, counted from 1.
    pub fn of_block(text: &Lines, head: usize, block: &Block) -> BlockLines
        requires { StandsIn text.now head block.now }
        ensures { result ≡ block_lines text.now head block.now }
    {
        let from = head - 1;
        let body = behind_head(text, from);
        let below = body + block.directive().inputs() + 1;
        let end = below + block.expected().len() + mark_lines(text, below);
        BlockLines {
            from,
            body,
            below,
            end,
        }
    }
}

// Gives the block with a number, counted from 1.
fn block_at(script: &Script, place: usize) -> &Block
    requires { (1 ≤ place) × (place ≤ length script.now.blocks) }
    ensures { slice_get script.now.blocks (place - 1) ≡ Some result.now }
{
    script.block(place).unwrap()
}

/// Finds the lines of each block of a script, whose heads begin on these lines.
pub(crate) fn all_lines(
    alloc: Global,
    text: &Lines,
    script: &Script,
    heads: &[usize],
) -> Result<Vec<BlockLines>, AllocError>
    requires { AreHeadLines 1 text.now script.now.blocks heads.now }
    ensures { IfOk result (λ all. all.items ≡ all_lines text.now heads.now script.now.blocks) }
{
    let mut all = Vec::new(alloc);
    for i in 0..heads.len() {
        let block = block_at(script, i + 1);
        all.push(BlockLines::of_block(text, heads[i], block))?;
    }
    Ok(all)
}

// Says that the bytes were refused, or fails if memory was.
fn refused(fault: ScriptFault) -> Result<(), AllocError>
    ensures { OnOk result (fault ≢ OutOfMemory) }
{
    match fault {
        ScriptFault::OutOfMemory => Err(AllocError),
        _ => Ok(()),
    }
}

/// Reads the bytes as a script, if they are one.
pub(crate) fn script_of(alloc: Global, bytes: &[u8]) -> Result<Option<Script>, AllocError>
    ensures value { IfOk result (λ found. found ≡ script_of bytes.now) }
    ensures reads { IfOk result (λ found. IfSome found (λ s. Reads bytes.now s)) }
{
    match Script::read(alloc, bytes) {
        Ok(script) => Ok(Some(script)),
        Err(fault) => {
            refused(fault)?;
            Ok(None)
        }
    }
}

/// Finds the lines of each block of a text; none if it isn't a script.
#[tactic(auto, using(crate::proofs::BlockLaws::blocks_read, crate::proofs::BlockLaws::blocks_none))]
pub(crate) fn blocks_of(alloc: Global, bytes: &[u8]) -> Result<Vec<BlockLines>, AllocError>
    ensures { IfOk result (λ all. all.items ≡ blocks_of bytes.now) }
{
    match ScriptWithLines::read(alloc, bytes) {
        Ok(read) => all_lines(alloc, &read.lines, &read.script, read.heads.as_slice()),
        Err(fault) => {
            refused(fault)?;
            Ok(Vec::new(alloc))
        }
    }
}
