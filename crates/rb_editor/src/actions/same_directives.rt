//! Whether two texts begin with the same directives. A run reads neither comments nor expectations, so these may differ.

ghost use Rattle.std.specs.Prelude.{◌≡◌, ◌+◌, ◌<◌, ◌≤◌, ℕ, [], IfOk, IfSome, IsTrue, length, map, slice_get, slice_index_or, take};
ghost use Rattle.rb_editor.specs.Stops.{directive_in, directives_in, head_line};

use crate::offers::{BlockLines, all_lines};
use rb_script::{Lines, ScriptFault, ScriptWithLines};
use std::alloc::{AllocError, Global};

// Says whether both have a line at their index, and these are the same.
fn is_same_line(one: &Lines, i: usize, other: &Lines, j: usize) -> bool
    ensures within { IsTrue result → (i < length one.now) × (j < length other.now) }
    ensures same { IsTrue result → slice_index_or one.now i [] ≡ slice_index_or other.now j [] }
{
    i < one.len() && j < other.len() && one.line(i) == other.line(j)
}

// Compares the directives of two blocks.
fn is_same_directive(one: &Lines, a: BlockLines, other: &Lines, b: BlockLines) -> bool
    ensures { IsTrue result → directive_in one.now a ≡ directive_in other.now b }
{
    let count = a.below.saturating_sub(a.from);
    if b.below.saturating_sub(b.from) != count {
        return false;
    }
    for i in 0..count {
        if !is_same_line(one, a.from + i, other, b.from + i) {
            return false;
        }
    }
    true
}

// Compares the directives of the first blocks.
fn has_same_front(
    one: &Lines,
    olds: &[BlockLines],
    other: &Lines,
    news: &[BlockLines],
    count: usize,
) -> bool
    requires old { count ≤ length olds.now }
    requires new { count ≤ length news.now }
    ensures { IsTrue result → take count (map (directive_in one.now) olds.now) ≡ take count (map (directive_in other.now) news.now) }
{
    for i in 0..count {
        if !is_same_directive(one, olds[i], other, news[i]) {
            return false;
        }
    }
    true
}

/// The directives of a script's text: its lines, where its blocks are in them, and the lines of the heads.
#[derive(Drop)]
pub(crate) struct TextDirectives {
    pub(crate) lines: Lines,
    pub(crate) blocks: Vec<BlockLines>,
    pub(crate) heads: Vec<usize>,
}

/// Finds the directives of a text, if it is a script.
///
/// # Errors
///
/// If memory was refused.
pub(crate) fn directives_of(
    alloc: Global,
    text: &[u8],
) -> Result<Option<TextDirectives>, AllocError>
    ensures directives { IfOk result (λ found. IfSome found (λ d. map (directive_in d.lines) d.blocks.items ≡ directives_in text.now)) }
    ensures heads { IfOk result (λ found. IfSome found (λ d. (i : ℕ) → slice_get d.heads.items i ≡ head_line text.now i)) }
{
    match ScriptWithLines::read(alloc, text) {
        Ok(read) => {
            let blocks = all_lines(alloc, &read.lines, &read.script, read.heads.as_slice())?;
            Ok(Some(TextDirectives {
                lines: read.lines,
                blocks,
                heads: read.heads,
            }))
        }
        Err(ScriptFault::OutOfMemory) => Err(AllocError),
        Err(_) => Ok(None),
    }
}

/// Says whether both have the same directives up to and with the one at an index.
pub(crate) fn has_same_directives(
    one: &TextDirectives,
    other: &TextDirectives,
    index: usize,
) -> bool
    ensures { IsTrue result → take (index + 1) (map (directive_in one.now.lines) one.now.blocks.items) ≡ take (index + 1) (map (directive_in other.now.lines) other.now.blocks.items) }
{
    if index >= one.blocks.len() || index >= other.blocks.len() {
        return false;
    }
    let (olds, news) = (one.blocks.as_slice(), other.blocks.as_slice());
    has_same_front(&one.lines, olds, &other.lines, news, index + 1)
}
