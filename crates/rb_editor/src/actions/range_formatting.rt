//! The canonical text of the directives in a range, as one edit of what differs.

ghost use Rattle.std.specs.Prelude.{◌≡◌, ◌≤◌, ◌++◌, None, IfOk, OnOk, length};
ghost use Rattle.rb_lsp.specs.declared.document.limits.TheConstants.{MAX_TEXT};
ghost use Rattle.rb_editor.specs.RangeFormatting.{after_block, between, if_same, is_touched, of_lines, range_formatting, touched, with_block, with_part};

use crate::actions::above::lines_before;
use crate::actions::layout::line_at;
use crate::offers::{BlockLines, add_edits, blocks_of, formatted, has_canonical, script_of};
use rb_lsp::document::{Encoding, Range};
use rb_script::Script;
use std::alloc::{AllocError, Global};

// Whether a block has a line from `first` to `last`.
fn is_touched(first: usize, last: usize, block: BlockLines) -> bool
    ensures { result ≡ is_touched first last block }
{
    block.from <= last && first < block.end
}

// Gives the first line of the first block, and the line after this one.
fn with_block(found: Option<(usize, usize)>, block: BlockLines) -> Option<(usize, usize)>
    ensures { result ≡ with_block found block }
{
    match found {
        Some((from, _)) => Some((from, block.end)),
        None => Some((block.from, block.end)),
    }
}

// Gives the same lines, with those of this block if it has a line from `first` to `last`.
fn after_block(
    first: usize,
    last: usize,
    found: Option<(usize, usize)>,
    block: BlockLines,
) -> Option<(usize, usize)>
    ensures { result ≡ after_block first last found block }
{
    if is_touched(first, last, block) {
        with_block(found, block)
    } else {
        found
    }
}

// Finds the first line of the first block with a line from `first` to `last`, and the line after the last of them.
fn touched(first: usize, last: usize, blocks: &[BlockLines]) -> Option<(usize, usize)>
    ensures { result ≡ touched first last None blocks.now }
{
    let mut found = None;
    for block in blocks {
        found = after_block(first, last, found, *block);
    }
    found
}

// Makes a text with another part between these fronts and the rest, without the empty line at the end of the part.
fn with_part(
    alloc: Global,
    text: &[u8],
    front: &[u8],
    upto: &[u8],
    part: &Script,
) -> Result<Vec<u8>, AllocError>
    requires { length upto.now ≤ length text.now }
    ensures { IfOk result (λ new. new.items ≡ with_part text.now front.now upto.now part.now) }
{
    let canonical = part.canonical_text(alloc)?;
    let mut new = Vec::from_slice(alloc, front)?;
    new.extend_from_slice(formatted(alloc, canonical.as_slice())?)?;
    new.extend_from_slice(&text[upto.len()..])?;
    Ok(new)
}

// Adds the edit that makes a text, if it is the same script.
fn add_if_same(
    alloc: Global,
    out: &mut Vec<u8>,
    encoding: Encoding,
    text: &[u8],
    script: &Script,
    new: &[u8],
) -> Result<(), AllocError>
    requires { length text.now ≤ MAX_TEXT }
    ensures { OnOk result (out.new.items ≡ out.old.items ++ if_same encoding text.now script.now new.now) }
{
    let canonical = script.canonical_text(alloc)?;
    if has_canonical(alloc, canonical.as_slice(), new)? {
        add_edits(out, encoding, text, new)
    } else {
        Ok(out.extend_from_slice(b"[]")?)
    }
}

// Adds the edit that formats the text that is below `front`, up to the end of `upto`.
fn add_between(
    alloc: Global,
    out: &mut Vec<u8>,
    encoding: Encoding,
    text: &[u8],
    script: &Script,
    fronts: (&[u8], &[u8]),
) -> Result<(), AllocError>
    requires bounded { length text.now ≤ MAX_TEXT }
    requires within { length fronts.1.now ≤ length text.now }
    requires order { length fronts.0.now ≤ length fronts.1.now }
    ensures { OnOk result (out.new.items ≡ out.old.items ++ between encoding text.now script.now fronts.entry.0.now fronts.entry.1.now) }
{
    let (front, upto) = fronts;
    match script_of(alloc, &upto[front.len()..])? {
        Some(part) => {
            let new = with_part(alloc, text, front, upto, &part)?;
            add_if_same(alloc, out, encoding, text, script, new.as_slice())
        }
        None => Ok(out.extend_from_slice(b"[]")?),
    }
}

// Adds the edit that formats the lines from one up to another.
fn add_lines(
    alloc: Global,
    out: &mut Vec<u8>,
    encoding: Encoding,
    text: &[u8],
    script: &Script,
    found: Option<(usize, usize)>,
) -> Result<(), AllocError>
    requires { length text.now ≤ MAX_TEXT }
    ensures { OnOk result (out.new.items ≡ out.old.items ++ of_lines encoding text.now script.now found) }
{
    let Some((from, end)) = found else {
        return Ok(out.extend_from_slice(b"[]")?);
    };
    let upto = lines_before(text, end);
    let front = lines_before(upto, from);
    add_between(alloc, out, encoding, text, script, (front, upto))
}

/// Adds the edits that format the directives in a range, as the result of `textDocument/rangeFormatting`: one of what differs, or none if nothing does.
/// The script stays the same. A text that isn't a script has none.
///
/// # Errors
///
/// If memory was refused. A part of the result may have been added then.
#[tactic(auto, unfolding(crate::specs::RangeFormatting::range_formatting))]
pub(crate) fn add_range_formatting(
    alloc: Global,
    out: &mut Vec<u8>,
    encoding: Encoding,
    text: &[u8],
    range: Range,
) -> Result<(), AllocError>
    requires { length text.now ≤ MAX_TEXT }
    ensures { OnOk result (out.new.items ≡ out.old.items ++ range_formatting encoding range text.now) }
{
    match script_of(alloc, text)? {
        Some(script) => {
            let first = line_at(encoding, range.start, text);
            let last = line_at(encoding, range.end, text);
            let blocks = blocks_of(alloc, text)?;
            let found = touched(first, last, blocks.as_slice());
            add_lines(alloc, out, encoding, text, &script, found)
        }
        None => Ok(out.extend_from_slice(b"[]")?),
    }
}
