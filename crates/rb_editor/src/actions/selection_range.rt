//! What can be selected around a place: the word, the argument, the line, the part of the block, the block, and the whole text.

ghost use Rattle.std.specs.Prelude.{◌≡◌, ◌+◌, ◌≤◌, ◌++◌, [], IfOk, OnOk, length, None};
ghost use Rattle.rb_lsp.specs.declared.document.limits.TheConstants.{MAX_TEXT};
ghost use Rattle.rb_editor.specs.Selections.{block_spans, block_with, chain_text, closings, fronts, has_line, is_around, is_next, last_after, line_spans, lines_above, lines_span, nested, or_whole, part_span, selection, span_text, spans_at, spans_on, taken};

use crate::actions::above::line_start;
use crate::actions::piece::{OffsetSpan, PieceKind, piece_span};
use crate::actions::served::served;
use crate::offers::{BlockLines, add_range_member, blocks_of, line_at};
use rb_lsp::document::{Encoding, Position, offset, position_of};
use rb_script::lines_of;
use std::alloc::{AllocError, Global};

// ---- lines

// Gives the text of some lines.
fn lines_span(text: &[u8], first: usize, behind: usize) -> OffsetSpan
    ensures { result ≡ lines_span text.now first behind }
{
    OffsetSpan {
        from: line_start(text, first),
        to: line_start(text, behind),
    }
}

// Whether a block has a line.
fn has_line(n: usize, block: BlockLines) -> bool
    ensures { result ≡ has_line n block }
{
    block.from <= n && n < block.end
}

// Finds the block that has a line.
fn block_with(n: usize, blocks: &[BlockLines]) -> Option<BlockLines>
    ensures { result ≡ block_with n blocks.now }
{
    for block in blocks {
        if has_line(n, *block) {
            return Some(*block);
        }
    }
    None
}

// Gives the head of a block, what is between the head and the output, or the output: the one that has this line.
fn part_span(text: &[u8], n: usize, block: BlockLines) -> OffsetSpan
    ensures { result ≡ part_span text.now n block }
{
    if n < block.body {
        lines_span(text, block.from, block.body)
    } else if n < block.below {
        lines_span(text, block.body, block.below)
    } else {
        lines_span(text, block.below, block.end)
    }
}

// Adds the part of a block that has a line, and the block.
fn add_block_spans(
    list: &mut Vec<OffsetSpan>,
    text: &[u8],
    n: usize,
    block: Option<BlockLines>,
) -> Result<(), AllocError>
    ensures { OnOk result (list.new.items ≡ list.old.items ++ block_spans text.now n block) }
{
    let Some(block) = block else {
        return Ok(());
    };
    list.push(part_span(text, n, block))?;
    list.push(lines_span(text, block.from, block.end))?;
    Ok(())
}

// ---- around a place

// Adds the word and the argument at an offset, and the line, which begins at another.
fn add_line_spans(
    list: &mut Vec<OffsetSpan>,
    at: usize,
    begin: usize,
    line: &[u8],
) -> Result<(), AllocError>
    requires { begin ≤ MAX_TEXT }
    ensures { OnOk result (list.new.items ≡ list.old.items ++ line_spans at begin line.now) }
{
    let column = at.saturating_sub(begin).min(line.len());
    list.push(piece_span(PieceKind::Word, begin, column, line))?;
    list.push(piece_span(PieceKind::Argument, begin, column, line))?;
    list.push(OffsetSpan {
        from: begin,
        to: begin + line.len(),
    })?;
    Ok(())
}

// Makes the spans around an offset of a line, from the smallest.
fn spans_on(alloc: Global, text: &[u8], at: usize, n: usize) -> Result<Vec<OffsetSpan>, AllocError>
    requires { length text.now ≤ MAX_TEXT }
    ensures { IfOk result (λ list. list.items ≡ spans_on text.now at n) }
{
    let mut list = Vec::new(alloc);
    let begin = line_start(text, n);
    let all = lines_of(alloc, text)?;
    add_line_spans(&mut list, at, begin, line_at(&all, n))?;
    let blocks = blocks_of(alloc, served(alloc, text)?)?;
    add_block_spans(&mut list, text, n, block_with(n, blocks.as_slice()))?;
    list.push(OffsetSpan {
        from: 0,
        to: text.len(),
    })?;
    Ok(list)
}

// Whether a span contains another, and is larger.
fn is_around(inner: OffsetSpan, span: OffsetSpan) -> bool
    ensures { result ≡ is_around inner span }
{
    let contains = span.from <= inner.from && inner.to <= span.to;
    contains && (span.from < inner.from || inner.to < span.to)
}

// Whether a span is larger than the last one and contains it; if there is none, whether it isn't empty.
fn is_next(last: Option<OffsetSpan>, span: OffsetSpan) -> bool
    ensures { result ≡ is_next last span }
{
    match last {
        Some(inner) => is_around(inner, span),
        None => span.from < span.to,
    }
}

// Takes a span, if it is next after the last one that was taken. Gives the last one then.
fn take_next(
    list: &mut Vec<OffsetSpan>,
    last: Option<OffsetSpan>,
    span: OffsetSpan,
) -> Result<Option<OffsetSpan>, AllocError>
    ensures taken { OnOk result (list.new.items ≡ list.old.items ++ taken last span) }
    ensures last { IfOk result (λ next. next ≡ last_after last span) }
{
    if !is_next(last, span) {
        return Ok(last);
    }
    list.push(span)?;
    Ok(Some(span))
}

// Takes each span that contains the last one and is larger.
fn nested(alloc: Global, spans: &[OffsetSpan]) -> Result<Vec<OffsetSpan>, AllocError>
    ensures { IfOk result (λ list. list.items ≡ nested None spans.now) }
{
    let mut list = Vec::new(alloc);
    let mut last = None;
    for span in spans {
        last = take_next(&mut list, last, *span)?;
    }
    Ok(list)
}

// Counts the lines that end before an offset.
fn lines_above(at: usize, text: &[u8]) -> usize
    requires { at ≤ length text.now }
    ensures { result ≡ lines_above at text.now }
{
    text[..at].iter().filter(|b| **b == b'\n').count()
}

// Makes the spans around an offset, each in the next.
#[tactic(auto, unfolding(crate::specs::Selections::spans_at))]
fn spans_at(alloc: Global, text: &[u8], at: usize) -> Result<Vec<OffsetSpan>, AllocError>
    requires within { at ≤ length text.now }
    requires bounded { length text.now ≤ MAX_TEXT }
    ensures { IfOk result (λ list. list.items ≡ spans_at text.now at) }
{
    let spans = spans_on(alloc, text, at, lines_above(at, text))?;
    nested(alloc, spans.as_slice())
}

// ---- as they are sent

// Adds the beginning of the range of a span.
#[tactic(auto, unfolding(crate::specs::Selections::span_text))]
fn add_span(
    out: &mut Vec<u8>,
    encoding: Encoding,
    text: &[u8],
    span: OffsetSpan,
) -> Result<(), AllocError>
    requires { length text.now ≤ MAX_TEXT }
    ensures { OnOk result (out.new.items ≡ out.old.items ++ span_text encoding text.now span) }
{
    let start = position_of(encoding, span.from.min(text.len()), text);
    let end = position_of(encoding, span.to.min(text.len()), text);
    add_range_member(out, start, end)
}

// Adds the beginnings of spans, each with the next as its parent.
fn add_fronts(
    out: &mut Vec<u8>,
    encoding: Encoding,
    text: &[u8],
    spans: &[OffsetSpan],
) -> Result<(), AllocError>
    requires { length text.now ≤ MAX_TEXT }
    ensures { OnOk result (out.new.items ≡ out.old.items ++ fronts encoding text.now [] spans.now) }
{
    let mut lead: &[u8] = b"";
    for span in spans {
        out.extend_from_slice(lead)?;
        add_span(out, encoding, text, *span)?;
        lead = b",\"parent\":";
    }
    Ok(())
}

// Adds their ends.
fn add_closings(out: &mut Vec<u8>, spans: &[OffsetSpan]) -> Result<(), AllocError>
    ensures { OnOk result (out.new.items ≡ out.old.items ++ closings spans.now) }
{
    for _closing in 0..spans.len() {
        out.push(b'}')?;
    }
    Ok(())
}

// Adds spans, each with the next as its parent.
fn add_chain(
    out: &mut Vec<u8>,
    encoding: Encoding,
    text: &[u8],
    spans: &[OffsetSpan],
) -> Result<(), AllocError>
    requires { length text.now ≤ MAX_TEXT }
    ensures { OnOk result (out.new.items ≡ out.old.items ++ chain_text encoding text.now spans.now) }
{
    add_fronts(out, encoding, text, spans)?;
    add_closings(out, spans)
}

/// Adds what can be selected around a position of a text, as an item of the result of `textDocument/selectionRange`. If there is nothing, that is the
/// empty text.
///
/// # Errors
///
/// If memory was refused. A part of the item may have been added then.
#[tactic(auto, unfolding(crate::specs::Selections::selection))]
pub(crate) fn add_selection(
    alloc: Global,
    out: &mut Vec<u8>,
    encoding: Encoding,
    text: &[u8],
    position: Position,
) -> Result<(), AllocError>
    requires { length text.now ≤ MAX_TEXT }
    ensures { OnOk result (out.new.items ≡ out.old.items ++ selection encoding position text.now) }
{
    let spans = spans_at(alloc, text, offset(encoding, position, text))?;
    if spans.as_slice().is_empty() {
        let whole = OffsetSpan {
            from: 0,
            to: text.len(),
        };
        return add_chain(out, encoding, text, &[whole]);
    }
    add_chain(out, encoding, text, spans.as_slice())
}
