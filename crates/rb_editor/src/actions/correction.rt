//! Quick fixes that replace a wrong word of a head by the one that was probably meant.

ghost use Rattle.std.specs.Prelude.{◌≡◌, ◌≤◌, ◌++◌, [], IfOk, OnOk, length, slice_index_or};
ghost use Rattle.rb_script.specs.Lines.{lines};
ghost use Rattle.rb_script.specs.Tokens.{plain};
ghost use Rattle.rb_lsp.specs.declared.document.limits.TheConstants.{MAX_TEXT};
ghost use Rattle.rb_lsp.specs.Tables.{IsTable};
ghost use Rattle.rb_editor.specs.BlockLines.{StandsIn};
ghost use Rattle.rb_editor.specs.Heads.{heads_of};
ghost use Rattle.rb_editor.specs.Corrections.{column_at, correction, corrections, directive_correction, ends_word, replacement_edit, replacement_text, word_column};
ghost use Rattle.rb_editor.specs.Layouts.{IsLayout};

use crate::actions::document::AskedDocument;
use crate::actions::extent::{LineSpan, extent_of, has_line};
use crate::actions::layout::ScriptLayout;
use crate::offers::add_range_member;
use rb_lsp::document::{LineTable, Position, offset, position_of};
use rb_machine::Machine;
use rb_replay::Session;
use rb_report::help::{suggested_word, wrong_word};
use rb_script::{Block, DirectiveRef, Lines, is_space};
use rb_script_report::{block_at, number_at};
use rb_text::{Json, Piece, add_pieces};
use std::alloc::{AllocError, Global};

/// Whether the byte ends a word of a head.
pub(crate) fn ends_word(b: u8) -> bool
    ensures { result ≡ ends_word b }
{
    is_space(b) || b == b'=' || b == b'(' || b == b')' || b == b','
}

// Finds where the word begins in a line.
fn word_column(word: &[u8], line: &[u8]) -> Option<usize>
    ensures { result ≡ word_column word.now line.now }
{
    let mut from = 0;
    for (i, b) in line.iter().enumerate() {
        if ends_word(*b) {
            if &line[from..i] == word {
                return Some(from);
            }
            from = i + 1;
        }
    }
    if &line[from..] == word {
        Some(from)
    } else {
        None
    }
}

// The position of a column of a line, counted in bytes.
fn column_at(
    document: AskedDocument<'_, '_>,
    table: &LineTable,
    line: usize,
    column: usize,
) -> Position
    requires table { IsTable document.encoding document.text.now table.now }
    requires bounded { length document.text.now ≤ MAX_TEXT }
    ensures { result ≡ column_at document.entry.encoding document.entry.text.now line column }
{
    let start = offset(document.encoding, table.start_of(line), document.text);
    let at = start.saturating_add(column).min(document.text.len());
    position_of(document.encoding, at, document.text)
}

// Adds the edit that puts a word in place of another, which begins at a column of a line.
#[tactic(auto, unfolding(crate::specs::Corrections::replacement_edit))]
fn add_replacement(
    out: &mut Vec<u8>,
    start: Position,
    end: Position,
    word: &[u8],
) -> Result<(), AllocError>
    ensures { OnOk result (out.new.items ≡ out.old.items ++ replacement_edit start end word.now) }
{
    add_range_member(out, start, end)?;
    add_pieces(
        out,
        &[
            Piece::Bytes(b",\"newText\":\""),
            Piece::Escaped(Json::Utf8, word),
            Piece::Bytes(b"\"}]}}}"),
        ],
    )
}

// Makes the action that puts a word in place of another of a line.
#[tactic(auto, unfolding(crate::specs::Corrections::replacement_text))]
fn replacement<'a>(
    alloc: Global,
    document: AskedDocument<'a, '_>,
    start: Position,
    end: Position,
    word: &'a [u8],
) -> Result<Vec<u8>, AllocError>
    ensures { IfOk result (λ text. text.items ≡ replacement_text document.entry.uri.now start end word.now) }
{
    let mut out = Vec::new(alloc);
    add_pieces(
        &mut out,
        &[
            Piece::Bytes(b"{\"title\":\"Replace with "),
            Piece::Escaped(Json::Utf8, word),
            Piece::Bytes(b"\",\"kind\":\"quickfix\",\"edit\":{\"changes\":{\""),
            Piece::Escaped(Json::Utf8, document.uri),
            Piece::Bytes(b"\":["),
        ],
    )?;
    add_replacement(&mut out, start, end, word)?;
    Ok(out)
}

// Makes the quick fix of a directive whose head begins on a line, counted from 0, with these bytes; empty if there is none.
fn directive_correction(
    alloc: Global,
    document: AskedDocument<'_, '_>,
    table: &LineTable,
    line: usize,
    front: &[u8],
    directive: &DirectiveRef<'_>,
) -> Result<Vec<u8>, AllocError>
    requires table { IsTable document.encoding document.text.now table.now }
    requires bounded { length document.text.now ≤ MAX_TEXT }
    ensures { IfOk result (λ text. text.items ≡ directive_correction document.entry.encoding document.entry.uri.now document.entry.text.now line front.now (plain directive.now)) }
{
    let Some(word) = suggested_word(directive) else {
        return Ok(Vec::new(alloc));
    };
    let wrong = wrong_word(directive);
    let Some(column) = word_column(wrong, front) else {
        return Ok(Vec::new(alloc));
    };
    let start = column_at(document, table, line, column);
    let end = column_at(document, table, line, column.saturating_add(wrong.len()));
    replacement(alloc, document, start, end, word)
}

// Makes the quick fix of a block whose head begins on the line, which counts from 1, if it has one of the lines; else empty.
fn correction(
    alloc: Global,
    document: AskedDocument<'_, '_>,
    layout: &ScriptLayout,
    span: LineSpan,
    line: usize,
    block: &Block,
) -> Result<Vec<u8>, AllocError>
    requires lines { layout.now.script.text ≡ lines document.text.now }
    requires table { IsTable document.encoding document.text.now layout.now.table }
    requires stands { StandsIn layout.now.script.text line block.now }
    requires bounded { length document.text.now ≤ MAX_TEXT }
    ensures { IfOk result (λ text. text.items ≡ correction document.entry.encoding document.entry.uri.now document.entry.text.now span line block.now) }
{
    if !has_line(span, extent_of(&layout.script.text, line, block)) {
        return Ok(Vec::new(alloc));
    }
    let index = line.saturating_sub(1);
    let front = line_or_none(&layout.script.text, index);
    directive_correction(
        alloc,
        document,
        &layout.table,
        index,
        front,
        &block.directive(),
    )
}

// Gives a line; an empty one if there is none.
fn line_or_none(lines: &Lines, index: usize) -> &[u8]
    ensures { result.now ≡ slice_index_or lines.now index [] }
{
    if index < lines.len() {
        lines.line(index)
    } else {
        b""
    }
}

/// Makes the quick fix of the first refused directive on these lines of which a word that was probably meant is known; empty if there is none.
pub(crate) fn corrections<M: Machine>(
    alloc: Global,
    document: AskedDocument<'_, '_>,
    session: &Session<M>,
    layout: &ScriptLayout,
    span: LineSpan,
) -> Result<Vec<u8>, AllocError>
    requires layout { IsLayout document.encoding document.text.now session.now.script layout.now }
    requires bounded { length document.text.now ≤ MAX_TEXT }
    ensures { IfOk result (λ text. text.items ≡ corrections document.entry.encoding document.entry.uri.now document.entry.text.now span (heads_of document.entry.text.now session.now.script) session.now.script.blocks) }
{
    for i in 0..session.len() {
        let line = number_at(layout.script.heads.as_slice(), i);
        let block = block_at(session, i);
        let text = correction(alloc, document, layout, span, line, block)?;
        let made = text.as_slice();
        if !made.is_empty() {
            return Ok(text);
        }
    }
    Ok(Vec::new(alloc))
}
