//! Folds: each block, and each expectation of more than one line.

ghost use Rattle.std.specs.Prelude.{◌≡◌, ◌≤◌, ◌++◌, [], OnOk, length};
ghost use Rattle.rb_lsp.specs.declared.document.limits.TheConstants.{MAX_TEXT};
ghost use Rattle.rb_lsp.specs.declared.document.position.Encoding.TheVariants.{Utf8};
ghost use Rattle.rb_lsp.specs.Tables.{IsTable};
ghost use Rattle.rb_editor.specs.Folds.{block_folds, ended_line, expectation_fold, fold_text, folds, lines_text};
ghost use Rattle.rb_editor.specs.Texts.{listed};

use crate::offers::block_lines::{BlockLines, blocks_of};
use crate::offers::writing::start_of;
use rb_lsp::document::{Encoding, LineTable, Position};
use rb_text::{Piece, add_pieces};
use std::alloc::{AllocError, Global};

// Finds the line that ends at a position.
fn ended_line(position: Position) -> u64
    ensures { result ≡ ended_line position }
{
    if position.character == 0 {
        position.line.saturating_sub(1)
    } else {
        position.line
    }
}

// Adds a fold of an editor's lines.
#[tactic(auto, unfolding(crate::specs::Folds::lines_text))]
fn add_lines(out: &mut Vec<u8>, first: u64, last: u64) -> Result<(), AllocError>
    ensures { OnOk result (out.new.items ≡ out.old.items ++ lines_text first last) }
{
    add_pieces(
        out,
        &[
            Piece::Bytes(b"{\"startLine\":"),
            Piece::Number(first),
            Piece::Bytes(b",\"endLine\":"),
            Piece::Number(last),
            Piece::Bytes(b"}"),
        ],
    )
}

// Adds the fold of a script's lines from one up to the one before another.
fn add_fold(
    out: &mut Vec<u8>,
    text: &[u8],
    table: &LineTable,
    from: usize,
    end: usize,
) -> Result<(), AllocError>
    requires { IsTable Utf8 text.now table.now }
    ensures { OnOk result (out.new.items ≡ out.old.items ++ fold_text text.now from end) }
{
    let start = start_of(Encoding::Utf8, text, table, from);
    let stop = start_of(Encoding::Utf8, text, table, end);
    add_lines(out, start.line, ended_line(stop))
}

// Adds the fold of a block's expectation, if that has more than one line.
#[tactic(auto, unfolding(crate::specs::Folds::expectation_fold))]
fn add_expectation(
    out: &mut Vec<u8>,
    text: &[u8],
    table: &LineTable,
    block: BlockLines,
) -> Result<(), AllocError>
    requires { IsTable Utf8 text.now table.now }
    ensures { OnOk result (out.new.items ≡ out.old.items ++ expectation_fold text.now block) }
{
    if block.end.saturating_sub(block.below) <= 1 {
        return Ok(());
    }
    out.extend_from_slice(b",")?;
    add_fold(out, text, table, block.below, block.end)
}

// Adds the folds of a block.
#[tactic(auto, unfolding(crate::specs::Folds::block_folds))]
fn add_block(
    out: &mut Vec<u8>,
    text: &[u8],
    table: &LineTable,
    block: BlockLines,
) -> Result<(), AllocError>
    requires { IsTable Utf8 text.now table.now }
    ensures { OnOk result (out.new.items ≡ out.old.items ++ block_folds text.now block) }
{
    add_fold(out, text, table, block.from, block.end)?;
    add_expectation(out, text, table, block)
}

// Adds the folds of the blocks, separated by commas.
fn add_all(
    out: &mut Vec<u8>,
    text: &[u8],
    table: &LineTable,
    blocks: &[BlockLines],
) -> Result<(), AllocError>
    requires { IsTable Utf8 text.now table.now }
    ensures { OnOk result (out.new.items ≡ out.old.items ++ listed (block_folds text.now) [] blocks.now) }
{
    let mut lead: &[u8] = b"";
    for block in blocks {
        out.extend_from_slice(lead)?;
        add_block(out, text, table, *block)?;
        lead = b",";
    }
    out.extend_from_slice(b"]")?;
    Ok(())
}

/// Adds the folds of a text, as the result of `textDocument/foldingRange`. A text that isn't a script has none.
///
/// # Errors
///
/// If memory was refused. A part of the result may have been added then.
#[tactic(auto, unfolding(crate::specs::Folds::folds, crate::specs::Texts::list_text))]
pub fn add_folds(alloc: Global, out: &mut Vec<u8>, text: &[u8]) -> Result<(), AllocError>
    requires { length text.now ≤ MAX_TEXT }
    ensures { OnOk result (out.new.items ≡ out.old.items ++ folds text.now) }
{
    let blocks = blocks_of(alloc, text)?;
    let table = LineTable::new(alloc, Encoding::Utf8, text)?;
    out.extend_from_slice(b"[")?;
    add_all(out, text, &table, blocks.as_slice())
}
