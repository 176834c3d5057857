//! The outline of a text: a symbol for each directive.

ghost use Rattle.std.specs.Prelude.{◌≡◌, ◌≤◌, ◌++◌, [], OnOk, length, slice_index_or};
ghost use Rattle.rb_lsp.specs.declared.document.limits.TheConstants.{MAX_TEXT};
ghost use Rattle.rb_lsp.specs.Tables.{IsTable};
ghost use Rattle.rb_script.specs.Lines.{lines};
ghost use Rattle.rb_editor.specs.Symbols.{first_characters, name_of, name_text, symbol_at, symbol_text, symbols};
ghost use Rattle.rb_editor.specs.Texts.{listed};

use crate::offers::block_lines::{BlockLines, blocks_of};
use crate::offers::writing::{add_range, start_of};
use rb_lsp::document::{Encoding, LineTable, Position, is_within};
use rb_report::check::shown_name;
use rb_script::{Lines, lines_of, trim_blanks};
use rb_text::{Json, Piece, add_pieces};
use std::alloc::{AllocError, Global};

/// The most characters of a head's first line that the name of a symbol has.
pub const MAX_NAME: usize = 80;

// Cuts bytes in UTF-8 after their first characters.
fn first_characters(most: usize, bytes: &[u8]) -> &[u8]
    ensures { result.now ≡ first_characters most bytes.now }
{
    let mut left = most;
    for (at, b) in bytes.iter().enumerate() {
        if !is_within(*b) {
            if left == 0 {
                return &bytes[..at];
            }
            left -= 1;
        }
    }
    bytes
}

/// Gives a line by its number, counted from 0.
pub(crate) fn line_at(text: &Lines, n: usize) -> &[u8]
    ensures { result.now ≡ slice_index_or text.now n [] }
{
    if n < text.len() { text.line(n) } else { b"" }
}

// Gives the name of the directive whose head begins on a line.
fn name_of(text: &Lines, from: usize) -> &[u8]
    ensures { result.now ≡ name_of text.now from }
{
    first_characters(MAX_NAME, trim_blanks(line_at(text, from)))
}

// Adds the name, in which nothing acts, and the kind of the symbol of a block whose head begins on a line.
#[tactic(auto, unfolding(crate::specs::Symbols::name_text))]
fn add_name(out: &mut Vec<u8>, text_lines: &Lines, from: usize) -> Result<(), AllocError>
    ensures { OnOk result (out.new.items ≡ out.old.items ++ name_text text_lines.now from) }
{
    let name = shown_name(*out.allocator(), name_of(text_lines, from))?;
    add_pieces(
        out,
        &[
            Piece::Bytes(b"{\"name\":\""),
            Piece::Escaped(Json::Utf8, name.as_slice()),
            Piece::Bytes(b"\",\"kind\":24,\"range\":"),
        ],
    )
}

// Adds the symbol of a block whose head begins on a line, between these positions.
#[tactic(auto, unfolding(crate::specs::Symbols::symbol_at))]
fn add_symbol_at(
    out: &mut Vec<u8>,
    text_lines: &Lines,
    from: usize,
    start: Position,
    behind_head: Position,
    end: Position,
) -> Result<(), AllocError>
    ensures { OnOk result (out.new.items ≡ out.old.items ++ symbol_at text_lines.now from start behind_head end) }
{
    add_name(out, text_lines, from)?;
    add_range(out, start, end)?;
    out.extend_from_slice(b",\"selectionRange\":")?;
    add_range(out, start, behind_head)?;
    out.extend_from_slice(b"}")?;
    Ok(())
}

// Adds the symbol of a block.
fn add_symbol(
    out: &mut Vec<u8>,
    encoding: Encoding,
    text: &[u8],
    text_lines: &Lines,
    table: &LineTable,
    block: BlockLines,
) -> Result<(), AllocError>
    requires table { IsTable encoding text.now table.now }
    requires lines { text_lines.now ≡ lines text.now }
    ensures { OnOk result (out.new.items ≡ out.old.items ++ symbol_text encoding text.now block) }
{
    let start = start_of(encoding, text, table, block.from);
    let behind_head = start_of(encoding, text, table, block.body);
    let end = start_of(encoding, text, table, block.end);
    add_symbol_at(out, text_lines, block.from, start, behind_head, end)
}

// Adds the symbols of the blocks, separated by commas.
fn add_all(
    out: &mut Vec<u8>,
    encoding: Encoding,
    text: &[u8],
    text_lines: &Lines,
    table: &LineTable,
    blocks: &[BlockLines],
) -> Result<(), AllocError>
    requires table { IsTable encoding text.now table.now }
    requires lines { text_lines.now ≡ lines text.now }
    ensures { OnOk result (out.new.items ≡ out.old.items ++ listed (symbol_text encoding text.now) [] blocks.now) }
{
    let mut lead: &[u8] = b"";
    for block in blocks {
        out.extend_from_slice(lead)?;
        add_symbol(out, encoding, text, text_lines, table, *block)?;
        lead = b",";
    }
    out.extend_from_slice(b"]")?;
    Ok(())
}

/// Adds the symbols of a text, as the result of `textDocument/documentSymbol`. A text that isn't a script has none.
///
/// # Errors
///
/// If memory was refused. A part of the result may have been added then.
#[tactic(auto, unfolding(crate::specs::Symbols::symbols, crate::specs::Texts::list_text))]
pub fn add_symbols(
    alloc: Global,
    out: &mut Vec<u8>,
    encoding: Encoding,
    text: &[u8],
) -> Result<(), AllocError>
    requires { length text.now ≤ MAX_TEXT }
    ensures { OnOk result (out.new.items ≡ out.old.items ++ symbols encoding text.now) }
{
    let blocks = blocks_of(alloc, text)?;
    let text_lines = lines_of(alloc, text)?;
    let table = LineTable::new(alloc, encoding, text)?;
    out.extend_from_slice(b"[")?;
    add_all(out, encoding, text, &text_lines, &table, blocks.as_slice())
}
