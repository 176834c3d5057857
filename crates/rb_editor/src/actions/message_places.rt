//! What is sent of the message that a line is about: where it is sent, and where it arrives or is lost.

ghost use Rattle.std.specs.Prelude.{◌≡◌, ◌≤◌, ◌<◌, ◌-◌, ◌^◌, ◌++◌, true, false, IfOk, IfSome, OnOk, length};
ghost use Rattle.rb_lsp.specs.declared.document.limits.TheConstants.{MAX_TEXT};
ghost use Rattle.rb_lsp.specs.Tables.{IsTable};
ghost use Rattle.rb_editor.specs.MessagePlaces.{both, definition, highlight_text, highlighted, highlights, kept_if, kind_text, location_or_null, location_text, locations, message_at, references};

use crate::actions::document::AskedDocument;
use crate::actions::layout::line_at;
use crate::actions::message_lines::{MessageLines, message_lines};
use crate::offers::{add_range, add_range_member};
use rb_lsp::document::{Encoding, LineTable, Position};
use rb_script::lines_of;
use rb_text::{Json, Piece, add_pieces};
use std::alloc::{AllocError, Global};

// ---- a line

// Adds a line of a document.
#[tactic(auto, unfolding(crate::specs::MessagePlaces::location_text))]
fn add_location(
    out: &mut Vec<u8>,
    document: AskedDocument<'_, '_>,
    table: &LineTable,
    n: usize,
) -> Result<(), AllocError>
    requires table { IsTable document.encoding document.text.now table.now }
    requires few { n < 2 ^ 64 - 1 }
    ensures { OnOk result (out.new.items ≡ out.old.items ++ location_text document.entry.encoding document.entry.uri.now document.entry.text.now n) }
{
    add_pieces(
        out,
        &[
            Piece::Bytes(b"{\"uri\":\""),
            Piece::Escaped(Json::Utf8, document.uri),
            Piece::Bytes(b"\",\"range\":"),
        ],
    )?;
    add_range(out, table.start_of(n), table.start_of(n + 1))?;
    out.extend_from_slice(b"}")?;
    Ok(())
}

fn kind_text(is_sent: bool) -> &'static [u8]
    ensures { result.now ≡ kind_text is_sent }
{
    if is_sent {
        b",\"kind\":3}"
    } else {
        b",\"kind\":2}"
    }
}

// Adds a line to highlight, on which a message is sent or isn't.
#[tactic(auto, unfolding(crate::specs::MessagePlaces::highlight_text))]
fn add_highlight(
    out: &mut Vec<u8>,
    encoding: Encoding,
    text: &[u8],
    table: &LineTable,
    is_sent: bool,
    n: usize,
) -> Result<(), AllocError>
    requires table { IsTable encoding text.now table.now }
    requires few { n < 2 ^ 64 - 1 }
    ensures { OnOk result (out.new.items ≡ out.old.items ++ highlight_text encoding text.now is_sent n) }
{
    add_range_member(out, table.start_of(n), table.start_of(n + 1))?;
    out.extend_from_slice(kind_text(is_sent))?;
    Ok(())
}

// ---- lines

// Adds the first of two lines of a document, a comma, and the other, as far as there are two.
fn add_both(
    out: &mut Vec<u8>,
    document: AskedDocument<'_, '_>,
    table: &LineTable,
    sent: Option<usize>,
    ended: Option<usize>,
) -> Result<(), AllocError>
    requires table { IsTable document.encoding document.text.now table.now }
    requires sent { IfSome sent (λ n. n < 2 ^ 64 - 1) }
    requires ended { IfSome ended (λ n. n < 2 ^ 64 - 1) }
    ensures { OnOk result (out.new.items ≡ out.old.items ++ both (location_text document.entry.encoding document.entry.uri.now document.entry.text.now) (location_text document.entry.encoding document.entry.uri.now document.entry.text.now) sent ended) }
{
    match (sent, ended) {
        (None, None) => Ok(()),
        (None, Some(n)) => add_location(out, document, table, n),
        (Some(m), None) => add_location(out, document, table, m),
        (Some(m), Some(n)) => {
            add_location(out, document, table, m)?;
            out.extend_from_slice(b",")?;
            add_location(out, document, table, n)
        }
    }
}

// Adds a list of these lines of a document.
fn add_locations(
    out: &mut Vec<u8>,
    document: AskedDocument<'_, '_>,
    table: &LineTable,
    sent: Option<usize>,
    ended: Option<usize>,
) -> Result<(), AllocError>
    requires table { IsTable document.encoding document.text.now table.now }
    requires sent { IfSome sent (λ n. n < 2 ^ 64 - 1) }
    requires ended { IfSome ended (λ n. n < 2 ^ 64 - 1) }
    ensures { OnOk result (out.new.items ≡ out.old.items ++ locations document.entry.encoding document.entry.uri.now document.entry.text.now sent ended) }
{
    out.extend_from_slice(b"[")?;
    add_both(out, document, table, sent, ended)?;
    out.extend_from_slice(b"]")?;
    Ok(())
}

// Adds the lines of a message to highlight, as far as there are two.
fn add_both_highlights(
    out: &mut Vec<u8>,
    encoding: Encoding,
    text: &[u8],
    table: &LineTable,
    found: MessageLines,
) -> Result<(), AllocError>
    requires table { IsTable encoding text.now table.now }
    requires sent { IfSome found.sent (λ n. n < 2 ^ 64 - 1) }
    requires ended { IfSome found.ended (λ n. n < 2 ^ 64 - 1) }
    ensures { OnOk result (out.new.items ≡ out.old.items ++ both (λ n. highlight_text encoding text.now true n) (λ n. highlight_text encoding text.now false n) found.sent found.ended) }
{
    match (found.sent, found.ended) {
        (None, None) => Ok(()),
        (None, Some(n)) => add_highlight(out, encoding, text, table, false, n),
        (Some(m), None) => add_highlight(out, encoding, text, table, true, m),
        (Some(m), Some(n)) => {
            add_highlight(out, encoding, text, table, true, m)?;
            out.extend_from_slice(b",")?;
            add_highlight(out, encoding, text, table, false, n)
        }
    }
}

// ---- answers

// Finds the lines of the message at a position.
fn message_at(
    alloc: Global,
    encoding: Encoding,
    position: Position,
    text: &[u8],
) -> Result<MessageLines, AllocError>
    ensures value { IfOk result (λ found. found ≡ message_at encoding position text.now) }
    ensures sent { IfOk result (λ found. IfSome found.sent (λ n. n < 2 ^ 64 - 1)) }
    ensures ended { IfOk result (λ found. IfSome found.ended (λ n. n < 2 ^ 64 - 1)) }
{
    let lines = lines_of(alloc, text)?;
    Ok(message_lines(&lines, line_at(encoding, position, text)))
}

// Adds a line of a document, or `null`.
fn add_location_or_null(
    out: &mut Vec<u8>,
    document: AskedDocument<'_, '_>,
    table: &LineTable,
    line: Option<usize>,
) -> Result<(), AllocError>
    requires table { IsTable document.encoding document.text.now table.now }
    requires few { IfSome line (λ n. n < 2 ^ 64 - 1) }
    ensures { OnOk result (out.new.items ≡ out.old.items ++ location_or_null document.entry.encoding document.entry.uri.now document.entry.text.now line) }
{
    match line {
        Some(n) => add_location(out, document, table, n),
        None => Ok(out.extend_from_slice(b"null")?),
    }
}

/// Adds where the message at a position is sent, as the result of `textDocument/definition`: `null` if no message is there, or no line sends it.
///
/// # Errors
///
/// If memory was refused. A part of the result may have been added then.
#[tactic(auto, unfolding(crate::specs::MessagePlaces::definition))]
pub(crate) fn add_definition(
    alloc: Global,
    out: &mut Vec<u8>,
    document: AskedDocument<'_, '_>,
    position: Position,
) -> Result<(), AllocError>
    requires { length document.text.now ≤ MAX_TEXT }
    ensures { OnOk result (out.new.items ≡ out.old.items ++ definition document.entry.encoding position document.entry.uri.now document.entry.text.now) }
{
    let found = message_at(alloc, document.encoding, position, document.text)?;
    let table = LineTable::new(alloc, document.encoding, document.text)?;
    add_location_or_null(out, document, &table, found.sent)
}

fn kept_if(is_kept: bool, line: Option<usize>) -> Option<usize>
    ensures value { result ≡ kept_if is_kept line }
    ensures few { IfSome line (λ n. n < 2 ^ 64 - 1) → IfSome result (λ n. n < 2 ^ 64 - 1) }
{
    if is_kept { line } else { None }
}

/// Adds where the message at a position is sent, if that is asked for, and where it arrives or is lost, as the result of `textDocument/references`.
///
/// # Errors
///
/// If memory was refused. A part of the result may have been added then.
#[tactic(auto, unfolding(crate::specs::MessagePlaces::references))]
pub(crate) fn add_references(
    alloc: Global,
    out: &mut Vec<u8>,
    document: AskedDocument<'_, '_>,
    position: Position,
    includes: bool,
) -> Result<(), AllocError>
    requires { length document.text.now ≤ MAX_TEXT }
    ensures { OnOk result (out.new.items ≡ out.old.items ++ references document.entry.encoding position includes document.entry.uri.now document.entry.text.now) }
{
    let found = message_at(alloc, document.encoding, position, document.text)?;
    let table = LineTable::new(alloc, document.encoding, document.text)?;
    let sent = kept_if(includes, found.sent);
    add_locations(out, document, &table, sent, found.ended)
}

/// Adds the lines of the message at a position, as the result of `textDocument/documentHighlight`.
///
/// # Errors
///
/// If memory was refused. A part of the result may have been added then.
#[tactic(auto, unfolding(crate::specs::MessagePlaces::highlighted))]
pub(crate) fn add_highlights(
    alloc: Global,
    out: &mut Vec<u8>,
    document: AskedDocument<'_, '_>,
    position: Position,
) -> Result<(), AllocError>
    requires { length document.text.now ≤ MAX_TEXT }
    ensures { OnOk result (out.new.items ≡ out.old.items ++ highlighted document.entry.encoding position document.entry.text.now) }
{
    let encoding = document.encoding;
    let found = message_at(alloc, encoding, position, document.text)?;
    let table = LineTable::new(alloc, encoding, document.text)?;
    out.extend_from_slice(b"[")?;
    add_both_highlights(out, encoding, document.text, &table, found)?;
    out.extend_from_slice(b"]")?;
    Ok(())
}
