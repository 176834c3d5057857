//! Quick fixes of lines that look like a mistake: they insert what is missing above.

ghost use Rattle.std.specs.Prelude.{◌≡◌, ◌++◌, OnOk};
ghost use Rattle.rb_lsp.specs.Tables.{IsTable};
ghost use Rattle.rb_editor.specs.Actions.{above, first_within, fix_head, fix_if, fix_text, fixes_text, is_within, missing};

use crate::actions::action::add_edit;
use crate::actions::extent::{Extent, LineSpan};
use rb_lsp::document::{Encoding, LineTable};
use rb_report::check::WarningKind;
use rb_script_report::Warning;
use rb_text::{Json, Piece, add_pieces};
use std::alloc::AllocError;

fn is_within(span: LineSpan, slip: &Warning) -> bool
    ensures { result ≡ is_within span slip.now }
{
    let line = slip.line.saturating_sub(1);
    span.first <= line && line <= span.last
}

/// Finds the first on these lines.
pub(crate) fn first_within(span: LineSpan, slips: &[Warning]) -> Option<Warning>
    ensures { result ≡ first_within span slips.now }
{
    for slip in slips {
        if is_within(span, slip) {
            return Some(*slip);
        }
    }
    None
}

// The text that is missing above a line.
#[tactic(auto, unfolding(crate::specs::Actions::missing))]
fn missing(doubt: WarningKind) -> &'static [u8]
    ensures { result.now ≡ missing doubt }
{
    match doubt {
        WarningKind::InExpectation => b"\n",
        WarningKind::InInput => b"----\n\n",
        WarningKind::Unread => b"----\n",
    }
}

#[tactic(auto, unfolding(crate::specs::Actions::fix_head))]
fn fix_head(doubt: WarningKind) -> &'static [u8]
    ensures { result.now ≡ fix_head doubt }
{
    match doubt {
        WarningKind::InExpectation => {
            b"{\"title\":\"Insert the missing empty line\",\"kind\":\"quickfix\",\"edit\":{\"changes\":{\""
        }
        WarningKind::InInput => {
            b"{\"title\":\"Insert the missing ---- and an empty line\",\"kind\":\"quickfix\",\"edit\":{\"changes\":{\""
        }
        WarningKind::Unread => {
            b"{\"title\":\"Insert the missing ----\",\"kind\":\"quickfix\",\"edit\":{\"changes\":{\""
        }
    }
}

// The place above a line, counted from 0.
fn above(line: usize) -> Extent
    ensures { result ≡ above line }
{
    Extent {
        head: line,
        expected: line,
        end: line,
        is_double: false,
    }
}

// Adds an action that inserts what is missing above the line.
#[tactic(auto, unfolding(crate::specs::Actions::fix_text))]
fn add_fix(
    out: &mut Vec<u8>,
    encoding: Encoding,
    uri: &[u8],
    text: &[u8],
    table: &LineTable,
    slip: Warning,
) -> Result<(), AllocError>
    requires { IsTable encoding text.now table.now }
    ensures { OnOk result (out.new.items ≡ out.old.items ++ fix_text encoding uri.now text.now slip) }
{
    add_pieces(
        out,
        &[
            Piece::Bytes(fix_head(slip.doubt)),
            Piece::Escaped(Json::Utf8, uri),
            Piece::Bytes(b"\":["),
        ],
    )?;
    let place = above(slip.line.saturating_sub(1));
    add_edit(out, encoding, text, table, place, missing(slip.doubt))?;
    out.extend_from_slice(b"]}}}")
}

fn add_if(
    out: &mut Vec<u8>,
    encoding: Encoding,
    uri: &[u8],
    text: &[u8],
    table: &LineTable,
    found: Option<Warning>,
) -> Result<(), AllocError>
    requires { IsTable encoding text.now table.now }
    ensures { OnOk result (out.new.items ≡ out.old.items ++ fix_if encoding uri.now text.now found) }
{
    match found {
        Some(slip) => add_fix(out, encoding, uri, text, table, slip),
        None => Ok(()),
    }
}

/// Adds the quick fix of a line as a list, which is empty if there is none.
#[tactic(auto, unfolding(crate::specs::Actions::fixes_text))]
pub(crate) fn add_fixes(
    out: &mut Vec<u8>,
    encoding: Encoding,
    uri: &[u8],
    text: &[u8],
    table: &LineTable,
    found: Option<Warning>,
) -> Result<(), AllocError>
    requires { IsTable encoding text.now table.now }
    ensures { OnOk result (out.new.items ≡ out.old.items ++ fixes_text encoding uri.now text.now found) }
{
    out.extend_from_slice(b"[")?;
    add_if(out, encoding, uri, text, table, found)?;
    out.extend_from_slice(b"]")
}
