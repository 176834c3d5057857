//! Diagnostics as an editor is sent them.

ghost use Rattle.std.specs.Prelude.{◌≡◌, ◌≤◌, ◌++◌, [], OnOk, length, option_map};
ghost use Rattle.rb_lsp.specs.Tables.{IsTable};
ghost use Rattle.rb_lsp.specs.declared.document.limits.TheConstants.{MAX_TEXT};
ghost use Rattle.rb_editor.specs.Texts.{list_text, listed, range_member};
ghost use Rattle.rb_editor.specs.Told.{all_told, told};
ghost use Rattle.rb_editor.specs.Published.{diagnostic_text, kind_text, message_text, place_text, related_if, related_text, shown_text};

use crate::actions::actual_output::ActualOutput;
use crate::actions::diagnostic::{Diagnostic, DiagnosticKind};
use crate::actions::shown_message::shown_message;
use crate::actions::told::{BoundedDiagnostic, MAX_TOLD, left_behind, told_came, told_message};
use crate::offers::add_range_member;
use rb_lsp::document::{Encoding, LineTable};
use rb_lsp::server::Client;
use rb_text::{Json, Piece, add_pieces};
use std::alloc::{AllocError, Global};

// Gives what begins a diagnostic after its range: its severity and its code.
#[tactic(auto, unfolding(crate::specs::Published::kind_text))]
fn kind_text(softens_later: bool, kind: DiagnosticKind) -> &'static [u8]
    ensures { result.now ≡ kind_text softens_later kind }
{
    match kind {
        DiagnosticKind::Mismatch => {
            b",\"severity\":1,\"code\":\"mismatch\",\"source\":\"raftbench\",\"message\":\""
        }
        DiagnosticKind::LaterMismatch => {
            if softens_later {
                b",\"severity\":3,\"code\":\"mismatch\",\"source\":\"raftbench\",\"message\":\""
            } else {
                b",\"severity\":1,\"code\":\"mismatch\",\"source\":\"raftbench\",\"message\":\""
            }
        }
        DiagnosticKind::ErrorOutput => {
            b",\"severity\":2,\"code\":\"error-output\",\"source\":\"raftbench\",\"message\":\""
        }
        DiagnosticKind::NoScript => {
            b",\"severity\":1,\"code\":\"no-script\",\"source\":\"raftbench\",\"message\":\""
        }
        DiagnosticKind::Slip => {
            b",\"severity\":2,\"code\":\"slip\",\"source\":\"raftbench\",\"message\":\""
        }
        DiagnosticKind::Stopped => {
            b",\"severity\":2,\"code\":\"stopped\",\"source\":\"raftbench\",\"message\":\""
        }
    }
}

// Adds the severity of a diagnostic, its code, and its message as far as it is told, in which only ends of lines act.
#[tactic(auto, unfolding(crate::specs::Published::message_text))]
fn add_message(
    out: &mut Vec<u8>,
    softens_later: bool,
    bounded: BoundedDiagnostic<'_>,
) -> Result<(), AllocError>
    ensures { OnOk result (out.new.items ≡ out.old.items ++ message_text softens_later (told bounded.entry.left bounded.entry.diagnostic.now)) }
{
    let alloc = *out.allocator();
    let diagnostic = bounded.diagnostic;
    let message = told_message(alloc, bounded)?;
    let shown = shown_message(alloc, message.as_slice())?;
    out.extend_from_slice(kind_text(softens_later, diagnostic.kind))?;
    add_pieces(
        out,
        &[
            Piece::Escaped(Json::Utf8, shown.as_slice()),
            Piece::Bytes(b"\""),
        ],
    )
}

// Adds the range from one line of a text up to another.
#[tactic(auto, unfolding(crate::specs::Published::place_text))]
fn add_place(
    out: &mut Vec<u8>,
    encoding: Encoding,
    text: &[u8],
    table: &LineTable,
    first: usize,
    behind: usize,
) -> Result<(), AllocError>
    requires { IsTable encoding text.now table.now }
    ensures { OnOk result (out.new.items ≡ out.old.items ++ place_text encoding text.now first behind) }
{
    let start = table.start_of(first);
    let end = table.start_of(behind);
    out.extend_from_slice(b",\"relatedInformation\":[{\"location\":")?;
    add_range_member(out, start, end)?;
    Ok(())
}

// Adds the document in which it is, and the actual output.
#[tactic(auto, unfolding(crate::specs::Published::shown_text))]
fn add_shown<'a>(out: &mut Vec<u8>, uri: &'a [u8], shown: &'a [u8]) -> Result<(), AllocError>
    ensures { OnOk result (out.new.items ≡ out.old.items ++ shown_text uri.now shown.now) }
{
    add_pieces(
        out,
        &[
            Piece::Bytes(b",\"uri\":\""),
            Piece::Escaped(Json::Utf8, uri),
            Piece::Bytes(b"\"},\"message\":\""),
            Piece::Escaped(Json::Utf8, shown),
            Piece::Bytes(b"\"}]"),
        ],
    )
}

// Adds the actual output, at the lines of a text that expect another.
#[tactic(auto, unfolding(crate::specs::Published::related_text))]
fn add_related(
    out: &mut Vec<u8>,
    encoding: Encoding,
    uri: &[u8],
    text: &[u8],
    table: &LineTable,
    came: &ActualOutput,
) -> Result<(), AllocError>
    requires { IsTable encoding text.now table.now }
    ensures { OnOk result (out.new.items ≡ out.old.items ++ related_text encoding uri.now text.now came.now) }
{
    add_place(out, encoding, text, table, came.first, came.behind)?;
    add_shown(out, uri, came.shown.as_slice())
}

// Adds the actual output of a mismatch, if there is one, and the client takes it.
fn add_if(
    out: &mut Vec<u8>,
    client: Client,
    uri: &[u8],
    text: &[u8],
    table: &LineTable,
    came: Option<&ActualOutput>,
) -> Result<(), AllocError>
    requires { IsTable client.encoding text.now table.now }
    ensures { OnOk result (out.new.items ≡ out.old.items ++ related_if client.takes_related client.encoding uri.now text.now (option_map (λ c. c.now) came.entry)) }
{
    if !client.takes_related {
        return Ok(());
    }
    match came {
        Some(came) => add_related(out, client.encoding, uri, text, table, came),
        None => Ok(()),
    }
}

// Adds a diagnostic of a text, whose lines are in the table, as far as it is told.
#[tactic(auto, unfolding(crate::specs::Published::diagnostic_text))]
fn add_diagnostic(
    out: &mut Vec<u8>,
    client: Client,
    uri: &[u8],
    text: &[u8],
    table: &LineTable,
    bounded: BoundedDiagnostic<'_>,
) -> Result<(), AllocError>
    requires { IsTable client.encoding text.now table.now }
    ensures { OnOk result (out.new.items ≡ out.old.items ++ diagnostic_text client uri.now text.now (told bounded.entry.left bounded.entry.diagnostic.now)) }
{
    let diagnostic = bounded.diagnostic;
    let line = diagnostic.line;
    let start = table.start_of(line.saturating_sub(1));
    let end = table.start_of(line);
    add_range_member(out, start, end)?;
    add_message(out, client.softens_later, bounded)?;
    add_if(out, client, uri, text, table, told_came(bounded))?;
    out.extend_from_slice(b"}")
}

// Adds the diagnostics as far as they are told, separated by commas, and the end of the list.
fn add_all(
    out: &mut Vec<u8>,
    client: Client,
    uri: &[u8],
    text: &[u8],
    table: &LineTable,
    list: &[Diagnostic],
) -> Result<(), AllocError>
    requires { IsTable client.encoding text.now table.now }
    ensures { OnOk result (out.new.items ≡ out.old.items ++ listed (diagnostic_text client uri.now text.now) [] (all_told MAX_TOLD list.now)) }
{
    let mut lead: &[u8] = b"";
    let mut left = MAX_TOLD;
    for diagnostic in list {
        let bounded = BoundedDiagnostic { diagnostic, left };
        out.extend_from_slice(lead)?;
        add_diagnostic(out, client, uri, text, table, bounded)?;
        lead = b",";
        left = left_behind(bounded);
    }
    out.extend_from_slice(b"]")?;
    Ok(())
}

/// Adds the diagnostics of a text, as a list. Each mismatch has its actual output, if the client takes it. Of diffs and actual outputs [`MAX_TOLD`] bytes
/// are told.
#[tactic(auto, unfolding(crate::specs::Texts::list_text), using(crate::proofs::QuietLaws::none_listed))]
pub(crate) fn add_list(
    alloc: Global,
    out: &mut Vec<u8>,
    client: Client,
    uri: &[u8],
    text: &[u8],
    list: &[Diagnostic],
) -> Result<(), AllocError>
    requires { length text.now ≤ MAX_TEXT }
    ensures { OnOk result (out.new.items ≡ out.old.items ++ list_text (diagnostic_text client uri.now text.now) (all_told MAX_TOLD list.now)) }
{
    if list.is_empty() {
        return out.extend_from_slice(b"[]");
    }
    let table = LineTable::new(alloc, client.encoding, text)?;
    out.extend_from_slice(b"[")?;
    add_all(out, client, uri, text, &table, list)
}
