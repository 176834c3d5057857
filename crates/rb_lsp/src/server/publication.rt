//! Diagnostics that are published for a document.

ghost use Rattle.std.specs.Prelude.{◌≡◌, ◌≢◌, ◌≤◌, ◌++◌, Some, true, IfOk, IfSome, OnOk, length, option_map};
ghost use Rattle.rb_lsp.specs.declared.document.limits.TheConstants.{MAX_TEXT};
ghost use Rattle.rb_lsp.specs.Meanings.{can_reach};
ghost use Rattle.rb_lsp.specs.Messages.{frame};
ghost use Rattle.rb_lsp.specs.Notices.{closed_list, crowded_list, framed, head_text, list_by, list_publication, middle_text, no_memory_list, publication};

use crate::server::client::Client;
use crate::server::outgoing::{OutgoingText, framed};
use crate::server::reach::{Reach, reach_of};
use crate::server::service::Service;
use rb_text::{Json, Piece, add_pieces};
use std::alloc::{AllocError, Global};

#[tactic(auto, unfolding(crate::specs::Notices::head_text))]
fn add_head(out: &mut Vec<u8>, uri: &[u8]) -> Result<(), AllocError>
    ensures { OnOk result (out.new.items ≡ out.old.items ++ head_text uri.now) }
{
    add_pieces(
        out,
        &[
            Piece::Bytes(
                b"{\"jsonrpc\":\"2.0\",\"method\":\"textDocument/publishDiagnostics\",\"params\":{\"uri\":\"",
            ),
            Piece::Escaped(Json::Utf8, uri),
            Piece::Bytes(b"\""),
        ],
    )
}

// Adds the version, and the beginning of the list.
#[tactic(auto, unfolding(crate::specs::Notices::middle_text))]
fn add_middle(out: &mut Vec<u8>, version: Option<u64>) -> Result<(), AllocError>
    ensures { OnOk result (out.new.items ≡ out.old.items ++ middle_text version) }
{
    match version {
        Some(n) => add_pieces(
            out,
            &[
                Piece::Bytes(b",\"version\":"),
                Piece::Number(n),
                Piece::Bytes(b",\"diagnostics\":"),
            ],
        ),
        None => out.extend_from_slice(b",\"diagnostics\":"),
    }
}

// Makes a notification with this list, framed.
#[tactic(auto, unfolding(crate::specs::Notices::list_publication))]
fn with_list(
    alloc: Global,
    uri: &[u8],
    version: Option<u64>,
    list: &[u8],
) -> Result<Vec<u8>, AllocError>
    ensures { IfOk result (λ out. out.items ≡ frame (list_publication uri.now version list.now)) }
{
    let mut body = Vec::new(alloc);
    add_head(&mut body, uri)?;
    add_middle(&mut body, version)?;
    body.extend_from_slice(list)?;
    body.extend_from_slice(b"}}")?;
    framed(alloc, body.as_slice())
}

/// The document that something is published for.
#[derive(Drop)]
pub(crate) struct Published<'a> {
    pub(crate) client: Client,
    pub(crate) uri: &'a [u8],
    pub(crate) version: Option<u64>,
    /// Whether it isn't open since too many others are.
    pub(crate) is_crowded: bool,
}

// Makes a notification with the diagnostics of a text, as far as it was run, framed.
#[tactic(auto, unfolding(crate::specs::Notices::list_publication))]
fn diagnosed<V: Service>(
    alloc: Global,
    service: &mut V,
    document: &Published<'_>,
    text: &[u8],
    kept: &mut V::Kept,
) -> Result<OutgoingText, AllocError>
    requires { length text.now ≤ MAX_TEXT }
    ensures out { IfOk result (λ told. told.out.items ≡ frame (list_publication document.now.uri.now document.now.version (list_by V.meaning told.reach document.now.client document.now.uri.now text.now))) }
    ensures stops { IfOk result (λ told. can_reach V.meaning (Some text.now) told.reach ≡ true) }
    ensures reach { IfOk result (λ told. told.reach ≢ Reach.NoMemory) }
{
    let mut body = Vec::new(alloc);
    add_head(&mut body, document.uri)?;
    add_middle(&mut body, document.version)?;
    let stop = service.add_diagnostics(document.client, document.uri, text, kept, &mut body)?;
    body.extend_from_slice(b"}}")?;
    Ok(OutgoingText {
        out: framed(alloc, body.as_slice())?,
        reach: reach_of(stop),
    })
}

// One diagnostic for the whole first line.
#[tactic(auto, unfolding(crate::specs::Notices::no_memory_list))]
fn no_memory_list() -> &'static [u8]
    ensures { result.now ≡ no_memory_list }
{
    b"[{\"range\":{\"start\":{\"line\":0,\"character\":0},\"end\":{\"line\":1,\"character\":0}},\"severity\":1,\"code\":\"no-memory\",\"source\":\"raftbench\",\"message\":\"no memory for a run of this script\"}]"
}

// One diagnostic for the whole first line.
#[tactic(auto, unfolding(crate::specs::Notices::crowded_list))]
fn crowded_list() -> &'static [u8]
    ensures { result.now ≡ crowded_list }
{
    b"[{\"range\":{\"start\":{\"line\":0,\"character\":0},\"end\":{\"line\":1,\"character\":0}},\"severity\":2,\"code\":\"not-checked\",\"source\":\"raftbench\",\"message\":\"this script is not checked: 1,000 others are open\"}]"
}

// The list of a document that isn't open.
fn closed_list(is_crowded: bool) -> &'static [u8]
    ensures { result.now ≡ closed_list is_crowded }
{
    if is_crowded { crowded_list() } else { b"[]" }
}

// Makes a notification with the diagnostics of a text, as far as it was run, or with the one that memory was refused, framed. If it was, drops what the
// service kept of the document first, so that there is memory to say so.
fn of_open<V: Service>(
    alloc: Global,
    service: &mut V,
    document: &Published<'_>,
    text: &[u8],
    kept: &mut V::Kept,
) -> Result<OutgoingText, AllocError>
    requires { length text.now ≤ MAX_TEXT }
    ensures out { IfOk result (λ told. told.out.items ≡ frame (list_publication document.now.uri.now document.now.version (list_by V.meaning told.reach document.now.client document.now.uri.now text.now))) }
    ensures dropped { IfOk result (λ told. told.reach ≡ Reach.NoMemory → V.is_nothing kept.new ≡ true) }
    ensures stops { IfOk result (λ told. can_reach V.meaning (Some text.now) told.reach ≡ true) }
{
    match diagnosed(alloc, service, document, text, kept) {
        Ok(told) => Ok(told),
        Err(AllocError) => {
            *kept = service.nothing();
            Ok(OutgoingText {
                out: with_list(alloc, document.uri, document.version, no_memory_list())?,
                reach: Reach::NoMemory,
            })
        }
    }
}

/// Makes what is published for a document: the diagnostics of its text, as far as it was run, or the one that memory was refused. A client that asks for
/// them is sent none; the text is run, and what is kept of it answers what is asked. If the document isn't open, there are none, or the one that there is
/// no room for it.
pub(crate) fn publication<V: Service>(
    alloc: Global,
    service: &mut V,
    document: &Published<'_>,
    text: Option<&[u8]>,
    kept: &mut V::Kept,
) -> Result<OutgoingText, AllocError>
    requires { IfSome text (λ text. length text.now ≤ MAX_TEXT) }
    ensures out { IfOk result (λ told. told.out.items ≡ framed (publication V.meaning told.reach document.now.client document.now.uri.now document.now.version document.now.is_crowded (option_map (λ text. text.now) text.entry))) }
    ensures dropped { IfOk result (λ told. told.reach ≡ Reach.NoMemory → V.is_nothing kept.new ≡ true) }
    ensures stops { IfOk result (λ told. can_reach V.meaning (option_map (λ text. text.now) text.entry) told.reach ≡ true) }
{
    let Some(text) = text else {
        let list = closed_list(document.is_crowded);
        let out = with_list(alloc, document.uri, document.version, list)?;
        return Ok(OutgoingText::whole(out));
    };
    let told = of_open(alloc, service, document, text, kept)?;
    if document.client.pulls {
        return Ok(OutgoingText {
            out: Vec::new(alloc),
            reach: told.reach,
        });
    }
    Ok(told)
}
