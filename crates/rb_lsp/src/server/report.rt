//! Reports of diagnostics that a client asks for. A report's id is the digest of its text, so a client that has it needn't be sent it again.

ghost use Rattle.std.specs.Prelude.{◌≡◌, ◌≢◌, ◌≤◌, ◌++◌, Some, true, false, IfOk, OnOk, length, option_map, string_bytes};
ghost use Rattle.serde_json.specs.View.{view};
ghost use Rattle.serde_json.specs.Written.{has_float};
ghost use Rattle.rb_lsp.specs.declared.document.limits.TheConstants.{MAX_TEXT};
ghost use Rattle.rb_lsp.specs.Inquiries.{report};
ghost use Rattle.rb_lsp.specs.Meanings.{can_reach};
ghost use Rattle.rb_lsp.specs.Messages.{frame};
ghost use Rattle.rb_lsp.specs.Notices.{list_by};
ghost use Rattle.rb_lsp.specs.Questions.{answer_text, inquiry_run, text_by};
ghost use Rattle.rb_lsp.specs.Reports.{full_front, full_text, names, result_id, unchanged_text};

use crate::server::outgoing::{OutgoingText, framed};
use crate::server::question::add_front;
use crate::server::reach::{Reach, reach_of};
use crate::server::request::DocumentRequest;
use crate::server::service::Service;
use rb_text::{Piece, add_pieces};
use serde_json::Value;
use sha2::{Digest, Sha256};
use std::alloc::{AllocError, Global};

// The id of the report of a text.
#[tactic(auto, unfolding(crate::specs::Reports::result_id))]
fn result_id(alloc: Global, text: &[u8]) -> Result<String, AllocError>
    ensures { IfOk result (λ id. string_bytes id ≡ result_id text.now) }
{
    let digest = Sha256::digest(text);
    hex::encode(alloc, digest.as_slice())
}

// Whether a client names this id.
fn names(known: Option<&str>, id: &str) -> bool
    ensures { result ≡ names (option_map (λ k. k.now) known.entry) id.now }
{
    match known {
        Some(known) => known == id,
        None => false,
    }
}

// Adds the report that nothing changed.
#[tactic(auto, unfolding(crate::specs::Reports::unchanged_text))]
fn add_unchanged(out: &mut Vec<u8>, id: &str) -> Result<(), AllocError>
    ensures { OnOk result (out.new.items ≡ out.old.items ++ unchanged_text id.now) }
{
    add_pieces(
        out,
        &[
            Piece::Bytes(b"{\"kind\":\"unchanged\",\"resultId\":\""),
            Piece::Bytes(id.as_bytes()),
            Piece::Bytes(b"\"}"),
        ],
    )
}

// Adds the beginning of a report, up to its list of diagnostics.
#[tactic(auto, unfolding(crate::specs::Reports::full_front))]
fn add_full_front(out: &mut Vec<u8>, id: &str) -> Result<(), AllocError>
    ensures { OnOk result (out.new.items ≡ out.old.items ++ full_front id.now) }
{
    add_pieces(
        out,
        &[
            Piece::Bytes(b"{\"kind\":\"full\",\"resultId\":\""),
            Piece::Bytes(id.as_bytes()),
            Piece::Bytes(b"\",\"items\":"),
        ],
    )
}

// Makes the answer that the client has the report of a text, framed.
#[tactic(auto, unfolding(crate::specs::Questions::answer_text))]
fn unchanged(alloc: Global, id: &Value, report: &str) -> Result<Vec<u8>, AllocError>
    requires { has_float (view id.now) ≡ false }
    ensures { IfOk result (λ out. out.items ≡ frame (answer_text (view id.now) (unchanged_text report.now))) }
{
    let mut body = Vec::new(alloc);
    add_front(alloc, &mut body, id)?;
    add_unchanged(&mut body, report)?;
    body.extend_from_slice(b"}")?;
    framed(alloc, body.as_slice())
}

// Makes the answer with the report of a text, as far as it was run, framed.
#[tactic(auto, unfolding(crate::specs::Questions::answer_text))]
fn reported<V: Service>(
    alloc: Global,
    service: &mut V,
    request: &DocumentRequest<'_>,
    report: &str,
    text: &[u8],
    kept: &mut V::Kept,
) -> Result<OutgoingText, AllocError>
    requires plain { has_float (view request.now.id.now) ≡ false }
    requires bounded { length text.now ≤ MAX_TEXT }
    ensures reach { IfOk result (λ told. told.reach ≢ Reach.Cancelled) }
    ensures stops { IfOk result (λ told. can_reach V.meaning (Some text.now) told.reach ≡ true) }
    ensures said { IfOk result (λ told. told.out.items ≡ frame (answer_text (view request.now.id.now) (full_text report.now (list_by V.meaning told.reach request.now.client request.now.uri.now text.now)))) }
    ensures whole { IfOk result (λ told. told.reach ≢ Reach.NoMemory) }
{
    let mut body = Vec::new(alloc);
    add_front(alloc, &mut body, request.id)?;
    add_full_front(&mut body, report)?;
    let stop = service.add_diagnostics(request.client, request.uri, text, kept, &mut body)?;
    body.extend_from_slice(b"}}")?;
    Ok(OutgoingText {
        out: framed(alloc, body.as_slice())?,
        reach: reach_of(stop),
    })
}

/// Makes the answer with the report of a text. If the client has it, that is all that is said, and nothing is run.
pub(crate) fn report<V: Service>(
    alloc: Global,
    service: &mut V,
    request: &DocumentRequest<'_>,
    known: Option<&str>,
    text: &[u8],
    kept: &mut V::Kept,
) -> Result<OutgoingText, AllocError>
    requires plain { has_float (view request.now.id.now) ≡ false }
    requires bounded { length text.now ≤ MAX_TEXT }
    ensures reach { IfOk result (λ told. told.reach ≢ Reach.Cancelled) }
    ensures stops { IfOk result (λ told. can_reach V.meaning (inquiry_run V.meaning (report (option_map (λ k. k.now) known.entry)) (Some text.now)) told.reach ≡ true) }
    ensures said { IfOk result (λ told. told.out.items ≡ frame (text_by V.meaning told.reach request.now.client (report (option_map (λ k. k.now) known.entry)) request.now.uri.now (view request.now.id.now) text.now)) }
{
    let id = result_id(alloc, text)?;
    if names(known, id.as_str()) {
        let out = unchanged(alloc, request.id, id.as_str())?;
        return Ok(OutgoingText::whole(out));
    }
    reported(alloc, service, request, id.as_str(), text, kept)
}
