//! Answers to requests about documents.

ghost use Rattle.std.specs.Prelude.{◌≡◌, ◌≢◌, ◌↔◌, ◌≤◌, ◌++◌, None, Some, true, false, IfOk, OnOk, length, option_map};
ghost use Rattle.serde_json.specs.View.{view};
ghost use Rattle.serde_json.specs.Written.{compact_text, has_float};
ghost use Rattle.rb_lsp.specs.declared.document.limits.TheConstants.{MAX_TEXT};
ghost use Rattle.rb_lsp.specs.Answers.{failure};
ghost use Rattle.rb_lsp.specs.Cancels.{IsCancelled, undone};
ghost use Rattle.rb_lsp.specs.Meanings.{can_reach, run_by};
ghost use Rattle.rb_lsp.specs.Messages.{frame};
ghost use Rattle.rb_lsp.specs.Documents.{text_of};
ghost use Rattle.rb_lsp.specs.Reading.{waiting};
ghost use Rattle.rb_lsp.specs.Inquiries.{inquiry_of, one};
ghost use Rattle.rb_lsp.specs.Questions.{answer_front, answer_text, asked_of, body_text, cancelled_for, inquiry_run, no_memory_for, not_open, of_text, question_body, question_run, stopped_for, text_by, unfit, with_asked};

use crate::rpc::{ErrorCode, failure, text_below, text_of};
use crate::server::client::Client;
use crate::server::documents::Documents;
use crate::server::inquiry::{Inquiry, asked_of};
use crate::server::method::Question;
use crate::server::outgoing::{OutgoingText, framed, framed_answer};
use crate::server::query::Query;
use crate::server::reach::Reach;
use crate::server::report::report;
use crate::server::request::{ClientRequest, DocumentRequest};
use crate::server::selection::selected;
use crate::server::service::{DocumentQuery, Service};
use rb_text::{Piece, add_pieces};
use serde_json::Value;
use std::alloc::{AllocError, Global};

// A framed error with this code and this sentence.
fn refused(
    alloc: Global,
    id: &Value,
    code: ErrorCode,
    sentence: &str,
) -> Result<Vec<u8>, AllocError>
    requires { has_float (view id.now) ≡ false }
    ensures { IfOk result (λ out. out.items ≡ frame (body_text (failure (view id.now) code sentence.now))) }
{
    let answer = failure(alloc, id, code, sentence)?;
    framed_answer(alloc, &answer)
}

// Refuses parameters that the method doesn't take.
#[tactic(auto, unfolding(crate::specs::Questions::unfit))]
fn unfit(alloc: Global, id: &Value) -> Result<OutgoingText, AllocError>
    requires { has_float (view id.now) ≡ false }
    ensures out { IfOk result (λ told. told.out.items ≡ frame (body_text (unfit (view id.now)))) }
    ensures reach { IfOk result (λ told. told.reach ≡ Reach.Whole) }
{
    let code = ErrorCode::InvalidParams;
    let out = refused(alloc, id, code, "the method takes other params")?;
    Ok(OutgoingText::whole(out))
}

// Refuses a request about a document that isn't open.
#[tactic(auto, unfolding(crate::specs::Questions::not_open))]
fn not_open(alloc: Global, id: &Value) -> Result<OutgoingText, AllocError>
    requires { has_float (view id.now) ≡ false }
    ensures out { IfOk result (λ told. told.out.items ≡ frame (body_text (not_open (view id.now)))) }
    ensures reach { IfOk result (λ told. told.reach ≡ Reach.Whole) }
{
    let code = ErrorCode::InvalidParams;
    let out = refused(alloc, id, code, "the document isn't open")?;
    Ok(OutgoingText::whole(out))
}

// Refuses a request for whose answer memory was refused.
#[tactic(auto, unfolding(crate::specs::Questions::no_memory_for))]
fn no_memory_for(alloc: Global, id: &Value) -> Result<Vec<u8>, AllocError>
    requires { has_float (view id.now) ≡ false }
    ensures { IfOk result (λ out. out.items ≡ frame (body_text (no_memory_for (view id.now)))) }
{
    let code = ErrorCode::InternalError;
    refused(alloc, id, code, "no memory for an answer")
}

/// Refuses a request about a text whose run was stopped.
#[tactic(auto, unfolding(crate::specs::Questions::stopped_for))]
pub(crate) fn stopped_for(alloc: Global, id: &Value) -> Result<Vec<u8>, AllocError>
    requires { has_float (view id.now) ≡ false }
    ensures { IfOk result (λ out. out.items ≡ frame (body_text (stopped_for (view id.now)))) }
{
    let code = ErrorCode::RequestFailed;
    refused(alloc, id, code, "the run of this script was stopped")
}

// Refuses a request that its client has cancelled.
#[tactic(auto, unfolding(crate::specs::Questions::cancelled_for))]
fn cancelled_for(alloc: Global, id: &Value) -> Result<OutgoingText, AllocError>
    requires { has_float (view id.now) ≡ false }
    ensures out { IfOk result (λ told. told.out.items ≡ frame (body_text (cancelled_for (view id.now)))) }
    ensures reach { IfOk result (λ told. told.reach ≡ Reach.Cancelled) }
{
    let code = ErrorCode::RequestCancelled;
    Ok(OutgoingText {
        out: refused(alloc, id, code, "the request was cancelled")?,
        reach: Reach::Cancelled,
    })
}

/// Adds the beginning of an answer, up to its result.
pub(crate) fn add_front(alloc: Global, out: &mut Vec<u8>, id: &Value) -> Result<(), AllocError>
    requires { has_float (view id.now) ≡ false }
    ensures { OnOk result (out.new.items ≡ out.old.items ++ answer_front (view id.now)) }
{
    let text = text_of(alloc, id)?;
    add_pieces(
        out,
        &[
            Piece::Bytes(b"{\"id\":"),
            Piece::Bytes(text.as_bytes()),
            Piece::Bytes(b",\"jsonrpc\":\"2.0\",\"result\":"),
        ],
    )
}

// Makes the answer with the service's result, framed, or the error that the run of the text was stopped.
#[tactic(auto, unfolding(crate::specs::Questions::answer_text))]
fn queried<V: Service>(
    alloc: Global,
    service: &mut V,
    request: &DocumentRequest<'_>,
    query: Query,
    text: &[u8],
    kept: &V::Kept,
) -> Result<OutgoingText, AllocError>
    requires plain { has_float (view request.now.id.now) ≡ false }
    requires bounded { length text.now ≤ MAX_TEXT }
    ensures reach { IfOk result (λ told. told.reach ≢ Reach.Cancelled) }
    ensures stops { IfOk result (λ told. can_reach V.meaning (run_by V.meaning query (Some text.now)) told.reach ≡ true) }
    ensures said { IfOk result (λ told. told.out.items ≡ frame (text_by V.meaning told.reach request.now.client (one query) request.now.uri.now (view request.now.id.now) text.now)) }
{
    let asked = DocumentQuery {
        client: request.client,
        query,
        uri: request.uri,
        text,
    };
    let mut body = Vec::new(alloc);
    add_front(alloc, &mut body, request.id)?;
    let stop = service.add_answer(asked, kept, &mut body)?;
    if let Some(stop) = stop {
        return Ok(OutgoingText {
            out: stopped_for(alloc, request.id)?,
            reach: Reach::Stopped(stop),
        });
    }
    body.extend_from_slice(b"}")?;
    Ok(OutgoingText::whole(framed(alloc, body.as_slice())?))
}

// Makes the answer about an open document.
fn answered<V: Service>(
    alloc: Global,
    service: &mut V,
    request: &DocumentRequest<'_>,
    text: &[u8],
    kept: &mut V::Kept,
) -> Result<OutgoingText, AllocError>
    requires plain { has_float (view request.now.id.now) ≡ false }
    requires bounded { length text.now ≤ MAX_TEXT }
    ensures reach { IfOk result (λ told. told.reach ≢ Reach.Cancelled) }
    ensures stops { IfOk result (λ told. can_reach V.meaning (inquiry_run V.meaning (inquiry_of request.now.inquiry) (Some text.now)) told.reach ≡ true) }
    ensures said { IfOk result (λ told. told.out.items ≡ frame (text_by V.meaning told.reach request.now.client (inquiry_of request.now.inquiry) request.now.uri.now (view request.now.id.now) text.now)) }
{
    match request.inquiry {
        Inquiry::One(query) => queried(alloc, service, request, query, text, kept),
        Inquiry::Report(known) => report(alloc, service, request, known, text, kept),
        Inquiry::Selections(places) => selected(alloc, service, request, places, text, kept),
    }
}

// Makes the answer about an open document, or the error that one of the next messages cancels the request. Then nothing else is done.
fn unless_cancelled<V: Service>(
    alloc: Global,
    service: &mut V,
    request: &DocumentRequest<'_>,
    text: &[u8],
    kept: &mut V::Kept,
) -> Result<OutgoingText, AllocError>
    requires plain { has_float (view request.now.id.now) ≡ false }
    requires bounded { length text.now ≤ MAX_TEXT }
    ensures said { IfOk result (λ told. told.out.items ≡ frame (text_by V.meaning told.reach request.now.client (inquiry_of request.now.inquiry) request.now.uri.now (view request.now.id.now) text.now)) }
    // It is left undone as stopped only if it needs the run of the text, and that may stop there.
    ensures stops { IfOk result (λ told. can_reach V.meaning (inquiry_run V.meaning (inquiry_of request.now.inquiry) (Some text.now)) told.reach ≡ true) }
    // It isn't done exactly if it is cancelled.
    ensures cancelled { IfOk result (λ told. told.reach ≡ Reach.Cancelled ↔ IsCancelled (view request.now.id.now) (waiting request.now.reader.now)) }
{
    let id = text_of(alloc, request.id)?;
    if request.reader.has_cancel(alloc, id.as_bytes())? {
        return cancelled_for(alloc, request.id);
    }
    answered(alloc, service, request, text, kept)
}

// Makes the answer about an open document, or the error that the request was cancelled, or that memory was refused. If that was refused for a report,
// drops what the service kept of the document first, so that there is memory to say so.
fn of_text<V: Service>(
    alloc: Global,
    service: &mut V,
    request: &DocumentRequest<'_>,
    text: &[u8],
    kept: &mut V::Kept,
) -> Result<OutgoingText, AllocError>
    requires plain { has_float (view request.now.id.now) ≡ false }
    requires bounded { length text.now ≤ MAX_TEXT }
    ensures said { IfOk result (λ told. told.out.items ≡ frame (of_text V.meaning told.reach request.now.client (inquiry_of request.now.inquiry) request.now.uri.now (view request.now.id.now) (Some text.now))) }
    ensures stops { IfOk result (λ told. can_reach V.meaning (inquiry_run V.meaning (inquiry_of request.now.inquiry) (Some text.now)) told.reach ≡ true) }
    ensures only { IfOk result (λ told. told.reach ≡ Reach.Cancelled → IsCancelled (view request.now.id.now) (waiting request.now.reader.now)) }
    ensures cancelled { IfOk result (λ told. IsCancelled (view request.now.id.now) (waiting request.now.reader.now) → told.out.items ≡ frame (of_text V.meaning (undone told.reach) request.now.client (inquiry_of request.now.inquiry) request.now.uri.now (view request.now.id.now) (Some text.now))) }
{
    match unless_cancelled(alloc, service, request, text, kept) {
        Ok(told) => Ok(told),
        Err(AllocError) => {
            if matches!(request.inquiry, Inquiry::Report(_)) {
                *kept = service.nothing();
            }
            Ok(OutgoingText {
                out: no_memory_for(alloc, request.id)?,
                reach: Reach::NoMemory,
            })
        }
    }
}

// The answer to a request about the document with this URI.
fn of_document<V: Service>(
    alloc: Global,
    service: &mut V,
    documents: &mut Documents<V::Kept>,
    request: &DocumentRequest<'_>,
) -> Result<OutgoingText, AllocError>
    requires { has_float (view request.now.id.now) ≡ false }
    ensures documents { documents.new ≡ documents.old }
    ensures said { IfOk result (λ told. told.out.items ≡ frame (of_text V.meaning told.reach request.now.client (inquiry_of request.now.inquiry) request.now.uri.now (view request.now.id.now) (text_of request.now.uri.now documents.old))) }
    ensures stops { IfOk result (λ told. can_reach V.meaning (inquiry_run V.meaning (inquiry_of request.now.inquiry) (text_of request.now.uri.now documents.old)) told.reach ≡ true) }
    ensures only { IfOk result (λ told. told.reach ≡ Reach.Cancelled → IsCancelled (view request.now.id.now) (waiting request.now.reader.now)) }
    ensures cancelled { IfOk result (λ told. IsCancelled (view request.now.id.now) (waiting request.now.reader.now) → told.out.items ≡ frame (of_text V.meaning (undone told.reach) request.now.client (inquiry_of request.now.inquiry) request.now.uri.now (view request.now.id.now) (text_of request.now.uri.now documents.old))) }
{
    let mut kept = documents.take_kept(request.uri, service.nothing());
    let told = match documents.text(request.uri) {
        Some(text) => of_text(alloc, service, request, text, &mut kept),
        None => not_open(alloc, request.id),
    };
    documents.set_kept(request.uri, kept);
    told
}

/// The answer to what is asked of a document, by the method's parameters. It is not done if one of the next messages cancels it, and only then.
pub(crate) fn question_told<V: Service>(
    alloc: Global,
    service: &mut V,
    documents: &mut Documents<V::Kept>,
    client: Client,
    question: Question,
    request: &ClientRequest<'_>,
) -> Result<OutgoingText, AllocError>
    requires { has_float (view request.now.id.now) ≡ false }
    ensures documents { documents.new ≡ documents.old }
    ensures said { IfOk result (λ told. told.out.items ≡ frame (question_body V.meaning told.reach client documents.old question (option_map (λ v. view v.now) request.now.params) (view request.now.id.now))) }
    ensures stops { IfOk result (λ told. can_reach V.meaning (question_run V.meaning documents.old question (option_map (λ v. view v.now) request.now.params)) told.reach ≡ true) }
    ensures only { IfOk result (λ told. told.reach ≡ Reach.Cancelled → IsCancelled (view request.now.id.now) (waiting request.now.reader.now)) }
    ensures cancelled { IfOk result (λ told. IsCancelled (view request.now.id.now) (waiting request.now.reader.now) → told.out.items ≡ frame (question_body V.meaning (undone told.reach) client documents.old question (option_map (λ v. view v.now) request.now.params) (view request.now.id.now))) }
{
    let Some(params) = request.params else {
        return unfit(alloc, request.id);
    };
    let Some(uri) = text_below(params, "textDocument", "uri") else {
        return unfit(alloc, request.id);
    };
    let Some(inquiry) = asked_of(question, params) else {
        return unfit(alloc, request.id);
    };
    let asked = DocumentRequest {
        client,
        inquiry,
        uri: uri.as_bytes(),
        id: request.id,
        reader: request.reader,
    };
    of_document(alloc, service, documents, &asked)
}
