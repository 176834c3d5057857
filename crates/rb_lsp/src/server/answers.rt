//! Answers to requests, and the state of the server after each.

ghost use Rattle.std.specs.Prelude.{◌≡◌, true, false, IfOk, option_map};
ghost use Rattle.serde_json.specs.View.{view};
ghost use Rattle.serde_json.specs.Written.{has_float};
ghost use Rattle.rb_lsp.specs.Cancels.{IsCancelled, undone};
ghost use Rattle.rb_lsp.specs.Meanings.{can_reach};
ghost use Rattle.rb_lsp.specs.Messages.{frame};
ghost use Rattle.rb_lsp.specs.Questions.{body_text};
ghost use Rattle.rb_lsp.specs.Reading.{waiting};
ghost use Rattle.rb_lsp.specs.Replies.{after, answer_to, body_in, fresh_answer, initialize_answer, no_json, no_message, request_run, running_answer};

use crate::rpc::{ErrorCode, failure, success};
use crate::server::beginning::{client_of, initialized};
use crate::server::client::Client;
use crate::server::documents::Documents;
use crate::server::method::Method;
use crate::server::outgoing::{OutgoingText, framed_answer};
use crate::server::phase::Phase;
use crate::server::question::question_told;
use crate::server::reach::Reach;
use crate::server::request::ClientRequest;
use crate::server::service::Service;
use serde_json::Value;
use std::alloc::{AllocError, Global};

// The answer to `initialize`.
fn initialize_answer(alloc: Global, client: Option<Client>, id: &Value) -> Result<Value, AllocError>
    ensures { IfOk result (λ value. view value ≡ initialize_answer client (view id.now)) }
{
    match client {
        Some(client) => {
            let able = initialized(alloc, client)?;
            success(alloc, id, able)
        }
        None => failure(alloc, id, ErrorCode::InvalidParams, "params is no object"),
    }
}

// The answer to a request before `initialize`.
fn fresh_answer(
    alloc: Global,
    method: Method,
    params: Option<&Value>,
    id: &Value,
) -> Result<Value, AllocError>
    ensures { IfOk result (λ value. view value ≡ fresh_answer method (option_map (λ v. view v.now) params.entry) (view id.now)) }
{
    match method {
        Method::Initialize => initialize_answer(alloc, client_of(params), id),
        _ => failure(
            alloc,
            id,
            ErrorCode::ServerNotInitialized,
            "initialize comes first",
        ),
    }
}

// The answer to a request between `initialize` and `shutdown`.
fn running_answer(alloc: Global, method: Method, id: &Value) -> Result<Value, AllocError>
    ensures { IfOk result (λ value. view value ≡ running_answer method (view id.now)) }
{
    match method {
        Method::Shutdown => success(alloc, id, Value::Null),
        Method::Initialize => failure(
            alloc,
            id,
            ErrorCode::InvalidRequest,
            "initialize came before",
        ),
        _ => failure(
            alloc,
            id,
            ErrorCode::MethodNotFound,
            "there is no such method",
        ),
    }
}

// The answer to a request of no document.
fn answer_to(
    alloc: Global,
    phase: Phase,
    method: Method,
    params: Option<&Value>,
    id: &Value,
) -> Result<Value, AllocError>
    ensures { IfOk result (λ value. view value ≡ answer_to phase method (option_map (λ v. view v.now) params.entry) (view id.now)) }
{
    match phase {
        Phase::Fresh => fresh_answer(alloc, method, params, id),
        Phase::Running(_) => running_answer(alloc, method, id),
        Phase::Stopped => failure(alloc, id, ErrorCode::InvalidRequest, "shutdown came before"),
    }
}

/// The answer to a request, where these documents are open. What is asked of one is not done if one of the next messages cancels it, and only then.
pub(crate) fn answer_told<V: Service>(
    alloc: Global,
    service: &mut V,
    documents: &mut Documents<V::Kept>,
    phase: Phase,
    method: Method,
    request: &ClientRequest<'_>,
) -> Result<OutgoingText, AllocError>
    requires { has_float (view request.now.id.now) ≡ false }
    ensures documents { documents.new ≡ documents.old }
    ensures said { IfOk result (λ told. told.out.items ≡ frame (body_in V.meaning told.reach documents.old phase method (option_map (λ v. view v.now) request.now.params) (view request.now.id.now))) }
    ensures stops { IfOk result (λ told. can_reach V.meaning (request_run V.meaning documents.old phase method (option_map (λ v. view v.now) request.now.params)) told.reach ≡ true) }
    ensures only { IfOk result (λ told. told.reach ≡ Reach.Cancelled → IsCancelled (view request.now.id.now) (waiting request.now.reader.now)) }
    ensures cancelled { IfOk result (λ told. IsCancelled (view request.now.id.now) (waiting request.now.reader.now) → told.out.items ≡ frame (body_in V.meaning (undone told.reach) documents.old phase method (option_map (λ v. view v.now) request.now.params) (view request.now.id.now))) }
{
    match (phase, method) {
        (Phase::Running(client), Method::Asks(question)) => question_told(
            alloc, service, documents, client, question, request,
        ),
        _ => Ok(OutgoingText::whole(own_answer(alloc, phase, method, request.params, request.id)?)),
    }
}

// The framed answer to a request without a document.
fn own_answer(
    alloc: Global,
    phase: Phase,
    method: Method,
    params: Option<&Value>,
    id: &Value,
) -> Result<Vec<u8>, AllocError>
    requires { has_float (view id.now) ≡ false }
    ensures { IfOk result (λ out. out.items ≡ frame (body_text (answer_to phase method (option_map (λ v. view v.now) params.entry) (view id.now)))) }
{
    let answer = answer_to(alloc, phase, method, params, id)?;
    framed_answer(alloc, &answer)
}

/// The state of a server after a request.
pub(crate) fn after(phase: Phase, method: Method, params: Option<&Value>) -> Phase
    ensures { result ≡ after phase method (option_map (λ v. view v.now) params.entry) }
{
    match (phase, method) {
        (Phase::Fresh, Method::Initialize) => match client_of(params) {
            Some(client) => Phase::Running(client),
            None => Phase::Fresh,
        },
        (Phase::Running(_), Method::Shutdown) => Phase::Stopped,
        _ => phase,
    }
}

/// The answer to JSON that is not a message. Its id isn't known.
#[tactic(auto, unfolding(crate::specs::Replies::no_message))]
pub(crate) fn no_message(alloc: Global) -> Result<Value, AllocError>
    ensures value { IfOk result (λ answer. view answer ≡ no_message) }
    ensures plain { IfOk result (λ answer. has_float (view answer) ≡ false) }
{
    failure(
        alloc,
        &Value::Null,
        ErrorCode::InvalidRequest,
        "this is no message",
    )
}

/// The answer to what isn't JSON.
#[tactic(auto, unfolding(crate::specs::Replies::no_json))]
pub(crate) fn no_json(alloc: Global) -> Result<Value, AllocError>
    ensures value { IfOk result (λ answer. view answer ≡ no_json) }
    ensures plain { IfOk result (λ answer. has_float (view answer) ≡ false) }
{
    failure(
        alloc,
        &Value::Null,
        ErrorCode::ParseError,
        "this is no JSON",
    )
}
