//! A server, and how it handles a message.

ghost use Rattle.std.specs.Prelude.{◌≡◌, [], true, false, Some, None, IfOk, OnOk, option_map};
ghost use Rattle.serde_json.specs.View.{view};
ghost use Rattle.serde_json.specs.Written.{has_float};
ghost use Rattle.rb_lsp.specs.Said.{said};
ghost use Rattle.rb_lsp.specs.Cancels.{IsCancelled, undone};
ghost use Rattle.rb_lsp.specs.Meanings.{can_reach};
ghost use Rattle.rb_lsp.specs.Notices.{documents_after, notice_of, notice_run, notice_text};
ghost use Rattle.rb_lsp.specs.Questions.{body_text};
ghost use Rattle.rb_lsp.specs.Reaches.{MayReach};
ghost use Rattle.rb_lsp.specs.Replies.{after, answer_body, no_json, noticed_by, published, published_run, request_run, sent, told_of, turned_by, with_phase};
ghost use Rattle.rb_lsp.specs.Reading.{waiting};
ghost use Rattle.rb_lsp.specs.Serves.{Heeds, turned_of};

use crate::rpc::{Incoming, MessageReader, incoming_of, number_below, text_below};
use crate::server::answers::{after, answer_told, no_json, no_message};
use crate::server::changes::document_after;
use crate::server::client::Client;
use crate::server::documents::Documents;
use crate::server::method::{Method, is_of_documents, method_of};
use crate::server::outgoing::{OutgoingText, framed_answer};
use crate::server::phase::{ExitStatus, Phase, status_of};
use crate::server::publication::{Published, publication};
use crate::server::reach::Reach;
use crate::server::request::ClientRequest;
use crate::server::service::Service;
use crate::server::stale::{refused_change, stale_by};
use serde_json::Value;
use std::alloc::{AllocError, Global};
use std::marker::Model;

/// A server: its phase, and the open documents.
#[derive(Drop)]
pub(crate) struct Server<K> {
    phase: Phase,
    documents: Documents<K>,
}

impl<K> Model for Server<K> {
    ghost use Rattle.rb_lsp.specs.Replies.{PlainServer};

    ghost Value = { PlainServer };

    ghost view = { λ s. record { phase = s.phase; documents = s.documents } };
}

impl<K: Drop> Server<K> {
    ghost use Rattle.std.specs.Prelude.{◌≡◌};
    ghost use Rattle.rb_lsp.specs.Replies.{fresh};

    /// A server at its start.
    pub(crate) fn new(alloc: Global) -> Server<K>
        ensures { result ≡ fresh }
    {
        Server {
            phase: Phase::Fresh,
            documents: Documents::new(alloc),
        }
    }
}

/// What is sent for a message, how far what it asks of a text was done, and how the server ends, if it does.
#[derive(Drop)]
pub(crate) struct ServerReply {
    pub(crate) out: Vec<u8>,
    pub(crate) reach: Reach,
    pub(crate) over: Option<ExitStatus>,
}

// Sends nothing.
fn silent(alloc: Global, over: Option<ExitStatus>) -> ServerReply
    ensures out { result.out.items ≡ [] }
    ensures reach { result.reach ≡ Reach.Whole }
    ensures over { result.over ≡ over }
{
    ServerReply {
        out: Vec::new(alloc),
        reach: Reach::Whole,
        over,
    }
}

// Handles a request.
#[tactic(auto, unfolding(crate::specs::Replies::sent))]
fn hear_request<V: Service>(
    alloc: Global,
    service: &mut V,
    server: &mut Server<V::Kept>,
    method: Method,
    request: &ClientRequest<'_>,
) -> Result<ServerReply, AllocError>
    requires { has_float (view request.now.id.now) ≡ false }
    ensures out { IfOk result (λ heard. heard.out.items ≡ sent (Some (answer_body V.meaning heard.reach server.old method (option_map (λ v. view v.now) request.now.params) (view request.now.id.now)))) }
    ensures stops { IfOk result (λ heard. can_reach V.meaning (request_run V.meaning server.old.documents server.old.phase method (option_map (λ v. view v.now) request.now.params)) heard.reach ≡ true) }
    ensures only { IfOk result (λ heard. heard.reach ≡ Reach.Cancelled → IsCancelled (view request.now.id.now) (waiting request.now.reader.now)) }
    ensures cancelled { IfOk result (λ heard. IsCancelled (view request.now.id.now) (waiting request.now.reader.now) → heard.out.items ≡ sent (Some (answer_body V.meaning (undone heard.reach) server.old method (option_map (λ v. view v.now) request.now.params) (view request.now.id.now)))) }
    ensures over { IfOk result (λ heard. heard.over ≡ None) }
    ensures server { OnOk result (server.new ≡ with_phase server.old (after server.old.phase method (option_map (λ v. view v.now) request.now.params))) }
{
    let told = answer_told(
        alloc,
        service,
        &mut server.documents,
        server.phase,
        method,
        request,
    )?;
    server.phase = after(server.phase, method, request.params);
    Ok(ServerReply {
        out: told.out,
        reach: told.reach,
        over: None,
    })
}

// A notification of the document with this URI.
#[derive(Drop)]
struct DocumentNotice<'a> {
    client: Client,
    method: Method,
    uri: &'a [u8],
    params: &'a Value,
}

// Handles a notification about a document, unless it is a change whose version isn't after the document's.
fn notice<V: Service>(
    alloc: Global,
    service: &mut V,
    documents: &mut Documents<V::Kept>,
    notice: &DocumentNotice<'_>,
) -> Result<OutgoingText, AllocError>
    ensures documents { OnOk result (documents.new ≡ documents_after (Some (record { client = notice.now.client; method = notice.now.method; uri = notice.now.uri.now; given = view notice.now.params.now })) documents.old) }
    ensures out { IfOk result (λ told. told.out.items ≡ notice_text V.meaning told.reach (Some (record { client = notice.now.client; method = notice.now.method; uri = notice.now.uri.now; given = view notice.now.params.now })) documents.old documents.new) }
    ensures stops { IfOk result (λ told. can_reach V.meaning (notice_run (Some (record { client = notice.now.client; method = notice.now.method; uri = notice.now.uri.now; given = view notice.now.params.now })) documents.old documents.new) told.reach ≡ true) }
{
    let uri = notice.uri;
    let version = number_below(notice.params, "textDocument", "version");
    if let Some((known, told)) = stale_by(notice.method, documents.version(uri), version) {
        return Ok(OutgoingText::whole(refused_change(alloc, known, told)?));
    }
    let (old, mut kept) = match documents.take(uri) {
        Some((document, kept)) => (Some(document), kept),
        None => (None, service.nothing()),
    };
    let new = document_after(
        alloc,
        notice.client.encoding,
        notice.method,
        notice.params,
        old,
    )?;
    let is_crowded = new.is_some() && !documents.has_room();
    documents.keep(uri, version, new, service.nothing())?;
    let published = Published {
        client: notice.client,
        uri,
        version,
        is_crowded,
    };
    let text = documents.text(uri);
    let told = publication(alloc, service, &published, text, &mut kept)?;
    documents.set_kept(uri, kept);
    Ok(told)
}

// Handles a notification about a document.
fn take_notice<V: Service>(
    alloc: Global,
    service: &mut V,
    server: &mut Server<V::Kept>,
    method: Method,
    params: Option<&Value>,
) -> Result<OutgoingText, AllocError>
    ensures phase { server.new.phase ≡ server.old.phase }
    ensures documents { OnOk result (server.new.documents ≡ documents_after (notice_of server.old.phase method (option_map (λ v. view v.now) params.entry)) server.old.documents) }
    ensures out { IfOk result (λ told. told.out.items ≡ notice_text V.meaning told.reach (notice_of server.old.phase method (option_map (λ v. view v.now) params.entry)) server.old.documents server.new.documents) }
    ensures stops { IfOk result (λ told. can_reach V.meaning (notice_run (notice_of server.old.phase method (option_map (λ v. view v.now) params.entry)) server.old.documents server.new.documents) told.reach ≡ true) }
{
    let Phase::Running(client) = server.phase else {
        return Ok(OutgoingText::whole(Vec::new(alloc)));
    };
    let Some(params) = params else {
        return Ok(OutgoingText::whole(Vec::new(alloc)));
    };
    if !is_of_documents(method) {
        return Ok(OutgoingText::whole(Vec::new(alloc)));
    }
    let Some(uri) = text_below(params, "textDocument", "uri") else {
        return Ok(OutgoingText::whole(Vec::new(alloc)));
    };
    let told = DocumentNotice {
        client,
        method,
        uri: uri.as_bytes(),
        params,
    };
    notice(alloc, service, &mut server.documents, &told)
}

// Handles a notification.
fn hear_notification<V: Service>(
    alloc: Global,
    service: &mut V,
    server: &mut Server<V::Kept>,
    method: Method,
    params: Option<&Value>,
) -> Result<ServerReply, AllocError>
    ensures out { IfOk result (λ heard. heard.out.items ≡ published V.meaning heard.reach server.old method (option_map (λ v. view v.now) params.entry)) }
    ensures stops { IfOk result (λ heard. can_reach V.meaning (published_run server.old method (option_map (λ v. view v.now) params.entry)) heard.reach ≡ true) }
    ensures turned { IfOk result (λ heard. turned_of heard.over server.new ≡ noticed_by server.old method (option_map (λ v. view v.now) params.entry)) }
{
    if matches!(method, Method::Exit) {
        return Ok(silent(alloc, Some(status_of(server.phase))));
    }
    let told = take_notice(alloc, service, server, method, params)?;
    Ok(ServerReply {
        out: told.out,
        reach: told.reach,
        over: None,
    })
}

/// Handles a message, which the next ones in the reader may cancel.
#[tactic(auto, unfolding(crate::specs::Replies::sent))]
pub(crate) fn hear<V: Service>(
    alloc: Global,
    service: &mut V,
    server: &mut Server<V::Kept>,
    reader: &MessageReader,
    message: &Value,
) -> Result<ServerReply, AllocError>
    ensures out { IfOk result (λ heard. heard.out.items ≡ told_of V.meaning heard.reach server.old (said (view message.now))) }
    ensures turned { IfOk result (λ heard. turned_of heard.over server.new ≡ turned_by server.old (said (view message.now))) }
    // A request is answered as cancelled only if one of the next messages cancels it, and then it isn't done; as stopped only if it needs a run that
    // may stop there.
    ensures only { IfOk result (λ heard. MayReach V.meaning server.old (Some (said (view message.now))) heard.reach (waiting reader.now)) }
    ensures cancelled { IfOk result (λ heard. Heeds V.meaning server.old (Some (said (view message.now))) (waiting reader.now) heard.reach heard.out.items) }
{
    match incoming_of(message) {
        Incoming::Request(id, method, params) => {
            let request = ClientRequest { id, params, reader };
            hear_request(alloc, service, server, method_of(method), &request)
        }
        Incoming::Notification(method, params) => {
            hear_notification(alloc, service, server, method_of(method), params)
        }
        Incoming::Response => Ok(silent(alloc, None)),
        Incoming::Invalid => Ok(ServerReply {
            out: framed_answer(alloc, &no_message(alloc)?)?,
            reach: Reach::Whole,
            over: None,
        }),
    }
}

/// What is sent for bytes that aren't JSON.
#[tactic(auto, unfolding(crate::specs::Replies::sent))]
pub(crate) fn refused(alloc: Global) -> Result<Vec<u8>, AllocError>
    ensures { IfOk result (λ out. out.items ≡ sent (Some (body_text no_json))) }
{
    let answer = no_json(alloc)?;
    framed_answer(alloc, &answer)
}
