//! What can be selected around positions: a list of the service's results, one a position.

ghost use Rattle.std.specs.Prelude.{◌≡◌, ◌≢◌, ◌≤◌, ◌++◌, [], None, Some, true, false, IfOk, OnOk, length, map};
ghost use Rattle.serde_json.specs.View.{items_of, view};
ghost use Rattle.serde_json.specs.Written.{has_float};
ghost use Rattle.rb_lsp.specs.declared.document.limits.TheConstants.{MAX_TEXT};
ghost use Rattle.rb_lsp.specs.Inquiries.{selections};
ghost use Rattle.rb_lsp.specs.Meanings.{can_reach};
ghost use Rattle.rb_lsp.specs.Messages.{frame};
ghost use Rattle.rb_lsp.specs.Notices.{reach_of};
ghost use Rattle.rb_lsp.specs.Params.{position_list, positions_in};
ghost use Rattle.rb_lsp.specs.Questions.{each_selection, inquiry_run, text_by};

use crate::document::Position;
use crate::rpc::as_position;
use crate::server::outgoing::{OutgoingText, framed};
use crate::server::query::Query;
use crate::server::question::{add_front, stopped_for};
use crate::server::reach::Reach;
use crate::server::request::DocumentRequest;
use crate::server::service::{DocumentQuery, Service};
use crate::server::stop::Stop;
use serde_json::Value;
use std::alloc::{AllocError, Global};

// Appends a position, if there is one.
fn keep(list: &mut Vec<Position>, position: Option<Position>) -> Result<(), AllocError>
    ensures { OnOk result (list.new.items ≡ list.old.items ++ position_list position) }
{
    if let Some(position) = position {
        list.push(position)?;
    }
    Ok(())
}

// Makes a list of those of these values that are positions.
fn positions_in(alloc: Global, places: &[Value]) -> Result<Vec<Position>, AllocError>
    ensures { IfOk result (λ list. list.items ≡ positions_in (items_of (map view places.now))) }
{
    let mut list = Vec::new(alloc);
    for place in places {
        keep(&mut list, as_position(place))?;
    }
    Ok(list)
}

// Adds what can be selected around each of these positions, and the end of the list. If that needs a run of the text and it stopped, returns where
// instead.
fn add_selections<V: Service>(
    service: &mut V,
    request: &DocumentRequest<'_>,
    positions: &[Position],
    text: &[u8],
    kept: &V::Kept,
    out: &mut Vec<u8>,
) -> Result<Option<Stop>, AllocError>
    requires { length text.now ≤ MAX_TEXT }
    ensures added { IfOk result (λ stop. stop ≡ None → out.new.items ≡ out.old.items ++ each_selection V.meaning request.now.client request.now.uri.now text.now [] positions.now) }
    ensures stops { IfOk result (λ stop. can_reach V.meaning (inquiry_run V.meaning (selections positions.now) (Some text.now)) (reach_of stop) ≡ true) }
{
    let mut lead: &[u8] = b"";
    for position in positions {
        let asked = DocumentQuery {
            client: request.client,
            query: Query::SelectionRange(*position),
            uri: request.uri,
            text,
        };
        out.extend_from_slice(lead)?;
        let stop = service.add_answer(asked, kept, out)?;
        match stop {
            Some(stop) => return Ok(Some(stop)),
            None => lead = b",",
        }
    }
    out.extend_from_slice(b"]")?;
    Ok(None)
}

/// Makes the answer with what can be selected around each of these values that is a position, framed, or the error that the run of the text was stopped.
#[tactic(auto, unfolding(crate::specs::Questions::answer_text))]
pub(crate) fn selected<V: Service>(
    alloc: Global,
    service: &mut V,
    request: &DocumentRequest<'_>,
    places: &[Value],
    text: &[u8],
    kept: &V::Kept,
) -> Result<OutgoingText, AllocError>
    requires plain { has_float (view request.now.id.now) ≡ false }
    requires bounded { length text.now ≤ MAX_TEXT }
    ensures reach { IfOk result (λ told. told.reach ≢ Reach.Cancelled) }
    ensures stops { IfOk result (λ told. can_reach V.meaning (inquiry_run V.meaning (selections (positions_in (items_of (map view places.now)))) (Some text.now)) told.reach ≡ true) }
    ensures said { IfOk result (λ told. told.out.items ≡ frame (text_by V.meaning told.reach request.now.client (selections (positions_in (items_of (map view places.now)))) request.now.uri.now (view request.now.id.now) text.now)) }
{
    let positions = positions_in(alloc, places)?;
    let mut body = Vec::new(alloc);
    add_front(alloc, &mut body, request.id)?;
    body.extend_from_slice(b"[")?;
    let stop = add_selections(
        service,
        request,
        positions.as_slice(),
        text,
        kept,
        &mut body,
    )?;
    if let Some(stop) = stop {
        return Ok(OutgoingText {
            out: stopped_for(alloc, request.id)?,
            reach: Reach::Stopped(stop),
        });
    }
    body.extend_from_slice(b"}")?;
    Ok(OutgoingText::whole(framed(alloc, body.as_slice())?))
}
