//! The text of a document after a notification.

ghost use Rattle.std.specs.Prelude.{◌≡◌, ◌≤◌, if◌then◌else◌, Some, None, IfOk, codes, length, map};
ghost use Rattle.serde_json.specs.Find.{get};
ghost use Rattle.serde_json.specs.View.{items_of, view};
ghost use Rattle.rb_lsp.specs.DocumentChanges.{changed_all, changed_once, fitting, is_unfit, text_after, with_changes};

use crate::document::{Document, Encoding, TextFault};
use crate::rpc::{range_at, text_at, text_below};
use crate::server::method::Method;
use serde_json::Value;
use std::alloc::{AllocError, Global};

// A document with this text, if it is short enough.
fn opened(alloc: Global, text: &[u8]) -> Result<Option<Document>, AllocError>
    ensures { IfOk result (λ document. document ≡ fitting text.now) }
{
    match Document::new(alloc, text) {
        Ok(document) => Ok(Some(document)),
        Err(TextFault::TooLong) => Ok(None),
        Err(TextFault::OutOfMemory) => Err(AllocError),
    }
}

// Whether a change has something that isn't a range in the place of one. The range may be missing or null.
fn has_unfit_range(change: &Value) -> bool
    ensures { result ≡ is_unfit (get (codes "range") (view change.now)) }
{
    match change.get("range") {
        None => false,
        Some(range) => !range.is_null() && range_at(change, "range").is_none(),
    }
}

// Makes one change. Returns whether it could be made.
#[tactic(auto, unfolding(crate::specs::DocumentChanges::changed_once))]
fn change_once(
    document: &mut Document,
    encoding: Encoding,
    change: &Value,
) -> Result<bool, AllocError>
    ensures { IfOk result (λ is_made. (if is_made then Some document.new else None) ≡ changed_once encoding (view change.now) document.old) }
{
    let Some(text) = text_at(change, "text") else {
        return Ok(false);
    };
    if has_unfit_range(change) {
        return Ok(false);
    }
    match document.change(encoding, range_at(change, "range"), text.as_bytes()) {
        Ok(()) => Ok(true),
        Err(TextFault::TooLong) => Ok(false),
        Err(TextFault::OutOfMemory) => Err(AllocError),
    }
}

// Makes all changes, or none if one can't be made.
fn change_all(
    document: Document,
    encoding: Encoding,
    changes: &[Value],
) -> Result<Option<Document>, AllocError>
    ensures { IfOk result (λ changed. changed ≡ changed_all encoding (items_of (map view changes.now)) (Some document)) }
{
    let mut document = document;
    for change in changes {
        if !change_once(&mut document, encoding, change)? {
            return Ok(None);
        }
    }
    Ok(Some(document))
}

// Makes the changes of a notification.
fn changed(
    document: Document,
    encoding: Encoding,
    params: &Value,
) -> Result<Option<Document>, AllocError>
    ensures { IfOk result (λ changed. changed ≡ text_after encoding Method.DidChange (view params.now) (Some document)) }
{
    match params.get("contentChanges").and_then(Value::as_array) {
        Some(changes) => change_all(document, encoding, changes.as_slice()),
        None => Ok(None),
    }
}

/// The document after a notification, if it is kept: when it is opened, with its text; when it is changed, with all
/// changes, if each of them can be made.
pub(crate) fn document_after(
    alloc: Global,
    encoding: Encoding,
    method: Method,
    params: &Value,
    document: Option<Document>,
) -> Result<Option<Document>, AllocError>
    ensures { IfOk result (λ after. after ≡ text_after encoding method (view params.now) document) }
{
    match method {
        Method::DidOpen => match text_below(params, "textDocument", "text") {
            Some(text) => opened(alloc, text.as_bytes()),
            None => Ok(None),
        },
        Method::DidChange => match document {
            Some(document) => changed(document, encoding, params),
            None => Ok(None),
        },
        _ => Ok(None),
    }
}
