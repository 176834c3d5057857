//! Requests that their client has cancelled.

ghost use Rattle.std.specs.Prelude.{◌≡◌, ◌↔◌, false, IsTrue, IfOk, Some, option_map};
ghost use Rattle.serde_json.specs.View.{view};
ghost use Rattle.serde_json.specs.Written.{has_float};
ghost use Rattle.rb_lsp.specs.Cancels.{Cancels, cancelled_id, has_text, if_id};
ghost use Rattle.rb_lsp.specs.Said.{said};

use crate::rpc::answer::text_of;
use crate::rpc::incoming::{Incoming, incoming_of, is_id};
use crate::rpc::reading::{ReadError, read};
use serde_json::Value;
use std::alloc::{AllocError, Global};

// Gives a value, if it can be the id of a request.
fn if_id(value: Option<&Value>) -> Option<&Value>
    ensures { option_map (λ v. view v.now) result ≡ if_id (option_map (λ v. view v.now) value.entry) }
{
    match value {
        Some(id) if is_id(id) => Some(id),
        _ => None,
    }
}

// Finds the id of the request that a message cancels.
fn cancelled_id(message: &Value) -> Option<&Value>
    ensures { option_map (λ v. view v.now) result ≡ cancelled_id (said (view message.now)) }
{
    match incoming_of(message) {
        Incoming::Notification(method, Some(params)) => {
            if method == "$/cancelRequest" {
                if_id(params.get("id"))
            } else {
                None
            }
        }
        _ => None,
    }
}

// Says whether a value has this text.
fn has_text(alloc: Global, value: &Value, id: &[u8]) -> Result<bool, AllocError>
    requires { has_float (view value.now) ≡ false }
    ensures { IfOk result (λ has. has ≡ has_text id.now (Some (view value.now))) }
{
    let text = text_of(alloc, value)?;
    Ok(text.as_bytes() == id)
}

// Says whether a message cancels the request whose id has this text.
fn names(alloc: Global, message: &Value, id: &[u8]) -> Result<bool, AllocError>
    ensures { IfOk result (λ has. has ≡ has_text id.now (cancelled_id (said (view message.now)))) }
{
    match cancelled_id(message) {
        Some(named) => has_text(alloc, named, id),
        None => Ok(false),
    }
}

/// Says whether a body cancels the request whose id has this text.
///
/// # Errors
///
/// If memory was refused.
pub(crate) fn cancels(alloc: Global, body: &[u8], id: &[u8]) -> Result<bool, AllocError>
    ensures { IfOk result (λ is. IsTrue is ↔ Cancels id.now body.now) }
{
    match read(alloc, body) {
        Ok(message) => names(alloc, &message, id),
        Err(ReadError::NotJson) => Ok(false),
        Err(ReadError::OutOfMemory) => Err(AllocError),
    }
}
