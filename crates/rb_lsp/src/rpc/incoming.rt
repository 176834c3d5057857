//! The meaning of a message.

ghost use Rattle.std.specs.Prelude.{◌≡◌};
ghost use Rattle.serde_json.specs.View.{view};
ghost use Rattle.rb_lsp.specs.Said.{has_version, is_id, is_response, said, said_of};

use serde_json::Value;

/// The meaning of a message.
#[derive(Clone, Copy)]
pub enum Incoming<'m> {
    /// A request: its id, the method, and its parameters. It must be answered.
    Request(&'m Value, &'m str, Option<&'m Value>),
    /// A notification: the method, and its parameters. It must not be answered.
    Notification(&'m str, Option<&'m Value>),
    /// An answer to a request of ours.
    Response,
    /// None of these.
    Invalid,
}

/// The meaning of a message.
pub fn incoming_of(message: &Value) -> Incoming<'_>
    ensures { said_of result ≡ said (view message.now) }
{
    if !has_version(message) {
        return Incoming::Invalid;
    }
    let Some(method) = message.get("method").and_then(Value::as_str) else {
        return if is_response(message) {
            Incoming::Response
        } else {
            Incoming::Invalid
        };
    };
    let params = message.get("params");
    let Some(id) = message.get("id") else {
        return Incoming::Notification(method, params);
    };
    if is_id(id) {
        Incoming::Request(id, method, params)
    } else {
        Incoming::Invalid
    }
}

fn has_version(message: &Value) -> bool
    ensures { result ≡ has_version (view message.now) }
{
    match message.get("jsonrpc").and_then(Value::as_str) {
        Some(version) => version == "2.0",
        None => false,
    }
}

fn is_response(message: &Value) -> bool
    ensures { result ≡ is_response (view message.now) }
{
    message.get("result").is_some() || message.get("error").is_some()
}

/// Whether a value can be the id of a request.
pub(crate) fn is_id(id: &Value) -> bool
    ensures { result ≡ is_id (view id.now) }
{
    id.is_string() || id.is_u64() || id.is_i64()
}
