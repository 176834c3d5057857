//! Answers to requests.

ghost use Rattle.std.specs.Prelude.{◌≡◌, false, string_bytes, IfOk};
ghost use Rattle.serde_json.specs.View.{view};
ghost use Rattle.serde_json.specs.Written.{compact_text, has_float};
ghost use Rattle.rb_lsp.specs.Answers.{code_of, failure, success};

use serde_json::{Value, json};
use std::alloc::{AllocError, Global};

/// Why a request fails.
#[derive(Clone, Copy, Debug, PartialEq, Eq)]
pub enum ErrorCode {
    /// The body is not JSON.
    ParseError,
    /// It is not a request.
    InvalidRequest,
    /// The method is unknown.
    MethodNotFound,
    /// The parameters are not those of the method.
    InvalidParams,
    /// Another error, such as refused memory.
    InternalError,
    /// The request came before `initialize`.
    ServerNotInitialized,
    /// Its client has cancelled it.
    RequestCancelled,
    /// It is a right request, and was not done.
    RequestFailed,
}

/// The code of an error.
pub fn error_code(code: ErrorCode) -> i64
    ensures { result ≡ code_of code }
{
    match code {
        ErrorCode::ParseError => -32_700,
        ErrorCode::InvalidRequest => -32_600,
        ErrorCode::MethodNotFound => -32_601,
        ErrorCode::InvalidParams => -32_602,
        ErrorCode::InternalError => -32_603,
        ErrorCode::ServerNotInitialized => -32_002,
        ErrorCode::RequestCancelled => -32_800,
        ErrorCode::RequestFailed => -32_803,
    }
}

/// The answer to a request that succeeded.
pub fn success(alloc: Global, id: &Value, done: Value) -> Result<Value, AllocError>
    ensures { IfOk result (λ answer. view answer ≡ success (view id.now) (view done)) }
{
    json!(in alloc; {"jsonrpc": "2.0", "id": id, "result": done})
}

/// The answer to a request that failed.
pub fn failure(
    alloc: Global,
    id: &Value,
    code: ErrorCode,
    message: &str,
) -> Result<Value, AllocError>
    ensures { IfOk result (λ answer. view answer ≡ failure (view id.now) code message.now) }
{
    let code = error_code(code);
    json!(in alloc; {"jsonrpc": "2.0", "id": id, "error": {"code": code, "message": message}})
}

/// The text of a value without floats.
pub fn text_of(alloc: Global, answer: &Value) -> Result<String, AllocError>
    ensures { IfOk result (λ text. has_float (view answer.now) ≡ false → string_bytes text ≡ compact_text (view answer.now)) }
{
    answer.to_string(alloc)
}
