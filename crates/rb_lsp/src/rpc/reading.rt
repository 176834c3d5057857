//! A body as JSON.

ghost use Rattle.std.specs.Prelude.{◌≡◌, None, Some, IfOk, IfErr, IsUtf8};
ghost use Rattle.serde_json.specs.Read.{read};
ghost use Rattle.serde_json.specs.View.{view};

use serde_json::Value;
use std::alloc::Global;

/// Why a body can't be read.
#[derive(Clone, Copy, Debug, PartialEq, Eq)]
pub enum ReadError {
    /// It is not JSON.
    NotJson,
    /// Memory was refused.
    OutOfMemory,
}

/// The JSON value of a body.
pub fn read(alloc: Global, body: &[u8]) -> Result<Value, ReadError>
    ensures ok { IfOk result (λ value. IsUtf8 body.now × (read body.now ≡ Some (view value))) }
    ensures err { IfErr result (λ fault. fault ≡ ReadError.NotJson → IsUtf8 body.now → read body.now ≡ None) }
{
    match Value::from_slice(alloc, body) {
        Ok(value) => Ok(value),
        Err(error) if error.is_memory() => Err(ReadError::OutOfMemory),
        Err(_) => Err(ReadError::NotJson),
    }
}
