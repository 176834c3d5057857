//! A body with its header.

ghost use Rattle.std.specs.Prelude.{◌≡◌, string_bytes, IfOk};
ghost use Rattle.rb_lsp.specs.Messages.{frame};

use std::alloc::{AllocError, Global};

/// The message with this body.
pub fn framed(alloc: Global, body: &str) -> Result<String, AllocError>
    ensures { IfOk result (λ text. string_bytes text ≡ frame body.now) }
{
    format!(in alloc; "Content-Length: {}\r\n\r\n{}", body.len(), body)
}
