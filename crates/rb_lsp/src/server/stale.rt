//! Changes whose version isn't after their document's. Such a change is refused, since it isn't known which text it changes.

ghost use Rattle.std.specs.Prelude.{◌≡◌, IfOk};
ghost use Rattle.rb_lsp.specs.Messages.{frame};
ghost use Rattle.rb_lsp.specs.Notices.{stale_by, stale_text};

use crate::server::method::Method;
use crate::server::outgoing::framed;
use rb_text::{Piece, add_pieces};
use std::alloc::{AllocError, Global};

/// Gives the known version and a change's, if the change's isn't after the known one.
pub(crate) fn stale_by(method: Method, known: Option<u64>, told: Option<u64>) -> Option<(u64, u64)>
    ensures { result ≡ stale_by method known told }
{
    match (method, known, told) {
        (Method::DidChange, Some(known), Some(told)) if told <= known => Some((known, told)),
        _ => None,
    }
}

/// What is shown of such a change, as it goes out.
#[tactic(auto, unfolding(crate::specs::Notices::stale_text))]
pub(crate) fn refused_change(alloc: Global, known: u64, told: u64) -> Result<Vec<u8>, AllocError>
    ensures { IfOk result (λ out. out.items ≡ frame (stale_text known told)) }
{
    let mut body = Vec::new(alloc);
    add_pieces(
        &mut body,
        &[
            Piece::Bytes(
                b"{\"jsonrpc\":\"2.0\",\"method\":\"window/showMessage\",\"params\":{\"type\":2,\"message\":\"raftbench: a change was refused: its version, ",
            ),
            Piece::Number(told),
            Piece::Bytes(b", doesn't follow the document's, "),
            Piece::Number(known),
            Piece::Bytes(b"; close the document and open it again\"}}"),
        ],
    )?;
    framed(alloc, body.as_slice())
}
