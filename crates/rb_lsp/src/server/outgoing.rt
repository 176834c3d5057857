//! What is sent for a message.

ghost use Rattle.std.specs.Prelude.{◌≡◌, false, IfOk};
ghost use Rattle.serde_json.specs.View.{view};
ghost use Rattle.serde_json.specs.Written.{has_float};
ghost use Rattle.rb_lsp.specs.Messages.{frame};
ghost use Rattle.rb_lsp.specs.Questions.{body_text};

use crate::rpc::text_of;
use crate::server::reach::Reach;
use rb_text::{Piece, add_pieces};
use serde_json::Value;
use std::alloc::{AllocError, Global};

/// What is sent, and how far what is asked of a text was done.
#[derive(Drop)]
pub(crate) struct OutgoingText {
    pub(crate) out: Vec<u8>,
    pub(crate) reach: Reach,
}

impl OutgoingText {
    ghost use Rattle.std.specs.Prelude.{◌≡◌};

    /// Makes one for which all was done.
    pub(crate) fn whole(out: Vec<u8>) -> OutgoingText
        ensures out { result.out.items ≡ out.items }
        ensures reach { result.reach ≡ Reach.Whole }
    {
        OutgoingText {
            out,
            reach: Reach::Whole,
        }
    }
}

/// The framed message with this body.
pub(crate) fn framed(alloc: Global, body: &[u8]) -> Result<Vec<u8>, AllocError>
    ensures { IfOk result (λ message. message.items ≡ frame body.now) }
{
    let mut message = Vec::new(alloc);
    message.extend_from_slice(b"Content-Length: ")?;
    add_pieces(&mut message, &[Piece::Number(body.len() as u64)])?;
    message.extend_from_slice(b"\r\n\r\n")?;
    message.extend_from_slice(body)?;
    Ok(message)
}

/// An answer of the server's own, framed.
#[tactic(auto, unfolding(crate::specs::Questions::body_text))]
pub(crate) fn framed_answer(alloc: Global, answer: &Value) -> Result<Vec<u8>, AllocError>
    requires { has_float (view answer.now) ≡ false }
    ensures { IfOk result (λ out. out.items ≡ frame (body_text (view answer.now))) }
{
    let text = text_of(alloc, answer)?;
    framed(alloc, text.as_bytes())
}
