//! Messages.

ghost use Rattle.std.specs.Prelude.{◌≡◌, ◌↔◌, IsTrue, IfOk};

use crate::kind::MessageKind;
use rb_raftlog::TryCopy;
use std::alloc::AllocError;

/// A message from one node to another.
#[derive(Clone, Drop)]
pub struct Message {
    /// The node that sent it.
    pub from: u64,
    /// The node that receives it.
    pub to: u64,
    /// The sender's term, or the term that it requests or responds to; 0 if `kind` has no term.
    pub term: u64,
    /// Its kind, with its body.
    pub kind: MessageKind,
}

impl Message {
    /// Copies the message, at a few pointers.
    pub fn try_copy(&self) -> Result<Message, AllocError>
        ensures { IfOk result (λ copy. copy ≡ self.now) }
    {
        self.clone()
    }

    /// Whether both messages are equal. Compares numbers first.
    pub fn same(&self, other: &Message) -> bool
        ensures { IsTrue result ↔ (self.now ≡ other.now) }
    {
        self.to == other.to
            && self.from == other.from
            && self.term == other.term
            && self.kind.same(&other.kind)
    }
}

impl TryCopy for Message {
    fn try_copy(&self) -> Result<Message, AllocError> {
        Message::try_copy(self)
    }
}
