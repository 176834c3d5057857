//! Laws of messages, for readers of the contracts. No function here does anything.

ghost use Rattle.rb_lsp.specs.Messages.{FramedBodiesAreMessages, MessagesAreOne};

/// Bytes begin with at most one message, so a stream has one reading.
pub fn messages_are_one()
    ensures { MessagesAreOne }
{}

/// A framed body is read back, whatever follows it.
pub fn framed_bodies_are_messages()
    ensures { FramedBodiesAreMessages }
{}
