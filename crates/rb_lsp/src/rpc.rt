//! Messages between an editor and a server: JSON-RPC 2.0 after headers, as the language server protocol has them.
//!
//! A message is fields, an empty line, and a body as long as the fields say. A [`MessageReader`] gives the bodies of what a [`Source`] of
//! [`rb_text`] gives, one at a time, however the source cuts its bytes; [`framed`] is a body as it goes out. [`read`] is the JSON of a body,
//! [`incoming_of`] what it says, and [`success`] and [`failure`] are answers. [`text_at`] and its neighbours read what is given to a method.
//! [`MessageReader::has_cancel`] says whether a message that waits cancels a request.
//!
//! [`Source`]: rb_text::Source

mod answer;
mod cancel;
mod fault;
mod framing;
mod head;
mod incoming;
mod laws;
mod limits;
mod message_reader;
mod params;
mod reading;

pub use answer::{ErrorCode, error_code, failure, success, text_of};
pub use fault::ServeFault;
pub use framing::framed;
pub use head::{Framed, message_at};
pub use incoming::{Incoming, incoming_of};
pub use laws::{framed_bodies_are_messages, messages_are_one};
pub use limits::{MAX_BODY, MAX_CALLS, MAX_FIELDS, MAX_HEAD, MAX_WAITING};
pub use message_reader::{MessageReader, NextMessage};
pub use params::{
    as_position, number_at, number_below, position_at, range_at, text_at, text_below,
};
pub use reading::{ReadError, read};
