//! Bytes as they are in a workflow command.

ghost use Rattle.std.specs.Prelude.{IsOk};
ghost use Rattle.rb_script.specs.Writes.{Writes};
ghost use Rattle.rb_check.specs.Escapes.{byte_text, in_message, in_property};

use crate::replaced::{Replaced, put_replaced};
use rb_script::{Sink, WriteFault};
use rb_text::Escape;

/// The place of bytes in a workflow command.
#[derive(Clone, Copy)]
pub(crate) enum CommandPart {
    /// In its message.
    Message,
    /// In the value of a property.
    Property,
}

impl Escape for CommandPart {
    ghost text = { byte_text };

    fn put<S: Sink>(&self, sink: &mut S, b: u8) -> Result<(), WriteFault> {
        match *self {
            CommandPart::Message => put_message_byte(sink, b),
            CommandPart::Property => put_property_byte(sink, b),
        }
    }
}

fn put_message_byte<S: Sink>(sink: &mut S, b: u8) -> Result<(), WriteFault>
    ensures wrote { Writes result (S.held sink.old) (S.held sink.new) (in_message b) }
    ensures all { S.takes_all sink.old → IsOk result × S.takes_all sink.new }
{
    let table = [
        Replaced(b'%', b"%25"),
        Replaced(b'\r', b"%0D"),
        Replaced(b'\n', b"%0A"),
    ];
    put_replaced(sink, &table, b, &[b])
}

fn put_property_byte<S: Sink>(sink: &mut S, b: u8) -> Result<(), WriteFault>
    ensures wrote { Writes result (S.held sink.old) (S.held sink.new) (in_property b) }
    ensures all { S.takes_all sink.old → IsOk result × S.takes_all sink.new }
{
    let table = [
        Replaced(b':', b"%3A"),
        Replaced(b',', b"%2C"),
        Replaced(b'%', b"%25"),
        Replaced(b'\r', b"%0D"),
        Replaced(b'\n', b"%0A"),
    ];
    put_replaced(sink, &table, b, &[b])
}
