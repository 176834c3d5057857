//! The pieces that a workflow command is put together of.

ghost use Rattle.std.specs.Prelude.{◌≡◌, IsOk};
ghost use Rattle.rb_script.specs.Writes.{Writes};
ghost use Rattle.rb_check.specs.Commands.{line_property, piece_text, without_front};

use crate::escape::CommandPart;
use rb_script::{Sink, WriteFault};
use rb_text::{Piece, WrittenPiece, put_escaped, put_pieces};

/// A piece of a workflow command.
#[derive(Clone, Copy)]
pub(crate) enum CommandPiece<'a> {
    /// The bytes as they are.
    Bytes(&'a [u8]),
    /// The bytes as they are in the value of a property.
    Property(&'a [u8]),
    /// The same of a path as it is in a repository: without `./` at its front.
    File(&'a [u8]),
    /// The bytes as they are in the message.
    Message(&'a [u8]),
    /// The property of a line, if there is one.
    Line(Option<usize>),
}

impl WrittenPiece for CommandPiece<'_> {
    ghost text = { piece_text };

    fn put<S: Sink>(&self, sink: &mut S) -> Result<(), WriteFault> {
        match *self {
            CommandPiece::Bytes(bytes) => sink.put(bytes),
            CommandPiece::Property(bytes) => put_escaped(sink, &CommandPart::Property, bytes),
            CommandPiece::File(path) => {
                put_escaped(sink, &CommandPart::Property, without_front(b"./", path))
            }
            CommandPiece::Message(bytes) => put_escaped(sink, &CommandPart::Message, bytes),
            CommandPiece::Line(line) => put_line(sink, line),
        }
    }
}

/// A path without this at its front, if it has it there.
pub(crate) fn without_front<'a>(front: &[u8], path: &'a [u8]) -> &'a [u8]
    ensures { result.now ≡ without_front front.now path.now }
{
    match path.strip_prefix(front) {
        Some(rest) => rest,
        None => path,
    }
}

fn put_line<S: Sink>(sink: &mut S, line: Option<usize>) -> Result<(), WriteFault>
    ensures wrote { Writes result (S.held sink.old) (S.held sink.new) (line_property line) }
    ensures all { S.takes_all sink.old → IsOk result × S.takes_all sink.new }
{
    match line {
        Some(line) => put_pieces(sink, &[Piece::Bytes(b",line="), Piece::Number(line as u64)]),
        None => Ok(()),
    }
}
