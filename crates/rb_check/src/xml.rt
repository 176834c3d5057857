//! Bytes as they are in XML.

ghost use Rattle.std.specs.Prelude.{IsOk};
ghost use Rattle.rb_script.specs.Writes.{Writes};
ghost use Rattle.rb_check.specs.Xml.{byte_text, in_text, in_value, line_end, piece_text};

use crate::piece::without_front;
use crate::replaced::{Replaced, put_replaced};
use crate::visible::visible_text;
use rb_report::check::{by_number, put_name};
use rb_script::{Sink, WriteFault};
use rb_text::{Escape, Piece, WrittenPiece, put_escaped, put_number, put_pieces};

/// Where bytes are in XML.
#[derive(Clone, Copy)]
pub(crate) enum XmlPart {
    /// In the text of an element.
    Text,
    /// In the value of an attribute.
    Value,
}

impl Escape for XmlPart {
    ghost text = { byte_text };

    fn put<S: Sink>(&self, sink: &mut S, b: u8) -> Result<(), WriteFault> {
        match *self {
            XmlPart::Text => put_text_byte(sink, b),
            XmlPart::Value => put_value_byte(sink, b),
        }
    }
}

fn put_text_byte<S: Sink>(sink: &mut S, b: u8) -> Result<(), WriteFault>
    ensures wrote { Writes result (S.held sink.old) (S.held sink.new) (in_text b) }
    ensures all { S.takes_all sink.old → IsOk result × S.takes_all sink.new }
{
    let table = [
        Replaced(b'&', b"&amp;"),
        Replaced(b'<', b"&lt;"),
        Replaced(b'>', b"&gt;"),
        Replaced(b'"', b"&quot;"),
    ];
    put_replaced(sink, &table, b, visible_text(b, &[b], &by_number(b)))
}

fn put_value_byte<S: Sink>(sink: &mut S, b: u8) -> Result<(), WriteFault>
    ensures wrote { Writes result (S.held sink.old) (S.held sink.new) (in_value b) }
    ensures all { S.takes_all sink.old → IsOk result × S.takes_all sink.new }
{
    let table = [
        Replaced(b'\n', b"&#10;"),
        Replaced(b'\t', b"&#9;"),
        Replaced(b'&', b"&amp;"),
        Replaced(b'<', b"&lt;"),
        Replaced(b'>', b"&gt;"),
        Replaced(b'"', b"&quot;"),
    ];
    put_replaced(sink, &table, b, visible_text(b, &[b], &by_number(b)))
}

/// A piece of XML.
#[derive(Clone, Copy)]
pub(crate) enum XmlPiece<'a> {
    /// The bytes as they are.
    Bytes(&'a [u8]),
    /// A name as it is shown.
    Name(&'a [u8]),
    /// A number in decimal digits.
    Number(u64),
    /// The bytes as they are in the text of an element.
    Text(&'a [u8]),
    /// The bytes as they are in the value of an attribute.
    Value(&'a [u8]),
    /// The same of a path as it is in a repository: without `./` at its front.
    File(&'a [u8]),
    /// The end of an attribute and of the front of an element, with the attribute of a line between them, if there is one.
    LineEnd(Option<usize>),
}

impl WrittenPiece for XmlPiece<'_> {
    ghost text = { piece_text };

    fn put<S: Sink>(&self, sink: &mut S) -> Result<(), WriteFault> {
        match *self {
            XmlPiece::Bytes(bytes) => sink.put(bytes),
            XmlPiece::Name(name) => put_name(sink, name),
            XmlPiece::Number(number) => put_number(sink, number),
            XmlPiece::Text(bytes) => put_escaped(sink, &XmlPart::Text, bytes),
            XmlPiece::Value(bytes) => put_escaped(sink, &XmlPart::Value, bytes),
            XmlPiece::File(path) => {
                put_escaped(sink, &XmlPart::Value, without_front(b"./", path))
            }
            XmlPiece::LineEnd(line) => put_line_end(sink, line),
        }
    }
}

fn put_line_end<S: Sink>(sink: &mut S, line: Option<usize>) -> Result<(), WriteFault>
    ensures wrote { Writes result (S.held sink.old) (S.held sink.new) (line_end line) }
    ensures all { S.takes_all sink.old → IsOk result × S.takes_all sink.new }
{
    match line {
        Some(line) => put_pieces(
            sink,
            &[
                Piece::Bytes(b"\" line=\""),
                Piece::Number(line as u64),
                Piece::Bytes(b"\">"),
            ],
        ),
        None => sink.put(b"\">"),
    }
}
