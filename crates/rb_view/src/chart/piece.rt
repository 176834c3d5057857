//! The pieces of elements.

ghost use Rattle.std.specs.Prelude.{◌≡◌};

use crate::chart::escape::Xml;
use rb_script::{Sink, WriteFault};
use rb_text::{WrittenPiece, put_escaped, put_number};

/// A piece of an element.
#[derive(Clone, Copy)]
pub(crate) enum SvgPiece<'a> {
    /// The bytes as they are.
    Bytes(&'a [u8]),
    /// A number in decimal digits.
    Number(u64),
    /// Words, as text of XML.
    Words(&'a [u8]),
}

impl WrittenPiece for SvgPiece<'_> {
    ghost use Rattle.rb_view.specs.Pieces.{piece_text};

    ghost text = { piece_text };

    fn put<S: Sink>(&self, sink: &mut S) -> Result<(), WriteFault> {
        match *self {
            SvgPiece::Bytes(bytes) => sink.put(bytes),
            SvgPiece::Number(n) => put_number(sink, n),
            SvgPiece::Words(words) => put_escaped(sink, &Xml, words),
        }
    }
}
