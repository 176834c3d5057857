//! The pieces of a text.

ghost use Rattle.std.specs.Prelude.{◌≡◌, IsOk, decimal};
ghost use Rattle.rb_script.specs.Writes.{Writes};
ghost use Rattle.rb_report.specs.Pieces.{count_text, noun, piece_text};

use crate::check::name::put_name;
use rb_script::{Sink, WriteFault};
pub(crate) use rb_text::put_pieces;
use rb_text::{Piece, WrittenPiece, put_number};

/// A piece of a text.
#[derive(Clone, Copy)]
pub enum ReportPiece<'a> {
    /// The bytes as they are.
    Bytes(&'a [u8]),
    /// A name as it is shown: nothing of it ends the line or acts.
    Name(&'a [u8]),
    /// A number in decimal digits.
    Number(u64),
    /// A count of something, after a comma; nothing if it is 0.
    Count(u64, &'a [u8]),
}

/// The noun for one, or for several.
pub(crate) fn noun<'a>(n: u64, one: &'a [u8], many: &'a [u8]) -> &'a [u8]
    ensures { result.now ≡ noun n one.now many.now }
{
    if n == 1 { one } else { many }
}

impl WrittenPiece for ReportPiece<'_> {
    ghost text = { piece_text };

    fn put<S: Sink>(&self, sink: &mut S) -> Result<(), WriteFault> {
        match *self {
            ReportPiece::Bytes(bytes) => sink.put(bytes),
            ReportPiece::Name(name) => put_name(sink, name),
            ReportPiece::Number(n) => put_number(sink, n),
            ReportPiece::Count(n, word) => put_count(sink, n, word),
        }
    }
}

fn put_count<S: Sink>(sink: &mut S, n: u64, word: &[u8]) -> Result<(), WriteFault>
    ensures wrote { Writes result (S.held sink.old) (S.held sink.new) (count_text n word.now) }
    ensures all { S.takes_all sink.old → IsOk result × S.takes_all sink.new }
{
    if n == 0 {
        return Ok(());
    }
    put_pieces(
        sink,
        &[Piece::Bytes(b", "), Piece::Number(n), Piece::Bytes(word)],
    )
}
