//! The totals of a check as an object of JSON.

ghost use Rattle.std.specs.Prelude.{◌≡◌, IfOk};
ghost use Rattle.rb_check.specs.Objects.{totals_object, totals_piece};

use rb_report::check::Totals;
use rb_script::{Sink, WriteFault};
use rb_text::{Piece, WrittenPiece, add_pieces, put_pieces};
use std::alloc::{AllocError, Global};

/// A piece of the object.
#[derive(Clone, Copy)]
pub(crate) enum TotalsPiece<'a> {
    /// The bytes as they are.
    Bytes(&'a [u8]),
    /// A member with a count, after another member.
    Count(&'a [u8], u64),
}

impl WrittenPiece for TotalsPiece<'_> {
    ghost text = { totals_piece };

    fn put<S: Sink>(&self, sink: &mut S) -> Result<(), WriteFault> {
        match *self {
            TotalsPiece::Bytes(bytes) => sink.put(bytes),
            TotalsPiece::Count(name, count) => put_pieces(
                sink,
                &[
                    Piece::Bytes(b",\""),
                    Piece::Bytes(name),
                    Piece::Bytes(b"\":"),
                    Piece::Number(count),
                ],
            ),
        }
    }
}

/// The totals of all paths, as an object.
///
/// # Errors
///
/// If memory was refused.
pub(crate) fn totals_object(alloc: Global, totals: &Totals) -> Result<Vec<u8>, AllocError>
    ensures { IfOk result (λ made. made.items ≡ totals_object totals.now) }
{
    let mut text = Vec::new(alloc);
    add_pieces(
        &mut text,
        &[
            TotalsPiece::Bytes(b"{\"status\":\"totals\""),
            TotalsPiece::Count(b"scripts", totals.scripts),
            TotalsPiece::Count(b"directives", totals.directives),
            TotalsPiece::Count(b"mismatches", totals.mismatches),
            TotalsPiece::Count(b"refused", totals.refused),
            TotalsPiece::Count(b"errors", totals.errors),
            TotalsPiece::Count(b"warnings", totals.warnings),
            TotalsPiece::Count(b"accepted", totals.accepted),
            TotalsPiece::Count(b"failed", totals.failed),
            TotalsPiece::Bytes(b"}\n"),
        ],
    )?;
    Ok(text)
}
