//! Texts made of pieces.

ghost use Rattle.std.specs.Prelude.{◌≡◌, ◌++◌, ℕ, List, IsOk, OnOk};
ghost use Rattle.std.specs.List.{flat_map};
ghost use Rattle.rb_script.specs.Writes.{Writes};
ghost use Rattle.rb_text.specs.Pieces.{piece_text};

use crate::escape::put_escaped;
use crate::json::Json;
use crate::number::put_number;
use rb_script::{Sink, Through, WriteFault};
use std::alloc::AllocError;
use std::mem;

/// A piece of a text. A crate with more kinds of pieces than [`Piece`] has an enum of its own.
pub trait WrittenPiece {
    ghost text: { Self → List ℕ };

    /// Writes the text of the piece. After a failure a beginning of it is written.
    fn put<S: Sink>(&self, sink: &mut S) -> Result<(), WriteFault>
        ensures wrote { Writes result (S.held sink.old) (S.held sink.new) (text self.now) }
        ensures all { S.takes_all sink.old → IsOk result × S.takes_all sink.new };
}

// Bytes as they are.
impl WrittenPiece for &[u8] {
    ghost text = { λ bytes. bytes.now };

    fn put<S: Sink>(&self, sink: &mut S) -> Result<(), WriteFault> {
        sink.put(self)
    }
}

/// A piece of a text.
#[derive(Clone, Copy)]
pub enum Piece<'a> {
    /// The bytes as they are.
    Bytes(&'a [u8]),
    /// A number in decimal digits.
    Number(u64),
    /// The bytes, escaped for a string of JSON.
    Escaped(Json, &'a [u8]),
}

impl WrittenPiece for Piece<'_> {
    ghost text = { piece_text };

    fn put<S: Sink>(&self, sink: &mut S) -> Result<(), WriteFault> {
        match *self {
            Piece::Bytes(bytes) => sink.put(bytes),
            Piece::Number(n) => put_number(sink, n),
            Piece::Escaped(json, bytes) => put_escaped(sink, &json, bytes),
        }
    }
}

/// Writes the pieces.
///
/// # Errors
///
/// If the sink fails. A beginning of the text is written then.
pub fn put_pieces<S: Sink, P: WrittenPiece>(sink: &mut S, pieces: &[P]) -> Result<(), WriteFault>
    ensures wrote { Writes result (S.held sink.old) (S.held sink.new) (flat_map P.text pieces.now) }
    ensures all { S.takes_all sink.old → IsOk result × S.takes_all sink.new }
{
    for piece in pieces {
        piece.put(sink)?;
    }
    Ok(())
}

/// Appends the pieces to a text in memory.
///
/// # Errors
///
/// If there is no memory. Some of the pieces may be appended then.
pub fn add_pieces<P: WrittenPiece>(text: &mut Vec<u8>, pieces: &[P]) -> Result<(), AllocError>
    ensures { OnOk result (text.new.items ≡ text.old.items ++ flat_map P.text pieces.now) }
{
    // The text itself is the sink.
    let nothing = Vec::new(*text.allocator());
    let mut sink = Through(mem::replace(text, nothing));
    let written = put_pieces(&mut sink, pieces);
    *text = sink.0;
    match written {
        Ok(()) => Ok(()),
        Err(_) => Err(AllocError),
    }
}
