//! Escaping bytes of a text.

ghost use Rattle.std.specs.Prelude.{ℕ, List, IsOk};
ghost use Rattle.std.specs.List.{flat_map};
ghost use Rattle.rb_script.specs.Writes.{Writes};

use rb_script::{Sink, WriteFault};

/// An escape: the text that is written for each byte.
pub trait Escape {
    ghost text: { Self → ℕ → List ℕ };

    /// Writes the text of a byte. After a failure a beginning of it is written.
    fn put<S: Sink>(&self, sink: &mut S, b: u8) -> Result<(), WriteFault>
        ensures wrote { Writes result (S.held sink.old) (S.held sink.new) (text self.now b) }
        ensures all { S.takes_all sink.old → IsOk result × S.takes_all sink.new };
}

/// Writes the bytes in this escape.
///
/// # Errors
///
/// If the sink fails. A beginning of the text is written then.
pub fn put_escaped<S: Sink, E: Escape>(
    sink: &mut S,
    escape: &E,
    bytes: &[u8],
) -> Result<(), WriteFault>
    ensures wrote { Writes result (S.held sink.old) (S.held sink.new) (flat_map (E.text escape.now) bytes.now) }
    ensures all { S.takes_all sink.old → IsOk result × S.takes_all sink.new }
{
    for b in bytes {
        escape.put(sink, *b)?;
    }
    Ok(())
}
