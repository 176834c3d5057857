//! Bytes that a text can't have as they are, and the texts that replace them.

ghost use Rattle.std.specs.Prelude.{◌≡◌, IsOk};
ghost use Rattle.rb_script.specs.Writes.{Writes};
ghost use Rattle.rb_check.specs.Replaced.{text_of};

use rb_script::{Sink, WriteFault};

/// A byte, and the text that replaces it.
#[derive(Clone, Copy)]
pub(crate) struct Replaced<'a>(pub(crate) u8, pub(crate) &'a [u8]);

// The text that the table has for the byte, or else the byte's own.
fn text_of<'a>(table: &[Replaced<'a>], b: u8, own: &'a [u8]) -> &'a [u8]
    ensures { result.now ≡ text_of table.now b own.now }
{
    for replaced in table {
        if b == replaced.0 {
            return replaced.1;
        }
    }
    own
}

/// Writes the text that the table has for the byte, or else the byte's own.
///
/// # Errors
///
/// If the sink fails. A beginning of the text is written then.
pub(crate) fn put_replaced<S: Sink>(
    sink: &mut S,
    table: &[Replaced<'_>],
    b: u8,
    own: &[u8],
) -> Result<(), WriteFault>
    ensures wrote { Writes result (S.held sink.old) (S.held sink.new) (text_of table.now b own.now) }
    ensures all { S.takes_all sink.old → IsOk result × S.takes_all sink.new }
{
    sink.put(text_of(table, b, own))
}
