//! Cells that are numbers. Most numbers have at most four digits, and each of them is written at once.

ghost use Rattle.std.specs.Prelude.{◌≡◌, ◌<◌, ◌≤◌, ◌+◌, ◌%◌, IsOk};
ghost use Rattle.rb_script.specs.Writes.{Writes};
ghost use Rattle.rb_view.specs.Rows.{cell_text, number};

use rb_script::{Sink, WriteFault};
use rb_text::{Piece, put_pieces};

// The last digit of a number.
fn last_digit(n: u64) -> u8
    ensures { result ≡ 48 + n % 10 }
{
    b'0' + (n % 10) as u8
}

/// Writes a number, with the comma before it.
pub(crate) fn put_number<S: Sink>(sink: &mut S, n: u64) -> Result<(), WriteFault>
    ensures wrote { Writes result (S.held sink.old) (S.held sink.new) (cell_text (number n)) }
    ensures all { S.takes_all sink.old → IsOk result × S.takes_all sink.new }
{
    if n < 10 {
        return sink.put(&[b',', b'0' + n as u8]);
    }
    if n < 10_000 {
        return put_short(sink, n);
    }
    put_long(sink, n)
}

// Writes a number of two to four digits.
fn put_short<S: Sink>(sink: &mut S, n: u64) -> Result<(), WriteFault>
    requires least { 10 ≤ n }
    requires most { n < 10000 }
    ensures wrote { Writes result (S.held sink.old) (S.held sink.new) (cell_text (number n)) }
    ensures all { S.takes_all sink.old → IsOk result × S.takes_all sink.new }
{
    let ones = last_digit(n);
    let tens = last_digit(n / 10);
    if n < 100 {
        return sink.put(&[b',', tens, ones]);
    }
    let hundreds = last_digit(n / 100);
    if n < 1000 {
        return sink.put(&[b',', hundreds, tens, ones]);
    }
    sink.put(&[b',', last_digit(n / 1000), hundreds, tens, ones])
}

// A function of its own, since it clears a buffer when it begins, and short numbers need none.
#[inline(never)]
fn put_long<S: Sink>(sink: &mut S, n: u64) -> Result<(), WriteFault>
    ensures wrote { Writes result (S.held sink.old) (S.held sink.new) (cell_text (number n)) }
    ensures all { S.takes_all sink.old → IsOk result × S.takes_all sink.new }
{
    put_pieces(sink, &[Piece::Bytes(b","), Piece::Number(n)])
}
