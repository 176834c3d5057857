//! Numbers in decimal digits: the number of a word, and the digits of a number.

ghost use Rattle.std.specs.Prelude.{◌≡◌, ◌+◌, ℕ, IsOk, decimal};
ghost use Rattle.rb_script.specs.Writes.{Writes};
ghost use Rattle.rb_text.specs.Numbers.{number_of};

use itoa::Buffer;
use rb_script::{Sink, WriteFault};

const MAX_DIGITS: usize = 10;

/// Reads a word of one to ten decimal digits. It may begin with zeros. A word with a sign or a blank is not a number.
#[tactic(auto, unfolding(crate::specs::Numbers::number_of))]
pub fn number_of(word: &[u8]) -> Option<u64>
    ensures { result ≡ number_of word.now }
{
    if word.is_empty() || word.len() > MAX_DIGITS {
        return None;
    }
    let mut number: u64 = 0;
    for b in word {
        if !b.is_ascii_digit() {
            return None;
        }
        number = number * 10 + u64::from(*b - b'0');
    }
    Some(number)
}

/// Writes a number in decimal digits, without leading zeros. Takes no memory.
pub fn put_number<S: Sink>(sink: &mut S, number: u64) -> Result<(), WriteFault>
    // On a failure a beginning of the digits is written.
    ensures wrote { Writes result (S.held sink.old) (S.held sink.new) (decimal number) }
    ensures all { S.takes_all sink.old → IsOk result × S.takes_all sink.new }
{
    let mut digits = Buffer::new();
    sink.put(digits.format(number).as_bytes())
}
