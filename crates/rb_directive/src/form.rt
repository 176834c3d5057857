//! The values of words: numbers, ids, and `true` or `false`.

ghost use Rattle.std.specs.Prelude.{◌≡◌, ◌<◌, IfSome};
ghost use Rattle.rb_text.specs.Numbers.{number_of};
ghost use Rattle.rb_directive.specs.Forms.{within, flag_of};
ghost use Rattle.rb_directive.specs.IdLists.{id_of};

use crate::limits::MAX_ID;
use rb_text::number_of;

/// Reads a number from `low` to `high`.
pub(crate) fn number_within(word: &[u8], low: u64, high: u64) -> Option<u64>
    ensures { result ≡ within low high (number_of word.now) }
{
    let number = number_of(word)?;
    if low <= number && number <= high {
        return Some(number);
    }
    None
}

/// Reads an id.
pub(crate) fn id_of(word: &[u8]) -> Option<u8>
    ensures { result ≡ id_of word.now }
{
    Some(number_within(word, 1, MAX_ID)? as u8)
}

/// Reads `true` or `false`.
#[tactic(auto, unfolding(crate::specs::Forms::flag_of))]
pub(crate) fn flag_of(word: &[u8]) -> Option<bool>
    ensures { result ≡ flag_of word.now }
{
    if word == b"true".as_slice() {
        Some(true)
    } else if word == b"false".as_slice() {
        Some(false)
    } else {
        None
    }
}
