//! Splitting a line into words.

ghost use Rattle.std.specs.Prelude.{◌≡◌, ◌∷◌, [], ◌<◌, ℕ, true, false, length, slice_index, IfSome, IfNone, MatchOption};
ghost use Rattle.rb_script.specs.Marks.{is_space};
ghost use Rattle.rb_text.specs.Words.{words};

use rb_script::{is_space, trim_blanks};

/// Finds the first blank.
fn first_space(bytes: &[u8]) -> Option<usize>
    ensures none { IfNone result ((k : ℕ) → k < length bytes.now → is_space (slice_index bytes.now k) ≡ false) }
    ensures found { IfSome result (λ end. end < length bytes.now) }
    ensures space { IfSome result (λ end. is_space (slice_index bytes.now end) ≡ true) }
    ensures first { IfSome result (λ end. (k : ℕ) → k < end → is_space (slice_index bytes.now k) ≡ false) }
{
    bytes.iter().position(|b| is_space(*b))
}

/// Splits off the first word.
pub fn first_word(line: &[u8]) -> Option<(&[u8], &[u8])>
    ensures { MatchOption result (words line.now ≡ []) (λ found. words line.now ≡ found.0.now ∷ words found.1.now) }
{
    let text = trim_blanks(line);
    if text.is_empty() {
        return None;
    }
    match first_space(text) {
        Some(end) => Some((&text[..end], &text[end..])),
        None => Some((text, &[])),
    }
}
