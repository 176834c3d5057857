//! The difference between two texts, as one edit.

ghost use Rattle.std.specs.Prelude.{◌≡◌, ◌+◌, ◌-◌, ◌<◌, ◌≤◌, true, length, get_or};
ghost use Rattle.rb_lsp.specs.declared.document.limits.TheConstants.{MAX_TEXT};
ghost use Rattle.rb_lsp.specs.Changes.{changed};
ghost use Rattle.rb_lsp.specs.Edits.{common, common_end, new_between, place_before, place_behind, range_between};
ghost use Rattle.rb_lsp.specs.Places.{begins, is_place, is_within, stands_between};

use crate::document::position::{Encoding, Range, feeds, position_of};

/// A new text for a range.
#[derive(Clone, Copy)]
pub struct TextEdit<'a> {
    pub range: Range,
    pub new: &'a [u8],
}

/// One edit that turns a text into another: the bytes between their common beginning and their common end are replaced. Neither
/// end of its range is within a character, or between CR and LF.
pub fn edit_between<'n>(encoding: Encoding, old: &[u8], new: &'n [u8]) -> TextEdit<'n>
    requires { length old.now ≤ MAX_TEXT }
    ensures range { result.range ≡ range_between encoding old.now new.now }
    ensures new { result.new.now ≡ new_between old.now new.now }
    ensures made { begins old.now ≡ true → changed encoding result.range result.new.now old.now ≡ new.now }
{
    let front = place_before(common(old, new), old);
    let stop = place_behind(old.len() - common_end(old, new, front), old);
    TextEdit {
        range: Range {
            start: position_of(encoding, front, old),
            end: position_of(encoding, stop, old),
        },
        new: &new[front..new.len() - (old.len() - stop)],
    }
}

// How many bytes are the same at the beginning.
fn common(old: &[u8], new: &[u8]) -> usize
    ensures within { (result ≤ length old.now) × (result ≤ length new.now) }
    ensures value { result ≡ common old.now new.now }
{
    let most = old.len().min(new.len());
    for i in 0..most {
        if old[i] != new[i] {
            return i;
        }
    }
    most
}

// How many bytes are the same at the end, not counting the first `front`.
fn common_end(old: &[u8], new: &[u8], front: usize) -> usize
    requires { (front ≤ length old.now) × (front ≤ length new.now) }
    ensures within { (front + result ≤ length old.now) × (front + result ≤ length new.now) }
    ensures value { result ≡ common_end front old.now new.now }
{
    let most = (old.len() - front).min(new.len() - front);
    for i in 0..most {
        if old[old.len() - 1 - i] != new[new.len() - 1 - i] {
            return i;
        }
    }
    most
}

// Whether an offset has a position.
fn is_place(at: usize, text: &[u8]) -> bool
    requires { at ≤ length text.now }
    ensures { result ≡ is_place at text.now }
{
    let before = byte_before(at, text);
    stands_between(before, &text[at..])
}

// The byte before an offset, or 0 if there is none.
fn byte_before(at: usize, text: &[u8]) -> u8
    requires { at ≤ length text.now }
    ensures some { 0 < at → result ≡ get_or text.now (at - 1) 0 }
    ensures none { at ≡ 0 → result ≡ 0 }
{
    if at > 0 { text[at - 1] } else { 0 }
}

// Whether a cut between this byte and these cuts neither a character nor CR LF.
fn stands_between(before: u8, rest: &[u8]) -> bool
    ensures { result ≡ stands_between before rest.now }
{
    begins(rest) && !(before == b'\r' && feeds(rest))
}

// Whether a character begins here, or nothing is left.
fn begins(rest: &[u8]) -> bool
    ensures { result ≡ begins rest.now }
{
    match rest {
        [b, ..] => !is_within(*b),
        [] => true,
    }
}

/// Whether a byte continues a character.
pub fn is_within(b: u8) -> bool
    ensures { result ≡ is_within b }
{
    b >= 128 && b < 192
}

// The last offset up to this one that has a position.
fn place_before(at: usize, text: &[u8]) -> usize
    requires { at ≤ length text.now }
    ensures before { result ≤ at }
    ensures value { result ≡ place_before at text.now }
{
    let mut place = at;
    while place > 0 && !is_place(place, text) {
        place -= 1;
    }
    place
}

// The first offset from this one on that has a position.
fn place_behind(at: usize, text: &[u8]) -> usize
    requires { at ≤ length text.now }
    ensures behind { (at ≤ result) × (result ≤ length text.now) }
    ensures value { result ≡ place_behind at text.now }
{
    let mut place = at;
    while place < text.len() && !is_place(place, text) {
        place += 1;
    }
    place
}
