//! Positions in a text, and their offsets.

ghost use Rattle.std.specs.Prelude.{◌≡◌, ◌+◌, ◌-◌, ◌*◌, ◌<◌, ◌≤◌, ℕ, true, false, length, drop, get_or, IfSome, IfNone};
ghost use Rattle.rb_lsp.specs.declared.document.limits.TheConstants.{MAX_TEXT};
ghost use Rattle.rb_lsp.specs.Places.{column, ends_line, feeds, is_end, line_start, next_position, offset, position_of, units};
ghost use Rattle.rb_lsp.specs.Behind.{HasNoFeed, IsLineBehind};

use memchr::memchr2;

/// The unit of a position's column.
#[derive(Clone, Copy, Debug, PartialEq, Eq)]
pub enum Encoding {
    /// Bytes.
    Utf8,
    /// Units of UTF-16.
    Utf16,
}

/// A position in a text: a line, and how many units of it are before. Both count from 0.
#[derive(Clone, Copy, Debug, PartialEq, Eq)]
pub struct Position {
    pub line: u64,
    pub character: u64,
}

/// The text between two positions.
#[derive(Clone, Copy, Debug, PartialEq, Eq)]
pub struct Range {
    pub start: Position,
    pub end: Position,
}

/// The offset of a position. A line that the text doesn't have means the text's end, a column after a line's end means that end, and
/// one within a character means its beginning.
pub fn offset(encoding: Encoding, position: Position, text: &[u8]) -> usize
    ensures value { result ≡ offset encoding position text.now }
    ensures within { result ≤ length text.now }
{
    let start = line_start(position.line, text);
    start + column(encoding, position.character, &text[start..])
}

/// The offsets at which a range begins and ends. The end's line is searched from the beginning's line on.
pub(crate) fn offsets(encoding: Encoding, range: Range, text: &[u8]) -> (usize, usize)
    ensures from { (result.0 ≡ offset encoding range.start text.now) × (result.0 ≤ length text.now) }
    ensures to { (result.1 ≡ offset encoding range.end text.now) × (result.1 ≤ length text.now) }
{
    let start = line_start(range.start.line, text);
    let from = start + column(encoding, range.start.character, &text[start..]);
    if range.end.line < range.start.line {
        return (from, offset(encoding, range.end, text));
    }
    let further = Position {
        line: range.end.line - range.start.line,
        character: range.end.character,
    };
    (from, start + offset(encoding, further, &text[start..]))
}

/// The position of an offset.
#[tactic(auto, unfolding(crate::specs::Places::position_of))]
pub fn position_of(encoding: Encoding, offset: usize, text: &[u8]) -> Position
    requires within { offset ≤ length text.now }
    requires bounded { length text.now ≤ MAX_TEXT }
    ensures { result ≡ position_of encoding offset text.now }
{
    position_on(encoding, line_first(0), 0, offset, text)
}

/// Where a line begins.
pub(crate) fn line_first(line: u64) -> Position
    ensures { result ≡ record { line = line; character = 0 } }
{
    Position { line, character: 0 }
}

// The position of an offset, from that of a smaller one.
pub(crate) fn position_on(
    encoding: Encoding,
    first: Position,
    from: usize,
    to: usize,
    text: &[u8],
) -> Position
    requires order { from ≤ to }
    requires within { to ≤ length text.now }
    requires bounded { length text.now ≤ MAX_TEXT }
    requires few { (first.line ≤ from) × (first.character ≤ 4 * from) }
    requires first { first ≡ position_of encoding from text.now }
    ensures { result ≡ position_of encoding to text.now }
{
    let mut position = first;
    for at in from..to {
        position = next_position(encoding, position, text[at], &text[at + 1..]);
    }
    position
}

// The position after one more byte, which these follow.
pub(crate) fn next_position(encoding: Encoding, position: Position, b: u8, rest: &[u8]) -> Position
    requires bounded { (position.line ≤ MAX_TEXT) × (position.character ≤ 4 * MAX_TEXT) }
    ensures { result ≡ next_position encoding b rest.now position }
{
    if ends_line(b, rest) {
        Position {
            line: position.line + 1,
            character: 0,
        }
    } else {
        Position {
            line: position.line,
            character: position.character + units(encoding, b),
        }
    }
}

// Whether the text continues with a line feed.
pub(crate) fn feeds(rest: &[u8]) -> bool
    ensures { result ≡ feeds rest.now }
{
    match rest {
        [b, ..] => *b == b'\n',
        [] => false,
    }
}

// Whether a byte ends a line.
fn ends_line(b: u8, rest: &[u8]) -> bool
    ensures { result ≡ ends_line b rest.now }
{
    b == b'\n' || (b == b'\r' && !feeds(rest))
}

// Whether a byte belongs to a line's end.
fn is_end(b: u8) -> bool
    ensures { result ≡ is_end b }
{
    b == b'\n' || b == b'\r'
}

// How many units the character has that begins with a byte.
fn units(encoding: Encoding, b: u8) -> u64
    ensures { result ≡ units encoding b }
{
    match (encoding, b) {
        (_, 0..128) => 1,
        (_, 128..192) => 0,
        (Encoding::Utf16, 192..240) => 1,
        (Encoding::Utf16, _) => 2,
        (Encoding::Utf8, 192..224) => 2,
        (Encoding::Utf8, 224..240) => 3,
        (Encoding::Utf8, _) => 4,
    }
}

// Where a line begins.
pub(crate) fn line_start(line: u64, text: &[u8]) -> usize
    ensures value { result ≡ line_start line text.now }
    ensures within { result ≤ length text.now }
{
    let mut left = line;
    let mut at = 0;
    while left > 0 && at < text.len() {
        let end = at + line_len(&text[at..]);
        if end == text.len() {
            return end;
        }
        if ends_line(text[end], &text[end + 1..]) {
            left -= 1;
        }
        at = end + 1;
    }
    at
}

/// Where the next line begins, if the line that begins here has an end.
pub(crate) fn line_behind(text: &[u8], at: usize) -> Option<usize>
    requires { at ≤ length text.now }
    ensures next { IfSome result (IsLineBehind at text.now) }
    ensures last { IfNone result (HasNoFeed at (length text.now) text.now) }
{
    let end = at + line_len(&text[at..]);
    if end == text.len() {
        return None;
    }
    if ends_line(text[end], &text[end + 1..]) {
        return Some(end + 1);
    }
    // CR LF is one end.
    Some(end + 2)
}

// How many bytes are before the first line end: all, if there is none.
fn line_len(bytes: &[u8]) -> usize
    ensures within { result ≤ length bytes.now }
    ensures before { (k : ℕ) → k < result → is_end (get_or bytes.now k 0) ≡ false }
    ensures end { result < length bytes.now → is_end (get_or bytes.now result 0) ≡ true }
{
    match memchr2(b'\n', b'\r', bytes) {
        Some(end) => end,
        None => bytes.len(),
    }
}

// The bytes of a line before n units.
fn column(encoding: Encoding, character: u64, line: &[u8]) -> usize
    ensures value { result ≡ column encoding character line.now }
    ensures within { result ≤ length line.now }
{
    let mut left = character;
    for (at, b) in line.iter().enumerate() {
        if is_end(*b) {
            return at;
        }
        let width = units(encoding, *b);
        if left < width {
            return at;
        }
        left -= width;
    }
    line.len()
}
