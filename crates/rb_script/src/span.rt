//! The position of a token.

/// A token of a head: the bytes of line `line` from `start` to `end`. All are counted from 0, lines within the head. Line numbers
/// and lengths of lines fit in a `u32`.
#[derive(Clone, Copy, Debug, PartialEq, Eq)]
pub struct Span {
    /// The line of the head.
    pub line: u32,
    /// Where the token begins in the line.
    pub start: u32,
    /// Where it ends: the position after its last byte.
    pub end: u32,
}
