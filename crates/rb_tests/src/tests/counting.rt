//! How many entries pieces have.

use rb_raftlog::Pieces;

/// How many entries the pieces have, of at most 100,000 pieces.
pub fn entries_in(pieces: Pieces<'_>) -> usize {
    let mut count = 0usize;
    let mut rest = pieces;
    for _ in 0..100_000 {
        match rest.next() {
            Some(piece) => count = count.saturating_add(piece.len()),
            None => break,
        }
    }
    count
}
