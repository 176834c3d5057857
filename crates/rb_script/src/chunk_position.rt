//! A position in a list of chunks.

/// A position between two items: a chunk, and the number of its items before the position.
#[derive(Clone, Copy)]
pub(crate) struct ChunkPosition {
    pub(crate) chunk: usize,
    pub(crate) within: usize,
}
