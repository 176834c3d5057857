//! An edit of a script.

use crate::block::Block;
use crate::lines::Lines;

/// An edit. Places are counted from 1.
pub enum Edit {
    /// Inserts the block at this place.
    Insert(usize, Block),
    /// Replaces the block at this place.
    Replace(usize, Block),
    /// Removes the block at this place.
    Remove(usize),
    /// Sets the expected lines of the block at this place.
    Expect(usize, Lines),
    /// Sets each expectation to the output.
    Accept,
}

// Written by hand, so that dropping one is a call for the prover, and is proved only here.
impl Drop for Edit {
    fn drop(self) {
        match self {
            Edit::Insert(_, _) | Edit::Replace(_, _) => {}
            Edit::Remove(_) | Edit::Expect(_, _) | Edit::Accept => {}
        }
    }
}
