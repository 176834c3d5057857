//! What a restart loses.

/// What a node had when it restarted and hadn't saved: its term and vote, and the entries after `durable` up to `last`. No message that went out
/// depends on it.
#[derive(Clone, Copy, PartialEq, Eq, Debug)]
pub struct Unsaved {
    /// The node's term.
    pub term: u64,
    /// The node that got its vote in this term, or 0.
    pub vote: u64,
    /// The last durable index.
    pub durable: u64,
    /// The last index.
    pub last: u64,
}
