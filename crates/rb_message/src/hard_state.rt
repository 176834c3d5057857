//! A node's hard state.

/// The state that must be durable before any message that depends on it goes out (`HardState` in etcd's raft; Ongaro's thesis, section
/// 3.8).
#[derive(Clone, Copy, PartialEq, Eq, Debug)]
pub struct HardState {
    /// The node's term.
    pub term: u64,
    /// The node that got its vote in this term, or 0.
    pub vote: u64,
    /// The last index known to be committed.
    pub commit: u64,
}
