//! Snapshots, which replace the entries up to an index.
//!
//! If the leader's log was compacted past what a node needs, the node gets the leader's content and configuration at an index instead of
//! entries (Ongaro's thesis, section 5.1; `Snapshot` in etcd's raft).

ghost use Rattle.std.specs.Prelude.{◌≡◌, ◌↔◌, IsTrue, IfOk};

use crate::content::Content;
use rb_vocab::ConfState;
use std::alloc::AllocError;

/// A node's content and configuration after the entry at an index was applied, and that entry's term.
#[derive(Clone, PartialEq, Drop)]
pub struct Snapshot {
    pub index: u64,
    pub term: u64,
    pub content: Content,
    pub config: ConfState,
}

impl Snapshot {
    /// Copies the snapshot. The cost is that of copying its content.
    pub fn try_copy(&self) -> Result<Snapshot, AllocError>
        ensures { IfOk result (λ copy. copy ≡ self.now) }
    {
        self.clone()
    }

    /// Whether both are equal, by the derived `==`, which is proved to be equality. Compares numbers first.
    #[tactic(auto, using(crate::proofs::EqualLaws::snapshots_decide))]
    pub fn same(&self, other: &Snapshot) -> bool
        ensures { IsTrue result ↔ (self.now ≡ other.now) }
    {
        *self == *other
    }
}
