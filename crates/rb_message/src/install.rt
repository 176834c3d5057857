//! The body of a snapshot message.
//!
//! If a leader's log was compacted past what a follower lacks, the leader sends a snapshot instead of entries (`InstallSnapshot` in
//! Ongaro's thesis, section 5.3).
//!
//! Few messages have a snapshot. Each has only a pointer to it, which copies share, so other messages stay small.

ghost use Rattle.std.specs.Prelude.{◌≡◌, ◌≤◌, IfOk};
ghost use Rattle.rb_raftlog.specs.declared.limits.TheConstants.{MAX_INDEX};
ghost use Rattle.rb_raftlog.specs.Equals.{same_snapshots, snapshots_per};

use rb_raftlog::Snapshot;
use std::alloc::{AllocError, Global};
use std::marker::Model;
use std::rc::Rc;

/// A snapshot to install. Its index is within the limits. Contracts see the snapshot. A copy costs a pointer.
#[derive(Drop)]
pub struct Install {
    snapshot: Rc<Snapshot>,
}

impl Model for Install {
    ghost use Rattle.std.specs.Prelude.{◌≤◌};
    ghost use Rattle.rb_raftlog.specs.declared.limits.TheConstants.{MAX_INDEX};
    ghost use Rattle.rb_raftlog.specs.declared.snapshot.Snapshot.{Snapshot};

    ghost Value = { Snapshot };

    ghost view = { λ i. i.snapshot.value };

    ghost invariant = { λ i. i.snapshot.value.index ≤ MAX_INDEX };
}

impl Install {
    /// Shares a snapshot.
    pub fn new(alloc: Global, snapshot: Snapshot) -> Result<Install, AllocError>
        requires { snapshot.index ≤ MAX_INDEX }
        ensures { IfOk result (λ install. install ≡ snapshot) }
    {
        Ok(Install {
            snapshot: Rc::new(alloc, snapshot)?,
        })
    }

    /// The snapshot.
    pub fn snapshot(&self) -> &Snapshot
        ensures value { result.now ≡ self.now }
        ensures within { self.now.index ≤ MAX_INDEX }
    {
        &self.snapshot
    }
}

impl PartialEq for Install {
    ghost eq = { same_snapshots };

    ghost laws = { snapshots_per };

    fn eq(&self, other: &Install) -> bool {
        *self.snapshot == *other.snapshot
    }
}

impl Clone for Install {
    ghost is_clone = { λ install copy. copy ≡ install };

    // Copies the pointer.
    fn clone(&self) -> Result<Install, AllocError> {
        Ok(Install {
            snapshot: self.snapshot.clone()?,
        })
    }
}
