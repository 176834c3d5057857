//! The members of a cluster, as snapshots contain them.
//!
//! In a joint configuration (Ongaro's thesis, section 4.3) decisions need a majority of the incoming voters and a majority of the
//! outgoing voters. Learners receive entries and don't vote. A learner that is still an outgoing voter becomes a learner when the
//! joint configuration is left. This is only the record, as in etcd's raft; rb_tracker's `Config` has the rules.

ghost use Rattle.std.specs.Prelude.{◌≡◌, ◌↔◌, IsTrue};

use crate::shared::Shared;

/// A configuration: four lists of ids, each ascending, and a flag. A copy costs four pointers.
#[derive(Clone, PartialEq, Drop)]
pub struct ConfState {
    /// The voters.
    pub incoming: Shared<u64>,
    /// The voters before the change under way; empty unless the configuration is joint.
    pub outgoing: Shared<u64>,
    /// The learners.
    pub learners: Shared<u64>,
    /// The nodes that become learners when the joint configuration is left.
    pub next: Shared<u64>,
    /// Whether the leader leaves the joint configuration automatically.
    pub auto: bool,
}

impl ConfState {
    /// Whether both are equal, by the derived `==`, which is proved to be equality.
    #[tactic(auto, using(crate::proofs::EqualLaws::conf_states_decide))]
    pub fn same(&self, other: &ConfState) -> bool
        ensures { IsTrue result ↔ (self.now ≡ other.now) }
    {
        *self == *other
    }
}
