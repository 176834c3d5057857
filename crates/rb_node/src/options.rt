//! Options of a node.

/// A node's options, as etcd's raft names them.
#[derive(Clone, Copy, PartialEq, Eq, Debug)]
pub struct Options {
    /// Ask for pre-votes before a campaign (`PreVote`; Ongaro's thesis, section 9.6).
    pub pre_vote: bool,
    /// A leader that doesn't hear from a quorum steps down. A node that hears from a leader ignores vote requests (`CheckQuorum`; section
    /// 6.2).
    pub check_quorum: bool,
    /// A leader that is no longer a voter steps down (`StepDownOnRemoval`).
    pub step_down_on_removal: bool,
    /// How many appends may be in flight to a follower (`MaxInflightMsgs`).
    pub inflight: usize,
}
