//! A node's events.
//!
//! An event reports a decision that the node's state doesn't show: why it ignores a message or refuses a vote, what it counted, what it
//! dropped. Each event names its node.

use crate::hard_state::HardState;
use crate::role::Role;
use crate::unsaved::Unsaved;
use rb_raftlog::Entries;
use rb_tracker::{ChangeFault, Config, VoteResult};
use rb_vocab::MessageType;

/// Why a node can't campaign: the first reason that holds, in this order.
#[derive(Clone, Copy, PartialEq, Eq, Debug)]
pub enum WhyNoCampaign {
    /// It leads.
    Leader,
    /// It is in neither set of voters.
    NotAVoter,
    /// A snapshot was restored and isn't durable.
    SnapshotPending,
    /// A committed change isn't applied.
    ChangePending,
    /// There is no next term.
    TermLimit,
}

/// Why an empty entry replaces a change: the first reason that holds, in this order.
#[derive(Clone, Copy, PartialEq, Eq, Debug)]
pub enum WhyReplaced {
    /// An earlier change isn't applied.
    Unapplied,
    /// The configuration is joint, and only leaving it is possible.
    Joint,
    /// The change leaves a joint configuration, and there is none.
    NotJoint,
}

/// Why a node ignores a message.
#[derive(Clone, Copy, PartialEq, Eq, Debug)]
pub enum WhyIgnored {
    /// The message is of a term before the node's own.
    EarlierTerm {
        term: u64,
        own: u64,
    },
    /// A vote request, and the node has heard from its leader within an election timeout.
    HearsLeader {
        lead: u64,
    },
    /// A node in this role doesn't handle such a message.
    NoUse {
        role: Role,
    },
    /// A leadership transfer, and the node knows no leader to forward it to.
    NoLeader,
    /// A response to a leader that has no view of the sender.
    NoView {
        from: u64,
    },
    /// The sender refused the entries after an index, and is known to hold more by now.
    HoldsMore {
        from: u64,
        refused: u64,
        matched: u64,
    },
    /// The sender refused the entries after an index, and the leader probes another index by now.
    ProbesElsewhere {
        from: u64,
        refused: u64,
        probed: u64,
    },
    /// The sender refused the entries after an index, and a snapshot to it is in flight.
    AwaitsSnapshot {
        from: u64,
    },
    /// A leadership transfer to a node that is not a voter.
    NotAVoter {
        target: u64,
    },
    /// A leadership transfer to the leader itself.
    LeadsAlready {
        target: u64,
    },
    /// A leadership transfer to this node is in progress already.
    IsUnderWay {
        target: u64,
    },
}

/// Why a node refuses a vote or a pre-vote.
#[derive(Clone, Copy, PartialEq, Eq, Debug)]
pub enum WhyRefused {
    /// The request is of a term before the node's own.
    EarlierTerm {
        term: u64,
        own: u64,
    },
    /// The node voted for another in this term.
    Voted {
        term: u64,
        vote: u64,
    },
    /// The node knows the leader of this term.
    KnowsLeader {
        term: u64,
        lead: u64,
    },
    /// The candidate's log is older than the node's own.
    OlderLog {
        term: u64,
        index: u64,
        own_term: u64,
        own_index: u64,
    },
}

/// An event of a node.
#[derive(Drop)]
pub struct Event {
    /// The node.
    pub id: u64,
    pub kind: EventKind,
}

/// What happened.
#[derive(Drop)]
pub enum EventKind {
    /// It started at an entry, with a configuration.
    Started {
        term: u64,
        index: u64,
        config: Config,
    },
    /// It restarted with a saved hard state, and the entries after `base` up to `last`.
    Restarted {
        saved: HardState,
        base: u64,
        last: u64,
        lost: Unsaved,
    },
    /// It took a role.
    Became {
        role: Role,
        term: u64,
    },
    /// It can't campaign.
    CannotCampaign {
        why: WhyNoCampaign,
    },
    /// It counted a vote response, and this is the result so far.
    VoteCounted {
        message_type: MessageType,
        granted: bool,
        from: u64,
        result: VoteResult,
    },
    /// It ignored a message.
    Ignored {
        message_type: MessageType,
        from: u64,
        why: WhyIgnored,
    },
    /// It refused a vote or a pre-vote. No line shows this by itself.
    RefusedVote {
        message_type: MessageType,
        from: u64,
        why: WhyRefused,
    },
    /// It dropped a proposal.
    DroppedProposal,
    /// It removed entries that conflict with its leader's. `last` is the index of the last of them. No line shows this event.
    RemovedEntries {
        last: u64,
        entries: Entries,
    },
    /// A leader's append conflicts with a committed entry.
    Conflict {
        index: u64,
        commit: u64,
    },
    /// Its log is full.
    AppendsNothing,
    /// An empty entry replaced a change at an index.
    ReplacedChange {
        index: u64,
        why: WhyReplaced,
    },
    /// It switched to another configuration.
    Switched {
        config: Config,
    },
    /// It refused a committed change.
    RefusedChange {
        index: u64,
        fault: ChangeFault,
    },
    /// It restored a leader's snapshot.
    Restored {
        term: u64,
        index: u64,
    },
    /// It began a leadership transfer.
    TransferStarts {
        to: u64,
    },
    /// It ended a leadership transfer.
    TransferEnds {
        to: u64,
    },
    /// It is a leader that hasn't heard from a quorum for an election timeout.
    LostQuorum,
}
