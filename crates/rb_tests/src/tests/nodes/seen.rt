//! What shows of a node once it did something, as plain values.

use super::before::{Before, moves_of};
use super::making::{Player, act_all, played};
use super::moves::{Move, Start};
use crate::tests::is_in_row;
use rb_message::{
    Event, EventKind, Message, MessageKind, Outbox, Role, WhyNoCampaign, WhyReplaced,
};
use rb_node::Node;
use rb_raftlog::RaftLog;
use rb_tracker::VoteResult;
use std::alloc::Global;
use std::process::Abort;

pub const FOLLOWER: Role = Role::Follower;

pub const PRECANDIDATE: Role = Role::Precandidate;

pub const CANDIDATE: Role = Role::Candidate;

pub const LEADER: Role = Role::Leader;

/// The first thing that it told.
#[derive(Clone, Copy, PartialEq)]
pub enum Told {
    Nothing,
    Started,
    Restarted,
    Became,
    CannotAsLeader,
    CannotAsNoVoter,
    CannotForSnapshot,
    CannotForChange,
    CannotForTerm,
    Won,
    Lost,
    Pending,
    Ignored,
    RefusedVote,
    DroppedProposal,
    RemovedEntries,
    Conflict,
    AppendsNothing,
    ReplacedUnapplied,
    ReplacedJoint,
    ReplacedNotJoint,
    Switched,
    RefusedChange,
    Restored,
    TransferStarts,
    TransferEnds,
    LostQuorum,
}

/// What its first answer says that waits or, where none does, its first message that was sent.
#[derive(Clone, Copy, PartialEq)]
pub enum Said {
    Nothing,
    Vote,
    VoteByTransfer,
    PreVote,
    VoteGranted,
    VoteRefused,
    PreVoteGranted,
    PreVoteRefused,
    Append,
    Accepted,
    Refused,
    Heartbeat,
    HeartbeatAnswer,
    Snapshot,
    Payload,
    Change,
    Transfer,
    TimeoutNow,
}

/// Its role and its term; what it told first, and how many events there are; what it said first, in which term, and of which index
/// (that before the entries of an append, that which is held or hinted at, a commit, a snapshot's, a target; else 0); how many
/// messages were sent, and how many answers wait.
#[derive(Clone, Copy, PartialEq)]
pub struct Seen(
    pub Role,
    pub u64,
    pub Told,
    pub usize,
    pub Said,
    pub u64,
    pub u64,
    pub usize,
    pub usize,
);

/// Where a node starts, what it does before and then, what it does at last, and what shows then.
pub type Case = (Start, Before, Before, Move, Seen);

/// Cases. Each is written as start, what it does before and then, last move => role term, first event and how many, first message with
/// its term and its index, sent and waiting ones.
macro_rules! cases {
    ($($start:expr, $before:ident, $then:ident, $last:expr => $role:ident $term:literal, $told:ident $events:literal, $said:ident $of:literal $index:literal, $sent:literal $waiting:literal;)*) => {
        [$((
            $start,
            Before::$before,
            Before::$then,
            $last,
            Seen($role, $term, Told::$told, $events, Said::$said, $of, $index, $sent, $waiting),
        ),)*]
    };
}

/// The same of one start and what a node does before, where it gets a message of one node, of one term: each begins with what this says.
macro_rules! answers {
    ($start:expr, $before:ident, $from:literal $sent_in:literal: $($says:expr => $role:ident $term:literal, $told:ident $events:literal, $said:ident $of:literal $index:literal, $sent:literal $waiting:literal;)*) => {
        [$((
            $start,
            Before::$before,
            Before::Nothing,
            Move::Get($from, $sent_in, $says),
            Seen($role, $term, Told::$told, $events, Said::$said, $of, $index, $sent, $waiting),
        ),)*]
    };
}

pub(crate) use answers;
pub(crate) use cases;

fn reason(why: WhyNoCampaign) -> Told {
    match why {
        WhyNoCampaign::Leader => Told::CannotAsLeader,
        WhyNoCampaign::NotAVoter => Told::CannotAsNoVoter,
        WhyNoCampaign::SnapshotPending => Told::CannotForSnapshot,
        WhyNoCampaign::ChangePending => Told::CannotForChange,
        WhyNoCampaign::TermLimit => Told::CannotForTerm,
    }
}

fn replaced(why: WhyReplaced) -> Told {
    match why {
        WhyReplaced::Unapplied => Told::ReplacedUnapplied,
        WhyReplaced::Joint => Told::ReplacedJoint,
        WhyReplaced::NotJoint => Told::ReplacedNotJoint,
    }
}

fn counted(outcome: VoteResult) -> Told {
    match outcome {
        VoteResult::Won => Told::Won,
        VoteResult::Lost => Told::Lost,
        VoteResult::Pending => Told::Pending,
    }
}

fn event_told(event: &Event) -> Told {
    match &event.kind {
        EventKind::Started { .. } => Told::Started,
        EventKind::Restarted { .. } => Told::Restarted,
        EventKind::Became { .. } => Told::Became,
        EventKind::CannotCampaign { why, .. } => reason(*why),
        EventKind::VoteCounted {
            result: outcome,
            ..
        } => counted(*outcome),
        EventKind::Ignored { .. } => Told::Ignored,
        EventKind::RefusedVote { .. } => Told::RefusedVote,
        EventKind::DroppedProposal => Told::DroppedProposal,
        EventKind::RemovedEntries { .. } => Told::RemovedEntries,
        EventKind::Conflict { .. } => Told::Conflict,
        EventKind::AppendsNothing => Told::AppendsNothing,
        EventKind::ReplacedChange { why, .. } => replaced(*why),
        EventKind::Switched { .. } => Told::Switched,
        EventKind::RefusedChange { .. } => Told::RefusedChange,
        EventKind::Restored { .. } => Told::Restored,
        EventKind::TransferStarts { .. } => Told::TransferStarts,
        EventKind::TransferEnds { .. } => Told::TransferEnds,
        EventKind::LostQuorum => Told::LostQuorum,
    }
}

fn answered(granted: bool, yes: Said, no: Said) -> (Said, u64) {
    (if granted { yes } else { no }, 0)
}

/// What a message says, and of which index.
fn kind_said(kind: &MessageKind) -> (Said, u64) {
    match kind {
        MessageKind::Vote { transfer, .. } => answered(*transfer, Said::VoteByTransfer, Said::Vote),
        MessageKind::PreVote { .. } => (Said::PreVote, 0),
        MessageKind::VoteResponse { granted } => {
            answered(*granted, Said::VoteGranted, Said::VoteRefused)
        }
        MessageKind::PreVoteResponse { granted } => {
            answered(*granted, Said::PreVoteGranted, Said::PreVoteRefused)
        }
        MessageKind::Append(append) => (Said::Append, append.prev()),
        MessageKind::AppendResponse { matched } => (Said::Accepted, *matched),
        MessageKind::AppendRefusal { hint, .. } => (Said::Refused, *hint),
        MessageKind::Heartbeat { commit } => (Said::Heartbeat, *commit),
        MessageKind::HeartbeatResponse => (Said::HeartbeatAnswer, 0),
        MessageKind::Snapshot(install) => (Said::Snapshot, install.snapshot().index),
        MessageKind::Proposal(body) => answered(body.is_change(), Said::Change, Said::Payload),
        MessageKind::TransferLeader { target } => (Said::Transfer, *target),
        MessageKind::TimeoutNow => (Said::TimeoutNow, 0),
    }
}

fn first_of<'a>(waiting: &'a Outbox, sent: &'a Outbox) -> Option<&'a Message> {
    if waiting.len() != 0 {
        return Some(waiting.message(0));
    }
    if sent.len() != 0 {
        return Some(sent.message(0));
    }
    None
}

pub fn said_first(messages: &[Message]) -> Said {
    match messages.first() {
        Some(message) => kind_said(&message.kind).0,
        None => Said::Nothing,
    }
}

/// What shows of a node that has told this.
pub fn seen_of<L: RaftLog>(node: &Node<L>, events: &[Event]) -> Seen {
    let state = node.status();
    let (said, term, index) = match first_of(&state.waiting, &state.sent) {
        Some(message) => {
            let (said, index) = kind_said(&message.kind);
            (said, message.term, index)
        }
        None => (Said::Nothing, 0, 0),
    };
    Seen(
        state.role,
        state.term,
        events.first().map_or(Told::Nothing, event_told),
        events.len(),
        said,
        term,
        index,
        state.sent.len(),
        state.waiting.len(),
    )
}

/// What shows once a node that did all this does one thing more.
fn seen_after<P: Player>(
    rt: &impl Abort,
    alloc: Global,
    start: &Start,
    before: &[Move],
    then: &[Move],
    last: Move,
) -> Seen {
    let mut player: P = played(rt, alloc, start, before);
    act_all(rt, alloc, &mut player, then);
    let seen = player.act(rt, alloc, last);
    drop(player);
    seen
}

/// Each case of a table shows what it says.
pub fn shows<P: Player>(rt: &impl Abort, alloc: Global, name: &str, rows: &[Case]) {
    for (k, (start, before, then, last, wanted)) in rows.iter().enumerate() {
        let (before, then) = (moves_of(*before), moves_of(*then));
        let came = seen_after::<P>(rt, alloc, start, before, then, *last);
        is_in_row(rt, came == *wanted, name, k);
    }
}
