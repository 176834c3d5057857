//! What a node is made to do, as plain values.

use rb_node::Options;
use rb_vocab::{Transition, WordKind};

/// What a message says.
#[derive(Clone, Copy)]
pub enum Says {
    /// The last entry's term and index, and whether the lead is handed over.
    Vote(u64, u64, bool),
    /// The last entry's term and index.
    PreVote(u64, u64),
    VoteAnswer(bool),
    PreVoteAnswer(bool),
    /// The term and the index of the entry before the first, the commit, and how many entries, each of the message's term.
    Append(u64, u64, u64, u64),
    /// The index that is held.
    Accepted(u64),
    /// The index that isn't, and the hint.
    Refused(u64, u64),
    /// The commit.
    Heartbeat(u64),
    HeartbeatAnswer,
    /// The term and the index.
    Snapshot(u64, u64),
    Payload,
    /// To whom the lead is to go.
    TransferTo(u64),
    TimeoutNow,
}

/// One thing that is done with a node.
#[derive(Clone, Copy)]
pub enum Move {
    /// A message: who sent it, in which term, and what it says.
    Get(u64, u64, Says),
    Campaign,
    /// A payload of one byte.
    Propose(u8),
    /// A change of one word.
    Change(Transition, WordKind, u64),
    /// A change without words.
    Leave,
    Transfer(u64),
    Tick,
    Advance,
    ForgetLeader,
    ReportUnreachable(u64),
    SetTimeout(u64),
    Compact(u64),
}

/// Who is there besides node 1, and who votes.
#[derive(Clone, Copy)]
pub enum Members {
    /// Nodes 1 to 3 vote.
    Three,
    /// Node 1 alone votes.
    One,
    /// Nodes 1 and 2 vote.
    Two,
    /// Nodes 2 and 3 alone vote.
    Others,
    /// Nodes 1 to 3 vote, and node 4 learns.
    Learner,
    /// Nodes 1 to 3 vote, in both halves of a joint configuration.
    Joint,
}

/// Where node 1 starts, in term 1 with the content `ab`. There is no reference in it, since each one in a table is dear to prove.
#[derive(Clone, Copy)]
pub struct Start {
    pub index: u64,
    pub members: Members,
    pub options: Options,
}

pub const PLAIN: Options = Options {
    pre_vote: false,
    check_quorum: false,
    step_down_on_removal: false,
    inflight: 2,
};

pub const PRE_VOTE: Options = Options {
    pre_vote: true,
    ..PLAIN
};

pub const CHECK_QUORUM: Options = Options {
    check_quorum: true,
    ..PLAIN
};

pub const STEP_DOWN: Options = Options {
    step_down_on_removal: true,
    ..PLAIN
};

pub const ONE: Options = Options {
    inflight: 1,
    ..PLAIN
};

/// One of three voters, at index 10.
pub const START: Start = Start {
    index: 10,
    members: Members::Three,
    options: PLAIN,
};

/// The same, with other options.
pub const SOUNDS_OUT: Start = Start {
    options: PRE_VOTE,
    ..START
};

pub const CHECKS: Start = Start {
    options: CHECK_QUORUM,
    ..START
};

/// The only voter.
pub const ALONE: Start = Start {
    members: Members::One,
    ..START
};

/// One of two voters.
pub const TWO: Start = Start {
    members: Members::Two,
    ..START
};

pub const TWO_STEP_DOWN: Start = Start {
    options: STEP_DOWN,
    ..TWO
};

/// Nodes 2 and 3 alone vote.
pub const NO_VOTER: Start = Start {
    members: Members::Others,
    ..START
};

/// Node 4 learns.
pub const LEARNER: Start = Start {
    members: Members::Learner,
    ..START
};

pub const JOINT: Start = Start {
    members: Members::Joint,
    ..START
};

/// One append may be in flight to a follower.
pub const ONE_IN_FLIGHT: Start = Start {
    options: ONE,
    ..START
};

/// Node 2 leads term 2, and was heard of.
pub const FOLLOWS: &[Move] = &[Move::Get(2, 2, Says::Heartbeat(0)), Move::Advance];

/// The node stands for term 3, and has its own vote; with pre-vote it asks in term 2, and has its own yes.
pub const STANDS: &[Move] = &[
    Move::Get(2, 2, Says::Heartbeat(0)),
    Move::Advance,
    Move::Campaign,
    Move::Advance,
];

/// The node leads term 3, and holds its first entry there, 3/11.
pub const LEADS: &[Move] = &[
    Move::Get(2, 2, Says::Heartbeat(0)),
    Move::Advance,
    Move::Campaign,
    Move::Advance,
    Move::Get(2, 3, Says::VoteAnswer(true)),
    Move::Advance,
];

/// The node leads term 3, over 2/11 to 2/13, with 3/14 of its own.
pub const LEADS_LONG: &[Move] = &[
    Move::Get(2, 2, Says::Append(1, 10, 10, 3)),
    Move::Advance,
    Move::Campaign,
    Move::Advance,
    Move::Get(2, 3, Says::VoteAnswer(true)),
    Move::Advance,
];
