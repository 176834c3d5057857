//! What a leader does, case by case: answers, windows, transfers, proposals and changes.

use super::before::Before;
use super::moves::{ALONE, JOINT, LEARNER, Move, ONE_IN_FLIGHT, START, Says, TWO, TWO_STEP_DOWN};
use super::seen::{Case, FOLLOWER, LEADER, Said, Seen, Told, cases};
use rb_vocab::{Transition, WordKind};

/// What a leader of term 3 does then: node 2 holds 3/11, which is applied.
pub const COMMITS: &[Move] = &[Move::Get(2, 3, Says::Accepted(11)), Move::Advance];

/// The same, and 3/12 is on its way to node 2.
pub const PROPOSED: &[Move] = &[
    Move::Get(2, 3, Says::Accepted(11)),
    Move::Advance,
    Move::Propose(b'x'),
    Move::Advance,
];

/// Node 2 replicated, and can't be reached.
pub const UNREACHED: &[Move] = &[
    Move::Get(2, 3, Says::Accepted(11)),
    Move::ReportUnreachable(2),
    Move::Advance,
    Move::Propose(b'x'),
    Move::Advance,
];

/// Node 3 needs what the log no longer has.
pub const COMPACTED: &[Move] = &[
    Move::Get(2, 3, Says::Accepted(11)),
    Move::Advance,
    Move::Compact(11),
];

/// A snapshot is on its way to node 3, which can't be reached.
pub const SNAPSHOT_LOST: &[Move] = &[
    Move::Get(2, 3, Says::Accepted(11)),
    Move::Advance,
    Move::Compact(11),
    Move::Get(3, 3, Says::HeartbeatAnswer),
    Move::ReportUnreachable(3),
    Move::Advance,
];

pub const ANSWERS: [Case; 12] = cases! {
    // strangers
    START, Leads, Nothing, Move::Get(9, 3, Says::Accepted(11)) => LEADER 3, Ignored 1, Nothing 0 0, 0 0;
    START, Leads, Nothing, Move::Get(9, 3, Says::Refused(10, 9)) => LEADER 3, Ignored 1, Nothing 0 0, 0 0;
    START, Leads, Nothing, Move::Get(9, 3, Says::HeartbeatAnswer) => LEADER 3, Ignored 1, Nothing 0 0, 0 0;
    // old refusals: at or below what is held; not of what a probe has asked
    START, Leads, Commits, Move::Get(2, 3, Says::Refused(11, 5)) => LEADER 3, Ignored 1, Nothing 0 0, 0 0;
    START, Leads, Nothing, Move::Get(3, 3, Says::Refused(5, 1)) => LEADER 3, Ignored 1, Nothing 0 0, 0 0;
    // refusals that count: the view steps back to what is held, or to behind the hint
    START, Leads, Commits, Move::Get(2, 3, Says::Refused(12, 11)) => LEADER 3, Nothing 0, Append 3 11, 1 0;
    START, LeadsLong, Nothing, Move::Get(2, 3, Says::Refused(13, 11)) => LEADER 3, Nothing 0, Append 3 11, 1 0;
    // who holds all is told nothing more by an answered heartbeat, and who lags is made to answer
    START, Leads, Commits, Move::Get(2, 3, Says::HeartbeatAnswer) => LEADER 3, Nothing 0, Nothing 0 0, 0 0;
    START, Leads, Proposed, Move::Get(2, 3, Says::HeartbeatAnswer) => LEADER 3, Nothing 0, Append 3 12, 1 0;
    START, Leads, Commits, Move::Get(3, 3, Says::HeartbeatAnswer) => LEADER 3, Nothing 0, Append 3 10, 1 0;
    START, Leads, Compacted, Move::Get(3, 3, Says::HeartbeatAnswer) => LEADER 3, Nothing 0, Snapshot 3 11, 1 0;
    // to whom a snapshot is on its way is sent nothing more, reached or not
    START, Leads, SnapshotLost, Move::Get(3, 3, Says::HeartbeatAnswer) => LEADER 3, Nothing 0, Nothing 0 0, 0 0;
};

pub const WINDOWS: [Case; 6] = cases! {
    // two appends may be in flight, or one
    START, Leads, Commits, Move::Propose(b'x') => LEADER 3, Nothing 0, Accepted 3 12, 1 1;
    START, Leads, Proposed, Move::Propose(b'y') => LEADER 3, Nothing 0, Accepted 3 13, 1 1;
    ONE_IN_FLIGHT, Leads, Proposed, Move::Propose(b'y') => LEADER 3, Nothing 0, Accepted 3 13, 0 1;
    // past a full window goes an empty append, which an answered heartbeat asks for
    ONE_IN_FLIGHT, Leads, Proposed, Move::Get(2, 3, Says::HeartbeatAnswer) => LEADER 3, Nothing 0, Append 3 12, 1 0;
    // a probe is one append, which is waited for
    START, Leads, Unreached, Move::Propose(b'y') => LEADER 3, Nothing 0, Accepted 3 13, 0 1;
    START, Leads, Nothing, Move::Propose(b'x') => LEADER 3, Nothing 0, Accepted 3 12, 0 1;
};

pub const HANDS_TO_3: &[Move] = &[Move::Transfer(3)];

pub const TRANSFERS: [Case; 7] = cases! {
    // not to a learner, to itself, or to the same node again
    LEARNER, Leads, Nothing, Move::Transfer(4) => LEADER 3, Ignored 1, Nothing 0 0, 0 0;
    START, Leads, Nothing, Move::Transfer(1) => LEADER 3, Ignored 1, Nothing 0 0, 0 0;
    START, Leads, HandsTo3, Move::Transfer(3) => LEADER 3, Ignored 1, Nothing 0 0, 0 0;
    START, Leads, HandsTo3, Move::Transfer(2) => LEADER 3, TransferEnds 2, Nothing 0 0, 0 0;
    START, Leads, HandsTo3, Move::Propose(b'x') => LEADER 3, DroppedProposal 1, Nothing 0 0, 0 0;
    // who holds all campaigns at once, who lags once it does
    START, Leads, Commits, Move::Transfer(2) => LEADER 3, TransferStarts 1, TimeoutNow 3 0, 1 0;
    START, Leads, HandsTo3, Move::Get(3, 3, Says::Accepted(11)) => LEADER 3, Nothing 0, Append 3 11, 2 0;
};

const ADD_4: Move = Move::Change(Transition::Auto, WordKind::Voter, 4);

pub const CHANGED: &[Move] = &[ADD_4];

/// A lone leader, about to apply a change at 12: a second voter, one over a joint configuration that is left by itself or not, and
/// none at all.
pub const ADDS_2: &[Move] = &[
    Move::Campaign,
    Move::Advance,
    Move::Advance,
    Move::Change(Transition::Auto, WordKind::Voter, 2),
    Move::Advance,
];

pub const ENTERS: &[Move] = &[
    Move::Campaign,
    Move::Advance,
    Move::Advance,
    Move::Change(Transition::Implicit, WordKind::Voter, 2),
    Move::Advance,
];

pub const ENTERS_TO_STAY: &[Move] = &[
    Move::Campaign,
    Move::Advance,
    Move::Advance,
    Move::Change(Transition::Explicit, WordKind::Voter, 2),
    Move::Advance,
];

pub const REMOVES_ALL: &[Move] = &[
    Move::Campaign,
    Move::Advance,
    Move::Advance,
    Move::Change(Transition::Auto, WordKind::Remove, 1),
    Move::Advance,
];

/// A leader of two, about to apply its own removal.
pub const REMOVES_ITSELF: &[Move] = &[
    Move::Campaign,
    Move::Advance,
    Move::Get(2, 1, Says::VoteAnswer(true)),
    Move::Advance,
    Move::Get(2, 1, Says::Accepted(11)),
    Move::Change(Transition::Auto, WordKind::Remove, 1),
    Move::Advance,
    Move::Get(2, 1, Says::Accepted(12)),
];

pub const CHANGES: [Case; 11] = cases! {
    START, Leads, Nothing, ADD_4 => LEADER 3, Nothing 0, Accepted 3 12, 0 1;
    // one change at a time; in a joint configuration only leaving it, which is nothing elsewhere
    START, Leads, Changed, ADD_4 => LEADER 3, ReplacedUnapplied 1, Accepted 3 12, 0 2;
    JOINT, Leads, Nothing, ADD_4 => LEADER 3, ReplacedJoint 1, Accepted 3 12, 0 1;
    JOINT, Leads, Nothing, Move::Leave => LEADER 3, Nothing 0, Accepted 3 12, 0 1;
    START, Leads, Nothing, Move::Leave => LEADER 3, ReplacedNotJoint 1, Accepted 3 12, 0 1;
    // the new member is told at once
    ALONE, Adds2, Nothing, Move::Advance => LEADER 1, Switched 1, Append 1 12, 1 0;
    ALONE, EntersToStay, Nothing, Move::Advance => LEADER 1, Switched 1, Append 1 12, 1 0;
    ALONE, Enters, Nothing, Move::Advance => LEADER 1, Switched 1, Accepted 1 13, 1 1;
    ALONE, RemovesAll, Nothing, Move::Advance => LEADER 1, RefusedChange 1, Nothing 0 0, 0 0;
    // a leader that votes no more goes on, or steps down where it is asked to
    TWO, RemovesItself, Nothing, Move::Advance => LEADER 1, Switched 1, Nothing 0 0, 0 0;
    TWO_STEP_DOWN, RemovesItself, Nothing, Move::Advance => FOLLOWER 1, Switched 2, Nothing 0 0, 0 0;
};
