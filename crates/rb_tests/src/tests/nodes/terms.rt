//! Messages of earlier and later terms, of each type, and candidates that disturb nobody.
//!
//! Node 1 follows node 2 in term 2, or leads term 3; the messages are from node 3.

use super::before::Before;
use super::moves::{CHECKS, Move, SOUNDS_OUT, START, Says};
use super::seen::{CANDIDATE, Case, FOLLOWER, LEADER, Said, Seen, Told, answers};

/// Of term 1. What is of no term is taken as ever.
pub const EARLIER: [Case; 13] = answers! {
    START, Follows, 3 1:
    Says::Vote(1, 10, false) => FOLLOWER 2, Ignored 1, Nothing 0 0, 0 0;
    Says::PreVote(1, 10) => FOLLOWER 2, RefusedVote 1, PreVoteRefused 2 0, 0 1;
    Says::VoteAnswer(true) => FOLLOWER 2, Ignored 1, Nothing 0 0, 0 0;
    Says::PreVoteAnswer(true) => FOLLOWER 2, Ignored 1, Nothing 0 0, 0 0;
    Says::Append(1, 10, 10, 1) => FOLLOWER 2, Ignored 1, Nothing 0 0, 0 0;
    Says::Accepted(11) => FOLLOWER 2, Ignored 1, Nothing 0 0, 0 0;
    Says::Refused(10, 9) => FOLLOWER 2, Ignored 1, Nothing 0 0, 0 0;
    Says::Heartbeat(10) => FOLLOWER 2, Ignored 1, Nothing 0 0, 0 0;
    Says::HeartbeatAnswer => FOLLOWER 2, Ignored 1, Nothing 0 0, 0 0;
    Says::Snapshot(2, 20) => FOLLOWER 2, Ignored 1, Nothing 0 0, 0 0;
    Says::Payload => FOLLOWER 2, Nothing 0, Payload 0 0, 1 0;
    Says::TransferTo(3) => FOLLOWER 2, Nothing 0, Transfer 0 3, 1 0;
    Says::TimeoutNow => FOLLOWER 2, Ignored 1, Nothing 0 0, 0 0;
};

/// Of term 1, where the node asks before it stands: a leader's entries and heartbeats are shown the term.
pub const ANSWERED_WHERE_IT_ASKS: [Case; 6] = answers! {
    SOUNDS_OUT, Follows, 3 1:
    Says::Vote(1, 10, false) => FOLLOWER 2, Ignored 1, Nothing 0 0, 0 0;
    Says::PreVote(1, 10) => FOLLOWER 2, RefusedVote 1, PreVoteRefused 2 0, 0 1;
    Says::Append(1, 10, 10, 1) => FOLLOWER 2, Nothing 0, Accepted 2 0, 0 1;
    Says::Heartbeat(10) => FOLLOWER 2, Nothing 0, Accepted 2 0, 0 1;
    Says::Snapshot(2, 20) => FOLLOWER 2, Ignored 1, Nothing 0 0, 0 0;
    Says::TimeoutNow => FOLLOWER 2, Ignored 1, Nothing 0 0, 0 0;
};

/// The same, where it checks its quorum.
pub const ANSWERED_WHERE_IT_CHECKS: [Case; 6] = answers! {
    CHECKS, Follows, 3 1:
    Says::Vote(1, 10, false) => FOLLOWER 2, Ignored 1, Nothing 0 0, 0 0;
    Says::PreVote(1, 10) => FOLLOWER 2, RefusedVote 1, PreVoteRefused 2 0, 0 1;
    Says::Append(1, 10, 10, 1) => FOLLOWER 2, Nothing 0, Accepted 2 0, 0 1;
    Says::Heartbeat(10) => FOLLOWER 2, Nothing 0, Accepted 2 0, 0 1;
    Says::Snapshot(2, 20) => FOLLOWER 2, Ignored 1, Nothing 0 0, 0 0;
    Says::TimeoutNow => FOLLOWER 2, Ignored 1, Nothing 0 0, 0 0;
};

/// Of term 3. A question, and a yes to one, change no term.
pub const LATER: [Case; 14] = answers! {
    START, Follows, 3 3:
    Says::Vote(1, 10, false) => FOLLOWER 3, Became 1, VoteGranted 3 0, 0 1;
    Says::PreVote(1, 10) => FOLLOWER 2, Nothing 0, PreVoteGranted 3 0, 0 1;
    Says::VoteAnswer(true) => FOLLOWER 3, Became 2, Nothing 0 0, 0 0;
    Says::PreVoteAnswer(true) => FOLLOWER 2, Ignored 1, Nothing 0 0, 0 0;
    Says::PreVoteAnswer(false) => FOLLOWER 3, Became 2, Nothing 0 0, 0 0;
    Says::Append(1, 10, 10, 1) => FOLLOWER 3, Became 1, Accepted 3 11, 0 1;
    Says::Accepted(11) => FOLLOWER 3, Became 2, Nothing 0 0, 0 0;
    Says::Refused(10, 9) => FOLLOWER 3, Became 2, Nothing 0 0, 0 0;
    Says::Heartbeat(10) => FOLLOWER 3, Became 1, HeartbeatAnswer 3 0, 1 0;
    Says::HeartbeatAnswer => FOLLOWER 3, Became 2, Nothing 0 0, 0 0;
    Says::Snapshot(2, 20) => FOLLOWER 3, Became 2, Accepted 3 20, 0 1;
    Says::Payload => FOLLOWER 2, Nothing 0, Payload 0 0, 1 0;
    Says::TransferTo(3) => FOLLOWER 2, Nothing 0, Transfer 0 3, 1 0;
    Says::TimeoutNow => CANDIDATE 4, Became 2, VoteGranted 4 0, 2 1;
};

/// Of term 4, at the leader of term 3, whose log ends with 3/11.
pub const LATER_AT_LEADERS: [Case; 5] = answers! {
    START, Leads, 3 4:
    Says::Vote(3, 11, false) => FOLLOWER 4, Became 1, VoteGranted 4 0, 0 1;
    Says::Vote(1, 10, false) => FOLLOWER 4, Became 2, VoteRefused 4 0, 0 1;
    Says::PreVote(3, 11) => LEADER 3, Nothing 0, PreVoteGranted 4 0, 0 1;
    Says::Append(3, 11, 10, 1) => FOLLOWER 4, Became 1, Accepted 4 12, 0 1;
    Says::Accepted(0) => FOLLOWER 4, Became 2, Nothing 0 0, 0 0;
};

/// Of term 3, where the node checks its quorum and has just heard of its leader.
pub const UNDISTURBED: [Case; 4] = answers! {
    CHECKS, Follows, 3 3:
    Says::Vote(1, 10, false) => FOLLOWER 2, Ignored 1, Nothing 0 0, 0 0;
    Says::Vote(1, 10, true) => FOLLOWER 3, Became 1, VoteGranted 3 0, 0 1;
    Says::PreVote(1, 10) => FOLLOWER 2, Ignored 1, Nothing 0 0, 0 0;
    Says::Heartbeat(10) => FOLLOWER 3, Became 1, HeartbeatAnswer 3 0, 1 0;
};
