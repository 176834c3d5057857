//! The whole table: each message type at each role, in the node's own term, from node 2.
//!
//! The node is that of `moves`: it follows node 2 in term 2, asks for term 3 or stands for it, or leads it. What is expected is written
//! down from the rules in docs/NODE.md.

use super::before::Before;
use super::moves::{Move, SOUNDS_OUT, START, Says};
use super::seen::{CANDIDATE, Case, FOLLOWER, LEADER, PRECANDIDATE, Said, Seen, Told, answers};

pub const AT_FOLLOWERS: [Case; 13] = answers! {
    START, Follows, 2 2:
    // it knows of a leader
    Says::Vote(1, 10, false) => FOLLOWER 2, RefusedVote 1, VoteRefused 2 0, 0 1;
    Says::PreVote(1, 10) => FOLLOWER 2, RefusedVote 1, PreVoteRefused 2 0, 0 1;
    Says::VoteAnswer(true) => FOLLOWER 2, Ignored 1, Nothing 0 0, 0 0;
    Says::PreVoteAnswer(true) => FOLLOWER 2, Ignored 1, Nothing 0 0, 0 0;
    Says::Append(1, 10, 10, 1) => FOLLOWER 2, Nothing 0, Accepted 2 11, 0 1;
    Says::Accepted(11) => FOLLOWER 2, Ignored 1, Nothing 0 0, 0 0;
    Says::Refused(10, 9) => FOLLOWER 2, Ignored 1, Nothing 0 0, 0 0;
    Says::Heartbeat(10) => FOLLOWER 2, Nothing 0, HeartbeatAnswer 2 0, 1 0;
    Says::HeartbeatAnswer => FOLLOWER 2, Ignored 1, Nothing 0 0, 0 0;
    Says::Snapshot(2, 20) => FOLLOWER 2, Restored 1, Accepted 2 20, 0 1;
    // what is for the leader goes on to it, of no term
    Says::Payload => FOLLOWER 2, Nothing 0, Payload 0 0, 1 0;
    Says::TransferTo(3) => FOLLOWER 2, Nothing 0, Transfer 0 3, 1 0;
    // it votes for itself, and asks nodes 2 and 3
    Says::TimeoutNow => CANDIDATE 3, Became 1, VoteGranted 3 0, 2 1;
};

pub const AT_PRECANDIDATES: [Case; 13] = answers! {
    SOUNDS_OUT, Stands, 2 2:
    // it has given no vote, and follows nobody
    Says::Vote(1, 10, false) => PRECANDIDATE 2, Nothing 0, VoteGranted 2 0, 0 1;
    Says::PreVote(1, 10) => PRECANDIDATE 2, Nothing 0, PreVoteGranted 2 0, 0 1;
    Says::VoteAnswer(true) => PRECANDIDATE 2, Ignored 1, Nothing 0 0, 0 0;
    // the second yes of three wins, and the node stands
    Says::PreVoteAnswer(true) => CANDIDATE 3, Won 2, VoteGranted 3 0, 2 1;
    Says::Append(1, 10, 10, 1) => FOLLOWER 2, Became 1, Accepted 2 11, 0 1;
    Says::Accepted(11) => PRECANDIDATE 2, Ignored 1, Nothing 0 0, 0 0;
    Says::Refused(10, 9) => PRECANDIDATE 2, Ignored 1, Nothing 0 0, 0 0;
    Says::Heartbeat(10) => FOLLOWER 2, Became 1, HeartbeatAnswer 2 0, 1 0;
    Says::HeartbeatAnswer => PRECANDIDATE 2, Ignored 1, Nothing 0 0, 0 0;
    Says::Snapshot(2, 20) => FOLLOWER 2, Became 2, Accepted 2 20, 0 1;
    Says::Payload => PRECANDIDATE 2, DroppedProposal 1, Nothing 0 0, 0 0;
    Says::TransferTo(3) => PRECANDIDATE 2, Ignored 1, Nothing 0 0, 0 0;
    Says::TimeoutNow => PRECANDIDATE 2, Ignored 1, Nothing 0 0, 0 0;
};

pub const AT_CANDIDATES: [Case; 13] = answers! {
    START, Stands, 2 3:
    // it voted for itself
    Says::Vote(1, 10, false) => CANDIDATE 3, RefusedVote 1, VoteRefused 3 0, 0 1;
    Says::PreVote(1, 10) => CANDIDATE 3, RefusedVote 1, PreVoteRefused 3 0, 0 1;
    // the second yes of three wins: its empty entry goes to nodes 2 and 3
    Says::VoteAnswer(true) => LEADER 3, Won 2, Accepted 3 11, 2 1;
    Says::PreVoteAnswer(true) => CANDIDATE 3, Ignored 1, Nothing 0 0, 0 0;
    Says::Append(1, 10, 10, 1) => FOLLOWER 3, Became 1, Accepted 3 11, 0 1;
    Says::Accepted(11) => CANDIDATE 3, Ignored 1, Nothing 0 0, 0 0;
    Says::Refused(10, 9) => CANDIDATE 3, Ignored 1, Nothing 0 0, 0 0;
    Says::Heartbeat(10) => FOLLOWER 3, Became 1, HeartbeatAnswer 3 0, 1 0;
    Says::HeartbeatAnswer => CANDIDATE 3, Ignored 1, Nothing 0 0, 0 0;
    Says::Snapshot(2, 20) => FOLLOWER 3, Became 2, Accepted 3 20, 0 1;
    Says::Payload => CANDIDATE 3, DroppedProposal 1, Nothing 0 0, 0 0;
    Says::TransferTo(3) => CANDIDATE 3, Ignored 1, Nothing 0 0, 0 0;
    Says::TimeoutNow => CANDIDATE 3, Ignored 1, Nothing 0 0, 0 0;
};

pub const AT_LEADERS: [Case; 13] = answers! {
    START, Leads, 2 3:
    Says::Vote(1, 10, false) => LEADER 3, RefusedVote 1, VoteRefused 3 0, 0 1;
    Says::PreVote(1, 10) => LEADER 3, RefusedVote 1, PreVoteRefused 3 0, 0 1;
    Says::VoteAnswer(true) => LEADER 3, Ignored 1, Nothing 0 0, 0 0;
    Says::PreVoteAnswer(true) => LEADER 3, Ignored 1, Nothing 0 0, 0 0;
    Says::Append(1, 10, 10, 1) => LEADER 3, Ignored 1, Nothing 0 0, 0 0;
    // a quorum holds 3/11, which is committed; node 2 is told so, node 3 is still probed
    Says::Accepted(11) => LEADER 3, Nothing 0, Append 3 11, 1 0;
    // the log begins past what node 2 needs
    Says::Refused(10, 9) => LEADER 3, Nothing 0, Snapshot 3 10, 1 0;
    Says::Heartbeat(10) => LEADER 3, Ignored 1, Nothing 0 0, 0 0;
    // node 2 is probed once more
    Says::HeartbeatAnswer => LEADER 3, Nothing 0, Append 3 10, 1 0;
    Says::Snapshot(2, 20) => LEADER 3, Ignored 1, Nothing 0 0, 0 0;
    // it tells itself that it holds 3/12; the others are waited for
    Says::Payload => LEADER 3, Nothing 0, Accepted 3 12, 0 1;
    Says::TransferTo(3) => LEADER 3, TransferStarts 1, Nothing 0 0, 0 0;
    Says::TimeoutNow => LEADER 3, Ignored 1, Nothing 0 0, 0 0;
};
