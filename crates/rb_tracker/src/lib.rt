//! Configurations with joint consensus and learners, quorums, votes, and a leader's progress of each follower, with its window of appends
//! in flight.
//!
//! An entry is committed once a *quorum* holds it, and a candidate wins by the votes of a quorum. In a plain configuration a quorum is a
//! majority of the voters. In a joint one it is a majority of the incoming and a majority of the outgoing voters. So any two quorums share
//! a voter, also across a change. Raft's safety depends on this (`laws`).
#![tactic(auto)]

mod changes;
mod config;
mod id_set;
mod laws;
mod progress;
mod tracker;
mod votes;
mod window;

pub use changes::ChangeFault;
pub use config::Config;
pub use id_set::IdSet;
pub use laws::{
    changes_keep_configurations, changes_keep_quorums_meeting, committed_is_greatest,
    configurations_read_back, joint_configurations_are_left, joint_quorums_meet_each_half,
    lost_votes_cant_be_won, majorities_meet, quorums_know_what_is_committed, quorums_meet,
    views_stay_in_order, votes_are_decided_once, winners_share_a_voter, words_move_one_member,
};
pub use progress::{Progress, ProgressState};
pub use tracker::Tracker;
pub use votes::{VoteResult, Votes};
pub use window::Window;
