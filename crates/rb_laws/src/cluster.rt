//! Laws of a cluster of Raft nodes, in Raft's own words, over the definitions of a node's calls.
//!
//! The laws of `rb_laws` are about one node, whatever is done with it. These are about nodes that hear of each other only by
//! messages, which may be lost, come late, more than once and in any order. None of them is run.

mod changes;
mod entries;
mod laws;
mod progress;
mod restarts;
mod safety;

pub use changes::{
    changes_wait_for_earlier_ones, changes_wait_for_earlier_ones_with_restarts,
    configurations_agree, configurations_agree_with_restarts,
};
pub use entries::entries_were_proposed;
pub use laws::{
    clusters_elect_one_leader, clusters_keep_logs_matching, elections_are_safe, leaders_are_chosen,
    logs_match, votes_are_cast_once,
};
pub use progress::lone_candidates_are_elected;
pub use restarts::{
    applied_entries_agree_with_restarts, committed_entries_agree_with_restarts,
    contents_agree_with_restarts, elections_are_safe_with_restarts, leaders_have_saved_their_terms,
    leaders_have_what_is_committed_with_restarts, logs_match_with_restarts,
};
pub use safety::{
    applied_entries_agree, clusters_applied_entries_agree, clusters_committed_entries_agree,
    clusters_contents_agree, clusters_leaders_have_what_is_committed,
    clusters_print_the_same_entries, committed_entries_agree, contents_agree,
    leaders_have_what_is_committed,
};
