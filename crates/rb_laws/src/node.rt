//! Laws of a Raft node, in Raft's own words, over the definitions of its calls alone.
//!
//! The contracts of `rb_node` say what each call of a node gives, by its definitions. The laws say why that is what Raft asks of a
//! single node, whatever messages it gets and in whatever order it is called. None of them is run. They are about one node: that a
//! cluster of nodes is safe does not follow from them alone (docs/NODE.md).

mod actions;
mod activity;
mod committing;
mod following;
mod laws;
mod rules;
mod timing;
mod winning;

pub use actions::{
    members_are_sent_what_they_lack, messages_go_out_once, proposals_are_appended,
    proposals_are_passed_on,
};
pub use activity::members_are_active_by_their_answers;
pub use committing::{answered_entries_are_committed, leaders_commit_all_that_they_may};
pub use following::followers_take_what_leaders_send;
pub use laws::{
    answers_tell_what_is_held, calls_are_these, campaigns_are_of_voters, candidates_disturb_nobody,
    changes_go_one_at_a_time, commit_never_falls, committed_entries_stay,
    committed_entries_take_effect, events_are_only_added, leaders_append_only, leaders_are_elected,
    leaders_commit_own_terms, leaders_commit_what_a_quorum_holds, leaders_count_what_they_saved,
    leaders_view_the_members, leaders_were_candidates, leads_go_to_voters, lost_quorums_end_a_lead,
    matches_rest_on_answers, members_are_counted_by_their_answers, messages_are_true,
    pre_votes_bind_nobody, promises_are_kept, ready_is_exact, removed_leaders_step_down,
    terms_never_fall, transfers_stop_proposals, views_stay_sound, votes_are_given_once,
    votes_go_to_new_logs,
};
pub use rules::{
    committed_changes_take_effect, earlier_terms_change_nothing,
    followers_commit_what_leaders_tell, full_windows_take_no_entries,
    joint_configurations_are_left, later_terms_are_taken_up, leaders_are_known_by_their_messages,
    leaders_know_of_changes, pre_votes_look_at_logs, ready_is_the_state, refusals_lead_back,
    snapshots_are_restored_whole, tests_mean_their_names, timers_start_again, transfers_time_out,
    votes_are_refused_for_a_reason,
};
pub use timing::{leaders_send_heartbeats, silence_ends_in_a_campaign};
pub use winning::elections_are_won;
