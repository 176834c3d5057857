//! A session: a script with its outputs, which stay up to date while the script is edited.
//!
//! [`Session::start`] reads a script and runs it on a [`Machine`](rb_machine::Machine). An edit reruns only from the last checkpoint
//! before the change to the first checkpoint where the cluster is the same as before. [`Session::replace_script`] does the same for
//! another script. A session's answers are always those of one run of its script from the empty cluster.
#![tactic(auto)]

mod blocks;
mod checkpoint_interval;
mod differing;
mod edit;
mod expectations;
mod fault;
mod laws;
mod longest;
mod outputs;
mod points;
mod prepare;
mod ready;
mod replace_script;
mod report;
mod run;
mod same;
mod session;
mod splice;
mod start;

pub use blocks::block_at;
pub use checkpoint_interval::{
    MAX_CHECKPOINT_INTERVAL, checkpoint_interval_limit_is, is_checkpoint_interval,
};
pub use fault::StartFault;
pub use laws::{
    cost_is_bounded, cost_is_one, cost_is_small, edits_answer_as_one_run, edits_are_changes,
    expectations_cost_nothing, points_are_few, points_are_members, points_are_near,
    replaced_sessions_show_a_fresh_start, replacements_are_changes, rewritten_scripts_match,
    started_sessions_stay_fresh,
};
pub use outputs::Outputs;
pub use session::{Changed, Session};
