//! A cluster of Raft nodes in memory, and what directives do to it.
//!
//! [`Cluster`] is a [`Machine`](rb_machine::Machine): it runs one directive after another, and returns the lines that each prints.
//! rb_directive reads a directive into a request. This crate checks that its nodes exist and that this cluster allows it, and then does it.
//! rb_node has the nodes, rb_texts the printed lines.
#![tactic(auto)]

mod acts;
mod add_nodes;
mod changes;
mod cluster;
mod deliveries;
mod directives;
mod laws;
mod lists;
mod meter;
mod outcome;
mod pending;
mod quota;
mod readies;
mod rounds;
mod shared_message;
mod shared_node;
mod snapshots;
mod views;

pub use cluster::Cluster;
pub use directives::{
    directives_call_their_nodes, messages_are_chosen_by_number, messages_are_delivered_in_order,
    readies_are_processed, snapshots_are_sent_by_hand, stabilizing_leaves_nothing_to_do,
};
pub use laws::{
    add_nodes_keeps_nodes, log_level_sets_the_level, outputs_can_be_expected, outputs_have_lines,
    reading_is_the_same_everywhere, refused_changes_nothing, views_change_nothing,
};
pub use meter::Meter;
pub use pending::is_meant;
pub use shared_node::SharedNode;

// The traits of a cluster and of its meter, from rb_machine.
pub use rb_machine::{Count, Machine};
