//! The state after a directive of a script: its cluster, shown by what directives would print there.
//!
//! [`look`] runs a script up to a directive, and asks for the state of each node, its log, what a leader knows of the others, and the messages
//! in flight. The script stays as it is. [`machine_in_session`] gives the machine at a place of a session's script, from its last checkpoint,
//! and [`look_in`] shows it. [`nodes_after`] counts the nodes after a script.

mod answer;
mod counting;
mod laws;
mod looking;
mod nodes;
mod section;

pub use counting::nodes_after;
pub use laws::answers_are_those_of_the_script;
pub use looking::{look, look_in, machine_in_session};
pub use nodes::Nodes;
