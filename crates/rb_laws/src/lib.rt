//! What Raft promises, proved over the definitions: of a node, and of a cluster.
#![tactic(auto)]

pub mod cluster;
pub mod lines;
pub mod node;
pub mod scripts;
