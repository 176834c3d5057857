//! A language server, whatever it serves: documents and their positions, messages, and the server's life.
#![tactic(auto)]

pub mod document;
pub mod rpc;
pub mod server;
