//! The arguments of the command line: `raftbench run|rewrite|session|page FILE [--every K]`, `raftbench look FILE:LINE`,
//! `raftbench chart FILE [--from LINE] [--until LINE]`, `raftbench directives [NAME]`, `raftbench lsp`, and
//! `raftbench check PATH.. [--accept] [--accept-errors] [--force] [--review] [--filter WORD].. [-v] [--first] [--brief] [-q] [--why] [--every K]
//! [--color WHEN] [--format FORMAT]`.
//!
//! [`chosen`] reads the arguments with `clap` and gives what they choose. What a file, a number of directives, a
//! choice of colours or a format must be is for the caller to look at: here they are texts, as they were given.
#![tactic(auto)]

mod choice;
mod choosing;
mod commands;
mod table;

pub use choice::{CheckChoice, ChoiceFault, CommandChoice, ScriptCommand, Subcommand};
pub use choosing::chosen;
pub use commands::VERSION;
