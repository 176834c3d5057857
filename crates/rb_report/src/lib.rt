//! What is said about scripts to people and programs: mismatches, differences, hints and statuses, and the help on directives.
#![tactic(auto)]

pub mod check;
pub mod help;
