//! What an editor is offered for a script: what can be at a place, and what can be seen and changed there.
#![tactic(auto)]

pub mod actions;
pub mod offers;
