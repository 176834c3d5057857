//! What can be looked at: a place of a script, a run step by step, its picture, its trace, and the page around the steps.
#![tactic(auto)]

pub mod chart;
pub mod frame;
pub mod look;
pub mod rows;
pub mod steps;
pub mod trace;
