//! The definitions of all directives, and the traits by which a session runs them.
//!
//! [`Machine`] is a machine that runs directives. The definitions in `specs/` state what each directive does to a cluster of plain nodes
//! and messages, and which items it shows. An [`Observer`] gets each item; [`PrintedLines`] is the observer that prints. rb_cluster has the
//! machine.
#![tactic(auto)]

mod both;
mod limits;
mod machine;
mod observer;
mod printed;

pub use both::Both;
pub use limits::{MAX_PENDING, limits_are};
pub use machine::{Count, Machine};
pub use observer::{Observer, show_events};
pub use printed::PrintedLines;
