//! What happens in the run of a script, for other people's tools: an object of JSON a line (docs/FORMATS.md).
//!
//! [`Tracer`] is shown what a directive does, item by item, and makes an object of each: where the directive stands, the node and the
//! message that it is about, its line and its row. It numbers messages: one that is sent has the next number, and keeps it until it is delivered or
//! lost. [`trace_of`] runs a script so, each directive once.

mod mail;
mod objects;
mod trace;
mod tracer;

pub use trace::{FORMAT, trace_of};
pub use tracer::Tracer;
