//! What no clause says: that lines come out of whatever calls bring them, and that each failed call is told.

mod choosing;
pub mod fakes;
mod interrupted;
mod known;
mod limits;
mod line;
mod refusals;
mod streams;
