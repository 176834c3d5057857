//! The files of scripts: found, opened, and given a new text.
//!
//! [`find`] looks for the scripts of some paths, [`opened`] opens one, and [`replace`] puts a new text in the place of an old one, so
//! that whatever fails, one of the two is there whole. Nothing here knows what is in a script.
#![tactic(auto)]

mod atomic_replace;
mod entry;
mod file_look;
mod file_place;
mod filter;
mod finding;
mod ignored;
mod kind;
mod limits;
mod listing;
mod opening;
mod path_error;
mod tree;

pub use atomic_replace::AtomicReplace;
pub use entry::{FileId, file_at};
pub use file_place::{FilePlace, Unreplaced, replace};
pub use finding::{FailedPath, Found, find};
pub use limits::limits_are;
pub use opening::opened;
pub use path_error::PathError;
