//! The lines that directives print: the text of each item that the level shows, and the names in these texts.
#![tactic(auto)]

mod configs;
mod entries;
mod errors;
mod event_forms;
mod events;
mod fields;
mod form;
mod item;
mod laws;
mod lost;
mod messages;
mod piece;
mod reason;
mod states;
mod texts;

pub use entries::transition_name;
pub use event_forms::event_form;
pub use fields::{MOST_FIELDS, MessageField, kind_fields};
pub use form::{EventForm, EventMark, EventPiece, EventPieces, EventShown};
pub use item::{Item, LogLine, NodeLine, Verb};
pub use laws::{lines_are_solid, printed_lines_can_be_expected, printed_plain};
pub use rb_vocab::{DirectiveError, Level, ScriptWord, level_of};
pub use reason::{Reason, put_reason, reason_front, reason_of};
pub use states::{progress_state_name, role_name};
pub use texts::{is_shown, put};
