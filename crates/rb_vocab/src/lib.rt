//! Names that directives, outputs and nodes share: levels, message types, faults of directives, changes of the configuration and its members;
//! and the lists, shared by copies, in which they are held.
#![tactic(auto)]

mod change;
mod conf_state;
mod directive_error;
mod level;
mod message_type;
mod script_word;
mod shared;

pub use change::{Transition, Word, WordKind, transition_of};
pub use conf_state::ConfState;
pub use directive_error::DirectiveError;
pub use level::{Level, level_of};
pub use message_type::{MessageClass, MessageType, TYPE_NAMES, TYPES, type_of};
pub use script_word::ScriptWord;
pub use shared::Shared;
