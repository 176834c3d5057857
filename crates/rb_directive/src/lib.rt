//! Reads a directive's name and arguments into a [`Request`].
//!
//! One table has the names of directives, their arguments and the allowed values. [`request`] reads the arguments once, from left to
//! right, into numbers, lists of ids and borrowed words, or reports the first fault. It needs no cluster, and allocates nothing.
#![tactic(auto)]

mod argument;
mod argument_ref;
mod arguments;
mod build;
mod change;
mod flag_values;
mod form;
mod id_list;
mod ids;
mod laws;
mod limits;
mod name;
mod node_command;
mod node_command_with_arg;
mod reading;
mod requests;
mod short_form;
mod table;
mod type_set;

pub use argument::{Argument, Bytes, Flag, Ids, LevelFor, Number};
pub use build::{Asked, request};
pub use change::{Inputs, change_of};
pub use id_list::IdList;
pub use ids::{id_words, takes_id};
pub use laws::{
    counts_are_first_words, names_are_apart, names_say_what_is_asked_for, numbers_are_read,
    options_are_those_of_the_table, requests_are_within, voters_and_learners_are_apart,
};
pub use limits::{MAX_ID, MAX_MESSAGES, MAX_NODES, limits_are};
pub use name::Name;
pub use node_command::NodeCommand;
pub use node_command_with_arg::NodeCommandWithArg;
pub use requests::{AddNodes, DeliverMsgs, MailChoice, ProposeConfChange, Request};
pub use table::{OptionRow, Row, argument_of, is_name};
pub use type_set::TypeSet;
