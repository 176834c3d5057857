//! The messages between Raft nodes, and a node's events.
//!
//! Nodes know each other only by messages (Ongaro's thesis, section 3.1): requests for votes, entries, and their responses. A [`Message`]
//! has a sender, a receiver, a term and a kind ([`MessageKind`]). [`Event`]s report a node's decisions to a person who watches it.
#![tactic(auto)]

mod append;
mod event;
mod hard_state;
mod install;
mod kind;
mod limits;
mod message;
mod outbox;
mod role;
mod unsaved;

pub use append::Append;
pub use event::{Event, EventKind, WhyIgnored, WhyNoCampaign, WhyRefused, WhyReplaced};
pub use hard_state::HardState;
pub use install::Install;
pub use kind::MessageKind;
pub use message::Message;
pub use outbox::Outbox;
pub use role::Role;
pub use unsaved::Unsaved;
