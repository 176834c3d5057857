//! One Raft node, with all its calls.
//!
//! A [`Node`] is a pure state machine, as in etcd's raft: it has no clock, no network and no disk. Its owner ticks it and steps messages.
//! It then asks what is ready, saves and sends that, and advances the node. Each call is one definition in `specs/`, on plain values.
//!
//! [`State`] is everything that a node knows. A step first compares the message's term with the node's (Ongaro's thesis, section 3.3). A
//! table by the node's role then decides. Each row of the table is a definition in `specs/`, worded like the rule, and a function here. A
//! contract states that both are equal. A step returns its events and adds messages to two lists. The *sent* ones go out with the next
//! ready; the *waiting* ones go out when what they depend on is durable.
#![tactic(auto)]

mod acknowledging;
mod advancing;
mod calls;
mod campaigns;
mod changing;
mod clock;
mod compacting;
mod following;
mod leading;
mod limits;
mod node;
mod options;
mod proposing;
mod ready;
mod restarting;
mod sends;
mod state;
mod step;
mod terms;
mod ticking;
mod transferring;
mod votes;

pub use clock::Clock;
pub use limits::{ELECTION_TICKS, HEARTBEAT_TICKS, MAX_TICKS, limits_are};
pub use node::Node;
pub use options::Options;
pub use ready::ReadyView;
pub use sends::{SendReason, Sending};
pub use state::State;

// The messages and events of a node, from rb_message.
pub use rb_message::{Event, Message};
