//! The items that lines show.
//!
//! A directive prints a line for each item: what a node has ready for its application (etcd raft documentation, "Usage"), moved
//! messages, states of nodes, logs, and events. An item borrows its data.

use rb_message::{Event, HardState, Message, Role};
use rb_raftlog::Entry;
use rb_tracker::{Config, Progress};
use rb_vocab::DirectiveError;

/// How a message is shown to move.
#[derive(Clone, Copy, Debug, PartialEq, Eq)]
pub enum Verb {
    /// It reaches the node that it is for.
    Deliver,
    /// It is lost in flight.
    Drop,
    /// It joins the pending messages.
    Queue,
    /// It is given up, since too many messages are pending.
    NoRoomFor,
}

/// A node in one line.
#[derive(Clone, Copy)]
pub struct NodeLine<'a> {
    pub id: u64,
    pub role: Role,
    pub term: u64,
    /// Whom it voted for in its term, or 0 for none.
    pub vote: u64,
    /// The leader that it knows of, or 0 for none.
    pub lead: u64,
    /// The last index that it knows to be committed.
    pub commit: u64,
    /// The last index that it has applied.
    pub applied: u64,
    /// How many bytes its content has.
    pub content_len: usize,
    /// The last bytes of the content, cut by the caller. All of these are shown.
    pub content_end: &'a [u8],
}

/// A node's log in one line.
#[derive(Clone, Copy)]
pub struct LogLine {
    /// The term of the entry below the first.
    pub base_term: u64,
    /// The index of the entry below the first.
    pub base: u64,
    /// The last index that is durable.
    pub durable: u64,
    /// The last index that the node knows to be committed.
    pub commit: u64,
    /// The last index that it has applied.
    pub applied: u64,
}

/// An item of output.
#[derive(Drop)]
pub enum Item<'a> {
    /// The directive printed no other line: `ok`.
    NothingElse,
    /// The node with this id has something ready. Its items follow.
    Ready(u64),
    /// The hard state, if it changed.
    HardState(HardState),
    /// A snapshot was restored: its term and its index.
    Snapshot(u64, u64),
    /// The entry at this index is to become durable.
    Save(u64, &'a Entry),
    /// The entry at this index is to be applied.
    Apply(u64, &'a Entry),
    /// The message is to be sent.
    Send(&'a Message),
    /// The node with this id has nothing ready.
    NothingReady(u64),
    /// The message moves.
    Moved(Verb, &'a Message),
    /// No message was met.
    NoMessages,
    /// The limit of rounds is reached, after this many.
    Stopped(u64),
    /// The state of one node.
    RaftState(NodeLine<'a>),
    /// The numbers of a node's log. Its entries follow, a line each.
    RaftLog(LogLine),
    /// The entry at this index in a log, and whether it is not yet durable.
    Entry(u64, &'a Entry, bool),
    /// A node's configuration. A leader's views follow, a line each.
    Config(&'a Config),
    /// A leader's view of the member with this id.
    Progress(u64, &'a Progress),
    /// Something that happened in a node.
    Event(&'a Event),
    /// The directive is refused.
    Error(DirectiveError<'a>),
}
