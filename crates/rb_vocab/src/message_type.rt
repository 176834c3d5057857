//! The types of messages, with etcd raft's names.
//!
//! The tables of types are in the order of the variants. Code and definitions share which types there are, and the lines of help.

ghost use Rattle.std.specs.Prelude.{◌≡◌, ◌<◌, map};
ghost use Rattle.rb_vocab.specs.MessageTypes.{class_of, class_text, meaning_of, type_in, type_number, type_of, type_text};

/// The type of a message. Accepted and refused appends are answered with the same type.
#[derive(Clone, Copy, PartialEq, Eq, Debug)]
pub enum MessageType {
    Vote,
    PreVote,
    VoteResponse,
    PreVoteResponse,
    Append,
    AppendResponse,
    Heartbeat,
    Snapshot,
    Proposal,
    TransferLeader,
    HeartbeatResponse,
    TimeoutNow,
    /// Never sent. Scripts may name it, as etcd's raft tests do.
    Unreachable,
}

/// What messages of a type are about. Pictures show messages of one class in one color.
#[derive(Clone, Copy)]
pub enum MessageClass {
    /// Elections.
    Vote,
    /// Entries.
    Append,
    Heartbeat,
    Snapshot,
    /// What is forwarded to a leader.
    Proposal,
}

impl MessageClass {
    /// The name of the class.
    pub fn name(self) -> &'static [u8]
        ensures { result.now ≡ class_text self }
    {
        match self {
            MessageClass::Vote => b"vote",
            MessageClass::Append => b"append",
            MessageClass::Heartbeat => b"heartbeat",
            MessageClass::Snapshot => b"snapshot",
            MessageClass::Proposal => b"proposal",
        }
    }
}

/// The name of each type.
pub static TYPE_NAMES: &[&[u8]] = &[
    b"MsgVote",
    b"MsgPreVote",
    b"MsgVoteResp",
    b"MsgPreVoteResp",
    b"MsgApp",
    b"MsgAppResp",
    b"MsgHeartbeat",
    b"MsgSnap",
    b"MsgProp",
    b"MsgTransferLeader",
    b"MsgHeartbeatResp",
    b"MsgTimeoutNow",
    b"MsgUnreachable",
];

// Each type, its class, and what its messages are.
#[rattlefmt::skip]
static TYPE_ROWS: &[(MessageType, MessageClass, &[u8])] = &[
    (MessageType::Vote, MessageClass::Vote, b"a vote request"),
    (MessageType::PreVote, MessageClass::Vote, b"a pre-vote request"),
    (MessageType::VoteResponse, MessageClass::Vote, b"the response to a vote request"),
    (MessageType::PreVoteResponse, MessageClass::Vote, b"the response to a pre-vote request"),
    (MessageType::Append, MessageClass::Append, b"append entries"),
    (MessageType::AppendResponse, MessageClass::Append, b"the response to append entries"),
    (MessageType::Heartbeat, MessageClass::Heartbeat, b"a heartbeat"),
    (MessageType::Snapshot, MessageClass::Snapshot, b"a snapshot"),
    (MessageType::Proposal, MessageClass::Proposal, b"a proposal that is forwarded to the leader"),
    (MessageType::TransferLeader, MessageClass::Proposal, b"a request to transfer leadership that is forwarded to the leader"),
    (MessageType::HeartbeatResponse, MessageClass::Heartbeat, b"the response to a heartbeat"),
    (MessageType::TimeoutNow, MessageClass::Vote, b"a request to campaign at once"),
    (MessageType::Unreachable, MessageClass::Proposal, b"never sent"),
];

/// The number of types.
pub const TYPES: usize = TYPE_NAMES.len();

impl MessageType {
    /// The position of the type among all.
    pub fn number(self) -> usize
        ensures position { result ≡ type_number self }
        ensures within { result < TYPES }
    {
        self as usize
    }

    /// The name of the type.
    pub fn text(self) -> &'static [u8]
        ensures { result.now ≡ type_text self }
    {
        TYPE_NAMES[self as usize]
    }

    /// What its messages are about.
    pub fn class(self) -> MessageClass
        ensures { result ≡ class_of self }
    {
        TYPE_ROWS[self as usize].1
    }

    /// What its messages are, on a line.
    pub fn meaning(self) -> &'static [u8]
        ensures { result.now ≡ meaning_of self }
    {
        TYPE_ROWS[self as usize].2
    }
}

// Finds the type with this name among the rows.
fn type_in(rows: &[(MessageType, MessageClass, &[u8])], name: &[u8]) -> Option<MessageType>
    ensures { result ≡ type_in (map (λ r. r.0) rows.now) name.now }
{
    for row in rows {
        if row.0.text() == name {
            return Some(row.0);
        }
    }
    None
}

/// Finds the type with this name.
#[tactic(auto, unfolding(crate::specs::MessageTypes::type_of))]
pub fn type_of(name: &[u8]) -> Option<MessageType>
    ensures { result ≡ type_of name.now }
{
    type_in(TYPE_ROWS, name)
}
