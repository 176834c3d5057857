//! The kinds of messages.

ghost use Rattle.std.specs.Prelude.{◌≡◌, ◌↔◌, IsTrue};
ghost use Rattle.rb_message.specs.Messages.{type_of, has_term};

use crate::append::Append;
use crate::install::Install;
use rb_raftlog::Body;
use rb_vocab::MessageType;

/// The kind of a message, with its body. A copy costs pointers.
#[derive(Clone, PartialEq, Drop)]
pub enum MessageKind {
    /// A vote request, with the candidate's last entry. `transfer`: the leader told the candidate to campaign.
    Vote {
        last_term: u64,
        last_index: u64,
        transfer: bool,
    },
    /// A pre-vote request: a precandidate asks whether it would get a vote.
    PreVote {
        last_term: u64,
        last_index: u64,
    },
    /// A vote response.
    VoteResponse {
        granted: bool,
    },
    /// A pre-vote response.
    PreVoteResponse {
        granted: bool,
    },
    /// Append entries.
    Append(Append),
    /// An append response: the log matches the leader's up to `matched`.
    AppendResponse {
        matched: u64,
    },
    /// An append response that refuses the entries after `refused`; the logs may agree up to `hint`.
    AppendRefusal {
        refused: u64,
        hint: u64,
    },
    /// A leader's heartbeat, with a commit that the receiver may use.
    Heartbeat {
        commit: u64,
    },
    /// A heartbeat response.
    HeartbeatResponse,
    /// A snapshot, instead of entries that the leader has compacted.
    Snapshot(Install),
    /// A proposal.
    Proposal(Body),
    /// A request to transfer leadership to `target`.
    TransferLeader {
        target: u64,
    },
    /// A request to campaign at once.
    TimeoutNow,
}

impl MessageKind {
    /// The type of the message.
    pub fn message_type(&self) -> MessageType
        ensures { result ≡ type_of self.now }
    {
        match self {
            MessageKind::Vote { .. } => MessageType::Vote,
            MessageKind::PreVote { .. } => MessageType::PreVote,
            MessageKind::VoteResponse { .. } => MessageType::VoteResponse,
            MessageKind::PreVoteResponse { .. } => MessageType::PreVoteResponse,
            MessageKind::Append(_) => MessageType::Append,
            MessageKind::AppendResponse { .. } => MessageType::AppendResponse,
            MessageKind::AppendRefusal { .. } => MessageType::AppendResponse,
            MessageKind::Heartbeat { .. } => MessageType::Heartbeat,
            MessageKind::HeartbeatResponse => MessageType::HeartbeatResponse,
            MessageKind::Snapshot(_) => MessageType::Snapshot,
            MessageKind::Proposal(_) => MessageType::Proposal,
            MessageKind::TransferLeader { .. } => MessageType::TransferLeader,
            MessageKind::TimeoutNow => MessageType::TimeoutNow,
        }
    }

    /// Whether the message has a term. A proposal and a request to transfer leadership have none.
    pub fn has_term(&self) -> bool
        ensures { result ≡ has_term self.now }
    {
        !matches!(
            self,
            MessageKind::Proposal(_) | MessageKind::TransferLeader { .. }
        )
    }

    /// Whether both are equal, by the derived `==`, which is proved to be equality.
    #[tactic(auto, using(crate::proofs::EqualLaws::kinds_decide))]
    pub fn same(&self, other: &MessageKind) -> bool
        ensures { IsTrue result ↔ (self.now ≡ other.now) }
    {
        *self == *other
    }
}
