//! Requests: one variant for each directive, with the values of its arguments.
//!
//! Ids, numbers and flags have their defaults filled in. Payloads and contents are borrowed from the script. Optional values are
//! `Option`s.

ghost use Rattle.std.specs.Prelude.{◌≡◌};
ghost use Rattle.rb_directive.specs.Requests.{all_mail};

use crate::change::Inputs;
use crate::id_list::IdList;
use crate::node_command::NodeCommand;
use crate::node_command_with_arg::NodeCommandWithArg;
use crate::type_set::TypeSet;
use rb_vocab::{DirectiveError, Level, ScriptWord, Transition};

/// `add-nodes`: adds nodes, all with the same options.
#[derive(Drop)]
pub struct AddNodes<'d> {
    /// The number of nodes.
    pub count: u64,
    /// The voters.
    pub voters: Option<IdList>,
    /// The learners.
    pub learners: Option<IdList>,
    /// The index of their base.
    pub index: Option<u64>,
    /// The content applied up to the base.
    pub content: Option<ScriptWord<'d>>,
    /// The most appends in flight to one node.
    pub inflight: u64,
    /// Whether a node asks for prevotes before it campaigns.
    pub prevote: bool,
    /// Whether a leader without an active quorum steps down.
    pub check_quorum: bool,
    /// Whether a removed leader steps down.
    pub step_down: bool,
}

/// `propose-conf-change`: proposes a change of the configuration.
#[derive(Drop)]
pub struct ProposeConfChange<'d> {
    /// The proposing node.
    pub id: u64,
    /// How the cluster gets to the new configuration.
    pub transition: Transition,
    /// The input lines, whose words are the changes.
    pub inputs: Inputs<'d>,
    /// The fault of the input's words. It is reported only if the node exists.
    pub fault: Option<DirectiveError<'d>>,
}

/// Which of a node's pending messages are chosen, in their order: of those of the types and the sender, not the first few, and then at most so
/// many.
#[derive(Drop)]
pub struct MailChoice {
    /// The types of the messages; all types if it isn't given.
    pub types: Option<TypeSet>,
    /// The sender; any if it isn't given.
    pub from: Option<u64>,
    /// The number of messages that are skipped.
    pub skip: u64,
    /// The most messages; all if it isn't given.
    pub count: Option<u64>,
}

impl MailChoice {
    /// All messages.
    pub fn all() -> MailChoice
        ensures { result ≡ all_mail }
    {
        MailChoice {
            types: None,
            from: None,
            skip: 0,
            count: None,
        }
    }
}

/// `deliver-msgs`: delivers or drops pending messages.
#[derive(Drop)]
pub struct DeliverMsgs {
    /// The receivers of delivered messages, in order.
    pub nodes: IdList,
    /// Which messages of each receiver.
    pub choice: MailChoice,
    /// The receivers of messages that are then dropped, in order.
    pub drop: IdList,
}

/// The request of a directive.
#[derive(Drop)]
pub enum Request<'d> {
    AddNodes(AddNodes<'d>),
    /// A command to a node.
    NodeCommand(NodeCommand, u64),
    /// Proposes the payload at the node.
    Propose(u64, ScriptWord<'d>),
    ProposeConfChange(ProposeConfChange<'d>),
    /// Processes what is ready at the nodes, in order.
    ProcessReady(IdList),
    DeliverMsgs(DeliverMsgs),
    /// Runs rounds over these nodes, or over all if there are none, at most this many.
    Stabilize(IdList, u64),
    /// A command, the node, and the number.
    NodeCommandWithArg(NodeCommandWithArg, u64, u64),
    /// Restarts the nodes, in order.
    Restart(IdList),
    LogLevel(Level),
    RaftLog(u64),
    Status(u64),
    RaftState,
}
