//! The names of directives. etcd raft's interaction tests have most of them.

ghost use Rattle.std.specs.Prelude.{◌≡◌};
ghost use Rattle.rb_directive.specs.Names.{name_text};

use crate::node_command::NodeCommand;
use crate::node_command_with_arg::NodeCommandWithArg;

/// A directive.
#[derive(Clone, Copy, Debug, PartialEq, Eq)]
pub enum Name {
    AddNodes,
    /// A command to one node.
    NodeCommand(NodeCommand),
    Propose,
    ProposeConfChange,
    ProcessReady,
    DeliverMsgs,
    Stabilize,
    /// A command to one node, with a number.
    NodeCommandWithArg(NodeCommandWithArg),
    Restart,
    LogLevel,
    RaftLog,
    Status,
    RaftState,
}

impl Name {
    /// The name, as in a script.
    pub fn text(self) -> &'static [u8]
        ensures { result.now ≡ name_text self }
    {
        match self {
            Name::AddNodes => b"add-nodes",
            Name::NodeCommand(node_command) => node_command.text(),
            Name::Propose => b"propose",
            Name::ProposeConfChange => b"propose-conf-change",
            Name::ProcessReady => b"process-ready",
            Name::DeliverMsgs => b"deliver-msgs",
            Name::Stabilize => b"stabilize",
            Name::NodeCommandWithArg(node_command) => node_command.text(),
            Name::Restart => b"restart",
            Name::LogLevel => b"log-level",
            Name::RaftLog => b"raft-log",
            Name::Status => b"status",
            Name::RaftState => b"raft-state",
        }
    }
}
