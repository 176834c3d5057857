//! Commands to a node, with a number.

ghost use Rattle.std.specs.Prelude.{◌≡◌};
ghost use Rattle.rb_directive.specs.Names.{node_command_with_arg_text};
ghost use Rattle.rb_directive.specs.Requests.{required};

use crate::argument::Number;

/// A command to a node, with a number.
#[derive(Clone, Copy, Debug, PartialEq, Eq)]
pub enum NodeCommandWithArg {
    /// Sets the election timeout, in ticks.
    SetRandomizedElectionTimeout,
    /// Asks the leader to transfer its leadership to a node.
    TransferLeadership,
    /// Reports that a node is unreachable.
    ReportUnreachable,
    /// Sends the snapshot to a node.
    SendSnapshot,
    /// Compacts the log up to an index.
    Compact,
}

impl NodeCommandWithArg {
    /// The name of the directive.
    pub fn text(self) -> &'static [u8]
        ensures { result.now ≡ node_command_with_arg_text self }
    {
        match self {
            NodeCommandWithArg::SetRandomizedElectionTimeout => b"set-randomized-election-timeout",
            NodeCommandWithArg::TransferLeadership => b"transfer-leadership",
            NodeCommandWithArg::ReportUnreachable => b"report-unreachable",
            NodeCommandWithArg::SendSnapshot => b"send-snapshot",
            NodeCommandWithArg::Compact => b"compact",
        }
    }

    /// The required arguments: the node and the number.
    pub(crate) fn required(self) -> (Number, Number)
        ensures { result ≡ required self }
    {
        match self {
            NodeCommandWithArg::SetRandomizedElectionTimeout => (Number::Id, Number::Timeout),
            NodeCommandWithArg::TransferLeadership | NodeCommandWithArg::SendSnapshot => (
                Number::From,
                Number::To,
            ),
            NodeCommandWithArg::ReportUnreachable => (Number::Id, Number::Peer),
            NodeCommandWithArg::Compact => (Number::Id, Number::Index),
        }
    }
}
