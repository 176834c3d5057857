//! Commands to a node, without further arguments.

ghost use Rattle.std.specs.Prelude.{◌≡◌};
ghost use Rattle.rb_directive.specs.Names.{node_command_text};

/// A command to a node.
#[derive(Clone, Copy, Debug, PartialEq, Eq)]
pub enum NodeCommand {
    Campaign,
    /// Ticks the node as often as the initial election timeout.
    TickElection,
    /// Ticks the node once.
    TickHeartbeat,
    /// A follower forgets its leader.
    ForgetLeader,
}

impl NodeCommand {
    /// The name of the directive.
    pub fn text(self) -> &'static [u8]
        ensures { result.now ≡ node_command_text self }
    {
        match self {
            NodeCommand::Campaign => b"campaign",
            NodeCommand::TickElection => b"tick-election",
            NodeCommand::TickHeartbeat => b"tick-heartbeat",
            NodeCommand::ForgetLeader => b"forget-leader",
        }
    }
}
