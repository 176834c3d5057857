//! A node's clock: counts of ticks.

ghost use Rattle.std.specs.Prelude.{◌≡◌};
ghost use Rattle.rb_node.specs.Clocks.{fresh_clock};

use crate::limits::ELECTION_TICKS;

/// Counts of ticks, and the election timeout.
#[derive(Clone, Copy, Debug, PartialEq, Eq)]
pub struct Clock {
    /// Ticks since the node heard from its leader. At a leader, ticks since it checked its quorum.
    pub elapsed: u64,
    /// Ticks since the node last sent heartbeats.
    pub heartbeat_elapsed: u64,
    /// The election timeout: the node campaigns after this many ticks without a leader.
    pub timeout: u64,
}

impl Clock {
    /// The clock at the beginning of a term.
    pub(crate) fn new() -> Clock
        ensures { result ≡ fresh_clock }
    {
        Clock {
            elapsed: 0,
            heartbeat_elapsed: 0,
            timeout: ELECTION_TICKS,
        }
    }
}
