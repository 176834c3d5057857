//! Timeouts, in ticks.

ghost use Rattle.std.specs.Prelude.{◌≡◌};
ghost use Rattle.rb_node.specs.declared.limits.TheConstants.{ELECTION_TICKS, HEARTBEAT_TICKS, MAX_TICKS};

/// The election timeout, unless it is set. A leader also checks its quorum after this many ticks.
pub const ELECTION_TICKS: u64 = 3;

/// How often a leader sends heartbeats.
pub const HEARTBEAT_TICKS: u64 = 1;

/// The longest timeout. Counters stop there.
pub const MAX_TICKS: u64 = 1_000;

/// States the limits as numbers, for definitions.
pub fn limits_are()
    ensures election { ELECTION_TICKS ≡ 3 }
    ensures heartbeat { HEARTBEAT_TICKS ≡ 1 }
    ensures most { MAX_TICKS ≡ 1000 }
{}
