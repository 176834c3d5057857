//! The limits of requests.

ghost use Rattle.std.specs.Prelude.{◌≡◌};
ghost use Rattle.rb_directive.specs.declared.limits.TheConstants.{MAX_ID, MAX_NODES, MAX_FIRST_INDEX, MAX_COMPACTED, MAX_BYTES, MAX_WINDOW, MAX_ROUNDS, MAX_TIMEOUT, MAX_MESSAGES, MAX_IDS, WINDOW, ROUNDS};

/// The greatest id.
pub const MAX_ID: u64 = 32;

/// The most nodes of a cluster, and of one directive.
pub const MAX_NODES: u64 = 32;

/// The greatest index at which a node may begin.
pub const MAX_FIRST_INDEX: u64 = 1_000_000_000;

/// The greatest index up to which a directive may compact a log.
pub const MAX_COMPACTED: u64 = 2_000_000_000;

/// The most bytes of a payload or a given content.
pub const MAX_BYTES: usize = 1_024;

/// The most appends in flight to one node.
pub const MAX_WINDOW: u64 = 256;

/// The most rounds of a directive.
pub const MAX_ROUNDS: u64 = 1_000;

/// The most ticks of an election timeout.
pub const MAX_TIMEOUT: u64 = 1_000;

/// The most messages that a directive chooses or skips: as many as may be pending.
pub const MAX_MESSAGES: u64 = 4_096;

/// The most ids of one list: the most values of an argument, and the most arguments of a directive.
pub const MAX_IDS: usize = 64;

/// The default number of appends in flight.
pub(crate) const WINDOW: u64 = 256;

/// The default number of rounds.
pub(crate) const ROUNDS: u64 = 200;

/// The limits as numbers. Definitions only name the constants.
pub fn limits_are()
    ensures ids { MAX_ID ≡ 32 }
    ensures nodes { MAX_NODES ≡ 32 }
    ensures index { MAX_FIRST_INDEX ≡ 1000000000 }
    ensures compacted { MAX_COMPACTED ≡ 2000000000 }
    ensures bytes { MAX_BYTES ≡ 1024 }
    ensures window { MAX_WINDOW ≡ 256 }
    ensures rounds { MAX_ROUNDS ≡ 1000 }
    ensures timeout { MAX_TIMEOUT ≡ 1000 }
    ensures messages { MAX_MESSAGES ≡ 4096 }
    ensures list { MAX_IDS ≡ 64 }
    ensures default_window { WINDOW ≡ 256 }
    ensures default_rounds { ROUNDS ≡ 200 }
{}
