//! Limits of the program, and what is usual.

ghost use Rattle.std.specs.Prelude.{◌≡◌, ◌^◌};
ghost use Rattle.rb_bench.specs.declared.limits.TheConstants.{MAX_GIVEN, MAX_READS, DEFAULT_CHECKPOINT_INTERVAL};

/// How many lines a command may take after its own.
pub const MAX_GIVEN: usize = 65_536;

/// How many calls of its source a session may make.
pub const MAX_READS: u64 = 1 << 40;

/// The default checkpoint interval, in directives.
pub const DEFAULT_CHECKPOINT_INTERVAL: u64 = 16;

/// The limits that definitions name are these numbers.
pub fn limits_are()
    ensures reads { MAX_READS ≡ 2 ^ 40 }
    ensures given { MAX_GIVEN ≡ 65536 }
    ensures checkpoint_interval { DEFAULT_CHECKPOINT_INTERVAL ≡ 16 }
{}
