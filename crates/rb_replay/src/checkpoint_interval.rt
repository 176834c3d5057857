//! The checkpoint interval: the distance between checkpoints.

ghost use Rattle.std.specs.Prelude.{◌≡◌};
ghost use Rattle.rb_replay.specs.declared.checkpoint_interval.TheConstants.{MAX_CHECKPOINT_INTERVAL};
ghost use Rattle.rb_replay.specs.Start.{is_checkpoint_interval};

/// The greatest checkpoint interval, in directives.
pub const MAX_CHECKPOINT_INTERVAL: u64 = 64;

/// Whether the checkpoint interval is allowed.
pub fn is_checkpoint_interval(every: u64) -> bool
    ensures { result ≡ is_checkpoint_interval every }
{
    1 <= every && every <= MAX_CHECKPOINT_INTERVAL
}

/// The limit as a number. Definitions only name the constant.
pub fn checkpoint_interval_limit_is()
    ensures { MAX_CHECKPOINT_INTERVAL ≡ 64 }
{}
