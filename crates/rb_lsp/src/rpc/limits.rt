//! Limits of a message.

/// The most fields of a header. The protocol names two.
pub const MAX_FIELDS: usize = 16;

/// The most bytes of a header, with the empty line at its end.
pub const MAX_HEAD: usize = 4_096;

/// The most bytes of a body: 32 MiB. A script of 4 MiB fits, even if each of its bytes takes six (`\u001b`).
pub const MAX_BODY: usize = 33_554_432;

/// The most calls of its source that a reader makes.
pub const MAX_CALLS: u64 = 1 << 40;

/// How many of the messages that wait are looked at for a cancellation.
pub const MAX_WAITING: usize = 1_000;
