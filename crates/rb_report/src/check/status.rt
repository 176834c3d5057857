//! How the program ends.

ghost use Rattle.std.specs.Prelude.{◌≡◌};
ghost use Rattle.rb_report.specs.Statuses.{code_of};

/// The statuses by which the program ends, from the least to the greatest.
#[derive(Clone, Copy, Debug, PartialEq, Eq)]
pub enum Status {
    /// Success. After a check or a session: each output was the expected one or was accepted.
    Matched,
    /// A mismatch.
    Mismatched,
    /// A usage error.
    BadUsage,
    /// A script was refused, or more than one was given where one may be.
    Refused,
    /// Input or output failed, or the input of a session broke off.
    Failed,
    /// Memory was refused.
    OutOfMemory,
}

/// The number of the status.
impl From<Status> for u8 {
    ghost from_gives = { λ status code. code ≡ code_of status };

    fn from(status: Status) -> u8 {
        match status {
            Status::Matched => 0,
            Status::Mismatched => 1,
            Status::BadUsage => 2,
            Status::Refused => 3,
            Status::Failed => 4,
            Status::OutOfMemory => 5,
        }
    }
}
