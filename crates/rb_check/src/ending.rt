//! Whether the outputs of a script are accepted, asked about, or left.

ghost use Rattle.std.specs.Prelude.{◌≡◌};
ghost use Rattle.rb_check.specs.Endings.{ending_of};

use crate::check_request::CheckRequest;

/// What happens to the outputs of a script.
#[derive(Clone, Copy)]
pub(crate) enum CheckEnding {
    /// They are only shown: nothing is to be accepted, or there are no mismatches.
    Kept,
    /// None is accepted, since the script has warnings.
    Refused,
    /// Those that differ are accepted.
    Accepted,
    /// Those that differ are asked about.
    Reviewed,
}

/// What happens to the outputs of a script with n mismatches.
pub(crate) fn ending_of(
    asked: &CheckRequest<'_>,
    has_warnings: bool,
    mismatches: usize,
) -> CheckEnding
    ensures { result ≡ ending_of asked.now has_warnings mismatches }
{
    if !asked.accepts || mismatches == 0 {
        CheckEnding::Kept
    } else if has_warnings && !asked.is_forced {
        CheckEnding::Refused
    } else if asked.reviews {
        CheckEnding::Reviewed
    } else {
        CheckEnding::Accepted
    }
}
