//! The outcomes of all paths, counted.

ghost use Rattle.std.specs.Prelude.{◌≡◌, ◌==◌, IsOk};
ghost use Rattle.rb_script.specs.Writes.{Writes};
ghost use Rattle.rb_report.specs.Counts.{nothing, one_run, one_refusal, one_failure, of_refused, of_failed, of_outcome, together, is_clean, status_of, totals_text};

use crate::check::failure::Failure;
use crate::check::outcome::Outcome;
use crate::check::piece::{ReportPiece, noun, put_pieces};
use crate::check::status::Status;
use rb_script::{ScriptFault, Sink, WriteFault};

/// The outcomes of all paths, counted. A number that would pass [`u64::MAX`] stays there.
#[derive(Clone, Copy, Debug, PartialEq, Eq)]
pub struct Totals {
    /// The scripts that ran or were refused.
    pub scripts: u64,
    /// The directives that ran.
    pub directives: u64,
    /// The mismatches that were not accepted.
    pub mismatches: u64,
    /// The mismatches that were accepted.
    pub accepted: u64,
    /// The directives with an error that no comment expects.
    pub errors: u64,
    /// The warnings.
    pub warnings: u64,
    /// The scripts that were refused.
    pub refused: u64,
    /// The files and folders that failed, with those for which memory was refused.
    pub failed: u64,
    /// Those for which memory was refused.
    pub without_memory: u64,
}

impl Totals {
    /// The totals of no paths.
    pub fn new() -> Totals
        ensures { result ≡ nothing }
    {
        Totals {
            scripts: 0,
            directives: 0,
            mismatches: 0,
            accepted: 0,
            errors: 0,
            warnings: 0,
            refused: 0,
            failed: 0,
            without_memory: 0,
        }
    }

    fn one_run(
        directives: usize,
        mismatches: usize,
        accepted: usize,
        errors: usize,
        warnings: usize,
    ) -> Totals
        ensures { result ≡ one_run directives mismatches accepted errors warnings }
    {
        Totals {
            scripts: 1,
            directives: directives as u64,
            mismatches: mismatches as u64,
            accepted: accepted as u64,
            errors: errors as u64,
            warnings: warnings as u64,
            ..Totals::new()
        }
    }

    fn one_failure(without_memory: u64) -> Totals
        ensures { result ≡ one_failure without_memory }
    {
        Totals {
            failed: 1,
            without_memory,
            ..Totals::new()
        }
    }

    fn of_refused(fault: ScriptFault) -> Totals
        ensures { result ≡ of_refused fault }
    {
        match fault {
            ScriptFault::OutOfMemory => Totals::one_failure(1),
            _ => Totals {
                scripts: 1,
                refused: 1,
                ..Totals::new()
            },
        }
    }

    fn of_failed(failure: Failure) -> Totals
        ensures { result ≡ of_failed failure }
    {
        match failure {
            Failure::OutOfMemory => Totals::one_failure(1),
            _ => Totals::one_failure(0),
        }
    }

    fn of_outcome(outcome: Outcome) -> Totals
        ensures { result ≡ of_outcome outcome }
    {
        match outcome {
            Outcome::Ran {
                directives,
                mismatches,
                accepted,
                errors,
                warnings,
            } => Totals::one_run(directives, mismatches, accepted, errors, warnings),
            Outcome::Refused(fault) => Totals::of_refused(fault),
            Outcome::Failed(failure) => Totals::of_failed(failure),
        }
    }

    /// Adds the outcome of one path.
    pub fn add(&mut self, outcome: Outcome)
        ensures { self.new ≡ together self.old (of_outcome outcome) }
    {
        let one = Totals::of_outcome(outcome);
        *self = Totals {
            scripts: self.scripts.saturating_add(one.scripts),
            directives: self.directives.saturating_add(one.directives),
            mismatches: self.mismatches.saturating_add(one.mismatches),
            accepted: self.accepted.saturating_add(one.accepted),
            errors: self.errors.saturating_add(one.errors),
            warnings: self.warnings.saturating_add(one.warnings),
            refused: self.refused.saturating_add(one.refused),
            failed: self.failed.saturating_add(one.failed),
            without_memory: self.without_memory.saturating_add(one.without_memory),
        };
    }

    // Whether the status isn't that of a mismatch.
    fn is_clean(&self, is_strict: bool) -> bool
        ensures { result ≡ is_clean is_strict self.now }
    {
        self.mismatches == 0 && (!is_strict || (self.errors == 0 && self.warnings == 0))
    }

    /// The greatest status of all paths. If it is strict, errors that no comment expects and warnings count as mismatches.
    pub fn status(&self, is_strict: bool) -> Status
        ensures { result ≡ status_of is_strict self.now }
    {
        if self.without_memory != 0 {
            Status::OutOfMemory
        } else if self.failed != 0 {
            Status::Failed
        } else if self.refused != 0 {
            Status::Refused
        } else if self.is_clean(is_strict) {
            Status::Matched
        } else {
            Status::Mismatched
        }
    }
}

impl Default for Totals {
    ghost is_default = { λ totals. totals ≡ nothing };

    fn default() -> Totals {
        Totals::new()
    }
}

/// Writes the last line: how many scripts, directives, mismatches and refused scripts there were; the errors, the warnings, what was accepted and
/// what failed, if there is any; and the time in seconds. On a failure a beginning of the text was written.
pub fn put_totals<S: Sink>(
    sink: &mut S,
    totals: &Totals,
    milliseconds: u64,
) -> Result<(), WriteFault>
    ensures wrote { Writes result (S.held sink.old) (S.held sink.new) (totals_text totals.now milliseconds) }
    ensures all { S.takes_all sink.old → IsOk result × S.takes_all sink.new }
{
    put_pieces(
        sink,
        &[
            ReportPiece::Number(totals.scripts),
            ReportPiece::Bytes(noun(totals.scripts, b" script, ", b" scripts, ")),
            ReportPiece::Number(totals.directives),
            ReportPiece::Bytes(noun(totals.directives, b" directive, ", b" directives, ")),
            ReportPiece::Number(totals.mismatches),
            ReportPiece::Bytes(noun(totals.mismatches, b" mismatch, ", b" mismatches, ")),
            ReportPiece::Number(totals.refused),
            ReportPiece::Bytes(b" refused"),
            ReportPiece::Count(totals.errors, noun(totals.errors, b" error", b" errors")),
            ReportPiece::Count(
                totals.warnings,
                noun(totals.warnings, b" warning", b" warnings"),
            ),
            ReportPiece::Count(totals.accepted, b" accepted"),
            ReportPiece::Count(totals.failed, b" failed"),
            ReportPiece::Bytes(b", "),
            ReportPiece::Number(milliseconds / 1000),
            ReportPiece::Bytes(b"."),
            ReportPiece::Number(milliseconds / 100 % 10),
            ReportPiece::Number(milliseconds / 10 % 10),
            ReportPiece::Number(milliseconds % 10),
            ReportPiece::Bytes(b" s\n"),
        ],
    )
}
