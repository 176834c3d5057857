//! The results of a check: of each path what is counted of it, and what is listed.

ghost use Rattle.std.specs.Prelude.{◌≡◌, Some};
ghost use Rattle.rb_check.specs.Results.{after_accepting, counts_with, outcome_of};

use rb_report::check::{Failure, Outcome, Totals};
use rb_script::ScriptFault;

/// The result of a script that ran.
#[derive(Clone, Copy)]
pub(crate) struct ScriptResult {
    pub(crate) directives: usize,
    /// How many outputs differ from what is expected, and were not accepted.
    pub(crate) left: usize,
    /// How many outputs were accepted.
    pub(crate) accepted: usize,
    /// How many outputs are errors that no comment expects.
    pub(crate) errors: usize,
    pub(crate) warnings: usize,
    /// The line of the head of the first directive whose output differs and was not accepted.
    pub(crate) first: Option<usize>,
    /// Why no output could be accepted.
    pub(crate) failure: Option<Failure>,
}

impl ScriptResult {
    /// The result after all outputs were accepted but those of the heads on these lines.
    pub(crate) fn accepting(self, left: &[usize]) -> ScriptResult
        ensures { result ≡ after_accepting self left.now }
    {
        if left.len() == self.left {
            return self;
        }
        ScriptResult {
            left: left.len(),
            accepted: self.left.saturating_sub(left.len()),
            first: left.first().copied(),
            ..self
        }
    }

    /// The result if its outputs could not be accepted.
    pub(crate) fn failing(self, failure: Failure) -> ScriptResult
        ensures { result ≡ record self { failure = Some failure } }
    {
        ScriptResult {
            failure: Some(failure),
            ..self
        }
    }

    // What is counted of it, besides a failure.
    fn outcome(self) -> Outcome
        ensures { result ≡ outcome_of self }
    {
        Outcome::Ran {
            directives: self.directives,
            mismatches: self.left,
            accepted: self.accepted,
            errors: self.errors,
            warnings: self.warnings,
        }
    }
}

/// The result of a path.
#[derive(Clone, Copy)]
pub(crate) enum PathResult {
    /// The script ran.
    Ran(ScriptResult),
    /// The bytes are no script.
    Refused(ScriptFault),
    /// It could not be checked.
    Failed(Failure),
}

impl PathResult {
    /// Counts it in the totals of all paths.
    pub(crate) fn count_in(self, totals: &mut Totals)
        ensures { totals.new ≡ counts_with totals.old self }
    {
        match self {
            PathResult::Ran(ran) => {
                totals.add(ran.outcome());
                if let Some(failure) = ran.failure {
                    totals.add(Outcome::Failed(failure));
                }
            }
            PathResult::Refused(fault) => totals.add(Outcome::Refused(fault)),
            PathResult::Failed(failure) => totals.add(Outcome::Failed(failure)),
        }
    }
}
