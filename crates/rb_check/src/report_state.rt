//! The state of a report.

ghost use Rattle.std.specs.Prelude.{◌≡◌};
ghost use Rattle.rb_check.specs.Shown.{closed, lacking, started};

use crate::check_request::CheckRequest;
use crate::format::Format;
use rb_report::check::{Failure, Outcome, Totals};

/// For whom a report is.
#[derive(Clone, Copy)]
pub(crate) struct ReportForm {
    /// The format for programs, if one was chosen.
    pub(crate) format: Option<Format>,
    /// Whether new errors and warnings count as mismatches for the status.
    pub(crate) is_strict: bool,
}

/// For whom a report is, and what it has lost.
#[derive(Clone, Copy)]
pub(crate) struct ReportState {
    pub(crate) form: ReportForm,
    /// Whether nothing goes to standard output: it has failed, or nothing is wanted there.
    pub(crate) is_closed: bool,
    /// The report's own failures: of its output, and of memory.
    pub(crate) own: Totals,
}

impl ReportState {
    /// Nothing is written yet. If nothing is wanted, nothing goes to standard output.
    pub(crate) fn new(asked: &CheckRequest<'_>) -> ReportState
        ensures { result ≡ started asked.now }
    {
        ReportState {
            form: ReportForm {
                format: asked.format,
                is_strict: asked.is_strict,
            },
            is_closed: asked.is_quiet,
            own: Totals::new(),
        }
    }

    /// Records that standard output failed. Nothing more goes there.
    pub(crate) fn close(&mut self)
        ensures { self.new ≡ closed self.old }
    {
        self.is_closed = true;
        self.own.add(Outcome::Failed(Failure::NotShown));
    }

    /// Records that memory was refused for a text.
    pub(crate) fn lack_memory(&mut self)
        ensures { self.new ≡ lacking self.old }
    {
        self.own.add(Outcome::Failed(Failure::OutOfMemory));
    }
}
