//! A check, as far as it has come: its report, and the results of its paths.

ghost use Rattle.std.specs.Prelude.{◌≡◌, ◌≢◌, ◌++◌, [], IfOk, true};
ghost use Rattle.rb_report.specs.Counts.{nothing, status_of, together, totals_text};
ghost use Rattle.rb_check.specs.declared.remark.Remark.TheVariants as remarks;
ghost use Rattle.rb_check.specs.declared.script_result.PathResult.TheVariants as paths;
ghost use Rattle.rb_check.specs.Results.{counts_with, listed_of};
ghost use Rattle.rb_check.specs.Shown.{Lists, Prints, end_text, ending, lacks_memory, listed_text, remark_text, started};

use crate::check_request::CheckRequest;
use crate::differing::DifferingList;
use crate::error_stream::ErrorStream;
use crate::format::Format;
use crate::notes::Note;
use crate::report::Report;
use crate::report_sink::ReportSink;
use crate::results::{Results, together};
use crate::script_result::PathResult;
use crate::totals_object::totals_object;
use rb_files::PathError;
use rb_report::check::{Status, Totals};
use std::alloc::{AllocError, Global};

/// A check, as far as it has come.
#[derive(Drop)]
pub(crate) struct RunningCheck<W: ReportSink, E: ReportSink> {
    pub(crate) report: Report<W, E>,
    pub(crate) results: Results,
}

impl<W: ReportSink, E: ReportSink> RunningCheck<W, E> {
    /// There are no results yet.
    pub(crate) fn new(
        alloc: Global,
        output: W,
        errors: ErrorStream<E>,
        asked: &CheckRequest<'_>,
    ) -> RunningCheck<W, E>
        ensures counts { result.results.counts ≡ nothing }
        ensures listed { result.results.differing.items ≡ [] }
        ensures state { result.report.state ≡ started asked.now }
        ensures output { result.report.output ≡ output }
    {
        RunningCheck {
            report: Report::new(alloc, output, errors, asked),
            results: Results::new(alloc),
        }
    }

    /// Adds the result of a path.
    pub(crate) fn add(&mut self, path: &str, found: PathResult)
        ensures counts { self.new.results.counts ≡ counts_with self.old.results.counts found }
        ensures listed { Lists self.new.report.state self.old.results.differing.items self.new.results.differing.items (listed_of path.now found) }
        ensures shown { Prints W.held self.old.report self.new.report [] }
    {
        found.count_in(&mut self.results.counts);
        match self.results.list(path, found) {
            Ok(()) => {}
            Err(_) => self.report.fail_for_memory(path.as_bytes()),
        }
    }

    /// Reports that a path failed, and counts it.
    pub(crate) fn fail(&mut self, path: &[u8], error: PathError)
        ensures counts { self.new.results.counts ≡ counts_with self.old.results.counts (paths.Failed error.failure) }
        ensures listed { self.new.results.differing.items ≡ self.old.results.differing.items }
        ensures showing { self.new.report.showing ≡ self.old.report.showing }
        ensures shown { Prints W.held self.old.report self.new.report (remark_text self.old.report.state.form path.now (remarks.Failed error.failure)) }
    {
        self.report.fail(path, error);
        PathResult::Failed(error.failure).count_in(&mut self.results.counts);
    }

    // The totals of all paths, and of the report's own failures.
    fn totals(&self) -> Totals
        ensures { result ≡ together self.now.results.counts self.now.report.state.own }
    {
        together(self.results.counts, self.report.state.own)
    }

    /// The program's status, strict or not.
    pub(crate) fn status(&self, is_strict: bool) -> Status
        ensures right { result ≢ Status.BadUsage }
        // It is the status of all counts.
        ensures counts { result ≡ status_of is_strict (together self.now.results.counts self.now.report.state.own) }
        // If memory was refused for a text, the status says so.
        ensures memory { lacks_memory self.now.report.state ≡ true → result ≡ Status.OutOfMemory }
    {
        self.totals().status(is_strict)
    }

    /// Writes the end of the report.
    pub(crate) fn end(&mut self, lists_differing: bool, milliseconds: u64)
        ensures results { self.new.results ≡ self.old.results }
        ensures shown { Prints W.held self.old.report self.new.report (end_text lists_differing self.old.report.state.form self.old.results.differing.items (together self.old.results.counts self.old.report.state.own) milliseconds) }
    {
        self.report.errors.clear();
        let totals = self.totals();
        match self.report.state.form.format {
            Some(format) => self.end_for_programs(format, &totals),
            None => self.end_for_people(lists_differing, totals, milliseconds),
        }
    }

    // Writes the end of a report in the format.
    fn end_for_programs(&mut self, format: Format, totals: &Totals)
        ensures results { self.new.results ≡ self.old.results }
        ensures shown { Prints W.held self.old.report self.new.report (ending totals.now format) }
    {
        match ending(self.report.alloc, format, totals) {
            Ok(text) => self.report.put(&text),
            Err(_) => self.report.fail_for_memory(b"raftbench"),
        }
    }

    // Writes the list of the scripts that differ, if they are to be listed, and the last line.
    fn end_for_people(&mut self, lists_differing: bool, totals: Totals, milliseconds: u64)
        ensures results { self.new.results ≡ self.old.results }
        ensures shown { Prints W.held self.old.report self.new.report (listed_text lists_differing self.old.results.differing.items ++ totals_text totals milliseconds) }
    {
        self.report.heed(b"raftbench", None);
        self.list_differing(lists_differing);
        self.report.show(&Note::Totals(totals, milliseconds));
    }

    // Lists the scripts that differ, if they are to be listed.
    fn list_differing(&mut self, lists_differing: bool)
        ensures results { self.new.results ≡ self.old.results }
        ensures shown { Prints W.held self.old.report self.new.report (listed_text lists_differing self.old.results.differing.items) }
    {
        if lists_differing {
            self.report.show(&DifferingList(&self.results.differing));
        }
    }
}

// The end of a report for programs.
fn ending(alloc: Global, format: Format, totals: &Totals) -> Result<Vec<u8>, AllocError>
    ensures { IfOk result (λ made. made.items ≡ ending totals.now format) }
{
    match format {
        Format::Json => totals_object(alloc, totals),
        Format::Github => Ok(Vec::new(alloc)),
        Format::Junit => Vec::from_slice(alloc, b"</testsuites>\n"),
    }
}
