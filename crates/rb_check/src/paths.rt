//! `raftbench check`: scripts, and folders of scripts.

ghost use Rattle.std.specs.Prelude.{◌≡◌, ◌≢◌, ◌<◌, ◌≤◌, ℕ, false, List, IfErr, IfOk, IsTrue, map};
ghost use Rattle.std.specs.IoError.{error_kind};
ghost use Rattle.rb_report.specs.Counts.{together};
ghost use Rattle.rb_check.specs.declared.script_result.PathResult.{PathResult};
ghost use Rattle.rb_check.specs.declared.visible.Showing.{Showing};
ghost use Rattle.rb_check.specs.Lost.{lost_path, lost_results, lost_text, path_text, paths_text, whole_failure, whole_text};
ghost use Rattle.rb_check.specs.Reported.{AreChecked, IsChecked, IsCheckStatus, IsReport, Reports};
ghost use Rattle.rb_check.specs.Results.{counts_of, counts_with, listed_of};
ghost use Rattle.rb_check.specs.Reviews.{review_end};
ghost use Rattle.rb_check.specs.Shown.{GoesOut, Lists, Prints, last_text, lists, shown_in, started};

use crate::check_request::CheckRequest;
use crate::checking::check_script;
use crate::error_stream::ErrorStream;
use crate::notes::Note;
use crate::person::{Person, TerminalPerson};
use crate::progress::ProgressClock;
use crate::report_sink::{ReportSink, stream_over};
use crate::review::{Review, Reviewer};
use crate::running_check::RunningCheck;
use crate::system::{RuntimeSystem, System};
use rb_bench::{RunProgress, Runner};
use rb_files::{FailedPath, Found, PathError, find};
use rb_report::check::{Failure, Status};
use rb_script::Through;
use rb_script_report::Detail;
use rb_text::FailFast;
use std::io;
use std::io::{ErrorKind, Write};
use std::rt::Files;
use std::time::Clock;

/// Checks the scripts of the paths, and gives the program's status.
///
/// # Errors
///
/// If memory was refused at the beginning. Later failures are reported, and are in the status.
pub fn check<T: RunProgress, R: Files + Input + Print + Clock + AllocGlobal, E: Write + Drop>(
    rt: &R,
    runner: &mut Runner<'_, T>,
    asked: CheckRequest<'_>,
    errors: E,
) -> io::Result<Status>
    // What was asked for was right.
    ensures right { IfOk result (λ status. status ≢ Status.BadUsage) }
    ensures begins { IfErr result (λ error. error_kind error ≡ ErrorKind.OutOfMemory) }
    // It is the status of what is counted: each script as its run says, or its failure.
    ensures counted { IfOk result (λ status. IsCheckStatus asked.entry status) }
{
    let output = stream_over(rt.alloc(), FailFast(Through(io::writer(rt))))?;
    let errors = ErrorStream::new(rt.alloc(), stream_over(rt.alloc(), errors)?);
    let check = report_on(rt, runner, &asked, output, errors);
    Ok(check.status(asked.is_strict))
}

// Reports on the scripts of the paths, on these streams.
fn report_on<T: RunProgress, R: Files + Input + Clock + AllocGlobal, W: ReportSink, E: ReportSink>(
    rt: &R,
    runner: &mut Runner<'_, T>,
    asked: &CheckRequest<'_>,
    output: W,
    errors: ErrorStream<E>,
) -> RunningCheck<W, E>
    ensures { (text : List ℕ) × IsReport asked.now result.report.state result.results.counts text × GoesOut (started asked.now) result.report.state (W.held output) (W.held result.report.output) text }
{
    let mut progress = ProgressClock::from_now(rt, asked.wants_progress);
    let mut check = RunningCheck::new(rt.alloc(), output, errors, asked);
    let found = find(rt, asked.targets, asked.filters);
    check.report.begin();
    tell_lost(&found, &mut check);
    let scripts = found.scripts.as_slice();
    check_each(rt, runner, asked, scripts, &mut progress, &mut check);
    let milliseconds = milliseconds(&progress, rt);
    end(asked, scripts.len(), milliseconds, &mut check);
    check
}

// Checks the scripts one after another, until a review ends.
fn check_each<T: RunProgress, R: Files + Input + Clock + AllocGlobal, W: ReportSink, E: ReportSink>(
    rt: &R,
    runner: &mut Runner<'_, T>,
    asked: &CheckRequest<'_>,
    scripts: &[String],
    progress: &mut ProgressClock,
    check: &mut RunningCheck<W, E>,
)
    ensures { Reports W.held check.old check.new (AreChecked asked.now check.old.report.state.form scripts.now check.new.results.counts) }
{
    let system = RuntimeSystem(rt);
    let person = TerminalPerson::new(rt, asked.gives_keys);
    let mut reviewer = Reviewer::new(rt.alloc(), person);
    let mut done = 0;
    'reports: while goes_on(reviewer.review, done, scripts.len()) {
        tell_progress(rt, progress, done, scripts.len(), &mut check.report.errors);
        let path = scripts[done].as_str();
        check_one(&system, runner, asked, path, &mut reviewer, check);
        done += 1;
    }
    end_review(reviewer.review, scripts.len() - done, check);
}

// Whether a script is still to be checked, unless a review is over.
fn goes_on(review: Review, done: usize, all: usize) -> bool
    ensures within { IsTrue result → done < all }
    ensures ongoing { IsTrue result → review ≢ Review.Over }
    ensures last { result ≡ false → review ≢ Review.Over → all ≤ done }
{
    match review {
        Review::Each | Review::Rest | Review::Skipped => done < all,
        Review::Over => false,
    }
}

// Shows how far the work is, if it is time to.
fn tell_progress<C: Clock, E: ReportSink>(
    clock: &C,
    progress: &mut ProgressClock,
    done: usize,
    all: usize,
    errors: &mut ErrorStream<E>,
) {
    if progress.is_due(clock) {
        errors.show_progress(done, all);
    }
}

// If the review ended, says how many scripts are left.
fn end_review<W: ReportSink, E: ReportSink>(
    review: Review,
    left: usize,
    check: &mut RunningCheck<W, E>,
)
    ensures results { check.new.results ≡ check.old.results }
    ensures shown { Prints W.held check.old.report check.new.report (review_end review check.old.results.counts.accepted left) }
{
    if review == Review::Over {
        let note = Note::Quit(check.results.counts.accepted, left);
        check.report.show(&note);
    }
}

// Checks a script, and reports why if that fails.
fn check_one<T: RunProgress, S: System, P: Person, W: ReportSink, E: ReportSink>(
    system: &S,
    runner: &mut Runner<'_, T>,
    asked: &CheckRequest<'_>,
    path: &str,
    reviewer: &mut Reviewer<P>,
    check: &mut RunningCheck<W, E>,
)
    ensures checked { (found : PathResult) × (text : List ℕ)
        × IsChecked (S.has_read system.now) (S.tells_one system.now) asked.now (P.is_known reviewer.old.person) (P.left reviewer.old.person) check.old.report.state.form path.now reviewer.old.review reviewer.new.review found text
        × (check.new.results.counts ≡ counts_with check.old.results.counts found)
        × Lists check.new.report.state check.old.results.differing.items check.new.results.differing.items (listed_of path.now found)
        × Prints W.held check.old.report check.new.report text }
    ensures unasked { asked.now.reviews ≡ false → reviewer.new.review ≡ reviewer.old.review }
{
    match check_script(system, runner, asked, path, reviewer, &mut check.report) {
        Ok(found) => check.add(path, found),
        Err(error) => check.fail(path.as_bytes(), error),
    }
}

// Ends the report of n scripts, if there is something to end.
fn end<W: ReportSink, E: ReportSink>(
    asked: &CheckRequest<'_>,
    n: usize,
    milliseconds: u64,
    check: &mut RunningCheck<W, E>,
)
    ensures results { check.new.results ≡ check.old.results }
    ensures shown { Prints W.held check.old.report check.new.report
        (last_text asked.now n check.old.report.state.form check.old.results.differing.items (together check.old.results.counts check.old.report.state.own) milliseconds) }
{
    if n > 0 || check.report.is_for_programs() {
        check.end(lists(asked.shown, n), milliseconds);
    }
}

// Whether the scripts that differ are listed at the end, of n scripts.
fn lists(shown: Detail, n: usize) -> bool
    ensures { result ≡ lists shown n }
{
    match shown {
        Detail::Brief => false,
        Detail::First | Detail::Differing | Detail::All => n > 1,
    }
}

// Reports and counts the paths that could not be read.
fn tell_lost<W: ReportSink, E: ReportSink>(found: &Found, check: &mut RunningCheck<W, E>)
    ensures counts { check.new.results.counts ≡ counts_of check.old.results.counts (lost_results found.now) }
    ensures listed { check.new.results.differing.items ≡ check.old.results.differing.items }
    ensures shown { Prints W.held check.old.report check.new.report (lost_text check.old.report.state.form found.now) }
{
    tell_each_lost(found.lost.as_slice(), check);
    tell_if(found.is_cut, Failure::OutOfMemory, check);
    tell_if(
        found.scripts.as_slice().is_empty(),
        Failure::NoScripts,
        check,
    );
}

// Reports and counts the paths that failed.
fn tell_each_lost<W: ReportSink, E: ReportSink>(lost: &[FailedPath], check: &mut RunningCheck<W, E>)
    ensures counts { check.new.results.counts ≡ counts_of check.old.results.counts (map lost_path lost.now) }
    ensures listed { check.new.results.differing.items ≡ check.old.results.differing.items }
    ensures shown { Prints W.held check.old.report check.new.report (paths_text check.old.report.state.form lost.now) }
{
    for i in 0..lost.len() {
        tell_one_lost(&lost[i], check);
    }
}

fn tell_one_lost<W: ReportSink, E: ReportSink>(lost: &FailedPath, check: &mut RunningCheck<W, E>)
    ensures counts { check.new.results.counts ≡ counts_with check.old.results.counts (lost_path lost.now).found }
    ensures listed { check.new.results.differing.items ≡ check.old.results.differing.items }
    // If something of the path acts, a workflow command goes out by numbers.
    ensures heeded { check.new.report.showing ≡ shown_in check.old.report.state.form.format lost.now.path.items Showing.AsIs }
    ensures shown { Prints W.held check.old.report check.new.report (path_text check.old.report.state.form lost.now) }
{
    check.report.heed(&lost.path, None);
    check.fail(&lost.path, lost.error);
}

// Reports and counts a failure of the check as a whole, if there is one.
fn tell_if<W: ReportSink, E: ReportSink>(
    has_failed: bool,
    failure: Failure,
    check: &mut RunningCheck<W, E>,
)
    ensures counts { check.new.results.counts ≡ counts_of check.old.results.counts (whole_failure has_failed failure) }
    ensures listed { check.new.results.differing.items ≡ check.old.results.differing.items }
    ensures shown { Prints W.held check.old.report check.new.report (whole_text check.old.report.state.form has_failed failure) }
{
    if has_failed {
        check.fail(b"raftbench", PathError::alone(failure));
    }
}

fn milliseconds<C: Clock>(progress: &ProgressClock, clock: &C) -> u64 {
    u64::try_from(progress.elapsed(clock).as_millis()).unwrap_or(u64::MAX)
}
