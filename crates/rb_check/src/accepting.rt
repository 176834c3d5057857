//! Accepting the outputs of one script.

ghost use Rattle.std.specs.Prelude.{◌≡◌, ℕ, List, Some, nat_lt};
ghost use Rattle.std.specs.List.{list_any};
ghost use Rattle.rb_script.specs.Reads.{Reads};
ghost use Rattle.rb_script_report.specs.Accepting.{accepted};
ghost use Rattle.rb_files.specs.Places.{WasPut};
ghost use Rattle.rb_check.specs.declared.remark.Remark.TheVariants as remarks;
ghost use Rattle.rb_check.specs.AcceptTexts.{Accepts, TellsRefusal, WritesAccepted, echoes_text, ended_text, leaving_text, left_in, left_shown, refusal_failure, refusal_says};
ghost use Rattle.rb_check.specs.Results.{result_after};
ghost use Rattle.rb_check.specs.Shown.{Prints, left_one, left_text, remark_text, says_cause};
ghost use Rattle.rb_check.specs.Subjects.{AreFindings, plain_of};

use crate::checked_script::CheckedScript;
use crate::notes::Note;
use crate::remark::Remark;
use crate::report::Report;
use crate::report_sink::ReportSink;
use crate::script_result::ScriptResult;
use crate::system::System;
use rb_files::PathError;
use rb_machine::Machine;
use rb_report::check::Failure;
use rb_script_report::{
    AcceptFault, AcceptFilter, AcceptOptions, Accepted, accept as accepted, is_picked, number_at,
    put_left_errors,
};
use std::io;

/// Writes those outputs into the script's file that are accepted, and says which are not.
pub(crate) fn accept<M: Machine, S: System, W: ReportSink, E: ReportSink>(
    system: &S,
    wanted: AcceptOptions<'_>,
    subject: &CheckedScript<'_, M>,
    report: &mut Report<W, E>,
) -> ScriptResult
    requires { AreFindings subject.now }
    ensures said { (text : List ℕ) × Accepts (TellsRefusal E.takes_all E.held report.old report.new subject.now.path.now) report.old.state.form wanted.entry (plain_of subject.now) result text × Prints W.held report.old report.new text }
    ensures written { WritesAccepted (λ bytes. S.has_written system.now subject.now.path.now bytes × WasPut S.Place.contents S.Place.is_unchanged S.Place.is_settled bytes) wanted.entry (plain_of subject.now) result }
{
    match accepted(
        system.alloc(),
        subject.session,
        &subject.text.bytes,
        subject.layout,
        wanted,
    ) {
        Ok(made) => {
            leave(subject, wanted, &made.left, report);
            keep(system, wanted, &made, subject, report)
        }
        Err(fault) => fail(subject, fault, report),
    }
}

// Says of the outputs of these heads that they are not accepted.
fn leave<M: Machine, W: ReportSink, E: ReportSink>(
    subject: &CheckedScript<'_, M>,
    wanted: AcceptOptions<'_>,
    left: &[usize],
    report: &mut Report<W, E>,
)
    requires findings { AreFindings subject.now }
    requires left { left.now ≡ left_in wanted (plain_of subject.now) }
    ensures { Prints W.held report.old report.new (leaving_text report.old.state.form wanted.entry (plain_of subject.now)) }
{
    if left.is_empty() {
        return;
    }
    let path = subject.path.as_bytes();
    leave_each(path, wanted.picked, left, report);
    tell_left(subject, wanted, report);
    tell_echoes(path, wanted.picked, left, report);
}

// Says to programs, of each of these heads that is picked, that its output is not accepted.
fn leave_each<W: ReportSink, E: ReportSink>(
    path: &[u8],
    picked: AcceptFilter<'_>,
    left: &[usize],
    report: &mut Report<W, E>,
)
    ensures { Prints W.held report.old report.new (left_text report.old.state.form path.now picked.entry left.now) }
{
    for i in 0..left.len() {
        leave_one(path, picked, number_at(left, i), report);
    }
}

fn leave_one<W: ReportSink, E: ReportSink>(
    path: &[u8],
    picked: AcceptFilter<'_>,
    line: usize,
    report: &mut Report<W, E>,
)
    ensures { Prints W.held report.old report.new (left_one report.old.state.form path.now picked.entry line) }
{
    if is_picked(picked, line) {
        report.remark(path, Remark::Left(line));
    }
}

// Shows people the outputs that are not accepted.
fn tell_left<M: Machine, W: ReportSink, E: ReportSink>(
    subject: &CheckedScript<'_, M>,
    wanted: AcceptOptions<'_>,
    report: &mut Report<W, E>,
)
    requires { AreFindings subject.now }
    ensures { Prints W.held report.old report.new (left_shown report.old.state.form wanted.entry (plain_of subject.now)) }
{
    if report.is_for_programs() {
        return;
    }
    if !report.is_open() {
        return;
    }
    let path = subject.path.as_bytes();
    let sink = &mut report.output;
    let written = put_left_errors(sink, subject.session, subject.layout, path, wanted);
    report.wrote(written);
}

// Says that nothing below the first new error is accepted, if an output differs there.
fn tell_echoes<W: ReportSink, E: ReportSink>(
    path: &[u8],
    picked: AcceptFilter<'_>,
    left: &[usize],
    report: &mut Report<W, E>,
)
    ensures { Prints W.held report.old report.new (echoes_text report.old.state.form path.now picked.entry left.now) }
{
    match picked {
        AcceptFilter::UpTo(line) => {
            if has_below(left, line) {
                report.remark(path, Remark::Echoes(line));
            }
        }
        AcceptFilter::All | AcceptFilter::Heads(_) => {}
    }
}

// Whether one of the heads is below the line.
fn has_below(heads: &[usize], line: usize) -> bool
    ensures { result ≡ list_any (λ head. nat_lt line head) heads.now }
{
    heads.iter().any(|head| line < *head)
}

// Puts the new text in the file's place, unless nothing is accepted.
fn keep<M: Machine, S: System, W: ReportSink, E: ReportSink>(
    system: &S,
    wanted: AcceptOptions<'_>,
    made: &Accepted,
    subject: &CheckedScript<'_, M>,
    report: &mut Report<W, E>,
) -> ScriptResult
    requires reads { Reads made.now.text.items (accepted wanted subject.now.layout.now.text subject.now.layout.now.heads.items subject.now.session.now.script) }
    requires left { made.now.left.items ≡ left_in wanted (plain_of subject.now) }
    requires findings { AreFindings subject.now }
    ensures found { result ≡ result_after subject.now.ran made.now.left.items result.failure }
    ensures shown { Prints W.held report.old report.new (ended_text report.old.state.form (plain_of subject.now) result) }
    ensures written { WritesAccepted (λ bytes. S.has_written system.now subject.now.path.now bytes × WasPut S.Place.contents S.Place.is_unchanged S.Place.is_settled bytes) wanted.entry (plain_of subject.now) result }
{
    let ran = subject.ran;
    if made.left.len() == ran.left {
        return ran;
    }
    match system.write(subject, wanted, &made.text, report) {
        Ok(()) => {
            let found = ran.accepting(&made.left);
            report.remark(subject.path.as_bytes(), Remark::Accepted(found.accepted));
            found
        }
        Err(error) => {
            report.fail(subject.path.as_bytes(), error);
            ran.failing(error.failure)
        }
    }
}

// Reports why nothing of the script is accepted.
fn fail<M: Machine, W: ReportSink, E: ReportSink>(
    subject: &CheckedScript<'_, M>,
    fault: AcceptFault,
    report: &mut Report<W, E>,
) -> ScriptResult
    ensures found { result ≡ record subject.now.ran { failure = Some (refusal_failure fault) } }
    ensures shown { Prints W.held report.old report.new (remark_text report.old.state.form subject.now.path.now (remarks.Failed (refusal_failure fault))) }
    ensures told { TellsRefusal E.takes_all E.held report.old report.new subject.now.path.now fault }
{
    let path = subject.path.as_bytes();
    let error = error_of(fault);
    report.fail(path, error);
    match fault {
        AcceptFault::BadOutput(line) => report.errors.tell(&Note::LongLine(path, line)),
        AcceptFault::TooLong => {}
        AcceptFault::OutOfMemory => {}
    }
    subject.ran.failing(error.failure)
}

// What is reported of a script that can't be written with what is accepted.
fn error_of(fault: AcceptFault) -> PathError
    ensures failure { result.failure ≡ refusal_failure fault }
    ensures says { says_cause result ≡ refusal_says fault }
{
    match fault {
        AcceptFault::BadOutput(_) => PathError::alone(Failure::NotWritten),
        AcceptFault::TooLong => PathError::of_writing(io::Error::other(
            "with its outputs the script would be too long",
        )),
        AcceptFault::OutOfMemory => PathError::alone(Failure::OutOfMemory),
    }
}
