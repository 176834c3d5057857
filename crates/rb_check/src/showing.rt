//! Showing a script that ran: its warnings and its report, or the directives that are named alone.

ghost use Rattle.std.specs.Prelude.{◌≡◌, ℕ, List, IfErr, IfOk, Some};
ghost use Rattle.rb_report.specs.declared.check.failure.Failure.TheVariants.{OutOfMemory};
ghost use Rattle.rb_check.specs.Formats.{script_text};
ghost use Rattle.rb_check.specs.ScriptTexts.{IsTold, may_be_empty, people_report, report_text, shown_warnings, shows_warnings, warns};
ghost use Rattle.rb_check.specs.Shown.{Prints, PrintsIf, PrintsPart};
ghost use Rattle.rb_check.specs.Subjects.{AreFindings, plain_of};
ghost use Rattle.rb_check.specs.Targets.{AreNamedLines, AreNotFound, no_directive_failure};

use crate::alone::show_alone;
use crate::check_request::CheckRequest;
use crate::checked_script::CheckedScript;
use crate::format::Format;
use crate::formatted::formatted;
use crate::picking::lines_alone;
use crate::report::Report;
use crate::report_sink::ReportSink;
use crate::system::System;
use rb_files::PathError;
use rb_machine::Machine;
use rb_replay::Session;
use rb_script_report::{Detail, View, is_quiet, put_checked};
use std::alloc::{AllocError, Global};

/// Shows what there is to show: the directives that are named alone, or the warnings and what differs.
///
/// # Errors
///
/// If a named line has no directive, or memory was refused.
pub(crate) fn tell<M: Machine, S: System, W: ReportSink, E: ReportSink>(
    system: &S,
    asked: &CheckRequest<'_>,
    subject: &CheckedScript<'_, M>,
    report: &mut Report<W, E>,
) -> Result<(), PathError>
    requires { AreFindings subject.now }
    ensures failed { IfErr result (λ error. AreNotFound (λ lines. AreNamedLines (S.tells_one system.now) subject.now.path.now asked.now.targets.now (Some lines)) subject.now.layout.now.heads.items (no_directive_failure asked.now.accepts) error) }
    ensures shown { IfOk result (λ _. (text : List ℕ) × IsTold (S.tells_one system.now) asked.now report.old.state.form (plain_of subject.now) text
        × Prints W.held report.old report.new text) }
    ensures part { IfErr result (λ _. PrintsPart W.held report.old report.new) }
{
    let alloc = system.alloc();
    if let Some(lines) = lines_alone(system, asked, subject.path)? {
        return show_alone(alloc, subject, &lines, report);
    }
    warn(asked, subject, report);
    show(alloc, asked, subject, report)
}

// Shows the warnings, if they are to be shown.
fn warn<M: Machine, W: ReportSink, E: ReportSink>(
    asked: &CheckRequest<'_>,
    subject: &CheckedScript<'_, M>,
    report: &mut Report<W, E>,
)
    requires { AreFindings subject.now }
    ensures { Prints W.held report.old report.new (shown_warnings asked.now report.old.state.form (plain_of subject.now)) }
{
    if warns(asked, subject.session) {
        report.warn(subject.path.as_bytes(), subject.warnings);
    }
}

// Whether the warnings are shown.
fn warns<M: Machine>(asked: &CheckRequest<'_>, session: &Session<M>) -> bool
    ensures { result ≡ warns asked.now session.now.script }
{
    let may_accept = asked.accepts && !session.mismatches().is_empty();
    may_accept || asked.is_strict || shows_warnings(asked.shown)
}

// With less detail than the mismatches only that is shown.
fn shows_warnings(shown: Detail) -> bool
    ensures { result ≡ shows_warnings shown }
{
    match shown {
        Detail::Differing | Detail::All => true,
        Detail::First | Detail::Brief => false,
    }
}

// Shows the script's report to people or programs. If it is empty, nothing is computed.
fn show<M: Machine, W: ReportSink, E: ReportSink>(
    alloc: Global,
    asked: &CheckRequest<'_>,
    subject: &CheckedScript<'_, M>,
    report: &mut Report<W, E>,
) -> Result<(), PathError>
    requires { AreFindings subject.now }
    ensures memory { IfErr result (λ error. error.failure ≡ OutOfMemory) }
    ensures shown { PrintsIf result W.held report.old report.new (report_text asked.now (plain_of subject.now)) }
{
    if may_be_empty(asked.format) && is_quiet(subject.session, asked.shown) {
        return Ok(());
    }
    match asked.format {
        Some(format) => show_programs(alloc, format, asked.is_strict, subject, report),
        None => show_people(alloc, asked.shown, subject, report),
    }
}

// Whether the report of a script may be empty.
fn may_be_empty(format: Option<Format>) -> bool
    ensures { result ≡ may_be_empty format }
{
    match format {
        Some(Format::Junit) => false,
        Some(Format::Json) => true,
        Some(Format::Github) => true,
        None => true,
    }
}

// Shows the script's report to people.
fn show_people<M: Machine, W: ReportSink, E: ReportSink>(
    alloc: Global,
    shown: Detail,
    subject: &CheckedScript<'_, M>,
    report: &mut Report<W, E>,
) -> Result<(), PathError>
    requires { AreFindings subject.now }
    ensures memory { IfErr result (λ error. error.failure ≡ OutOfMemory) }
    ensures shown { PrintsIf result W.held report.old report.new (people_report shown (plain_of subject.now)) }
{
    if !report.is_open() {
        return Ok(());
    }
    let view = View {
        path: subject.path.as_bytes(),
        colors: subject.colors,
        shown,
    };
    let sink = &mut report.output;
    let written = put_checked(
        alloc,
        sink,
        subject.session,
        subject.layout,
        view,
        subject.whys,
    );
    report.showed(written)
}

// Shows the script's report to programs.
fn show_programs<M: Machine, W: ReportSink, E: ReportSink>(
    alloc: Global,
    format: Format,
    is_strict: bool,
    subject: &CheckedScript<'_, M>,
    report: &mut Report<W, E>,
) -> Result<(), PathError>
    requires { AreFindings subject.now }
    ensures memory { IfErr result (λ error. error.failure ≡ OutOfMemory) }
    ensures shown { PrintsIf result W.held report.old report.new (script_text format is_strict (plain_of subject.now)) }
{
    let text = formatted(alloc, format, is_strict, subject)?;
    report.put(&text);
    Ok(())
}
