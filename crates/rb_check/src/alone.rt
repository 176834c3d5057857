//! Showing the directives that are named, and nothing else of their script.

ghost use Rattle.std.specs.Prelude.{◌≡◌, ◌+◌, ◌<◌, IfErr, IfOk, length};
ghost use Rattle.rb_report.specs.declared.check.failure.Failure.TheVariants.{NoDirective, OutOfMemory};
ghost use Rattle.rb_check.specs.ScriptTexts.{AreShown, alone_text};
ghost use Rattle.rb_check.specs.Shown.{PrintsIf, PrintsPart};
ghost use Rattle.rb_check.specs.Subjects.{AreFindings, plain_of};
ghost use Rattle.rb_check.specs.Targets.{AreNotFound};

use crate::checked_script::CheckedScript;
use crate::place::place_at;
use crate::report::Report;
use crate::report_sink::ReportSink;
use rb_files::PathError;
use rb_machine::Machine;
use rb_report::check::Failure;
use rb_script_report::{Detail, ShownScript, View, number_at, put_alone};
use std::alloc::Global;

/// Shows the last directive whose head is at each of the lines or above it: what differs, or else its output.
///
/// # Errors
///
/// If there is no directive at a line or above it, or memory was refused.
pub(crate) fn show_alone<M: Machine, W: ReportSink, E: ReportSink>(
    alloc: Global,
    subject: &CheckedScript<'_, M>,
    lines: &[usize],
    report: &mut Report<W, E>,
) -> Result<(), PathError>
    requires { AreFindings subject.now }
    ensures failed { IfErr result (λ error. AreNotFound (λ these. these ≡ lines.now) subject.now.layout.now.heads.items NoDirective error) }
    ensures shown { IfOk result (λ _. AreShown (alone_text (plain_of subject.now)) subject.now.layout.now.heads.items lines.now report.old.state report.new.state (W.held report.old.output) (W.held report.new.output)) }
    ensures part { IfErr result (λ _. PrintsPart W.held report.old report.new) }
{
    for i in 0..lines.len() {
        let line = number_at(lines, i);
        let Some((place, _)) = place_at(subject.layout.heads.as_slice(), line) else {
            return Err(PathError::alone(Failure::NoDirective));
        };
        show_directive(alloc, subject, place - 1, report)?;
    }
    Ok(())
}

// Shows the directive at an index.
fn show_directive<M: Machine, W: ReportSink, E: ReportSink>(
    alloc: Global,
    subject: &CheckedScript<'_, M>,
    index: usize,
    report: &mut Report<W, E>,
) -> Result<(), PathError>
    requires findings { AreFindings subject.now }
    requires within { index < length subject.now.layout.now.heads.items }
    ensures memory { IfErr result (λ error. error.failure ≡ OutOfMemory) }
    ensures shown { PrintsIf result W.held report.old report.new (alone_text (plain_of subject.now) (index + 1)) }
{
    if !report.is_open() {
        return Ok(());
    }
    let view = View {
        path: subject.path.as_bytes(),
        colors: subject.colors,
        shown: Detail::All,
    };
    let run = ShownScript {
        session: subject.session,
        layout: subject.layout,
        whys: subject.whys,
    };
    let shown = put_alone(alloc, &mut report.output, &run, view, index);
    report.showed(shown)
}
