//! Checking one script. Nothing is held longer than its script.

ghost use Rattle.std.specs.Prelude.{◌≡◌, ℕ, List, false, IfOk, IfErr, Some, length};
ghost use Rattle.rb_report.specs.declared.check.failure.Failure.TheVariants.{OutOfMemory};
ghost use Rattle.rb_check.specs.Endings.{AcceptsSaid, AreWanted, IsAnswered};
ghost use Rattle.rb_check.specs.Reported.{Fails, Reported};
ghost use Rattle.rb_check.specs.Shown.{Prints, PrintsPart};
ghost use Rattle.rb_check.specs.Subjects.{AreFindings, numbers_of, plain_of};
ghost use Rattle.rb_check.specs.Targets.{AreNamedLines, AreNotFound, no_directive_failure};

use crate::accepting::accept;
use crate::check_request::CheckRequest;
use crate::checked_script::CheckedScript;
use crate::ending::{CheckEnding, ending_of};
use crate::person::Person;
use crate::picking::{named_heads, picked_of};
use crate::remark::Remark;
use crate::report::Report;
use crate::report_sink::ReportSink;
use crate::review::{Reviewer, reviewed};
use crate::script_result::{PathResult, ScriptResult};
use crate::showing::tell;
use crate::system::System;
use rb_bench::{RunProgress, Runner};
use rb_files::PathError;
use rb_machine::Machine;
use rb_replay::{Session, StartFault};
use rb_report::check::Failure;
use rb_script_report::{AcceptFilter, AcceptOptions, Layout, summary_of, warnings};

/// Checks the script at the path: shows its mismatches, and accepts them if that was asked for.
///
/// # Errors
///
/// What failed, where the script could not be read or run, or memory was refused for what there is to show.
pub(crate) fn check_script<T: RunProgress, S: System, P: Person, W: ReportSink, E: ReportSink>(
    system: &S,
    runner: &mut Runner<'_, T>,
    asked: &CheckRequest<'_>,
    path: &str,
    reviewer: &mut Reviewer<P>,
    report: &mut Report<W, E>,
) -> Result<PathResult, PathError>
    // The report shows the script's run, or why the bytes are not a script.
    ensures reported { IfOk result (λ found. (text : List ℕ)
        × Reported (S.has_read system.now) (S.tells_one system.now) asked.now (P.is_known reviewer.old.person) (P.left reviewer.old.person) report.old.state.form path.now reviewer.old.review reviewer.new.review found text
        × Prints W.held report.old report.new text) }
    ensures fails { IfErr result (λ error. Fails (S.has_read system.now) (S.tells_one system.now) asked.now path.now error) }
    ensures part { IfErr result (λ _. PrintsPart W.held report.old report.new) }
    ensures unasked { asked.now.reviews ≡ false → reviewer.new.review ≡ reviewer.old.review }
{
    report.heed(path.as_bytes(), None);
    let text = system.read(path)?;
    let run = match runner.run_script(&text.bytes, asked.explains) {
        Ok(run) => run,
        Err(StartFault::Script(fault)) => {
            report.remark(path.as_bytes(), Remark::Refused(fault));
            return Ok(PathResult::Refused(fault));
        }
        Err(_) => return Err(PathError::alone(Failure::OutOfMemory)),
    };
    report.heed(path.as_bytes(), Some(&run.layout.text));
    let found = warnings(system.alloc(), &run.session, &run.layout)?;
    let warnings = found.as_slice();
    let subject = CheckedScript {
        path,
        text: &text,
        session: &run.session,
        layout: &run.layout,
        whys: &run.whys,
        colors: report.colors(asked.colors),
        warnings,
        ran: ran_of(&run.session, &run.layout, warnings.len()),
    };
    let ran = answer(system, asked, &subject, reviewer, report)?;
    Ok(PathResult::Ran(ran))
}

// The result of a script that ran and has n warnings, if nothing of it is accepted.
fn ran_of<M: Machine>(session: &Session<M>, layout: &Layout, n: usize) -> ScriptResult
    requires { length layout.now.heads.items ≡ length session.now.script.blocks }
    ensures { result ≡ numbers_of layout.now session.now.script n }
{
    let summary = summary_of(session, layout);
    ScriptResult {
        directives: session.len(),
        left: session.mismatches().len(),
        accepted: 0,
        errors: summary.errors,
        warnings: n,
        first: summary.first,
        failure: None,
    }
}

// Shows the run, and accepts outputs, asks about them or leaves them.
fn answer<M: Machine, S: System, P: Person, W: ReportSink, E: ReportSink>(
    system: &S,
    asked: &CheckRequest<'_>,
    subject: &CheckedScript<'_, M>,
    reviewer: &mut Reviewer<P>,
    report: &mut Report<W, E>,
) -> Result<ScriptResult, PathError>
    requires { AreFindings subject.now }
    ensures answered { IfOk result (λ found. (text : List ℕ)
        × IsAnswered (S.tells_one system.now) asked.now (P.is_known reviewer.old.person) (P.left reviewer.old.person) report.old.state.form (plain_of subject.now) reviewer.old.review reviewer.new.review found text
        × Prints W.held report.old report.new text) }
    ensures part { IfErr result (λ _. PrintsPart W.held report.old report.new) }
    // It fails only if memory was refused, or a line is named with no directive at it or above it.
    ensures missed { IfErr result (λ error. AreNotFound (λ lines. AreNamedLines (S.tells_one system.now) subject.now.path.now asked.now.targets.now (Some lines)) subject.now.layout.now.heads.items (no_directive_failure asked.now.accepts) error) }
    // Without a review nothing is asked.
    ensures unasked { asked.now.reviews ≡ false → reviewer.new.review ≡ reviewer.old.review }
{
    tell(system, asked, subject, report)?;
    let heads = named_heads(system, asked, subject, report)?;
    let picked = picked_of(system.alloc(), asked, subject, &heads)?;
    match ending_of(asked, !subject.warnings.is_empty(), subject.ran.left) {
        CheckEnding::Kept => Ok(subject.ran),
        CheckEnding::Refused => {
            report.remark(subject.path.as_bytes(), Remark::Unaccepted);
            Ok(subject.ran)
        }
        CheckEnding::Accepted => {
            let errors = asked.accepts_errors;
            let wanted = AcceptOptions { picked, errors };
            Ok(accept(system, wanted, subject, report))
        }
        CheckEnding::Reviewed => accept_reviewed(system, asked, picked, subject, reviewer, report),
    }
}

// Accepts the outputs that are said yes to.
fn accept_reviewed<M: Machine, S: System, P: Person, W: ReportSink, E: ReportSink>(
    system: &S,
    asked: &CheckRequest<'_>,
    picked: AcceptFilter<'_>,
    subject: &CheckedScript<'_, M>,
    reviewer: &mut Reviewer<P>,
    report: &mut Report<W, E>,
) -> Result<ScriptResult, PathError>
    requires { AreFindings subject.now }
    ensures accepted { IfOk result (λ found. (text : List ℕ)
        × AcceptsSaid asked.now (P.is_known reviewer.old.person) (P.left reviewer.old.person) report.old.state.form (plain_of subject.now) picked.entry reviewer.old.review reviewer.new.review found text
        × Prints W.held report.old report.new text) }
    ensures part { IfErr result (λ _. PrintsPart W.held report.old report.new) }
    ensures memory { IfErr result (λ error. error.failure ≡ OutOfMemory) }
{
    let said = reviewed(asked, subject, picked, reviewer, report)?;
    Ok(accept(system, wanted_of(said.as_slice()), subject, report))
}

// What is said yes to is accepted, new errors too.
fn wanted_of(said: &[usize]) -> AcceptOptions<'_>
    ensures { AreWanted said.now result }
{
    AcceptOptions {
        picked: AcceptFilter::Heads(said),
        errors: true,
    }
}
