//! The directives that are to be accepted, if lines are named.

ghost use Rattle.std.specs.Prelude.{◌≡◌, ◌++◌, ◌∷◌, [], ℕ, List, false, IfErr, IfOk, IfSome, None, Some, option_map};
ghost use Rattle.rb_report.specs.declared.check.failure.Failure.TheVariants.{NotWritten};
ghost use Rattle.rb_check.specs.Endings.{IsPicked, unnamed};
ghost use Rattle.rb_check.specs.ScriptTexts.{AreNamedHeads, ArePicked, matched_at, matched_text};
ghost use Rattle.rb_check.specs.Shown.{Prints, PrintsPart};
ghost use Rattle.rb_check.specs.Subjects.{AreFindings, plain_of};
ghost use Rattle.rb_check.specs.Targets.{AreNamedLines, AreNotFound, IsOfScript, no_directive_failure};

use crate::check_request::CheckRequest;
use crate::checked_script::CheckedScript;
use crate::place::place_at;
use crate::remark::Remark;
use crate::report::Report;
use crate::report_sink::ReportSink;
use crate::system::System;
use crate::target::Target;
use rb_files::PathError;
use rb_machine::Machine;
use rb_script_report::{AcceptFilter, number_at, picked_unnamed};
use std::alloc::{AllocError, Global};
use std::io;

/// The lines of the heads of the script's directives that are named to be accepted, in their order; none if the whole script is,
/// or nothing is accepted. A named directive without a mismatch is reported.
pub(crate) fn named_heads<M: Machine, S: System, W: ReportSink, E: ReportSink>(
    system: &S,
    asked: &CheckRequest<'_>,
    subject: &CheckedScript<'_, M>,
    report: &mut Report<W, E>,
) -> Result<Option<Vec<usize>>, PathError>
    ensures named { IfOk result (λ heads. (text : List ℕ) × AreNamedHeads (S.tells_one system.now) asked.now report.old.state.form (plain_of subject.now) (option_map (λ some. some.items) heads) text × Prints W.held report.old report.new text) }
    ensures part { IfErr result (λ _. PrintsPart W.held report.old report.new) }
    ensures failed { IfErr result (λ error. AreNotFound (λ lines. AreNamedLines (S.tells_one system.now) subject.now.path.now asked.now.targets.now (Some lines)) subject.now.layout.now.heads.items (no_directive_failure asked.now.accepts) error) }
{
    if !asked.accepts {
        return Ok(None);
    }
    let alloc = system.alloc();
    let Some(lines) = named_lines(system, asked.targets, subject.path)? else {
        return Ok(None);
    };
    match heads_at(alloc, &lines, subject, report) {
        Ok(heads) => Ok(Some(heads)),
        Err(error) => Err(error),
    }
}

/// Which directives may be accepted: those of the named heads, or, if none is named, those that are accepted then.
pub(crate) fn picked_of<'a, M: Machine>(
    alloc: Global,
    asked: &CheckRequest<'_>,
    subject: &CheckedScript<'_, M>,
    heads: &'a Option<Vec<usize>>,
) -> Result<AcceptFilter<'a>, AllocError>
    requires { AreFindings subject.now }
    ensures { IfOk result (λ picked. IsPicked asked.now (plain_of subject.now) (option_map (λ some. some.items) heads.now) picked) }
{
    match heads {
        Some(heads) => Ok(AcceptFilter::Heads(heads.as_slice())),
        None => unnamed(alloc, asked, subject),
    }
}

// What is accepted where no directive is named.
fn unnamed<'a, M: Machine>(
    alloc: Global,
    asked: &CheckRequest<'_>,
    subject: &CheckedScript<'_, M>,
) -> Result<AcceptFilter<'a>, AllocError>
    requires { AreFindings subject.now }
    ensures { IfOk result (λ picked. picked ≡ unnamed asked.now (plain_of subject.now)) }
{
    if asked.accepts && !asked.reviews {
        picked_unnamed(alloc, subject.session, subject.layout, asked.accepts_errors)
    } else {
        Ok(AcceptFilter::All)
    }
}

/// The lines of the directives that are named to be shown alone; none where all of the script is, where outputs are accepted, and for programs.
pub(crate) fn lines_alone<S: System>(
    system: &S,
    asked: &CheckRequest<'_>,
    path: &str,
) -> Result<Option<Vec<usize>>, AllocError>
    ensures asked { IfOk result (λ lines. IfSome lines (λ _. (asked.now.accepts ≡ false) × (asked.now.format ≡ None))) }
    ensures named { asked.now.accepts ≡ false → asked.now.format ≡ None → IfOk result (λ lines. AreNamedLines (S.tells_one system.now) path.now asked.now.targets.now (option_map (λ some. some.items) lines)) }
{
    if asked.accepts || asked.format.is_some() {
        return Ok(None);
    }
    named_lines(system, asked.targets, path)
}

// The lines that are named of the script, by whatever spelling of its path; none where all of it is.
fn named_lines<S: System>(
    system: &S,
    targets: &[Target],
    path: &str,
) -> Result<Option<Vec<usize>>, AllocError>
    ensures { IfOk result (λ lines. AreNamedLines (S.tells_one system.now) path.now targets.now (option_map (λ some. some.items) lines)) }
{
    let mut lines = Vec::new(system.alloc());
    for target in targets {
        if !names(system, target, path) {
            continue;
        }
        let Some(line) = target.line else {
            return Ok(None);
        };
        lines.push(line)?;
    }
    if lines.is_empty() {
        Ok(None)
    } else {
        Ok(Some(lines))
    }
}

// Whether the target is the script at the path.
fn names<S: System>(system: &S, target: &Target, path: &str) -> bool
    ensures { IsOfScript (S.tells_one system.now) path.now target.now result }
{
    let own = target.path.as_str();
    if own == path {
        return true;
    }
    system.is_one_script(own, path)
}

// The last of the heads at each of the lines or above it.
fn heads_at<M: Machine, W: ReportSink, E: ReportSink>(
    alloc: Global,
    lines: &[usize],
    subject: &CheckedScript<'_, M>,
    report: &mut Report<W, E>,
) -> Result<Vec<usize>, PathError>
    ensures picked { IfOk result (λ picked. ArePicked (matched_text report.old.state.form (plain_of subject.now)) subject.now.layout.now.heads.items lines.now picked.items report.old.state report.new.state (W.held report.old.output) (W.held report.new.output)) }
    ensures part { IfErr result (λ _. PrintsPart W.held report.old report.new) }
    ensures failed { IfErr result (λ error. AreNotFound (λ these. these ≡ lines.now) subject.now.layout.now.heads.items NotWritten error) }
{
    let mut picked = Vec::new(alloc);
    for i in 0..lines.len() {
        let line = number_at(lines, i);
        let Some((place, head)) = place_at(subject.layout.heads.as_slice(), line) else {
            return Err(no_directive());
        };
        tell_matched(subject, place, head, report);
        push(&mut picked, head)?;
    }
    Ok(picked)
}

// Says of the directive at the place, with its head on the line, that its output is the expected one, if it is.
fn tell_matched<M: Machine, W: ReportSink, E: ReportSink>(
    subject: &CheckedScript<'_, M>,
    place: usize,
    head: usize,
    report: &mut Report<W, E>,
)
    ensures { Prints W.held report.old report.new (matched_at report.old.state.form (plain_of subject.now) head place) }
{
    if !subject.session.mismatches().contains(&place) {
        report.remark(subject.path.as_bytes(), Remark::Matches(head));
    }
}

fn push(picked: &mut Vec<usize>, head: usize) -> Result<(), AllocError>
    ensures { IfOk result (λ _. picked.new.items ≡ picked.old.items ++ head ∷ []) }
{
    picked.push(head)?;
    Ok(())
}

fn no_directive() -> PathError
    ensures { result.failure ≡ NotWritten }
{
    PathError::of_writing(io::Error::other("no directive stands at the line or above it"))
}
