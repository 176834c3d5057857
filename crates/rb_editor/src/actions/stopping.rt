//! The diagnostics of a text as far as its run goes: an editor waits for it, so its work has a bound.
//!
//! If a run stops, the diagnostics are those of the text above the directive where it stopped. After an edit it stops at the same directive
//! without a run, if no directive above has changed, and the directive itself hasn't.

ghost use Rattle.std.specs.Prelude.{◌≡◌, ◌-◌, ◌≤◌, ◌^◌, ◌++◌, None, Some, true, IfErr, IfOk, IfSome, length, option_map};
ghost use Rattle.rb_lsp.specs.declared.document.limits.TheConstants.{MAX_TEXT};
ghost use Rattle.rb_editor.specs.Findings.{diagnosed, stopped};
ghost use Rattle.rb_editor.specs.Stops.{head_line, may_stop};
ghost use Rattle.rb_editor.specs.LastStops.{StopsAsLast};

use crate::actions::above::above;
use crate::actions::bounded::Bounded;
use crate::actions::diagnostic::{Diagnostic, DiagnosticKind};
use crate::actions::document::AskedDocument;
use crate::actions::findings::of_document;
use crate::actions::run::{DocumentRun, kept_of};
use crate::actions::same_directives::{directives_of, has_same_directives};
use crate::actions::stopped_text::{DirectiveStop, StoppedText};
use crate::actions::work_meter::EnoughWork;
use rb_lsp::server::Stop;
use rb_machine::{Count, Machine};
use rb_report::check::Table;
use rb_script::{ScriptFault, ScriptWithLines};
use rb_script_report::number_at;
use std::alloc::{AllocError, Global};

// An editor's meter never counts to this.
const MAX_COUNT: u64 = 1 << 60;

/// What is kept of a document: the last run, and the text whose run stopped.
#[derive(Drop)]
pub(crate) struct KeptRun<M: Machine> {
    pub(crate) run: Option<DocumentRun<M>>,
    stopped: Option<StoppedText>,
}

/// The diagnostics of a text, and where its run stopped, if it did.
#[derive(Drop)]
pub(crate) struct BoundedFindings {
    pub(crate) list: Vec<Diagnostic>,
    pub(crate) stop: Option<Stop>,
}

impl<M: Machine> KeptRun<M> {
    ghost use Rattle.std.specs.Prelude.{◌≡◌, None, true, IfSome};
    ghost use Rattle.rb_editor.specs.Stops.{may_stop};
    ghost use Rattle.rb_editor.specs.LastStops.{stop_of};

    /// Keeps nothing.
    pub(crate) fn none() -> KeptRun<M>
        ensures run { result.run ≡ None }
        ensures stopped { result.stopped ≡ None }
    {
        KeptRun {
            run: None,
            stopped: None,
        }
    }

    /// Finds where the run of this text stopped, if it is the last one that did.
    pub(crate) fn stop_of(&self, text: &[u8]) -> Option<Stop>
        ensures known { result ≡ stop_of self.now.stopped text.now }
        ensures head { IfSome result (λ stop. may_stop text.now stop ≡ true) }
    {
        match &self.stopped {
            Some(stopped) if stopped.text.as_slice() == text => Some(stopped.stop),
            _ => None,
        }
    }
}

// Says that the run stopped at the directive on a line.
#[tactic(auto, unfolding(crate::specs::Findings::stopped))]
fn stopped(alloc: Global, line: usize) -> Result<Diagnostic, AllocError>
    ensures { IfOk result (λ d. d ≡ stopped line) }
{
    let sentence =
        b"the script is not run from here on: an editor waits for 16,000,000 steps; raftbench check runs it all";
    Ok(Diagnostic {
        line,
        kind: DiagnosticKind::Stopped,
        message: Vec::from_slice(alloc, sentence)?,
        came: None,
    })
}

// Finds the line of the head of the directive at an index, if the text is a script that has it.
#[tactic(auto, using(crate::proofs::StopLaws::head_of_none))]
fn head_line(alloc: Global, text: &[u8], index: usize) -> Result<Option<usize>, AllocError>
    ensures { IfOk result (λ line. line ≡ head_line text.now index) }
{
    match ScriptWithLines::read(alloc, text) {
        Ok(read) => Ok(read.heads.get(index).copied()),
        Err(ScriptFault::OutOfMemory) => Err(AllocError),
        Err(_) => Ok(None),
    }
}

// Finds where the run of a text stops if it stops as that of the last text did: both have the same directives up to there.
fn same_stop(
    alloc: Global,
    stopped: &Option<StoppedText>,
    text: &[u8],
) -> Result<Option<DirectiveStop>, AllocError>
    ensures head { IfOk result (λ found. IfSome found (λ at. head_line text.now at.index ≡ Some at.stop.line)) }
    ensures same { IfOk result (λ found. IfSome found (λ at. StopsAsLast stopped.now text.now (Some at.stop))) }
{
    let Some(last) = stopped else {
        return Ok(None);
    };
    let index = last.index;
    let Some(new) = directives_of(alloc, text)? else {
        return Ok(None);
    };
    let Some(old) = directives_of(alloc, last.text.as_slice())? else {
        return Ok(None);
    };
    if index >= new.heads.len() || !has_same_directives(&new, &old, index) {
        return Ok(None);
    }
    let line = number_at(new.heads.as_slice(), index);
    let work = last.stop.work;
    Ok(Some(DirectiveStop {
        index,
        stop: Stop { line, work },
    }))
}

// Makes the diagnostics of a text whose run stops here.
#[tactic(auto, using(crate::proofs::StopLaws::head_is))]
fn of_front<M: Machine>(
    alloc: Global,
    document: AskedDocument<'_, '_>,
    table: &mut Table,
    kept: &mut KeptRun<M>,
    meter: &mut M::Meter,
    at: DirectiveStop,
) -> Result<BoundedFindings, AllocError>
    requires bounded { length document.text.now ≤ MAX_TEXT }
    requires head { head_line document.text.now at.index ≡ Some at.stop.line }
    ensures list { IfOk result (λ found. found.list.items ≡ diagnosed found.stop document.entry.text.now) }
    ensures stop { IfOk result (λ found. found.stop ≡ Some at.stop) }
{
    if meter.count() > MAX_COUNT {
        return Err(AllocError);
    }
    let DirectiveStop { index, stop } = at;
    let front = AskedDocument {
        encoding: document.encoding,
        uri: document.uri,
        text: above(document.text, stop.line),
    };
    let mut list = of_document(alloc, front, table, &mut kept.run, meter)?;
    list.push(stopped(alloc, stop.line)?)?;
    let text = Vec::from_slice(alloc, document.text)?;
    kept.stopped = Some(StoppedText { text, index, stop });
    Ok(BoundedFindings {
        list,
        stop: Some(stop),
    })
}

// Makes the diagnostics of a text if its run stops where the run of the last text stopped. Otherwise returns none, and has run nothing.
#[tactic(auto, using(crate::proofs::StopLaws::may_stop_at))]
fn of_same_stop<M: Bounded>(
    alloc: Global,
    document: AskedDocument<'_, '_>,
    table: &mut Table,
    kept: &mut KeptRun<M>,
    meter: &mut M::Meter,
) -> Result<Option<BoundedFindings>, AllocError>
    requires { length document.text.now ≤ MAX_TEXT }
    ensures list { IfOk result (λ found. IfSome found (λ f. f.list.items ≡ diagnosed f.stop document.entry.text.now)) }
    ensures same { IfOk result (λ found. IfSome found (λ f. StopsAsLast kept.old.stopped document.entry.text.now f.stop)) }
    ensures head { IfOk result (λ found. IfSome found (λ f. IfSome f.stop (λ stop. may_stop document.entry.text.now stop ≡ true))) }
{
    match same_stop(alloc, &kept.stopped, document.text)? {
        Some(at) => Ok(Some(of_front(alloc, document, table, kept, meter, at)?)),
        None => Ok(None),
    }
}

// Makes the diagnostics of a text if its run ends. If the run stops, returns none and keeps no run.
fn of_whole<M: Bounded>(
    alloc: Global,
    document: AskedDocument<'_, '_>,
    table: &mut Table,
    kept: &mut KeptRun<M>,
    meter: &mut M::Meter,
) -> Result<Result<BoundedFindings, EnoughWork>, AllocError>
    requires { length document.text.now ≤ MAX_TEXT }
    ensures list { IfOk result (λ found. IfOk found (λ f. f.list.items ≡ diagnosed f.stop document.entry.text.now)) }
    ensures whole { IfOk result (λ found. IfOk found (λ f. f.stop ≡ None)) }
    ensures refused { IfOk result (λ found. IfErr found (λ enough. M.refused_of meter.new ≡ Some enough)) }
{
    if meter.count() > MAX_COUNT {
        return Err(AllocError);
    }
    match of_document(alloc, document, table, &mut kept.run, meter) {
        Ok(list) => {
            // If the text isn't a script it has no run, and that of the last one stays.
            if kept_of(&kept.run, document.encoding, document.text).is_some() {
                kept.stopped = None;
            }
            Ok(Ok(BoundedFindings { list, stop: None }))
        }
        Err(AllocError) => match M::refused_at(meter) {
            Some(work) => Ok(Err(work)),
            None => Err(AllocError),
        },
    }
}

// Finds where the run of a text stopped that has run this many directives: the last of them was refused.
fn stop_after(
    alloc: Global,
    text: &[u8],
    ran: u64,
    enough: EnoughWork,
) -> Result<DirectiveStop, AllocError>
    ensures index { IfOk result (λ at. at.index ≡ ran - 1) }
    ensures line { IfOk result (λ at. head_line text.now at.index ≡ Some at.stop.line) }
    ensures work { IfOk result (λ at. at.stop.work ≡ enough.work) }
{
    let EnoughWork { work } = enough;
    let index = ran.saturating_sub(1) as usize;
    match head_line(alloc, text, index)? {
        Some(line) => Ok(DirectiveStop {
            index,
            stop: Stop { line, work },
        }),
        None => Err(AllocError),
    }
}

// Makes the diagnostics of a text if its run from the empty cluster ends. If it stops, returns where, and keeps no run.
fn of_first_run<M: Bounded>(
    alloc: Global,
    document: AskedDocument<'_, '_>,
    table: &mut Table,
    kept: &mut KeptRun<M>,
    meter: &mut M::Meter,
) -> Result<Result<BoundedFindings, DirectiveStop>, AllocError>
    requires bounded { length document.text.now ≤ MAX_TEXT }
    requires fresh { kept.old.run ≡ None }
    ensures list { IfOk result (λ found. IfOk found (λ f. f.list.items ≡ diagnosed f.stop document.entry.text.now)) }
    ensures whole { IfOk result (λ found. IfOk found (λ f. f.stop ≡ None)) }
    ensures head { IfOk result (λ found. IfErr found (λ at. head_line document.entry.text.now at.index ≡ Some at.stop.line)) }
    // It stops at the last directive that the meter counted, at the work that the meter remembers.
    ensures last { IfOk result (λ found. IfErr found (λ at. at.index ≡ M.Meter.count_of meter.new - M.Meter.count_of meter.old - 1)) }
    ensures work { IfOk result (λ found. IfErr found (λ at. option_map (λ enough. enough.work) (M.refused_of meter.new) ≡ Some at.stop.work)) }
{
    let count = meter.count();
    match of_whole(alloc, document, table, kept, meter)? {
        Ok(found) => Ok(Ok(found)),
        Err(enough) => {
            let ran = meter.count().saturating_sub(count);
            Ok(Err(stop_after(alloc, document.text, ran, enough)?))
        }
    }
}

// Makes the diagnostics of a text whose run begins with the empty cluster.
#[tactic(auto, using(crate::proofs::StopLaws::may_stop_at))]
fn of_fresh<M: Bounded>(
    alloc: Global,
    document: AskedDocument<'_, '_>,
    table: &mut Table,
    kept: &mut KeptRun<M>,
    meter: &mut M::Meter,
) -> Result<BoundedFindings, AllocError>
    requires { length document.text.now ≤ MAX_TEXT }
    ensures list { IfOk result (λ found. found.list.items ≡ diagnosed found.stop document.entry.text.now) }
    ensures head { IfOk result (λ found. IfSome found.stop (λ stop. may_stop document.entry.text.now stop ≡ true)) }
{
    kept.run = None;
    match of_first_run(alloc, document, table, kept, meter)? {
        Ok(found) => Ok(found),
        Err(at) => of_front(alloc, document, table, kept, meter, at),
    }
}

/// Makes the diagnostics of the text of a document, as far as one fresh run of it goes.
///
/// # Errors
///
/// If memory was refused. Then no run is kept.
pub(crate) fn of_text<M: Bounded>(
    alloc: Global,
    document: AskedDocument<'_, '_>,
    table: &mut Table,
    kept: &mut KeptRun<M>,
    meter: &mut M::Meter,
) -> Result<BoundedFindings, AllocError>
    requires { length document.text.now ≤ MAX_TEXT }
    ensures list { IfOk result (λ found. found.list.items ≡ diagnosed found.stop document.entry.text.now) }
    ensures head { IfOk result (λ found. IfSome found.stop (λ stop. may_stop document.entry.text.now stop ≡ true)) }
{
    if let Some(found) = of_same_stop(alloc, document, table, kept, meter)? {
        return Ok(found);
    }
    if kept.run.is_some()
        && let Ok(found) = of_whole(alloc, document, table, kept, meter)?
    {
        return Ok(found);
    }
    of_fresh(alloc, document, table, kept, meter)
}
