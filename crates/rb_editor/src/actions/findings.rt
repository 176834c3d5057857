//! The diagnostics of a script that ran, and of a text that isn't a script.

ghost use Rattle.std.specs.Prelude.{◌≡◌, ◌+◌, ◌<◌, ◌≤◌, ◌^◌, ◌++◌, [], ◌∷◌, if◌then◌else◌, IfOk, OnOk, length, drop, map, slice_index_or};
ghost use Rattle.rb_script.specs.HeadLines.{AreHeadLines};
ghost use Rattle.rb_replay.specs.Run.{outputs};
ghost use Rattle.rb_replay.specs.Report.{mismatches};
ghost use Rattle.rb_script.specs.Lines.{lines};
ghost use Rattle.rb_script.specs.Reads.{Reads};
ghost use Rattle.rb_lsp.specs.declared.document.limits.TheConstants.{MAX_TEXT};
ghost use Rattle.rb_editor.specs.Findings.{before, diagnostics_of, findings, first_head, or_first, refused, slip, stands_first};

use crate::actions::comparisons::Comparisons;
use crate::actions::diagnostic::{Diagnostic, DiagnosticKind};
use crate::actions::document::AskedDocument;
use crate::actions::finding::{CheckedDirective, finding};
use crate::actions::quiet::is_quiet;
use crate::actions::run::DocumentRun;
use rb_machine::{Count, Machine};
use rb_replay::Session;
use rb_report::check::{MAX_SCRIPT_CELLS, Table, fault_line, sentence, warning_sentence};
use rb_script::{Lines, ScriptFault, ScriptWithLines};
use rb_script_report::{Warning, block_at, number_at, output_at};
use std::alloc::{AllocError, Global};

// Adds a diagnostic, if there is one.
fn keep(list: &mut Vec<Diagnostic>, found: Option<Diagnostic>) -> Result<(), AllocError>
    ensures { OnOk result (list.new.items ≡ list.old.items ++ before found []) }
{
    match found {
        Some(diagnostic) => Ok(list.push(diagnostic)?),
        None => Ok(()),
    }
}

// Says whether a place is the next of these.
fn is_next(places: &[usize], next: usize, place: usize) -> bool
    ensures { result ≡ stands_first place (drop next places.now) }
{
    match places.get(next) {
        Some(first) => *first == place,
        None => false,
    }
}

// Gives the index of the next place, after the last was taken or not.
fn behind(next: usize, is_taken: bool) -> usize
    requires { next < 2 ^ 63 }
    ensures value { result ≡ (if is_taken then next + 1 else next) }
    ensures most { result ≤ next + 1 }
{
    if is_taken { next + 1 } else { next }
}

// Finds the line of the head at the first of these places, which count from 1; 0 if there is none.
fn first_head(heads: &[usize], places: &[usize]) -> usize
    ensures { result ≡ first_head heads.now places.now }
{
    match places.first() {
        Some(place) => number_or_none(heads, place.saturating_sub(1)),
        None => 0,
    }
}

// Gives the number at an index; 0 if there is none.
fn number_or_none(numbers: &[usize], index: usize) -> usize
    ensures { result ≡ slice_index_or numbers.now index 0 }
{
    if index < numbers.len() {
        numbers[index]
    } else {
        0
    }
}

// Makes the diagnostics of the directives of a script that ran, by its lines and the lines of its heads. The session knows the mismatches. The
// table has the cells that are left to compare outputs.
fn each_finding<M: Machine>(
    alloc: Global,
    table: &mut Table,
    comparisons: &mut Comparisons,
    session: &Session<M>,
    text: &Lines,
    heads: &[usize],
) -> Result<Vec<Diagnostic>, AllocError>
    requires { AreHeadLines 1 text.now session.now.script.blocks heads.now }
    ensures { IfOk result (λ list. list.items ≡ findings table.old.left (first_head heads.now (mismatches session.now.script)) text.now heads.now session.now.script.blocks (outputs session.now.script)) }
{
    let mismatches = session.mismatches();
    let first = first_head(heads, mismatches);
    let mut list = Vec::new(alloc);
    let mut next = 0;
    for i in 0..session.len() {
        let line = number_at(heads, i);
        let block = block_at(session, i);
        let output = output_at(session, i);
        let differs = is_next(mismatches, next, i + 1);
        let ran = CheckedDirective {
            line,
            differs,
            block,
            output,
        };
        let found = finding(alloc, table, comparisons, text, first, ran)?;
        keep(&mut list, found)?;
        next = behind(next, differs);
    }
    Ok(list)
}

/// Makes the diagnostics of the directives of a script that ran, by its lines and the lines of its heads. The table has the cells that are left to
/// compare outputs.
///
/// # Errors
///
/// If memory was refused.
#[tactic(auto, using(crate::proofs::QuietLaws::nothing_said))]
pub(crate) fn of_session<M: Machine>(
    alloc: Global,
    table: &mut Table,
    comparisons: &mut Comparisons,
    session: &Session<M>,
    text: &Lines,
    heads: &[usize],
) -> Result<Vec<Diagnostic>, AllocError>
    requires { AreHeadLines 1 text.now session.now.script.blocks heads.now }
    ensures { IfOk result (λ list. list.items ≡ findings table.old.left (first_head heads.now (mismatches session.now.script)) text.now heads.now session.now.script.blocks (outputs session.now.script)) }
{
    if is_quiet(session) {
        return Ok(Vec::new(alloc));
    }
    each_finding(alloc, table, comparisons, session, text, heads)
}

// Makes the diagnostic of a line that looks like a mistake.
fn slip(alloc: Global, warning: &Warning) -> Result<Diagnostic, AllocError>
    ensures { IfOk result (λ d. d ≡ slip warning.now) }
{
    Ok(Diagnostic {
        line: warning.line,
        kind: DiagnosticKind::Slip,
        message: Vec::from_slice(alloc, warning_sentence(warning.doubt))?,
        came: None,
    })
}

// Adds the diagnostics of lines that look like a mistake.
fn add_slips(alloc: Global, list: &mut Vec<Diagnostic>, slips: &[Warning]) -> Result<(), AllocError>
    ensures { OnOk result (list.new.items ≡ list.old.items ++ map slip slips.now) }
{
    for warning in slips {
        let found = slip(alloc, warning)?;
        keep(list, Some(found))?;
    }
    Ok(())
}

// Makes the diagnostics of a document whose text reads as this.
#[tactic(auto, using(crate::proofs::RunLaws::heads_by))]
fn of_read<M: Machine>(
    alloc: Global,
    document: AskedDocument<'_, '_>,
    table: &mut Table,
    kept: &mut Option<DocumentRun<M>>,
    meter: &mut M::Meter,
    read: ScriptWithLines,
) -> Result<Vec<Diagnostic>, AllocError>
    requires reads { Reads document.text.now read.script }
    requires lines { read.lines ≡ lines document.text.now }
    requires heads { AreHeadLines 1 (lines document.text.now) read.script.blocks read.heads.items }
    requires bounded { length document.text.now ≤ MAX_TEXT }
    requires meter { M.Meter.count_of meter.old ≤ 2 ^ 61 }
    ensures { IfOk result (λ list. list.items ≡ diagnostics_of document.entry.text.now) }
{
    let last = kept.take();
    let mut run = DocumentRun::of_read(alloc, document.encoding, last, document.text, read, meter)?;
    let mut comparisons = run.take_comparisons(alloc);
    let layout = run.layout();
    let heads = layout.script.heads.as_slice();
    // Each list of diagnostics has all cells of a script.
    table.left = MAX_SCRIPT_CELLS;
    let text = &layout.script.text;
    let mut list = of_session(alloc, table, &mut comparisons, run.session(), text, heads)?;
    add_slips(alloc, &mut list, layout.slips.as_slice())?;
    run.keep_comparisons(comparisons);
    *kept = Some(run);
    Ok(list)
}

/// Makes the diagnostics of the text of a document: those of one fresh run, found by the kept one. If the text isn't a script, the kept run stays
/// for the next that is one.
///
/// # Errors
///
/// If memory was refused. Then no run is kept.
#[tactic(auto, using(crate::proofs::FindingLaws::of_fault))]
pub(crate) fn of_document<M: Machine>(
    alloc: Global,
    document: AskedDocument<'_, '_>,
    table: &mut Table,
    kept: &mut Option<DocumentRun<M>>,
    meter: &mut M::Meter,
) -> Result<Vec<Diagnostic>, AllocError>
    requires bounded { length document.text.now ≤ MAX_TEXT }
    requires meter { M.Meter.count_of meter.old ≤ 2 ^ 61 }
    ensures { IfOk result (λ list. list.items ≡ diagnostics_of document.entry.text.now) }
{
    match ScriptWithLines::read(alloc, document.text) {
        Ok(read) => of_read(alloc, document, table, kept, meter, read),
        Err(ScriptFault::OutOfMemory) => Err(AllocError),
        Err(fault) => of_fault(alloc, fault),
    }
}

/// Makes the diagnostic of a text that isn't a script.
///
/// # Errors
///
/// If memory was refused.
pub(crate) fn refused(alloc: Global, fault: ScriptFault) -> Result<Diagnostic, AllocError>
    ensures { IfOk result (λ d. d ≡ refused fault) }
{
    Ok(Diagnostic {
        line: or_first(fault_line(fault)),
        kind: DiagnosticKind::NoScript,
        message: Vec::from_slice(alloc, sentence(fault))?,
        came: None,
    })
}

/// Makes the diagnostics of a text that isn't a script: that one alone.
///
/// # Errors
///
/// If memory was refused.
pub(crate) fn of_fault(alloc: Global, fault: ScriptFault) -> Result<Vec<Diagnostic>, AllocError>
    ensures { IfOk result (λ list. list.items ≡ refused fault ∷ []) }
{
    let mut list = Vec::new(alloc);
    list.push(refused(alloc, fault)?)?;
    Ok(list)
}

/// The line that a fault names; the first if it names none.
pub(crate) fn or_first(line: Option<usize>) -> usize
    ensures { result ≡ or_first line }
{
    line.unwrap_or(1)
}
