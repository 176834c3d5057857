//! Writes the report of a script.

ghost use Rattle.std.specs.Prelude.{false, ◌≡◌, ◌≢◌, ◌+◌, ◌<◌, ◌≤◌, ℕ, List, [], Option, Err, IfSome, IfNone, IsOk, IsTrue, length};
ghost use Rattle.rb_script.specs.Writes.{Writes};
ghost use Rattle.rb_replay.specs.Run.{outputs};
ghost use Rattle.rb_replay.specs.Report.{same_lines, mismatches};
ghost use Rattle.rb_report.specs.declared.check.table.TheConstants.{MAX_SCRIPT_CELLS};
ghost use Rattle.rb_script_report.specs.Checked.{of_first, brief_at, IsFirst};
ghost use Rattle.rb_script_report.specs.Whys.{all_told, told_at, told_text};
ghost use Rattle.rb_script_report.specs.Shows.{Shows, summary_of, IsQuiet};

use crate::alone::{put_directive_at, put_mismatch_at};
use crate::answers::number_at;
use crate::errors::{count_errors, has_errors};
use crate::fault::ShowFault;
use crate::layout::Layout;
use crate::shown_script::ShownScript;
use crate::summary::ScriptSummary;
use crate::view::{Detail, View};
use rb_machine::Machine;
use rb_replay::Session;
use rb_report::check::{Table, put_brief};
use rb_script::{Lines, Sink, WriteFault};
use std::alloc::Global;

/// Whether both have the same lines.
pub fn is_same(lines: &Lines, other: &Lines) -> bool
    ensures { result ≡ same_lines lines.now other.now }
{
    lines.same(other)
}

// Writes each directive that is shown.
fn put_directives<M: Machine, S: Sink>(
    sink: &mut S,
    run: &ShownScript<'_, M>,
    view: View<'_>,
    all: bool,
    table: &mut Table,
) -> Result<(), WriteFault>
    requires { length run.now.layout.now.heads.items ≡ length run.now.session.now.script.blocks }
    ensures wrote { Writes result (S.held sink.old) (S.held sink.new) (all_told table.old.left all view.entry.colors run.now.layout.now.text view.entry.path.now run.now.whys.now 0 run.now.layout.now.heads.items run.now.session.now.script.blocks (outputs run.now.session.now.script)) }
    ensures all { S.takes_all sink.old → IsOk result × S.takes_all sink.new }
{
    for i in 0..run.session.len() {
        put_directive_at(sink, run, view, all, i, table)?;
    }
    Ok(())
}

/// The index of the first mismatch, which counts from 0.
pub fn first_index<M: Machine>(session: &Session<M>) -> Option<usize>
    ensures none { IfNone result (mismatches session.now.script ≡ []) }
    ensures some { IfSome result (λ i. IsFirst (i + 1) (mismatches session.now.script)) }
    ensures within { IfSome result (λ i. i < length session.now.script.blocks) }
{
    let places = session.mismatches();
    if places.is_empty() {
        return None;
    }
    let place = number_at(places, 0);
    Some(place - 1)
}

// Writes the first mismatch.
fn put_first<M: Machine, S: Sink>(
    sink: &mut S,
    run: &ShownScript<'_, M>,
    view: View<'_>,
    table: &mut Table,
) -> Result<(), WriteFault>
    requires { length run.now.layout.now.heads.items ≡ length run.now.session.now.script.blocks }
    ensures wrote { Writes result (S.held sink.old) (S.held sink.new) (of_first (told_at table.old.left false view.entry.colors view.entry.path.now run.now.whys.now run.now.layout.now.heads.items run.now.session.now.script) (mismatches run.now.session.now.script)) }
    ensures all { S.takes_all sink.old → IsOk result × S.takes_all sink.new }
{
    match first_index(run.session) {
        Some(index) => put_mismatch_at(sink, run, view, false, index, table),
        None => Ok(()),
    }
}

// Writes one line about a script with mismatches.
fn put_in_brief<M: Machine, S: Sink>(
    sink: &mut S,
    session: &Session<M>,
    layout: &Layout,
    path: &[u8],
) -> Result<(), WriteFault>
    requires { length layout.now.heads.items ≡ length session.now.script.blocks }
    ensures wrote { Writes result (S.held sink.old) (S.held sink.new) (of_first (brief_at path.now layout.now.heads.items session.now.script) (mismatches session.now.script)) }
    ensures all { S.takes_all sink.old → IsOk result × S.takes_all sink.new }
{
    match first_index(session) {
        Some(index) => put_brief(
            sink,
            path,
            session.mismatches().len(),
            session.len(),
            number_at(layout.heads.as_slice(), index),
        ),
        None => Ok(()),
    }
}

/// The summary of a checked script.
pub fn summary_of<M: Machine>(session: &Session<M>, layout: &Layout) -> ScriptSummary
    requires { length layout.now.heads.items ≡ length session.now.script.blocks }
    ensures { result ≡ summary_of layout.now.text layout.now.heads.items session.now.script }
{
    let heads = layout.heads.as_slice();
    let first = match first_index(session) {
        Some(index) => Some(number_at(heads, index)),
        None => None,
    };
    let errors = count_errors(session, heads, &layout.text);
    ScriptSummary { first, errors }
}

/// Whether nothing is shown, and the summary is empty.
pub fn is_quiet<M: Machine>(session: &Session<M>, shown: Detail) -> bool
    ensures { IsTrue result → IsQuiet shown session.now.script }
{
    shown != Detail::All && session.mismatches().is_empty() && !has_errors(session)
}

/// Turns a writer's fault into the fault of a report.
pub(crate) fn shown(written: Result<(), WriteFault>) -> Result<(), ShowFault>
    ensures shows { (old new : Option (List ℕ)) (text : List ℕ) → Writes written old new text → Shows result old new text }
    ensures all { IsOk written → result ≢ Err ShowFault.Writing }
{
    match written {
        Ok(()) => Ok(()),
        Err(_) => Err(ShowFault::Writing),
    }
}

/// Writes the report of the session's script, with the reasons that are given below the lines of each output. The layout is the script's. If
/// [`is_quiet`] holds, nothing is written, and the call isn't needed. If the writer fails, a beginning of the text was written.
pub fn put_checked<M: Machine, S: Sink>(
    alloc: Global,
    sink: &mut S,
    session: &Session<M>,
    layout: &Layout,
    view: View<'_>,
    whys: &[Lines],
) -> Result<(), ShowFault>
    requires { length layout.now.heads.items ≡ length session.now.script.blocks }
    ensures wrote { Shows result (S.held sink.old) (S.held sink.new) (told_text view.entry.shown view.entry.colors layout.now.text view.entry.path.now whys.now layout.now.heads.items session.now.script) }
    ensures all { S.takes_all sink.old → (result ≢ Err ShowFault.Writing) × S.takes_all sink.new }
{
    // Before anything is written: if memory is refused, there is no half of a report.
    let Ok(mut table) = Table::new(alloc) else {
        return Err(ShowFault::OutOfMemory);
    };
    let run = ShownScript {
        session,
        layout,
        whys,
    };
    let written = match view.shown {
        Detail::Differing => put_directives(sink, &run, view, false, &mut table),
        Detail::All => put_directives(sink, &run, view, true, &mut table),
        Detail::First => put_first(sink, &run, view, &mut table),
        Detail::Brief => put_in_brief(sink, session, layout, view.path),
    };
    shown(written)
}
