//! One directive of a script, shown among the others or alone.

ghost use Rattle.std.specs.Prelude.{◌≡◌, ◌≢◌, ◌+◌, ◌<◌, Err, IsOk, OnOk, length};
ghost use Rattle.rb_script.specs.Writes.{Writes};
ghost use Rattle.rb_report.specs.declared.check.table.TheConstants.{MAX_SCRIPT_CELLS};
ghost use Rattle.rb_script_report.specs.Checked.{left_behind};
ghost use Rattle.rb_script_report.specs.Whys.{is_all, left_on, told_alone, told_at};
ghost use Rattle.rb_script_report.specs.Shows.{Shows};

use crate::answers::{block_at, number_at, output_at};
use crate::errors::{first_line, is_unexpected};
use crate::fault::ShowFault;
use crate::hint::hint_of;
use crate::put::{is_same, shown};
use crate::reasons::why_at;
use crate::shown_script::ShownScript;
use crate::view::{Detail, View};
use rb_machine::Machine;
use rb_report::check::{FileLine, MismatchView, Sides, Table, put_mismatch, put_note, put_run};
use rb_script::{Sink, WriteFault};
use std::alloc::Global;

/// Writes the directive at an index as a mismatch, step by step or not.
pub(crate) fn put_mismatch_at<M: Machine, S: Sink>(
    sink: &mut S,
    run: &ShownScript<'_, M>,
    view: View<'_>,
    grouped: bool,
    index: usize,
    table: &mut Table,
) -> Result<(), WriteFault>
    requires count { length run.now.layout.now.heads.items ≡ length run.now.session.now.script.blocks }
    requires within { index < length run.now.session.now.script.blocks }
    ensures wrote { Writes result (S.held sink.old) (S.held sink.new) (told_at table.old.left grouped view.entry.colors view.entry.path.now run.now.whys.now run.now.layout.now.heads.items run.now.session.now.script (index + 1)) }
    ensures all { S.takes_all sink.old → IsOk result × S.takes_all sink.new }
    ensures left { OnOk result (table.new.left ≡ left_behind table.old.left run.now.session.now.script (index + 1)) }
{
    let block = block_at(run.session, index);
    let output = output_at(run.session, index);
    let place = FileLine {
        path: view.path,
        line: number_at(run.layout.heads.as_slice(), index),
    };
    let expected = block.expected();
    let sides = Sides { expected, output };
    let shown = MismatchView {
        colors: view.colors,
        grouped,
        why: why_at(run.whys, index),
        hint: hint_of(block, output),
    };
    put_mismatch(sink, table, place, &block.directive(), sides, shown)
}

/// Writes the directive at an index. If its output differs, it writes the mismatch. If all directives are shown, it writes the output. Otherwise
/// it names an error that no comment expects.
pub(crate) fn put_directive_at<M: Machine, S: Sink>(
    sink: &mut S,
    run: &ShownScript<'_, M>,
    view: View<'_>,
    all: bool,
    index: usize,
    table: &mut Table,
) -> Result<(), WriteFault>
    requires count { length run.now.layout.now.heads.items ≡ length run.now.session.now.script.blocks }
    requires within { index < length run.now.session.now.script.blocks }
    ensures wrote { Writes result (S.held sink.old) (S.held sink.new) (told_alone table.old.left all view.entry.colors run.now.layout.now.text view.entry.path.now run.now.whys.now run.now.layout.now.heads.items run.now.session.now.script (index + 1)) }
    ensures all { S.takes_all sink.old → IsOk result × S.takes_all sink.new }
    ensures left { OnOk result (table.new.left ≡ left_on table.old.left run.now.session.now.script (index + 1)) }
{
    let block = block_at(run.session, index);
    let output = output_at(run.session, index);
    if !is_same(block.expected(), output) {
        return put_mismatch_at(sink, run, view, all, index, table);
    }
    let path = view.path;
    let line = number_at(run.layout.heads.as_slice(), index);
    let place = FileLine { path, line };
    if all {
        let why = why_at(run.whys, index);
        let hint = hint_of(block, output);
        return put_run(sink, place, &block.directive(), output, why, hint);
    }
    if is_unexpected(&run.layout.text, line, output) {
        let hint = hint_of(block, output);
        return put_note(sink, place, &block.directive(), first_line(output), hint);
    }
    Ok(())
}

// Whether all directives are shown.
fn is_all(shown: Detail) -> bool
    ensures { result ≡ is_all shown }
{
    match shown {
        Detail::All => true,
        Detail::Differing | Detail::First | Detail::Brief => false,
    }
}

/// Writes the directive at an index, which counts from 0: its mismatch, or, if the view shows all directives, its output step by step. If the
/// writer fails, a beginning of the text was written.
pub fn put_alone<M: Machine, S: Sink>(
    alloc: Global,
    sink: &mut S,
    run: &ShownScript<'_, M>,
    view: View<'_>,
    index: usize,
) -> Result<(), ShowFault>
    requires count { length run.now.layout.now.heads.items ≡ length run.now.session.now.script.blocks }
    requires within { index < length run.now.session.now.script.blocks }
    ensures wrote { Shows result (S.held sink.old) (S.held sink.new) (told_alone MAX_SCRIPT_CELLS (is_all view.entry.shown) view.entry.colors run.now.layout.now.text view.entry.path.now run.now.whys.now run.now.layout.now.heads.items run.now.session.now.script (index + 1)) }
    ensures all { S.takes_all sink.old → (result ≢ Err ShowFault.Writing) × S.takes_all sink.new }
{
    let Ok(mut table) = Table::new(alloc) else {
        return Err(ShowFault::OutOfMemory);
    };
    let all = is_all(view.shown);
    let written = put_directive_at(sink, run, view, all, index, &mut table);
    shown(written)
}
