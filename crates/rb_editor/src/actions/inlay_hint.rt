//! Inlay hints: who leads after a directive, and in which term, at the end of the directive's line `----`.

ghost use Rattle.std.specs.Prelude.{◌≡◌, ◌+◌, ◌<◌, ◌≤◌, ◌^◌, ◌++◌, [], Some, IfOk, IfSome, OnOk, length};
ghost use Rattle.rb_script.specs.declared.limits.TheConstants.{MAX_DIRECTIVES};
ghost use Rattle.rb_script.specs.Lines.{lines};
ghost use Rattle.rb_replay.specs.Run.{state};
ghost use Rattle.rb_lsp.specs.declared.document.limits.TheConstants.{MAX_TEXT};
ghost use Rattle.rb_lsp.specs.Tables.{IsTable};
ghost use Rattle.rb_editor.specs.Layouts.{IsLayout};
ghost use Rattle.rb_editor.specs.Texts.{list_text, listed};
ghost use Rattle.rb_editor.specs.Hints.{all_hints, hint_at, hint_place, hint_text, hints, hints_in, leadership, line_within};

use crate::actions::action::span_of;
use crate::actions::extent::LineSpan;
use crate::actions::leadership::{Leadership, Leads, add_label};
use crate::actions::run::{DocumentRun, RunView, kept_of};
use crate::offers::{BlockLines, add_position, line_at};
use rb_lsp::document::{Encoding, LineTable, Position, Range};
use rb_lsp::server::Client;
use rb_machine::{Count, Machine};
use rb_replay::Session;
use rb_script::Lines;
use rb_script_report::{block_at, number_at};
use rb_view::look::machine_in_session;
use std::alloc::{AllocError, Global};

/// Who leads after the directive whose line `----` this is, which counts from 0, and the column at which that line ends.
#[derive(Clone, Copy)]
pub(crate) struct InlayHint {
    pub(crate) line: usize,
    pub(crate) column: usize,
    pub(crate) leadership: Leadership,
}

// ---- the hints of a script

// Gives the line `----` of a directive with these lines, if it is one of the lines that are asked for.
fn line_within(span: LineSpan, at: BlockLines) -> Option<usize>
    ensures { result ≡ line_within span at }
{
    let line = at.below.saturating_sub(1);
    if span.first <= line && line <= span.last {
        Some(line)
    } else {
        None
    }
}

// Adds the hint on a line, if somebody can lead.
fn add_hint_on(
    list: &mut Vec<InlayHint>,
    text: &Lines,
    line: usize,
    leadership: Option<Leadership>,
) -> Result<(), AllocError>
    ensures { OnOk result (list.new.items ≡ list.old.items ++ hint_at text.now (Some line) leadership) }
{
    let Some(leadership) = leadership else {
        return Ok(());
    };
    let column = line_at(text, line).len();
    list.push(InlayHint {
        line,
        column,
        leadership,
    })?;
    Ok(())
}

// Runs the directive at an index on the machine before it.
fn run_one<M: Machine>(
    session: &Session<M>,
    machine: M,
    index: usize,
    meter: &mut M::Meter,
) -> Result<M, AllocError>
    requires there { index < length session.now.script.blocks }
    requires before { M.meaning machine ≡ state session.now.script index }
    requires meter { M.Meter.count_of meter.old ≤ 2 ^ 62 }
    ensures machine { IfOk result (λ m. M.meaning m ≡ state session.now.script (index + 1)) }
    ensures counted { OnOk result (M.Meter.count_of meter.new ≤ M.Meter.count_of meter.old + 1) }
{
    let block = block_at(session, index);
    let (next, _lines) = machine.run(block.directive(), meter)?;
    Ok(next)
}

// Gives the machine after the directive at an index, by the one before it if that is there.
fn machine_after<M: Machine>(
    session: &Session<M>,
    last: Option<M>,
    index: usize,
    meter: &mut M::Meter,
) -> Result<M, AllocError>
    requires there { index < length session.now.script.blocks }
    requires few { length session.now.script.blocks ≤ MAX_DIRECTIVES }
    requires last { IfSome last (λ m. M.meaning m ≡ state session.now.script index) }
    requires meter { M.Meter.count_of meter.old ≤ 2 ^ 62 }
    ensures machine { IfOk result (λ m. M.meaning m ≡ state session.now.script (index + 1)) }
    ensures counted { OnOk result (M.Meter.count_of meter.new ≤ M.Meter.count_of meter.old + MAX_DIRECTIVES) }
{
    match last {
        Some(machine) => run_one(session, machine, index, meter),
        None => machine_in_session(session, index + 1, meter),
    }
}

// Adds the hint of the directive at an index, if its line is asked for. Gives the machine after it then.
fn add_hint_at<M: Leads>(
    list: &mut Vec<InlayHint>,
    run: &RunView<'_, M>,
    last: Option<M>,
    index: usize,
    line: Option<usize>,
    meter: &mut M::Meter,
) -> Result<Option<M>, AllocError>
    requires layout { IsLayout run.now.encoding run.now.text.now run.now.session.now.script run.now.layout.now }
    requires there { index < length run.now.session.now.script.blocks }
    requires few { length run.now.session.now.script.blocks ≤ MAX_DIRECTIVES }
    requires last { IfSome last (λ m. M.meaning m ≡ state run.now.session.now.script index) }
    requires meter { M.Meter.count_of meter.old ≤ 2 ^ 62 }
    ensures added { OnOk result (list.new.items ≡ list.old.items ++ hint_at (lines run.now.text.now) line (leadership (state run.now.session.now.script (index + 1)).nodes)) }
    ensures machine { IfOk result (λ next. IfSome next (λ m. M.meaning m ≡ state run.now.session.now.script (index + 1))) }
    ensures counted { OnOk result (M.Meter.count_of meter.new ≤ M.Meter.count_of meter.old + MAX_DIRECTIVES) }
{
    let Some(line) = line else {
        return Ok(None);
    };
    let machine = machine_after(run.session, last, index, meter)?;
    add_hint_on(list, &run.layout.script.text, line, machine.leadership())?;
    Ok(Some(machine))
}

// Makes the hints on some lines of a script that ran. Of directives one after another each runs once.
fn hints_in<M: Leads>(
    alloc: Global,
    run: RunView<'_, M>,
    span: LineSpan,
    meter: &mut M::Meter,
) -> Result<Vec<InlayHint>, AllocError>
    requires layout { IsLayout run.encoding run.text.now run.session.now.script run.layout.now }
    requires meter { M.Meter.count_of meter.old ≤ 2 ^ 61 + 2 ^ 60 }
    ensures { IfOk result (λ list. list.items ≡ hints_in run.entry.text.now run.entry.session.now.script span) }
{
    let all = &run.layout.script;
    let mut list = Vec::new(alloc);
    let mut last = None;
    for i in 0..run.session.len() {
        let head = number_at(all.heads.as_slice(), i);
        let at = BlockLines::of_block(&all.text, head, block_at(run.session, i));
        last = add_hint_at(&mut list, &run, last, i, line_within(span, at), meter)?;
    }
    Ok(list)
}

// ---- as they are sent

// The position at which a hint of a text is shown, whose lines are in the table.
fn hint_place(encoding: Encoding, text: &[u8], table: &LineTable, hint: InlayHint) -> Position
    requires { IsTable encoding text.now table.now }
    ensures { result ≡ hint_place encoding text.now hint }
{
    Position {
        line: table.start_of(hint.line).line,
        character: hint.column as u64,
    }
}

// Adds a hint of a text, whose lines are in the table.
fn add_hint(
    out: &mut Vec<u8>,
    encoding: Encoding,
    text: &[u8],
    table: &LineTable,
    hint: InlayHint,
) -> Result<(), AllocError>
    requires { IsTable encoding text.now table.now }
    ensures { OnOk result (out.new.items ≡ out.old.items ++ hint_text encoding text.now hint) }
{
    out.extend_from_slice(b"{\"position\":")?;
    add_position(out, hint_place(encoding, text, table, hint))?;
    out.extend_from_slice(b",\"label\":\"")?;
    add_label(out, hint.leadership)?;
    out.extend_from_slice(b"\",\"paddingLeft\":true}")?;
    Ok(())
}

// Adds hints, separated by commas, and the end of the list.
fn add_all(
    out: &mut Vec<u8>,
    encoding: Encoding,
    text: &[u8],
    table: &LineTable,
    list: &[InlayHint],
) -> Result<(), AllocError>
    requires { IsTable encoding text.now table.now }
    ensures { OnOk result (out.new.items ≡ out.old.items ++ listed (hint_text encoding text.now) [] list.now) }
{
    let mut lead: &[u8] = b"";
    for hint in list {
        out.extend_from_slice(lead)?;
        add_hint(out, encoding, text, table, *hint)?;
        lead = b",";
    }
    out.extend_from_slice(b"]")?;
    Ok(())
}

// Adds hints of a text, as a list.
#[tactic(auto, unfolding(crate::specs::Texts::list_text))]
fn add_list(
    out: &mut Vec<u8>,
    encoding: Encoding,
    text: &[u8],
    table: &LineTable,
    list: &[InlayHint],
) -> Result<(), AllocError>
    requires { IsTable encoding text.now table.now }
    ensures { OnOk result (out.new.items ≡ out.old.items ++ list_text (hint_text encoding text.now) list.now) }
{
    out.extend_from_slice(b"[")?;
    add_all(out, encoding, text, table, list)
}

// Adds the hints on some lines of a script that ran.
#[tactic(auto, using(crate::proofs::HintLaws::of_run, crate::proofs::RunLaws::layout_by))]
fn add_of_run<M: Leads>(
    alloc: Global,
    out: &mut Vec<u8>,
    encoding: Encoding,
    range: Range,
    run: &DocumentRun<M>,
    meter: &mut M::Meter,
) -> Result<(), AllocError>
    requires encoding { run.now.encoding ≡ encoding }
    requires meter { M.Meter.count_of meter.old ≤ 2 ^ 61 + 2 ^ 60 }
    ensures { OnOk result (out.new.items ≡ out.old.items ++ all_hints encoding range run.now.bytes) }
{
    let text = run.text();
    let session = run.session();
    let layout = run.layout();
    let view = RunView {
        encoding,
        text,
        session,
        layout,
    };
    let span = span_of(encoding, range, text);
    let list = hints_in(alloc, view, span, meter)?;
    add_list(out, encoding, text, &layout.table, list.as_slice())
}

// Adds the hints in a range of a text, by the kept run if it is that of the text: none if it isn't a script.
#[tactic(auto, using(crate::proofs::HintLaws::of_text, crate::proofs::HintLaws::of_none))]
fn add_all_hints<M: Leads>(
    alloc: Global,
    out: &mut Vec<u8>,
    encoding: Encoding,
    asked: (&[u8], Range),
    kept: &Option<DocumentRun<M>>,
    meter: &mut M::Meter,
) -> Result<(), AllocError>
    requires bounded { length asked.0.now ≤ MAX_TEXT }
    requires meter { M.Meter.count_of meter.old ≤ 2 ^ 61 }
    ensures { OnOk result (out.new.items ≡ out.old.items ++ all_hints encoding asked.entry.1 asked.entry.0.now) }
{
    let (text, range) = asked;
    if let Some(run) = kept_of(kept, encoding, text) {
        return add_of_run(alloc, out, encoding, range, run, meter);
    }
    match DocumentRun::<M>::fresh(alloc, encoding, text, meter)? {
        Some(run) => add_of_run(alloc, out, encoding, range, &run, meter),
        None => out.extend_from_slice(b"[]"),
    }
}

/// Adds the hints in a range of a text, as the result of `textDocument/inlayHint`: none if the client's settings say so.
///
/// # Errors
///
/// If memory was refused. A part of the result may have been added then.
pub(crate) fn add_hints<M: Leads>(
    alloc: Global,
    out: &mut Vec<u8>,
    client: Client,
    asked: (&[u8], Range),
    kept: &Option<DocumentRun<M>>,
    meter: &mut M::Meter,
) -> Result<(), AllocError>
    requires bounded { length asked.0.now ≤ MAX_TEXT }
    requires meter { M.Meter.count_of meter.old ≤ 2 ^ 61 }
    ensures { OnOk result (out.new.items ≡ out.old.items ++ hints client asked.entry.1 asked.entry.0.now) }
{
    if !client.shows_hints {
        return out.extend_from_slice(b"[]");
    }
    add_all_hints(alloc, out, client.encoding, asked, kept, meter)
}
