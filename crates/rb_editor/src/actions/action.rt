//! Code actions: corrections, and edits that accept outputs.

ghost use Rattle.std.specs.Prelude.{◌≡◌, ◌≤◌, ◌^◌, ◌++◌, ◌||◌, None, Some, IfOk, OnOk, length};
ghost use Rattle.rb_script.specs.Lines.{lines};
ghost use Rattle.rb_lsp.specs.declared.document.limits.TheConstants.{MAX_TEXT};
ghost use Rattle.rb_lsp.specs.Tables.{IsTable};
ghost use Rattle.rb_editor.specs.BlockLines.{StandsIn};
ghost use Rattle.rb_editor.specs.Layouts.{IsLayout};
ghost use Rattle.rb_editor.specs.Actions.{accepting, action_head, action_if, action_text, actions, actions_text, comma_if, edit_text, edits_of, is_accepted, is_among, is_wanted, one_edit, picked_of, span_of};

use crate::actions::correction::corrections;
use crate::actions::document::AskedDocument;
use crate::actions::extent::{Extent, LineSpan, extent_of, has_line};
use crate::actions::fix::{add_fixes, first_within};
use crate::actions::layout::{ScriptLayout, line_at};
use crate::actions::replacement::new_text;
use crate::actions::run::{DocumentRun, kept_of};
use crate::offers::add_range_member;
use rb_lsp::document::{Encoding, LineTable, Range};
use rb_machine::{Count, Machine};
use rb_replay::Session;
use rb_script::{Block, Lines};
use rb_script_report::{
    AcceptFilter, block_at, is_picked, is_same, is_unexpected, number_at, output_at, picked_unnamed,
};
use rb_text::{Json, Piece, add_pieces};
use std::alloc::{AllocError, Global};

/// Whether the directive is picked, and its output differs and is no new error.
pub(crate) fn is_accepted(
    picked: AcceptFilter<'_>,
    lines: &Lines,
    line: usize,
    block: &Block,
    output: &Lines,
) -> bool
    ensures { result ≡ is_accepted picked.entry lines.now line block.now output.now }
{
    is_picked(picked, line)
        && !is_same(block.expected(), output)
        && !is_unexpected(lines, line, output)
}

// Whether a directive has one of these lines; true if none are given.
fn is_among(span: Option<LineSpan>, extent: Extent) -> bool
    ensures { result ≡ is_among span extent }
{
    match span {
        Some(span) => has_line(span, extent),
        None => true,
    }
}

#[tactic(auto, unfolding(crate::specs::Actions::is_wanted))]
fn is_wanted(
    picked: AcceptFilter<'_>,
    span: Option<LineSpan>,
    lines: &Lines,
    line: usize,
    block: &Block,
    output: &Lines,
) -> bool
    requires { StandsIn lines.now line block.now }
    ensures { result ≡ is_wanted picked.entry span lines.now line block.now output.now }
{
    is_accepted(picked, lines, line, block, output) && is_among(span, extent_of(lines, line, block))
}

// Adds an edit that replaces an expectation.
#[tactic(auto, unfolding(crate::specs::Actions::edit_text))]
pub(crate) fn add_edit(
    out: &mut Vec<u8>,
    encoding: Encoding,
    text: &[u8],
    table: &LineTable,
    extent: Extent,
    new: &[u8],
) -> Result<(), AllocError>
    requires { IsTable encoding text.now table.now }
    ensures { OnOk result (out.new.items ≡ out.old.items ++ edit_text encoding text.now extent new.now) }
{
    let start = table.start_of(extent.expected);
    let end = table.start_of(extent.end);
    add_range_member(out, start, end)?;
    add_pieces(
        out,
        &[
            Piece::Bytes(b",\"newText\":\""),
            Piece::Escaped(Json::Utf8, new),
            Piece::Bytes(b"\"}"),
        ],
    )
}

fn comma_if(later: bool) -> &'static [u8]
    ensures { result.now ≡ comma_if later }
{
    if later { b"," } else { b"" }
}

/// The script of a document, which of its directives are picked, and the lines of it that are asked about; all, if none are.
#[derive(Clone, Copy)]
struct Selection<'a> {
    encoding: Encoding,
    text: &'a [u8],
    layout: &'a ScriptLayout,
    picked: AcceptFilter<'a>,
    span: Option<LineSpan>,
}

/// A directive that ran: the line of its head, its block, and its output.
#[derive(Clone, Copy)]
pub(crate) struct RanBlock<'a> {
    pub(crate) line: usize,
    pub(crate) block: &'a Block,
    pub(crate) output: &'a Lines,
}

// Adds the edit of a directive after others, if it is wanted.
#[tactic(auto, unfolding(crate::specs::Actions::one_edit))]
fn add_one(
    alloc: Global,
    out: &mut Vec<u8>,
    selected: Selection<'_>,
    later: bool,
    ran: RanBlock<'_>,
) -> Result<bool, AllocError>
    requires lines { selected.layout.now.script.text ≡ lines selected.text.now }
    requires table { IsTable selected.encoding selected.text.now selected.layout.now.table }
    requires stands { StandsIn selected.layout.now.script.text ran.line ran.block.now }
    ensures out { OnOk result (out.new.items ≡ out.old.items ++ one_edit selected.entry.encoding selected.entry.text.now selected.entry.picked selected.entry.span later ran.entry.line ran.entry.block.now ran.entry.output.now) }
    ensures later { IfOk result (λ behind. behind ≡ (later || is_wanted selected.entry.picked selected.entry.span (lines selected.entry.text.now) ran.entry.line ran.entry.block.now ran.entry.output.now)) }
{
    let layout = selected.layout;
    if !is_wanted(
        selected.picked,
        selected.span,
        &layout.script.text,
        ran.line,
        ran.block,
        ran.output,
    ) {
        return Ok(later);
    }
    let text = selected.text;
    let extent = extent_of(&layout.script.text, ran.line, ran.block);
    let new = new_text(alloc, text, &layout.script.text, extent, ran.output)?;
    out.extend_from_slice(comma_if(later))?;
    add_edit(
        out,
        selected.encoding,
        text,
        &layout.table,
        extent,
        new.as_slice(),
    )?;
    Ok(true)
}

// Makes the edits of the directives on the selected lines.
fn edits<M: Machine>(
    alloc: Global,
    session: &Session<M>,
    selected: Selection<'_>,
) -> Result<Vec<u8>, AllocError>
    requires { IsLayout selected.encoding selected.text.now session.now.script selected.layout.now }
    ensures { IfOk result (λ edits. edits.items ≡ edits_of selected.entry.encoding selected.entry.text.now session.now.script selected.entry.picked selected.entry.span) }
{
    let mut out = Vec::new(alloc);
    let mut later = false;
    for i in 0..session.len() {
        let ran = RanBlock {
            line: number_at(selected.layout.script.heads.as_slice(), i),
            block: block_at(session, i),
            output: output_at(session, i),
        };
        later = add_one(alloc, &mut out, selected, later, ran)?;
    }
    Ok(out)
}

#[tactic(auto, unfolding(crate::specs::Actions::action_head))]
fn action_head(span: Option<LineSpan>) -> &'static [u8]
    ensures { result.now ≡ action_head span }
{
    match span {
        Some(_) => {
            b"{\"title\":\"Accept the actual output\",\"kind\":\"quickfix\",\"edit\":{\"changes\":{\""
        }
        None => {
            b"{\"title\":\"Accept all actual outputs\",\"kind\":\"source\",\"edit\":{\"changes\":{\""
        }
    }
}

#[tactic(auto, unfolding(crate::specs::Actions::action_text))]
fn add_action<'a>(
    out: &mut Vec<u8>,
    uri: &'a [u8],
    span: Option<LineSpan>,
    edits: &'a [u8],
) -> Result<(), AllocError>
    ensures { OnOk result (out.new.items ≡ out.old.items ++ action_text uri.now span edits.now) }
{
    add_pieces(
        out,
        &[
            Piece::Bytes(action_head(span)),
            Piece::Escaped(Json::Utf8, uri),
            Piece::Bytes(b"\":["),
            Piece::Bytes(edits),
            Piece::Bytes(b"]}}}"),
        ],
    )
}

// Adds an action of these edits after others, if there are any.
fn add_if(
    out: &mut Vec<u8>,
    uri: &[u8],
    span: Option<LineSpan>,
    later: bool,
    edits: &[u8],
) -> Result<(), AllocError>
    ensures { OnOk result (out.new.items ≡ out.old.items ++ action_if uri.now span later edits.now) }
{
    if edits.is_empty() {
        return Ok(());
    }
    out.extend_from_slice(comma_if(later))?;
    add_action(out, uri, span, edits)
}

// Adds a list of actions: the correction, and those that accept the edits of some lines and those of all.
#[tactic(auto, unfolding(crate::specs::Actions::actions_text))]
fn add_list(
    out: &mut Vec<u8>,
    uri: &[u8],
    correction: &[u8],
    span: LineSpan,
    here: &[u8],
    all: &[u8],
) -> Result<(), AllocError>
    ensures { OnOk result (out.new.items ≡ out.old.items ++ actions_text uri.now correction.now span here.now all.now) }
{
    let later = !correction.is_empty();
    out.extend_from_slice(b"[")?;
    out.extend_from_slice(correction)?;
    add_if(out, uri, Some(span), later, here)?;
    add_if(out, uri, None, later || !here.is_empty(), all)?;
    out.extend_from_slice(b"]")
}

/// Finds the lines on which a range begins and ends.
pub(crate) fn span_of(encoding: Encoding, range: Range, text: &[u8]) -> LineSpan
    ensures { result ≡ span_of encoding range text.now }
{
    LineSpan {
        first: line_at(encoding, range.start, text),
        last: line_at(encoding, range.end, text),
    }
}

// The directives that `check --accept` picks, if none is named: up to the first new error.
#[tactic(auto, using(crate::proofs::ActionLaws::picked_by))]
fn picked_of<M: Machine>(
    alloc: Global,
    run: &DocumentRun<M>,
) -> Result<AcceptFilter<'static>, AllocError>
    ensures { IfOk result (λ picked. picked ≡ picked_of run.now.bytes run.now.script) }
{
    picked_unnamed(alloc, run.session(), &run.layout().script, false)
}

// Adds the correction of these lines, and the actions that accept outputs.
#[tactic(auto, using(crate::proofs::RunLaws::layout_by))]
fn add_accepting<M: Machine>(
    alloc: Global,
    out: &mut Vec<u8>,
    encoding: Encoding,
    uri: &[u8],
    run: &DocumentRun<M>,
    span: LineSpan,
) -> Result<(), AllocError>
    requires encoding { run.now.encoding ≡ encoding }
    requires bounded { length run.now.bytes ≤ MAX_TEXT }
    ensures { OnOk result (out.new.items ≡ out.old.items ++ accepting encoding uri.now run.now.bytes run.now.script span) }
{
    let text = run.text();
    let session = run.session();
    let layout = run.layout();
    let everywhere = Selection {
        encoding,
        text,
        layout,
        picked: picked_of(alloc, run)?,
        span: None,
    };
    let selected = Selection {
        encoding,
        text,
        layout,
        picked: AcceptFilter::All,
        span: Some(span),
    };
    let document = AskedDocument {
        encoding,
        uri,
        text,
    };
    let correction = corrections(alloc, document, session, layout, span)?;
    let here = edits(alloc, session, selected)?;
    let all = edits(alloc, session, everywhere)?;
    add_list(
        out,
        uri,
        correction.as_slice(),
        span,
        here.as_slice(),
        all.as_slice(),
    )
}

// Adds the actions for a range of a script that ran: if a line looks like a mistake, its quick fix alone.
#[tactic(auto, using(crate::proofs::ActionLaws::of_run, crate::proofs::ActionLaws::of_slips, crate::proofs::RunLaws::table_by))]
fn add_of_run<M: Machine>(
    alloc: Global,
    out: &mut Vec<u8>,
    encoding: Encoding,
    range: Range,
    uri: &[u8],
    run: &DocumentRun<M>,
) -> Result<(), AllocError>
    requires encoding { run.now.encoding ≡ encoding }
    requires bounded { length run.now.bytes ≤ MAX_TEXT }
    ensures { OnOk result (out.new.items ≡ out.old.items ++ actions encoding range uri.now run.now.bytes) }
{
    let text = run.text();
    let layout = run.layout();
    let span = span_of(encoding, range, text);
    let slips = layout.slips.as_slice();
    if slips.is_empty() {
        return add_accepting(alloc, out, encoding, uri, run, span);
    }
    let found = first_within(span, slips);
    add_fixes(out, encoding, uri, text, &layout.table, found)
}

/// Adds the actions for a range of a document, by the kept run if it is that of its text: none if the text isn't a script.
#[tactic(auto, using(crate::proofs::ActionLaws::of_text, crate::proofs::ActionLaws::of_none))]
pub(crate) fn add_actions<M: Machine>(
    alloc: Global,
    out: &mut Vec<u8>,
    document: AskedDocument<'_, '_>,
    range: Range,
    kept: &Option<DocumentRun<M>>,
    meter: &mut M::Meter,
) -> Result<(), AllocError>
    requires bounded { length document.text.now ≤ MAX_TEXT }
    requires meter { M.Meter.count_of meter.old ≤ 2 ^ 61 }
    ensures { OnOk result (out.new.items ≡ out.old.items ++ actions document.entry.encoding range document.entry.uri.now document.entry.text.now) }
{
    let encoding = document.encoding;
    let uri = document.uri;
    if let Some(run) = kept_of(kept, encoding, document.text) {
        return add_of_run(alloc, out, encoding, range, uri, run);
    }
    match DocumentRun::<M>::fresh(alloc, encoding, document.text, meter)? {
        Some(run) => add_of_run(alloc, out, encoding, range, uri, &run),
        None => out.extend_from_slice(b"[]"),
    }
}
