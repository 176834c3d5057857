//! Hover: what is shown of a position in a script.

ghost use Rattle.std.specs.Prelude.{◌≡◌, ◌+◌, ◌≤◌, ◌^◌, ◌++◌, Some, IfOk, OnOk, length, slice_get};
ghost use Rattle.rb_script.specs.declared.limits.TheConstants.{MAX_DIRECTIVES};
ghost use Rattle.rb_replay.specs.Run.{outputs};
ghost use Rattle.rb_view.specs.Looks.{looked};
ghost use Rattle.rb_lsp.specs.declared.document.limits.TheConstants.{MAX_TEXT};
ghost use Rattle.rb_lsp.specs.Tables.{IsTable};
ghost use Rattle.rb_editor.specs.Heads.{heads_of};
ghost use Rattle.rb_editor.specs.Layouts.{IsLayout, line_at};
ghost use Rattle.rb_editor.specs.Hovers.{explained, explained_line, hover, hover_in, hover_text, reasons_at, shown};
ghost use Rattle.rb_report.specs.Whys.{below, reason_at};

use crate::actions::document::AskedDocument;
use crate::actions::explain::Explains;
use crate::actions::extent::{Extent, LineSpan, extent_of, has_line};
use crate::actions::layout::line_at;
use crate::actions::run::{DocumentRun, RunView, kept_of};
use crate::offers::add_range_member;
use rb_lsp::document::{Encoding, LineTable, Position};
use rb_machine::{Count, Machine};
use rb_replay::Session;
use rb_script::{Block, Lines};
use rb_script_report::{block_at, number_at, output_at};
use rb_text::{Json, Piece, add_pieces};
use rb_view::look::{look_in, machine_in_session};
use std::alloc::{AllocError, Global};

// Gives the reason below the line at an index; an empty one if there is none.
fn reason_or_none(reasons: &Lines, index: usize) -> &[u8]
    ensures { below result.now ≡ reason_at reasons.now index }
{
    if index < reasons.len() {
        reasons.line(index)
    } else {
        b""
    }
}

// Adds a line of an output, and the reason below it.
fn add_explained(
    out: &mut Vec<u8>,
    reasons: &Lines,
    index: usize,
    line: &[u8],
) -> Result<(), AllocError>
    ensures { OnOk result (out.new.items ≡ out.old.items ++ explained_line reasons.now index line.now) }
{
    out.extend_from_slice(line)?;
    out.extend_from_slice(b"\n")?;
    let reason = reason_or_none(reasons, index);
    if reason.is_empty() {
        return Ok(());
    }
    add_pieces(
        out,
        &[
            Piece::Bytes(b"^ "),
            Piece::Bytes(reason),
            Piece::Bytes(b"\n"),
        ],
    )
}

// Makes a text of an output with its reasons.
fn explained(alloc: Global, reasons: &Lines, output: &Lines) -> Result<Vec<u8>, AllocError>
    ensures { IfOk result (λ text. text.items ≡ explained reasons.now 0 output.now) }
{
    let mut out = Vec::new(alloc);
    for i in 0..output.len() {
        add_explained(&mut out, reasons, i, output.line(i))?;
    }
    Ok(out)
}

// Makes the text that is shown of the directive at an index, which counts from 0: its output with reasons, an empty line, and the cluster after it.
#[tactic(auto, using(crate::proofs::HoverLaws::seen_after))]
fn shown_at<M: Explains>(
    alloc: Global,
    session: &Session<M>,
    index: usize,
    block: &Block,
    output: &Lines,
    meter: &mut M::Meter,
) -> Result<Vec<u8>, AllocError>
    requires there { slice_get session.now.script.blocks index ≡ Some block.now }
    requires few { length session.now.script.blocks ≤ MAX_DIRECTIVES }
    requires meter { M.Meter.count_of meter.old ≤ 2 ^ 62 }
    ensures { IfOk result (λ text. text.items ≡ shown output.now (reasons_at session.now.script index block.now) (looked session.now.script (index + 1))) }
{
    let machine = machine_in_session(session, index, meter)?;
    let (after, reasons) = machine.explain(alloc, &block.directive())?;
    let seen = look_in(alloc, &after, meter)?;
    let mut text = explained(alloc, &reasons, output)?;
    text.push(b'\n')?;
    text.extend_from_slice(seen.text())?;
    Ok(text)
}

// Adds a text for the lines of a directive.
#[tactic(auto, unfolding(crate::specs::Hovers::hover_text))]
fn add_hover_text(
    out: &mut Vec<u8>,
    encoding: Encoding,
    text: &[u8],
    table: &LineTable,
    extent: Extent,
    shown: &[u8],
) -> Result<(), AllocError>
    requires { IsTable encoding text.now table.now }
    ensures { OnOk result (out.new.items ≡ out.old.items ++ hover_text encoding text.now extent shown.now) }
{
    let start = table.start_of(extent.head);
    let end = table.start_of(extent.end);
    add_range_member(out, start, end)?;
    add_pieces(
        out,
        &[
            Piece::Bytes(b",\"contents\":{\"kind\":\"plaintext\",\"value\":\""),
            Piece::Escaped(Json::Utf8, shown),
            Piece::Bytes(b"\"}}"),
        ],
    )
}

// Adds what is shown of a line of a script that ran, whose layout this is.
fn add_line<M: Explains>(
    alloc: Global,
    out: &mut Vec<u8>,
    run: RunView<'_, M>,
    line: usize,
    meter: &mut M::Meter,
) -> Result<(), AllocError>
    requires layout { IsLayout run.encoding run.text.now run.session.now.script run.layout.now }
    requires meter { M.Meter.count_of meter.old ≤ 2 ^ 62 }
    ensures { OnOk result (out.new.items ≡ out.old.items ++ hover_in run.entry.encoding run.entry.text.now run.entry.session.now.script line 0 (heads_of run.entry.text.now run.entry.session.now.script) run.entry.session.now.script.blocks (outputs run.entry.session.now.script)) }
{
    let span = LineSpan {
        first: line,
        last: line,
    };
    for i in 0..run.session.len() {
        let head = number_at(run.layout.script.heads.as_slice(), i);
        let block = block_at(run.session, i);
        let output = output_at(run.session, i);
        let extent = extent_of(&run.layout.script.text, head, block);
        if has_line(span, extent) {
            let shown = shown_at(alloc, run.session, i, block, output, meter)?;
            let table = &run.layout.table;
            add_hover_text(out, run.encoding, run.text, table, extent, shown.as_slice())?;
            return Ok(());
        }
    }
    out.extend_from_slice(b"null")?;
    Ok(())
}

// Adds what is shown of a position in a script that ran.
#[tactic(auto, using(crate::proofs::HoverLaws::of_run, crate::proofs::RunLaws::layout_by))]
fn add_position<M: Explains>(
    alloc: Global,
    out: &mut Vec<u8>,
    encoding: Encoding,
    position: Position,
    run: &DocumentRun<M>,
    meter: &mut M::Meter,
) -> Result<(), AllocError>
    requires encoding { run.now.encoding ≡ encoding }
    requires meter { M.Meter.count_of meter.old ≤ 2 ^ 62 }
    ensures { OnOk result (out.new.items ≡ out.old.items ++ hover encoding position run.now.bytes) }
{
    let text = run.text();
    let line = line_at(encoding, position, text);
    let session = run.session();
    let layout = run.layout();
    let view = RunView {
        encoding,
        text,
        session,
        layout,
    };
    add_line(alloc, out, view, line, meter)
}

/// Adds what is shown of a position in a document, by the kept run if it is that of its text: `null` if no directive is there, and if the text
/// isn't a script.
#[tactic(auto, using(crate::proofs::HoverLaws::of_text, crate::proofs::HoverLaws::of_none))]
pub(crate) fn add_hover<M: Explains>(
    alloc: Global,
    out: &mut Vec<u8>,
    document: AskedDocument<'_, '_>,
    position: Position,
    kept: &Option<DocumentRun<M>>,
    meter: &mut M::Meter,
) -> Result<(), AllocError>
    requires bounded { length document.text.now ≤ MAX_TEXT }
    requires meter { M.Meter.count_of meter.old ≤ 2 ^ 61 }
    ensures { OnOk result (out.new.items ≡ out.old.items ++ hover document.entry.encoding position document.entry.text.now) }
{
    let encoding = document.encoding;
    if let Some(run) = kept_of(kept, encoding, document.text) {
        return add_position(alloc, out, encoding, position, run, meter);
    }
    match DocumentRun::<M>::fresh(alloc, encoding, document.text, meter)? {
        Some(run) => add_position(alloc, out, encoding, position, &run, meter),
        None => out.extend_from_slice(b"null"),
    }
}
