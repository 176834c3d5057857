//! Code lenses: at a directive whose output differs, what accepts it, and what opens the page there, as far as the client runs these commands.

ghost use Rattle.std.specs.Prelude.{◌≡◌, ◌≤◌, ◌^◌, ◌++◌, [], IfOk, OnOk, length};
ghost use Rattle.rb_script.specs.Lines.{lines};
ghost use Rattle.rb_lsp.specs.declared.document.limits.TheConstants.{MAX_TEXT};
ghost use Rattle.rb_lsp.specs.Tables.{IsTable};
ghost use Rattle.rb_editor.specs.BlockLines.{StandsIn};
ghost use Rattle.rb_editor.specs.Layouts.{IsLayout};
ghost use Rattle.rb_editor.specs.Texts.{list_text, listed};
ghost use Rattle.rb_editor.specs.Lenses.{accept_head, accept_if, accept_lens, accept_text, command_text, lens_text, lenses, lenses_at, lenses_by, lenses_in, page_if, page_text};

use crate::actions::action::{RanBlock, add_edit, is_accepted};
use crate::actions::document::AskedDocument;
use crate::actions::extent::{Extent, extent_of};
use crate::actions::replacement::new_text;
use crate::actions::run::{DocumentRun, RunView, kept_of};
use crate::offers::add_range_member;
use rb_lsp::document::LineTable;
use rb_lsp::server::Client;
use rb_machine::{Count, Machine};
use rb_script::Lines;
use rb_script_report::{AcceptFilter, block_at, is_same, number_at, output_at};
use rb_text::{Json, Piece, add_pieces};
use std::alloc::{AllocError, Global};
use std::marker::Model;

/// What accepts the output of a directive: the directive's lines, and the text that replaces its expectation.
#[derive(Drop)]
pub(crate) struct Acceptance {
    pub(crate) extent: Extent,
    pub(crate) new: Vec<u8>,
}

impl Model for Acceptance {
    ghost use Rattle.rb_editor.specs.Lenses.{PlainAcceptance};

    ghost Value = { PlainAcceptance };

    ghost view = { λ a. record { extent = a.extent; new = a.new.items } };
}

/// A lens on the line of a directive's head, which counts from 1. If it accepts nothing, it opens the page.
#[derive(Drop)]
pub(crate) struct Lens {
    pub(crate) line: usize,
    pub(crate) accepts: Option<Acceptance>,
}

impl Model for Lens {
    ghost use Rattle.rb_editor.specs.Lenses.{PlainLens};

    ghost Value = { PlainLens };

    ghost view = { λ l. record { line = l.line; accepts = l.accepts } };
}

/// Which lenses a client takes: those that accept outputs, and those that open pages.
#[derive(Clone, Copy)]
struct WantedLenses {
    accepts: bool,
    opens: bool,
}

// ---- which there are

// Makes the lens that accepts the output of a directive.
fn accept_lens(
    alloc: Global,
    text: &[u8],
    all: &Lines,
    ran: RanBlock<'_>,
) -> Result<Lens, AllocError>
    requires lines { all.now ≡ lines text.now }
    requires stands { StandsIn all.now ran.line ran.block.now }
    ensures { IfOk result (λ lens. lens ≡ accept_lens text.now ran.entry.line ran.entry.block.now ran.entry.output.now) }
{
    let extent = extent_of(all, ran.line, ran.block);
    let new = new_text(alloc, text, all, extent, ran.output)?;
    Ok(Lens {
        line: ran.line,
        accepts: Some(Acceptance { extent, new }),
    })
}

// Adds it, if it is wanted, and the output differs and is no new error.
fn add_accept_if(
    alloc: Global,
    list: &mut Vec<Lens>,
    accepts: bool,
    text: &[u8],
    all: &Lines,
    ran: RanBlock<'_>,
) -> Result<(), AllocError>
    requires lines { all.now ≡ lines text.now }
    requires stands { StandsIn all.now ran.line ran.block.now }
    ensures { OnOk result (list.new.items ≡ list.old.items ++ accept_if accepts text.now ran.entry.line ran.entry.block.now ran.entry.output.now) }
{
    if accepts && is_accepted(AcceptFilter::All, all, ran.line, ran.block, ran.output) {
        list.push(accept_lens(alloc, text, all, ran)?)?;
    }
    Ok(())
}

// Adds the lens that opens the page, if it is wanted and the output differs.
fn add_page_if(list: &mut Vec<Lens>, opens: bool, ran: RanBlock<'_>) -> Result<(), AllocError>
    ensures { OnOk result (list.new.items ≡ list.old.items ++ page_if opens ran.entry.line ran.entry.block.now ran.entry.output.now) }
{
    if opens && !is_same(ran.block.expected(), ran.output) {
        list.push(Lens {
            line: ran.line,
            accepts: None,
        })?;
    }
    Ok(())
}

// Adds the lenses of a directive.
fn add_at(
    alloc: Global,
    list: &mut Vec<Lens>,
    wanted: WantedLenses,
    text: &[u8],
    all: &Lines,
    ran: RanBlock<'_>,
) -> Result<(), AllocError>
    requires lines { all.now ≡ lines text.now }
    requires stands { StandsIn all.now ran.line ran.block.now }
    ensures { OnOk result (list.new.items ≡ list.old.items ++ lenses_at wanted.accepts wanted.opens text.now ran.entry.line ran.entry.block.now ran.entry.output.now) }
{
    add_accept_if(alloc, list, wanted.accepts, text, all, ran)?;
    add_page_if(list, wanted.opens, ran)
}

// Makes the lenses of the directives of a script that ran.
fn lenses_by<M: Machine>(
    alloc: Global,
    wanted: WantedLenses,
    run: RunView<'_, M>,
) -> Result<Vec<Lens>, AllocError>
    requires { IsLayout run.encoding run.text.now run.session.now.script run.layout.now }
    ensures { IfOk result (λ list. list.items ≡ lenses_by wanted.accepts wanted.opens run.entry.text.now run.entry.session.now.script) }
{
    let all = &run.layout.script;
    let mut list = Vec::new(alloc);
    for i in 0..run.session.len() {
        let ran = RanBlock {
            line: number_at(all.heads.as_slice(), i),
            block: block_at(run.session, i),
            output: output_at(run.session, i),
        };
        add_at(alloc, &mut list, wanted, run.text, &all.text, ran)?;
    }
    Ok(list)
}

// Makes the lenses of the text of a run that a client takes.
#[tactic(auto, using(crate::proofs::LensLaws::wanted_by))]
fn lenses_in<M: Machine>(
    alloc: Global,
    client: Client,
    run: RunView<'_, M>,
) -> Result<Vec<Lens>, AllocError>
    requires { IsLayout run.encoding run.text.now run.session.now.script run.layout.now }
    ensures { IfOk result (λ list. list.items ≡ lenses_in client run.entry.text.now run.entry.session.now.script) }
{
    let slips = run.layout.slips.as_slice();
    let wanted = WantedLenses {
        accepts: client.runs_accept && slips.is_empty(),
        opens: client.opens_pages,
    };
    lenses_by(alloc, wanted, run)
}

// ---- as they are sent

// A command that accepts an output, up to the document's URI.
#[tactic(auto, unfolding(crate::specs::Lenses::accept_head))]
fn accept_head() -> &'static [u8]
    ensures { result.now ≡ accept_head }
{
    b",\"command\":{\"title\":\"Accept the actual output\",\"command\":\"raftbench.accept\",\"arguments\":[{\"changes\":{\""
}

// Adds the command that accepts an output.
#[tactic(auto, unfolding(crate::specs::Lenses::accept_text))]
fn add_accept(
    out: &mut Vec<u8>,
    document: AskedDocument<'_, '_>,
    table: &LineTable,
    acceptance: &Acceptance,
) -> Result<(), AllocError>
    requires { IsTable document.encoding document.text.now table.now }
    ensures { OnOk result (out.new.items ≡ out.old.items ++ accept_text document.entry.encoding document.entry.uri.now document.entry.text.now acceptance.now) }
{
    add_pieces(
        out,
        &[
            Piece::Bytes(accept_head()),
            Piece::Escaped(Json::Utf8, document.uri),
            Piece::Bytes(b"\":["),
        ],
    )?;
    let new = acceptance.new.as_slice();
    add_edit(
        out,
        document.encoding,
        document.text,
        table,
        acceptance.extent,
        new,
    )?;
    out.extend_from_slice(b"]}}]}}")
}

// Adds the command that opens the page of a document at a head.
#[tactic(auto, unfolding(crate::specs::Lenses::page_text))]
fn add_page(out: &mut Vec<u8>, uri: &[u8], line: usize) -> Result<(), AllocError>
    ensures { OnOk result (out.new.items ≡ out.old.items ++ page_text uri.now line) }
{
    add_pieces(
        out,
        &[
            Piece::Bytes(
                b",\"command\":{\"title\":\"Open the page here\",\"command\":\"raftbench.openPage\",\"arguments\":[\"",
            ),
            Piece::Escaped(Json::Utf8, uri),
            Piece::Bytes(b"\","),
            Piece::Number(line as u64),
            Piece::Bytes(b"]}}"),
        ],
    )
}

// Adds the command of a lens.
fn add_command(
    out: &mut Vec<u8>,
    document: AskedDocument<'_, '_>,
    table: &LineTable,
    lens: &Lens,
) -> Result<(), AllocError>
    requires { IsTable document.encoding document.text.now table.now }
    ensures { OnOk result (out.new.items ≡ out.old.items ++ command_text document.entry.encoding document.entry.uri.now document.entry.text.now lens.now.line lens.now.accepts) }
{
    match &lens.accepts {
        Some(acceptance) => add_accept(out, document, table, acceptance),
        None => add_page(out, document.uri, lens.line),
    }
}

// Adds a lens of a document, whose lines are in the table.
#[tactic(auto, unfolding(crate::specs::Lenses::lens_text))]
fn add_lens(
    out: &mut Vec<u8>,
    document: AskedDocument<'_, '_>,
    table: &LineTable,
    lens: &Lens,
) -> Result<(), AllocError>
    requires { IsTable document.encoding document.text.now table.now }
    ensures { OnOk result (out.new.items ≡ out.old.items ++ lens_text document.entry.encoding document.entry.uri.now document.entry.text.now lens.now) }
{
    let place = table.start_of(lens.line.saturating_sub(1));
    add_range_member(out, place, place)?;
    add_command(out, document, table, lens)
}

// Adds lenses, separated by commas, and the end of the list.
fn add_all(
    out: &mut Vec<u8>,
    document: AskedDocument<'_, '_>,
    table: &LineTable,
    list: &[Lens],
) -> Result<(), AllocError>
    requires { IsTable document.encoding document.text.now table.now }
    ensures { OnOk result (out.new.items ≡ out.old.items ++ listed (lens_text document.entry.encoding document.entry.uri.now document.entry.text.now) [] list.now) }
{
    let mut lead: &[u8] = b"";
    for lens in list {
        out.extend_from_slice(lead)?;
        add_lens(out, document, table, lens)?;
        lead = b",";
    }
    out.extend_from_slice(b"]")?;
    Ok(())
}

// Adds lenses of a document, as a list.
#[tactic(auto, unfolding(crate::specs::Texts::list_text))]
fn add_list(
    out: &mut Vec<u8>,
    document: AskedDocument<'_, '_>,
    table: &LineTable,
    list: &[Lens],
) -> Result<(), AllocError>
    requires { IsTable document.encoding document.text.now table.now }
    ensures { OnOk result (out.new.items ≡ out.old.items ++ list_text (lens_text document.entry.encoding document.entry.uri.now document.entry.text.now) list.now) }
{
    out.extend_from_slice(b"[")?;
    add_all(out, document, table, list)
}

// Adds the lenses of a script that ran.
#[tactic(auto, using(crate::proofs::LensLaws::of_run, crate::proofs::RunLaws::layout_by))]
fn add_of_run<M: Machine>(
    alloc: Global,
    out: &mut Vec<u8>,
    client: Client,
    uri: &[u8],
    run: &DocumentRun<M>,
) -> Result<(), AllocError>
    requires { run.now.encoding ≡ client.encoding }
    ensures { OnOk result (out.new.items ≡ out.old.items ++ lenses client uri.now run.now.bytes) }
{
    let encoding = client.encoding;
    let text = run.text();
    let session = run.session();
    let layout = run.layout();
    let view = RunView {
        encoding,
        text,
        session,
        layout,
    };
    let list = lenses_in(alloc, client, view)?;
    let document = AskedDocument {
        encoding,
        uri,
        text,
    };
    add_list(out, document, &layout.table, list.as_slice())?;
    Ok(())
}

/// Adds the lenses of a document, as the result of `textDocument/codeLens`, by the kept run if it is that of its text: none if the text isn't a script.
///
/// # Errors
///
/// If memory was refused. A part of the result may have been added then.
#[tactic(auto, using(crate::proofs::LensLaws::of_text, crate::proofs::LensLaws::of_none))]
pub(crate) fn add_lenses<M: Machine>(
    alloc: Global,
    out: &mut Vec<u8>,
    client: Client,
    document: AskedDocument<'_, '_>,
    kept: &Option<DocumentRun<M>>,
    meter: &mut M::Meter,
) -> Result<(), AllocError>
    requires bounded { length document.text.now ≤ MAX_TEXT }
    requires meter { M.Meter.count_of meter.old ≤ 2 ^ 61 }
    ensures { OnOk result (out.new.items ≡ out.old.items ++ lenses client document.entry.uri.now document.entry.text.now) }
{
    let encoding = client.encoding;
    if let Some(run) = kept_of(kept, encoding, document.text) {
        return add_of_run(alloc, out, client, document.uri, run);
    }
    match DocumentRun::<M>::fresh(alloc, encoding, document.text, meter)? {
        Some(run) => add_of_run(alloc, out, client, document.uri, &run),
        None => out.extend_from_slice(b"[]"),
    }
}
