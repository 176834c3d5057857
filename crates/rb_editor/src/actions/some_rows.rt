//! The rows that a page of a document has of some directives: a program that shows one asks for them after an edit.
//!
//! They are made from the last checkpoint of the kept session before them, so they cost what these directives cost, however long the script is.

ghost use Rattle.std.specs.Prelude.{◌≡◌, ◌+◌, ◌-◌, ◌≤◌, ◌^◌, ◌++◌, OnOk, length, min};
ghost use Rattle.rb_lsp.specs.declared.document.limits.TheConstants.{MAX_TEXT};
ghost use Rattle.rb_view.specs.Pages.{rows_joined};
ghost use Rattle.rb_editor.specs.SomeRows.{count_of, first_of, rows, rows_in, rows_text};

use crate::actions::bounded::BoundedCluster;
use crate::actions::document::AskedDocument;
use crate::actions::run::{DocumentRun, kept_of};
use crate::actions::work_meter::WorkMeter;
use rb_cluster::Meter;
use rb_lsp::server::ItemSpan;
use rb_machine::Count;
use rb_script::{Lines, Through};
use rb_view::look::machine_in_session;
use rb_view::steps::{SomeDirectives, put_steps, rows_of_some};
use std::alloc::{AllocError, Global};
use std::mem;

// How many of so many directives are before a span.
fn first_of(span: ItemSpan, count: usize) -> usize
    ensures value { result ≡ first_of span count }
    ensures within { result ≤ count }
{
    span.from.min(count as u64) as usize
}

// How many of so many directives are before those after it.
fn end_of(span: ItemSpan, count: usize) -> usize
    ensures value { result ≡ first_of span count + count_of span count }
    ensures order { first_of span count ≤ result }
    ensures within { result ≤ count }
{
    let first = first_of(span, count);
    first + span.count.min((count - first) as u64) as usize
}

// Adds rows after a row that names the document.
fn add_steps(out: &mut Vec<u8>, uri: &[u8], rows: &Lines) -> Result<(), AllocError>
    ensures { OnOk result (out.new.items ≡ out.old.items ++ rows_joined uri.now rows.now) }
{
    // The text itself is the sink.
    let nothing = Vec::new(*out.allocator());
    let mut sink = Through(mem::replace(out, nothing));
    let written = put_steps(&mut sink, uri, rows);
    *out = sink.0;
    match written {
        Ok(()) => Ok(()),
        Err(_) => Err(AllocError),
    }
}

// Adds the rows of a script that ran.
#[tactic(auto, using(crate::proofs::RunLaws::layout_by))]
fn add_rows_in(
    alloc: Global,
    out: &mut Vec<u8>,
    uri: &[u8],
    span: ItemSpan,
    run: &DocumentRun<BoundedCluster>,
    meter: &mut WorkMeter,
) -> Result<(), AllocError>
    requires { meter.old.count ≤ 2 ^ 62 }
    ensures { OnOk result (out.new.items ≡ out.old.items ++ rows span uri.now run.now.bytes) }
{
    let session = run.session();
    let layout = run.layout();
    let count = session.len();
    let from = first_of(span, count);
    let to = end_of(span, count);
    let heads = layout.script.heads.as_slice();
    let warnings = layout.slips.as_slice();
    let some = SomeDirectives {
        heads,
        warnings,
        from,
        to,
    };
    let bounded = machine_in_session(session, from, meter)?;
    let cluster = bounded.into_cluster();
    let rows = rows_of_some(alloc, session, some, cluster, &mut Meter::new())?;
    match rows {
        Some(rows) => add_steps(out, uri, &rows),
        None => out.extend_from_slice(b"null"),
    }
}

/// Adds the rows that a page of a document has of some directives, by the kept run if it is that of its text, and what follows the directives: `null`
/// if the text isn't a script, and if a page has no room for them.
#[tactic(auto, using(crate::proofs::SomeRowLaws::of_text, crate::proofs::SomeRowLaws::of_none))]
pub(crate) fn add_rows(
    alloc: Global,
    out: &mut Vec<u8>,
    document: AskedDocument<'_, '_>,
    span: ItemSpan,
    kept: &Option<DocumentRun<BoundedCluster>>,
    meter: &mut WorkMeter,
) -> Result<(), AllocError>
    requires bounded { length document.text.now ≤ MAX_TEXT }
    requires meter { meter.old.count ≤ 2 ^ 61 }
    ensures { OnOk result (out.new.items ≡ out.old.items ++ rows span document.entry.uri.now document.entry.text.now) }
{
    let encoding = document.encoding;
    if let Some(run) = kept_of(kept, encoding, document.text) {
        return add_rows_in(alloc, out, document.uri, span, run, meter);
    }
    match DocumentRun::<BoundedCluster>::fresh(alloc, encoding, document.text, meter)? {
        Some(run) => add_rows_in(alloc, out, document.uri, span, &run, meter),
        None => out.extend_from_slice(b"null"),
    }
}
