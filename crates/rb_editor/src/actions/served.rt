//! The text that is served to an editor: a script, or the text above the block with the first fault.
//!
//! While a directive is being written, a text is often not a script. What is above is a script still, and is served as one; the fault has a mark.

ghost use Rattle.std.specs.Prelude.{◌≡◌, ◌≤◌, ◌++◌, true, IfOk, IfSome, OnOk, length};
ghost use Rattle.rb_lsp.specs.declared.document.limits.TheConstants.{MAX_TEXT};
ghost use Rattle.rb_editor.specs.Served.{above_fault, block_line, fault_of, marks, may_stop_above, served, shown, text_for};

use crate::actions::above::above;
use crate::actions::bounded::Bounded;
use crate::actions::diagnostic::Diagnostic;
use crate::actions::document::AskedDocument;
use crate::actions::findings::{or_first, refused};
use crate::actions::stopping::{BoundedFindings, KeptRun, of_text};
use crate::offers::begun_lines;
use rb_lsp::server::Query;
use rb_report::check::{Table, fault_line};
use rb_script::{Script, ScriptFault, lines_of};
use std::alloc::{AllocError, Global};

// Finds why a text isn't a script, if it isn't one.
#[tactic(auto, using(crate::proofs::ServedLaws::fault_none, crate::proofs::ServedLaws::fault_some))]
fn fault_of(alloc: Global, text: &[u8]) -> Result<Option<ScriptFault>, AllocError>
    ensures { IfOk result (λ fault. fault ≡ fault_of text.now) }
{
    match Script::read(alloc, text) {
        Ok(_) => Ok(None),
        Err(ScriptFault::OutOfMemory) => Err(AllocError),
        Err(fault) => Ok(Some(fault)),
    }
}

// Finds the line of the head of the block that has this line; the line itself if it is in none.
fn block_line(alloc: Global, line: usize, text: &[u8]) -> Result<usize, AllocError>
    ensures { IfOk result (λ head. head ≡ block_line line text.now) }
{
    let lines = lines_of(alloc, above(text, line))?;
    Ok(line.saturating_sub(begun_lines(&lines)))
}

// Gives the text above the block with this fault; all of it if there is none.
fn above_fault<'t>(
    alloc: Global,
    text: &'t [u8],
    fault: Option<ScriptFault>,
) -> Result<&'t [u8], AllocError>
    ensures text { IfOk result (λ front. front.now ≡ above_fault text.now fault) }
    ensures within { IfOk result (λ front. length front.now ≤ length text.now) }
{
    match fault {
        None => Ok(text),
        Some(fault) => {
            let line = block_line(alloc, or_first(fault_line(fault)), text)?;
            Ok(above(text, line))
        }
    }
}

/// Gives the text that is served.
///
/// # Errors
///
/// If memory was refused.
#[tactic(auto, using(crate::proofs::ServedLaws::of_fault))]
pub(crate) fn served(alloc: Global, text: &[u8]) -> Result<&[u8], AllocError>
    ensures text { IfOk result (λ front. front.now ≡ served text.now) }
    ensures within { IfOk result (λ front. length front.now ≤ length text.now) }
{
    let fault = fault_of(alloc, text)?;
    above_fault(alloc, text, fault)
}

/// Gives the text by which a request is answered. A text that isn't a script isn't formatted, has no rows, and can be completed anywhere; messages
/// are found in all of it, and pieces of all lines are selected.
///
/// # Errors
///
/// If memory was refused.
pub(crate) fn text_for(alloc: Global, asked: Query, text: &[u8]) -> Result<&[u8], AllocError>
    ensures text { IfOk result (λ front. front.now ≡ text_for asked text.now) }
    ensures within { IfOk result (λ front. length front.now ≤ length text.now) }
{
    match asked {
        Query::CodeAction(_)
        | Query::Hover(_)
        | Query::FoldingRange
        | Query::DocumentSymbol
        | Query::CodeLens
        | Query::InlayHint(_) => served(alloc, text),
        _ => Ok(text),
    }
}

// Adds the mark of a fault, if there is one.
fn add_mark(
    alloc: Global,
    list: &mut Vec<Diagnostic>,
    fault: Option<ScriptFault>,
) -> Result<(), AllocError>
    ensures { OnOk result (list.new.items ≡ list.old.items ++ marks fault) }
{
    match fault {
        None => Ok(()),
        Some(fault) => Ok(list.push(refused(alloc, fault)?)?),
    }
}

/// Makes the diagnostics of the text of a document, as far as one fresh run of it goes: those of the text that is served, and the mark of the fault.
///
/// # Errors
///
/// If memory was refused.
#[tactic(auto, using(crate::proofs::ServedLaws::shown_by, crate::proofs::ServedLaws::may_stop_by))]
pub(crate) fn shown<M: Bounded>(
    alloc: Global,
    document: AskedDocument<'_, '_>,
    table: &mut Table,
    kept: &mut KeptRun<M>,
    meter: &mut M::Meter,
) -> Result<BoundedFindings, AllocError>
    requires { length document.text.now ≤ MAX_TEXT }
    ensures list { IfOk result (λ found. found.list.items ≡ shown found.stop document.entry.text.now) }
    ensures head { IfOk result (λ found. IfSome found.stop (λ stop. may_stop_above document.entry.text.now stop ≡ true)) }
{
    let fault = fault_of(alloc, document.text)?;
    let front = AskedDocument {
        encoding: document.encoding,
        uri: document.uri,
        text: above_fault(alloc, document.text, fault)?,
    };
    let mut found = of_text(alloc, front, table, kept, meter)?;
    add_mark(alloc, &mut found.list, fault)?;
    Ok(found)
}
