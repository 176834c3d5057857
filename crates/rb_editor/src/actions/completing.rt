//! Completion with the ids of the cluster's nodes.

ghost use Rattle.std.specs.Prelude.{◌≡◌, ◌≤◌, ◌^◌, ◌++◌, IfOk, OnOk, length};
ghost use Rattle.rb_lsp.specs.declared.document.limits.TheConstants.{MAX_TEXT};
ghost use Rattle.rb_editor.specs.Completing.{complete, nodes_above, nodes_at};

use crate::actions::run::DocumentRun;
use crate::offers::{CompletionPlace, add_completion};
use rb_lsp::document::Position;
use rb_lsp::server::Client;
use rb_machine::{Count, Machine};
use rb_replay::Session;
use rb_script::{Script, ScriptFault};
use rb_view::look::{Nodes, nodes_after};
use std::alloc::{AllocError, Global};

fn session_of<M: Machine>(kept: &Option<DocumentRun<M>>) -> Option<&Session<M>> {
    match kept {
        Some(run) => Some(run.session()),
        None => None,
    }
}

// Counts the nodes after a text, from the last checkpoint that the kept session has on the way; none if the text isn't a script.
fn nodes_above<M: Nodes>(
    alloc: Global,
    text: &[u8],
    kept: &Option<DocumentRun<M>>,
    meter: &mut M::Meter,
) -> Result<usize, AllocError>
    requires { M.Meter.count_of meter.old ≤ 2 ^ 61 }
    ensures { IfOk result (λ n. n ≡ nodes_above text.now) }
{
    match Script::read(alloc, text) {
        Ok(script) => nodes_after(alloc, session_of(kept), &script, meter),
        Err(ScriptFault::OutOfMemory) => Err(AllocError),
        Err(_) => Ok(0),
    }
}

// Counts the nodes above the block of a place, if ids are offered there.
fn nodes_at<M: Nodes>(
    alloc: Global,
    text: &[u8],
    place: &CompletionPlace,
    kept: &Option<DocumentRun<M>>,
    meter: &mut M::Meter,
) -> Result<usize, AllocError>
    requires block { place.now.block ≤ length text.now }
    requires meter { M.Meter.count_of meter.old ≤ 2 ^ 61 }
    ensures { IfOk result (λ n. n ≡ nodes_at text.now place.now) }
{
    if !place.takes_ids() {
        return Ok(0);
    }
    nodes_above(alloc, &text[..place.block()], kept, meter)
}

/// A position of a text, at which a client asks for completions.
#[derive(Clone, Copy)]
pub(crate) struct AskedPlace<'t> {
    pub(crate) client: Client,
    pub(crate) text: &'t [u8],
    pub(crate) position: Position,
}

/// Adds the words that a document can continue with at a position. The ids of nodes are those of the cluster after the directives above, which
/// the kept session runs from its last checkpoint that they share.
#[tactic(auto, unfolding(crate::specs::Completing::complete))]
pub(crate) fn add_completions<M: Nodes>(
    alloc: Global,
    out: &mut Vec<u8>,
    asked: AskedPlace<'_>,
    kept: &Option<DocumentRun<M>>,
    meter: &mut M::Meter,
) -> Result<(), AllocError>
    requires bounded { length asked.text.now ≤ MAX_TEXT }
    requires meter { M.Meter.count_of meter.old ≤ 2 ^ 61 }
    ensures { OnOk result (out.new.items ≡ out.old.items ++ complete asked.entry.client asked.entry.position asked.entry.text.now) }
{
    let AskedPlace {
        client,
        text,
        position,
    } = asked;
    let place = CompletionPlace::find(alloc, client.encoding, text, position)?;
    let nodes = nodes_at(alloc, text, &place, kept, meter)?;
    add_completion(alloc, out, client, text, &place, nodes)
}
