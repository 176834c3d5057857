//! The language server of scripts.

ghost use Rattle.std.specs.Prelude.{◌≡◌, ◌≢◌, ◌≤◌, ◌++◌, ◌||◌, not, is_some, Err, None, Some, true, IfOk, OnErr, OnOk, length};
ghost use Rattle.rb_lsp.specs.declared.document.limits.TheConstants.{MAX_TEXT};
ghost use Rattle.rb_lsp.specs.Meanings.{can_reach, run_by};
ghost use Rattle.rb_lsp.specs.Notices.{reach_of};
ghost use Rattle.rb_lsp.specs.Serves.{BreaksOff, Served};
ghost use Rattle.rb_text.specs.Asked.{Fails};
ghost use Rattle.rb_editor.specs.Meanings.{answer, answer_by, meaning};
ghost use Rattle.rb_editor.specs.Served.{text_for};
ghost use Rattle.rb_editor.specs.Stops.{needs_run};
ghost use Rattle.rb_editor.specs.LastStops.{refused_by};

use crate::actions::action::add_actions;
use crate::actions::bounded::BoundedCluster;
use crate::actions::completing::{AskedPlace, add_completions};
use crate::actions::document::AskedDocument;
use crate::actions::hover::add_hover;
use crate::actions::inlay_hint::add_hints;
use crate::actions::lens::add_lenses;
use crate::actions::message_places::{add_definition, add_highlights, add_references};
use crate::actions::publishing::add_list;
use crate::actions::range_formatting::add_range_formatting;
use crate::actions::selection_range::add_selection;
use crate::actions::served::{shown, text_for};
use crate::actions::some_rows::add_rows;
use crate::actions::stopping::KeptRun;
use crate::actions::work_meter::WorkMeter;
use crate::offers::{add_folds, add_formatting, add_symbols};
use rb_lsp::server::{
    Client, DocumentQuery, ExitStatus, MAX_WORK, Query, ServeFault, Service, Stop, serve,
};
use rb_report::check::Table;
use rb_script::Sink;
use rb_text::Source;
use std::alloc::{AllocError, Global};

/// Knows what scripts mean to an editor.
#[derive(Drop)]
pub(crate) struct Bench {
    alloc: Global,
    table: Table,
}

impl Bench {
    // Makes one, with memory for comparing outputs.
    fn new(alloc: Global) -> Result<Bench, AllocError> {
        let table = Table::new(alloc)?;
        Ok(Bench { alloc, table })
    }
}

impl Service for Bench {
    type Kept = KeptRun<BoundedCluster>;

    ghost meaning = { meaning };

    ghost is_nothing = { λ kept. not (is_some kept.run || is_some kept.stopped) };

    fn nothing(&self) -> KeptRun<BoundedCluster> {
        KeptRun::none()
    }

    fn add_diagnostics(
        &mut self,
        client: Client,
        uri: &[u8],
        text: &[u8],
        kept: &mut KeptRun<BoundedCluster>,
        out: &mut Vec<u8>,
    ) -> Result<Option<Stop>, AllocError> {
        let alloc = self.alloc;
        let mut meter = WorkMeter::new(MAX_WORK);
        let document = AskedDocument {
            encoding: client.encoding,
            uri,
            text,
        };
        let found = shown(alloc, document, &mut self.table, kept, &mut meter)?;
        add_list(alloc, out, client, uri, text, found.list.as_slice())?;
        Ok(found.stop)
    }

    #[tactic(auto, using(crate::proofs::ServedLaws::stop_above))]
    fn add_answer(
        &mut self,
        asked: DocumentQuery<'_, '_>,
        kept: &KeptRun<BoundedCluster>,
        out: &mut Vec<u8>,
    ) -> Result<Option<Stop>, AllocError>
        requires { length asked.text.now ≤ MAX_TEXT }
        ensures added { IfOk result (λ stop. stop ≡ None → out.new.items ≡ out.old.items ++ answer asked.entry.client asked.entry.query asked.entry.uri.now asked.entry.text.now) }
        // It isn't done exactly if it needs a run that stopped, which is at a directive of the text.
        ensures stopped { IfOk result (λ stop. stop ≡ refused_by asked.entry.query kept.now.stopped (text_for asked.entry.query asked.entry.text.now)) }
        ensures stops { IfOk result (λ stop. can_reach meaning (run_by meaning asked.entry.query (Some asked.entry.text.now)) (reach_of stop) ≡ true) }
    {
        let text = text_for(self.alloc, asked.query, asked.text)?;
        if needs_run(asked.query)
            && let Some(stop) = kept.stop_of(text)
        {
            return Ok(Some(stop));
        }
        let front = DocumentQuery {
            client: asked.client,
            query: asked.query,
            uri: asked.uri,
            text,
        };
        self.add_result(front, kept, out)?;
        Ok(None)
    }
}

// Says whether the run of the text is needed for what is asked.
fn needs_run(asked: Query) -> bool
    ensures { result ≡ needs_run asked }
{
    matches!(
        asked,
        Query::CodeAction(_)
            | Query::Hover(_)
            | Query::CodeLens
            | Query::InlayHint(_)
            | Query::Rows(_)
    )
}

impl Bench {
    // Adds the result of a request by a text that was run whole. Showing a directive takes some more work.
    fn add_result(
        &self,
        asked: DocumentQuery<'_, '_>,
        kept: &KeptRun<BoundedCluster>,
        out: &mut Vec<u8>,
    ) -> Result<(), AllocError>
        requires { length asked.text.now ≤ MAX_TEXT }
        ensures { OnOk result (out.new.items ≡ out.old.items ++ answer_by asked.entry.client asked.entry.query asked.entry.uri.now asked.entry.text.now) }
    {
        let mut meter = WorkMeter::new(2 * MAX_WORK);
        let alloc = self.alloc;
        let run = &kept.run;
        let client = asked.client;
        let encoding = client.encoding;
        let text = asked.text;
        let document = AskedDocument {
            encoding,
            uri: asked.uri,
            text,
        };
        match asked.query {
            Query::CodeAction(range) => {
                add_actions(alloc, out, document, range, run, &mut meter)
            }
            Query::Formatting => add_formatting(alloc, out, encoding, text),
            Query::RangeFormatting(range) => {
                add_range_formatting(alloc, out, encoding, text, range)
            }
            Query::Hover(position) => add_hover(alloc, out, document, position, run, &mut meter),
            Query::Completion(position) => {
                let place = AskedPlace {
                    client,
                    text,
                    position,
                };
                add_completions(alloc, out, place, run, &mut meter)
            }
            Query::FoldingRange => add_folds(alloc, out, text),
            Query::DocumentSymbol => add_symbols(alloc, out, encoding, text),
            Query::Definition(position) => add_definition(alloc, out, document, position),
            Query::References(position, includes) => {
                add_references(alloc, out, document, position, includes)
            }
            Query::DocumentHighlight(position) => add_highlights(alloc, out, document, position),
            Query::CodeLens => add_lenses(alloc, out, client, document, run, &mut meter),
            Query::InlayHint(range) => {
                add_hints(alloc, out, client, (text, range), run, &mut meter)
            }
            Query::SelectionRange(position) => add_selection(alloc, out, encoding, text, position),
            Query::Rows(span) => add_rows(alloc, out, document, span, run, &mut meter),
        }
    }
}

/// Serves an editor until the end of the conversation.
///
/// # Errors
///
/// `Io` at the first error of the source or the sink; `OutOfMemory` if memory was refused.
pub fn lsp<S: Source, W: Sink>(
    alloc: Global,
    source: &mut S,
    sink: &mut W,
) -> Result<ExitStatus, ServeFault>
    // The output is the conversation over the bytes of the input, and the status is that of its end.
    ensures ok { IfOk result (λ status. Served meaning (S.left source.old) status (W.held sink.old) (W.held sink.new)) }
    // If a call fails, a beginning of it was written.
    ensures failed { OnErr result (BreaksOff meaning (S.left source.old) (W.held sink.old) (W.held sink.new)) }
    // A failed call of the source is reported as `Io`.
    ensures unfailed { result ≢ Err ServeFault.Io → Fails (S.asked source.old) (S.asked source.new) 0 }
{
    let mut bench = Bench::new(alloc)?;
    serve(alloc, &mut bench, source, sink)
}
