//! What a service is asked about a document.

ghost use Rattle.std.specs.Prelude.{◌≡◌};
ghost use Rattle.serde_json.specs.View.{view};
ghost use Rattle.rb_lsp.specs.Questions.{includes_definition, query_of, says_includes};

use crate::document::{Position, Range};
use crate::rpc::{position_at, range_at};
use crate::server::item_span::{ItemSpan, span_of};
use crate::server::method::Question;
use serde_json::Value;

/// A request about an open document.
#[derive(Clone, Copy, Debug, PartialEq, Eq)]
pub enum Query {
    /// Code actions for a range.
    CodeAction(Range),
    /// The formatting of the text.
    Formatting,
    /// The formatting of the directives in a range.
    RangeFormatting(Range),
    /// The hover at a position.
    Hover(Position),
    /// The rows that a page has of some items.
    Rows(ItemSpan),
    /// The completions at a position.
    Completion(Position),
    /// The folding ranges.
    FoldingRange,
    /// The symbols of the document.
    DocumentSymbol,
    /// The definition of what is at a position.
    Definition(Position),
    /// The references to what is at a position, and whether its definition is one.
    References(Position, bool),
    /// The places of the document to highlight, by a position.
    DocumentHighlight(Position),
    /// The code lenses.
    CodeLens,
    /// The inlay hints in a range.
    InlayHint(Range),
    /// What can be selected around a position.
    SelectionRange(Position),
}

// Whether a definition is one of its references: yes, unless the client says no.
fn includes_definition(params: &Value) -> bool
    ensures { result ≡ includes_definition (view params.now) }
{
    params
        .get("context")
        .and_then(says_includes)
        .unwrap_or(true)
}

// What the client says of that.
fn says_includes(context: &Value) -> Option<bool>
    ensures { result ≡ says_includes (view context.now) }
{
    context.get("includeDeclaration").and_then(Value::as_bool)
}

/// The query of a service, if it is one, and the method's parameters give it.
pub(crate) fn query_of(question: Question, params: &Value) -> Option<Query>
    ensures { result ≡ query_of question (view params.now) }
{
    match question {
        Question::CodeAction => Some(Query::CodeAction(range_at(params, "range")?)),
        Question::Formatting => Some(Query::Formatting),
        Question::RangeFormatting => Some(Query::RangeFormatting(range_at(params, "range")?)),
        Question::Hover => Some(Query::Hover(position_at(params, "position")?)),
        Question::Rows => Some(Query::Rows(span_of(params)?)),
        Question::Completion => Some(Query::Completion(position_at(params, "position")?)),
        Question::FoldingRange => Some(Query::FoldingRange),
        Question::DocumentSymbol => Some(Query::DocumentSymbol),
        Question::Definition => Some(Query::Definition(position_at(params, "position")?)),
        Question::References => Some(Query::References(
            position_at(params, "position")?,
            includes_definition(params),
        )),
        Question::DocumentHighlight => Some(Query::DocumentHighlight(position_at(
            params, "position",
        )?)),
        Question::CodeLens => Some(Query::CodeLens),
        Question::InlayHint => Some(Query::InlayHint(range_at(params, "range")?)),
        Question::Diagnostic | Question::SelectionRange => None,
    }
}
