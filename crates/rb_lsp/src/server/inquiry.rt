//! What a client asks about an open document.

ghost use Rattle.std.specs.Prelude.{◌≡◌, option_map};
ghost use Rattle.serde_json.specs.View.{view};
ghost use Rattle.rb_lsp.specs.Questions.{asked_of};
ghost use Rattle.rb_lsp.specs.Inquiries.{inquiry_of};

use crate::rpc::text_at;
use crate::server::method::Question;
use crate::server::query::{Query, query_of};
use serde_json::Value;

/// What a client asks about an open document.
#[derive(Clone, Copy)]
pub(crate) enum Inquiry<'a> {
    /// A query of the service.
    One(Query),
    /// The report of its diagnostics, and the id of the report that the client has.
    Report(Option<&'a str>),
    /// What can be selected around each of these values that is a position.
    Selections(&'a [Value]),
}

/// What is asked, if the method's parameters give it.
pub(crate) fn asked_of(question: Question, params: &Value) -> Option<Inquiry<'_>>
    ensures { option_map inquiry_of result ≡ asked_of question (view params.now) }
{
    match question {
        Question::Diagnostic => Some(Inquiry::Report(text_at(params, "previousResultId"))),
        Question::SelectionRange => {
            let places = params.get("positions").and_then(Value::as_array)?;
            Some(Inquiry::Selections(places.as_slice()))
        }
        _ => Some(Inquiry::One(query_of(question, params)?)),
    }
}
