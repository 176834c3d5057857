//! What documents mean, which a server leaves to others.

ghost use Rattle.std.specs.Prelude.{◌≡◌, ◌≤◌, ◌++◌, Bool, None, Some, true, IfOk, length};
ghost use Rattle.rb_lsp.specs.declared.document.limits.TheConstants.{MAX_TEXT};
ghost use Rattle.rb_lsp.specs.Meanings.{Meaning, can_reach, run_by};
ghost use Rattle.rb_lsp.specs.Notices.{reach_of};

use crate::server::client::Client;
use crate::server::query::Query;
use crate::server::stop::Stop;
use std::alloc::AllocError;

/// A query about a document: the client, the query, the document's URI, and its text.
#[derive(Clone, Copy)]
pub struct DocumentQuery<'u, 't> {
    pub client: Client,
    pub query: Query,
    pub uri: &'u [u8],
    pub text: &'t [u8],
}

/// Knows what documents mean.
pub trait Service {
    /// Kept next to the text of an open document, so that the next text and requests cost less. Whatever it is, the
    /// diagnostics and the results are those of the text alone.
    type Kept: Drop;

    // the diagnostics of a text, and the results of requests about it
    ghost meaning: { Meaning };

    // whether nothing is kept
    ghost is_nothing: { Self.Kept → Bool };

    /// Kept for a document before its first text.
    fn nothing(&self) -> Self::Kept
        ensures { is_nothing result ≡ true };

    /// Adds the diagnostics of the text of a document, and keeps what it found out about the text. Returns where the run of the text stopped, if
    /// it had done [`crate::server::MAX_WORK`].
    fn add_diagnostics(
        &mut self,
        client: Client,
        uri: &[u8],
        text: &[u8],
        kept: &mut Self::Kept,
        out: &mut Vec<u8>,
    ) -> Result<Option<Stop>, AllocError>
        requires { length text.now ≤ MAX_TEXT }
        ensures added { IfOk result (λ stop. out.new.items ≡ out.old.items ++ (meaning).diagnose stop client uri.now text.now) }
        ensures stops { IfOk result (λ stop. can_reach (meaning) (Some text.now) (reach_of stop) ≡ true) };

    /// Adds the result of a query about a document. If it needs a run of the text and that stopped, returns where instead.
    fn add_answer(
        &mut self,
        asked: DocumentQuery<'_, '_>,
        kept: &Self::Kept,
        out: &mut Vec<u8>,
    ) -> Result<Option<Stop>, AllocError>
        requires { length asked.text.now ≤ MAX_TEXT }
        ensures added { IfOk result (λ stop. stop ≡ None → out.new.items ≡ out.old.items ++ (meaning).answer asked.entry.client asked.entry.query asked.entry.uri.now asked.entry.text.now) }
        ensures stops { IfOk result (λ stop. can_reach (meaning) (run_by (meaning) asked.entry.query (Some asked.entry.text.now)) (reach_of stop) ≡ true) };
}
