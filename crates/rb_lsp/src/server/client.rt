//! What a server knows of its client.

use crate::document::Encoding;

/// What a client says of itself in `initialize`.
#[derive(Clone, Copy, Debug, PartialEq, Eq)]
pub struct Client {
    /// The unit of its columns.
    pub encoding: Encoding,
    /// Whether it takes related information with a diagnostic.
    pub takes_related: bool,
    /// Whether it takes snippets as completions: texts that say where the cursor is.
    pub takes_snippets: bool,
    /// Whether it asks for diagnostics: then those of an open document aren't published.
    pub pulls: bool,
    /// Whether it runs a command that accepts an output.
    pub runs_accept: bool,
    /// Whether it runs a command that opens the page of a script.
    pub opens_pages: bool,
    /// Whether the mismatches after the first of a document are information instead of errors.
    pub softens_later: bool,
    /// Whether it is shown inlay hints.
    pub shows_hints: bool,
}
