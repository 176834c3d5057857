//! A document that an editor asks about.

use rb_lsp::document::Encoding;

/// A document: the unit of its columns, its URI, and its text.
#[derive(Clone, Copy)]
pub(crate) struct AskedDocument<'u, 't> {
    pub(crate) encoding: Encoding,
    pub(crate) uri: &'u [u8],
    pub(crate) text: &'t [u8],
}
