//! The documents that an editor has open.

ghost use Rattle.std.specs.Prelude.{◌≡◌, ◌≤◌, length};
ghost use Rattle.rb_lsp.specs.Documents.{place_of};

use crate::document::Document;
use crate::server::limits::MAX_DOCUMENTS;
use std::alloc::{AllocError, Global};
use std::marker::Model;
use std::mem;

/// A document with its URI, and what the service keeps for it.
#[derive(Drop)]
pub(crate) struct OpenDocument<K> {
    uri: Vec<u8>,
    document: Document,
    version: Option<u64>,
    kept: K,
}

impl<K> Model for OpenDocument<K> {
    ghost use Rattle.rb_lsp.specs.Documents.{PlainDocument};

    ghost Value = { PlainDocument };

    ghost view = { λ d. record { uri = d.uri.items; text = d.document; version = d.version } };
}

impl<K> OpenDocument<K> {
    ghost use Rattle.std.specs.Prelude.{◌≡◌, ◌≤◌, length};
    ghost use Rattle.std.specs.Str.{bytes_eq};
    ghost use Rattle.rb_lsp.specs.declared.document.limits.TheConstants.{MAX_TEXT};

    /// Its text.
    pub(crate) fn text(&self) -> &[u8]
        ensures text { result.now ≡ self.now.text }
        ensures bounded { length result.now ≤ MAX_TEXT }
    {
        self.document.text()
    }

    // Whether it has this URI.
    fn is_of(&self, uri: &[u8]) -> bool
        ensures { result ≡ bytes_eq self.now.uri uri.now }
    {
        self.uri.as_slice() == uri
    }
}

// The index of the document with this URI, or the number of documents if there is none.
fn place_in<K>(documents: &[OpenDocument<K>], uri: &[u8]) -> usize
    ensures place { result ≡ place_of uri.now documents.now }
    ensures within { result ≤ length documents.now }
{
    for (i, document) in documents.iter().enumerate() {
        if document.is_of(uri) {
            return i;
        }
    }
    documents.len()
}

/// The open documents of an editor, known by their URIs. There are at most [`MAX_DOCUMENTS`].
#[derive(Drop)]
pub(crate) struct Documents<K> {
    alloc: Global,
    open: Vec<OpenDocument<K>>,
}

impl<K> Model for Documents<K> {
    ghost use Rattle.std.specs.Prelude.{List};
    ghost use Rattle.rb_lsp.specs.Documents.{PlainDocument};

    ghost Value = { List PlainDocument };

    ghost view = { λ d. d.open.items };
}

impl<K: Drop> Documents<K> {
    ghost use Rattle.std.specs.Prelude.{◌≡◌, ◌≤◌, [], length, IfSome, OnOk, option_map};
    ghost use Rattle.rb_lsp.specs.declared.document.limits.TheConstants.{MAX_TEXT};
    ghost use Rattle.rb_lsp.specs.Documents.{closed, has_room, kept, place_of, text_of, version_of};

    pub(crate) fn new(alloc: Global) -> Documents<K>
        ensures { result ≡ [] }
    {
        Documents {
            alloc,
            open: Vec::new(alloc),
        }
    }

    // The index of the document with this URI, or the number of documents if there is none.
    fn place_of(&self, uri: &[u8]) -> usize
        ensures place { result ≡ place_of uri.now self.now }
        ensures within { result ≤ length self.now }
    {
        place_in(self.open.as_slice(), uri)
    }

    /// The text of the document with this URI.
    pub(crate) fn text(&self, uri: &[u8]) -> Option<&[u8]>
        ensures text { option_map (λ text. text.now) result ≡ text_of uri.now self.now }
        ensures bounded { IfSome result (λ text. length text.now ≤ MAX_TEXT) }
    {
        let place = self.place_of(uri);
        match self.open.get(place) {
            Some(found) => Some(found.text()),
            None => None,
        }
    }

    /// The version of the document with this URI, where it said one.
    pub(crate) fn version(&self, uri: &[u8]) -> Option<u64>
        ensures { result ≡ version_of uri.now self.now }
    {
        let place = self.place_of(uri);
        match self.open.get(place) {
            Some(found) => found.version,
            None => None,
        }
    }

    /// Takes the document with this URI out: its text, and what is kept of it.
    pub(crate) fn take(&mut self, uri: &[u8]) -> Option<(Document, K)>
        ensures text { option_map (λ taken. taken.0) result ≡ text_of uri.now self.old }
        ensures rest { self.new ≡ closed uri.now self.old }
    {
        let place = self.place_of(uri);
        if place < self.open.len() {
            let found = self.open.remove(place);
            Some((found.document, found.kept))
        } else {
            None
        }
    }

    /// Whether one more document fits.
    pub(crate) fn has_room(&self) -> bool
        ensures { result ≡ has_room self.now }
    {
        self.open.len() < MAX_DOCUMENTS
    }

    /// Keeps the document of this version under this URI, if there is one, and room for it.
    pub(crate) fn keep(
        &mut self,
        uri: &[u8],
        version: Option<u64>,
        document: Option<Document>,
        beside: K,
    ) -> Result<(), AllocError>
        ensures { OnOk result (self.new ≡ kept uri.now version document self.old) }
    {
        let Some(document) = document else {
            return Ok(());
        };
        if !self.has_room() {
            return Ok(());
        }
        let uri = Vec::from_slice(self.alloc, uri)?;
        self.open.push(OpenDocument {
            uri,
            document,
            version,
            kept: beside,
        })?;
        Ok(())
    }

    /// Takes out what is kept for the document with this URI, and keeps this instead. If it isn't open, gives this back.
    pub(crate) fn take_kept(&mut self, uri: &[u8], beside: K) -> K
        ensures { self.new ≡ self.old }
    {
        let place = self.place_of(uri);
        match self.open.get_mut(place) {
            Some(found) => mem::replace(&mut found.kept, beside),
            None => beside,
        }
    }

    /// Keeps this for the document with this URI, if it is open.
    pub(crate) fn set_kept(&mut self, uri: &[u8], beside: K)
        ensures { self.new ≡ self.old }
    {
        let place = self.place_of(uri);
        if let Some(found) = self.open.get_mut(place) {
            found.kept = beside;
        }
    }
}
