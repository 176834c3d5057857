//! A text that changes.

ghost use Rattle.std.specs.Prelude.{◌≡◌, ◌≤◌, ◌<◌, length, IfOk, IfErr};
ghost use Rattle.rb_lsp.specs.declared.document.limits.TheConstants.{MAX_TEXT};
ghost use Rattle.rb_lsp.specs.declared.document.document.TextFault.{TextFault};
ghost use Rattle.rb_lsp.specs.Changes.{changed, spliced};

use crate::document::limits::MAX_TEXT;
use crate::document::position::{Encoding, Range, offsets};
use std::alloc::{AllocError, Global};
use std::marker::Model;

/// Why a text is refused.
#[derive(Clone, Copy, Debug, PartialEq, Eq)]
pub enum TextFault {
    /// It would have more than [`MAX_TEXT`] bytes.
    TooLong,
    /// Memory was refused.
    OutOfMemory,
}

impl From<AllocError> for TextFault {
    ghost use Rattle.std.specs.Prelude.{◌≡◌};
    ghost use Rattle.rb_lsp.specs.declared.document.document.TextFault.TheVariants.{OutOfMemory};

    ghost from_gives = { λ _ e. e ≡ OutOfMemory };

    fn from(_e: AllocError) -> TextFault {
        TextFault::OutOfMemory
    }
}

/// The text of a document, as its bytes: at most [`MAX_TEXT`].
#[derive(Drop)]
pub struct Document {
    alloc: Global,
    text: Vec<u8>,
}

impl Model for Document {
    ghost use Rattle.std.specs.Prelude.{List, ℕ, ◌≤◌, length};
    ghost use Rattle.rb_lsp.specs.declared.document.limits.TheConstants.{MAX_TEXT};

    ghost Value = { List ℕ };

    ghost view = { λ d. d.text.items };

    ghost invariant = { λ d. length d.text.items ≤ MAX_TEXT };
}

impl Document {
    ghost use Rattle.std.specs.Prelude.{◌≡◌, ◌≤◌, ◌<◌, length, IfOk, IfErr, OnOk, OnErr};
    ghost use Rattle.rb_lsp.specs.declared.document.limits.TheConstants.{MAX_TEXT};
    ghost use Rattle.rb_lsp.specs.declared.document.document.TextFault.{TextFault};
    ghost use Rattle.rb_lsp.specs.Changes.{changed_by};

    /// A document with this text.
    ///
    /// # Errors
    ///
    /// `TooLong` exactly if the text has more than [`MAX_TEXT`] bytes.
    pub fn new(alloc: Global, text: &[u8]) -> Result<Document, TextFault>
        ensures ok { IfOk result (λ document. document ≡ text.now) }
        ensures short { IfOk result (λ document. length document ≤ MAX_TEXT) }
        ensures long { IfErr result (λ fault. fault ≡ TextFault.TooLong → MAX_TEXT < length text.now) }
    {
        if text.len() > MAX_TEXT {
            return Err(TextFault::TooLong);
        }
        let text = Vec::from_slice(alloc, text)?;
        Ok(Document { alloc, text })
    }

    /// Its bytes.
    pub fn text(&self) -> &[u8]
        ensures value { result.now ≡ self.now }
        ensures bounded { length result.now ≤ MAX_TEXT }
    {
        self.text.as_slice()
    }

    /// Replaces the text of a range, or the whole text if no range is given.
    ///
    /// # Errors
    ///
    /// `TooLong` exactly if the text would have more than [`MAX_TEXT`] bytes. An `Err` changes nothing.
    pub fn change(
        &mut self,
        encoding: Encoding,
        range: Option<Range>,
        new: &[u8],
    ) -> Result<(), TextFault>
        ensures ok { OnOk result (self.new ≡ changed_by encoding range new.now self.old) }
        ensures short { OnOk result (length self.new ≤ MAX_TEXT) }
        ensures err { OnErr result (self.new ≡ self.old) }
        ensures long { IfErr result (λ fault. fault ≡ TextFault.TooLong → MAX_TEXT < length (changed_by encoding range new.now self.old)) }
    {
        let text = match range {
            Some(range) => changed(self.alloc, encoding, range, new, self.text.as_slice())?,
            None => spliced(self.alloc, 0, 0, new, &[])?,
        };
        self.text = text;
        Ok(())
    }
}

// The text after the text of a range is replaced.
fn changed(
    alloc: Global,
    encoding: Encoding,
    range: Range,
    new: &[u8],
    text: &[u8],
) -> Result<Vec<u8>, TextFault>
    ensures ok { IfOk result (λ made. (made.items ≡ changed encoding range new.now text.now) × (length made.items ≤ MAX_TEXT)) }
    ensures long { IfErr result (λ fault. fault ≡ TextFault.TooLong → MAX_TEXT < length (changed encoding range new.now text.now)) }
{
    let (from, to) = offsets(encoding, range, text);
    spliced(alloc, from, from.max(to), new, text)
}

// The text after the bytes between two offsets are replaced.
fn spliced(
    alloc: Global,
    from: usize,
    to: usize,
    new: &[u8],
    text: &[u8],
) -> Result<Vec<u8>, TextFault>
    requires { (from ≤ length text.now) × (to ≤ length text.now) }
    ensures ok { IfOk result (λ made. (made.items ≡ spliced from to new.now text.now) × (length made.items ≤ MAX_TEXT)) }
    ensures long { IfErr result (λ fault. fault ≡ TextFault.TooLong → MAX_TEXT < length (spliced from to new.now text.now)) }
{
    let kept = from + (text.len() - to);
    if kept > MAX_TEXT || new.len() > MAX_TEXT - kept {
        return Err(TextFault::TooLong);
    }
    let mut made = Vec::with_capacity(alloc, kept + new.len())?;
    made.extend_from_slice(&text[..from])?;
    made.extend_from_slice(new)?;
    made.extend_from_slice(&text[to..])?;
    Ok(made)
}
