//! What was probably meant by a directive that answers an error.

ghost use Rattle.std.specs.Prelude.{◌≡◌, ◌++◌, IfOk, OnOk, codes};
ghost use Rattle.rb_report.specs.Hints.{meant, plain_hint};
ghost use Rattle.rb_view.specs.Kept.{texts_of};
ghost use Rattle.rb_view.specs.Meant.{IsOfBytes, hint_rows};

use crate::rows::{Cell, keep_row};
use crate::steps::node::as_bytes;
use rb_report::check::Hint;
use rb_script::Lines;
use std::alloc::AllocError;

// Most words are shorter, and one that is longer takes more room.
const ROOM: usize = 60;

fn question(lines: &Lines, word: &[u8]) -> Result<Vec<u8>, AllocError>
    ensures { IfOk result (λ text. text.items ≡ codes "did you mean \"" ++ (word.now ++ codes "\"?")) }
{
    let mut text = lines.new_text(ROOM)?;
    text.extend_from_slice(b"did you mean \"")?;
    text.extend_from_slice(word)?;
    text.extend_from_slice(b"\"?")?;
    Ok(text)
}

// Adds a question whether this word was meant.
fn keep_question(texts: &mut Lines, word: &[u8]) -> Result<(), AllocError>
    ensures { OnOk result (texts.new ≡ texts.old ++ texts_of (hint_rows (meant word.now))) }
{
    let text = question(texts, word)?;
    keep_row(texts, b"hint", &[Cell::Text(text.as_slice())])
}

/// Adds what was probably meant, which is bytes by its type.
pub(crate) fn keep_hint(texts: &mut Lines, hint: Hint<'_>) -> Result<(), AllocError>
    ensures texts { OnOk result (texts.new ≡ texts.old ++ texts_of (hint_rows (plain_hint hint.entry))) }
    ensures bytes { IsOfBytes (plain_hint hint.entry) }
{
    match hint {
        Hint::Unknown => Ok(()),
        Hint::Meant(word) => keep_question(texts, as_bytes(word)),
        Hint::Sentence(text) => keep_row(texts, b"hint", &[Cell::Text(as_bytes(text))]),
    }
}
