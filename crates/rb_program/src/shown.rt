//! Words and texts of others on a terminal.

ghost use Rattle.std.specs.Prelude.{◌≡◌, [], IfOk, MatchResult, string_bytes};
ghost use Rattle.rb_program.specs.Sentences.{IsShown, IsTextShown};

use rb_report::check::shown_name;
use std::alloc::{AllocError, Global};

/// Copies a word of somebody for a terminal or a log: nothing of it acts there, or ends its line.
pub(crate) fn shown_word(alloc: Global, word: &str) -> Result<String, AllocError>
    ensures { IfOk result (λ shown. IsShown word.now (string_bytes shown)) }
{
    let shown = shown_name(alloc, word.as_bytes())?;
    // What is shown of a text is text.
    match String::from_utf8(shown) {
        Ok(text) => Ok(text),
        Err(_) => Err(AllocError),
    }
}

/// The text of such a word; none, where memory was refused.
pub(crate) fn text_of(shown: &Result<String, AllocError>) -> &str
    ensures { MatchResult shown.now (λ word. result.now ≡ string_bytes word) (λ _. result.now ≡ []) }
{
    match shown {
        Ok(word) => word.as_str(),
        Err(_) => "",
    }
}

/// Copies a text for a terminal, line by line.
pub(crate) fn shown_text(alloc: Global, text: &str) -> Result<String, AllocError>
    ensures { IfOk result (λ shown. IsTextShown text.now (string_bytes shown)) }
{
    let mut shown = String::new(alloc);
    let mut rest = text;
    while let Some((line, below)) = rest.split_once('\n') {
        let word = shown_word(alloc, line)?;
        shown.push_str(word.as_str())?;
        shown.push_str("\n")?;
        rest = below;
    }
    let last = shown_word(alloc, rest)?;
    shown.push_str(last.as_str())?;
    Ok(shown)
}
