//! Rows that weren't there before.

ghost use Rattle.std.specs.Prelude.{◌≡◌, ◌++◌, OnOk};
ghost use Rattle.std.specs.Str.{bytes_eq};
ghost use Rattle.rb_view.specs.NewRows.{has_text, new_of, new_texts};

use rb_script::Lines;
use std::alloc::AllocError;

/// Whether both are the same bytes.
pub(crate) fn is_same(text: &[u8], other: &[u8]) -> bool
    ensures { result ≡ bytes_eq text.now other.now }
{
    text == other
}

// Whether the text is one of these.
fn has_text(olds: &Lines, text: &[u8]) -> bool
    ensures { result ≡ has_text olds.now text.now }
{
    for i in 0..olds.len() {
        if is_same(text, olds.line(i)) {
            return true;
        }
    }
    false
}

// Adds the text if it isn't one of these.
fn keep_if_new(texts: &mut Lines, olds: &Lines, text: &[u8]) -> Result<(), AllocError>
    ensures { OnOk result (texts.new ≡ texts.old ++ new_of olds.now text.now) }
{
    if has_text(olds, text) {
        return Ok(());
    }
    texts.push(text)
}

/// Adds those texts that aren't among the old ones.
pub(crate) fn keep_new(texts: &mut Lines, olds: &Lines, news: &Lines) -> Result<(), AllocError>
    ensures { OnOk result (texts.new ≡ texts.old ++ new_texts olds.now news.now) }
{
    for i in 0..news.len() {
        keep_if_new(texts, olds, news.line(i))?;
    }
    Ok(())
}
