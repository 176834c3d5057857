//! The text that replaces an expectation.

ghost use Rattle.std.specs.Prelude.{◌≡◌, ◌++◌, IfOk, OnOk};
ghost use Rattle.rb_script.specs.Lines.{text_of};
ghost use Rattle.rb_editor.specs.Actions.{end_above, form, has_end, new_text};

use crate::actions::extent::Extent;
use rb_script::Lines;
use std::alloc::{AllocError, Global};

// Whether the last line of a text has an end.
fn has_end(text: &[u8]) -> bool
    ensures { result ≡ has_end text.now }
{
    match text.last() {
        Some(last) => *last == b'\n',
        None => false,
    }
}

// The end of the line above, if the text ends with that line and it has none.
fn end_above(text: &[u8], lines: &Lines, extent: Extent) -> &'static [u8]
    ensures { result.now ≡ end_above text.now lines.now extent }
{
    if lines.len() <= extent.expected && !has_end(text) {
        b"\n"
    } else {
        b""
    }
}

// Adds the lines, in the plain or the double form.
fn add_formed(new: &mut Vec<u8>, is_double: bool, output: &Lines) -> Result<(), AllocError>
    ensures { OnOk result (new.new.items ≡ new.old.items ++ text_of (form is_double output.now)) }
{
    if !is_double {
        return new.extend_from_slice(output.text());
    }
    new.extend_from_slice(b"----\n")?;
    new.extend_from_slice(output.text())?;
    new.extend_from_slice(b"----\n----\n")
}

/// Makes the text that replaces an expectation.
#[tactic(auto, unfolding(crate::specs::Actions::new_text))]
pub(crate) fn new_text(
    alloc: Global,
    text: &[u8],
    lines: &Lines,
    extent: Extent,
    output: &Lines,
) -> Result<Vec<u8>, AllocError>
    ensures { IfOk result (λ new. new.items ≡ new_text text.now lines.now extent output.now) }
{
    let mut new = Vec::from_slice(alloc, end_above(text, lines, extent))?;
    add_formed(&mut new, extent.is_double, output)?;
    Ok(new)
}
