//! The canonical text of a script without the empty line at its end, as one edit of what differs.

ghost use Rattle.std.specs.Prelude.{◌≡◌, ◌≤◌, ◌++◌, IfOk, OnOk, length};
ghost use Rattle.rb_lsp.specs.declared.document.limits.TheConstants.{MAX_TEXT};
ghost use Rattle.rb_lsp.specs.Edits.{new_between, range_between};
ghost use Rattle.rb_script.specs.Script.{text as canonical_text};
ghost use Rattle.rb_editor.specs.BlockLines.{script_of};
ghost use Rattle.rb_editor.specs.Formatting.{can_be_cut, cut, edits, ends_empty, formatted, formatting, has_canonical, text_edit};

use crate::offers::block_lines::script_of;
use crate::offers::writing::add_range;
use rb_lsp::document::{Encoding, Range, edit_between};
use rb_text::{Json, Piece, add_pieces};
use std::alloc::{AllocError, Global};

// Adds an edit that replaces the text in a range, as a list.
#[tactic(auto, unfolding(crate::specs::Formatting::text_edit))]
fn add_text_edit(out: &mut Vec<u8>, range: Range, new: &[u8]) -> Result<(), AllocError>
    ensures { OnOk result (out.new.items ≡ out.old.items ++ text_edit range new.now) }
{
    out.extend_from_slice(b"[{\"range\":")?;
    add_range(out, range.start, range.end)?;
    add_pieces(
        out,
        &[
            Piece::Bytes(b",\"newText\":\""),
            Piece::Escaped(Json::Utf8, new),
            Piece::Bytes(b"\"}]"),
        ],
    )
}

// Adds the edit of what differs between two texts.
fn add_edit(out: &mut Vec<u8>, encoding: Encoding, old: &[u8], new: &[u8]) -> Result<(), AllocError>
    requires { length old.now ≤ MAX_TEXT }
    ensures { OnOk result (out.new.items ≡ out.old.items ++ text_edit (range_between encoding old.now new.now) (new_between old.now new.now)) }
{
    let edit = edit_between(encoding, old, new);
    add_text_edit(out, edit.range, edit.new)
}

/// Adds the edits that make one text of another: none if they are the same.
pub(crate) fn add_edits(
    out: &mut Vec<u8>,
    encoding: Encoding,
    old: &[u8],
    new: &[u8],
) -> Result<(), AllocError>
    requires { length old.now ≤ MAX_TEXT }
    ensures { OnOk result (out.new.items ≡ out.old.items ++ edits encoding old.now new.now) }
{
    if old == new {
        out.extend_from_slice(b"[]")?;
        return Ok(());
    }
    add_edit(out, encoding, old, new)
}

// Whether the last line of a text whose lines have ends is empty.
fn ends_empty(text: &[u8]) -> bool
    ensures { result ≡ ends_empty text.now }
{
    text.len() >= 2 && text[text.len() - 2] == b'\n'
}

// Gives a text without its last byte.
fn cut(text: &[u8]) -> &[u8]
    ensures { result.now ≡ cut text.now }
{
    &text[..text.len().saturating_sub(1)]
}

/// Whether a text is a script with this canonical text.
pub(crate) fn has_canonical(
    alloc: Global,
    canonical: &[u8],
    text: &[u8],
) -> Result<bool, AllocError>
    ensures { IfOk result (λ has. has ≡ has_canonical canonical.now (script_of text.now)) }
{
    match script_of(alloc, text)? {
        Some(script) => {
            let of_script = script.canonical_text(alloc)?;
            Ok(of_script.as_slice() == canonical)
        }
        None => Ok(false),
    }
}

// Whether a canonical text stays the same script without the empty line at its end.
fn can_be_cut(alloc: Global, canonical: &[u8]) -> Result<bool, AllocError>
    ensures { IfOk result (λ can. can ≡ can_be_cut canonical.now) }
{
    if !ends_empty(canonical) {
        return Ok(false);
    }
    has_canonical(alloc, canonical, cut(canonical))
}

/// Gives a canonical text without the empty line at its end, if it is the same script so.
#[tactic(auto, unfolding(crate::specs::Formatting::formatted))]
pub(crate) fn formatted(alloc: Global, canonical: &[u8]) -> Result<&[u8], AllocError>
    ensures { IfOk result (λ text. text.now ≡ formatted canonical.now) }
{
    if can_be_cut(alloc, canonical)? {
        Ok(cut(canonical))
    } else {
        Ok(canonical)
    }
}

/// Adds the edits that make a text the canonical text of its script, without the empty line at its end, as the result of
/// `textDocument/formatting`: one of what differs, or none if nothing does. A text that isn't a script has none.
///
/// # Errors
///
/// If memory was refused. A part of the result may have been added then.
#[tactic(auto, unfolding(crate::specs::Formatting::formatting))]
pub fn add_formatting(
    alloc: Global,
    out: &mut Vec<u8>,
    encoding: Encoding,
    text: &[u8],
) -> Result<(), AllocError>
    requires { length text.now ≤ MAX_TEXT }
    ensures { OnOk result (out.new.items ≡ out.old.items ++ formatting encoding text.now) }
{
    match script_of(alloc, text)? {
        Some(script) => {
            let canonical = script.canonical_text(alloc)?;
            add_edits(out, encoding, text, formatted(alloc, canonical.as_slice())?)
        }
        None => Ok(out.extend_from_slice(b"[]")?),
    }
}
