//! What is told of diagnostics: their diffs and actual outputs, as far as they have room.

ghost use Rattle.std.specs.Prelude.{◌≡◌, ◌<◌, ◌++◌, IfOk, length, option_map, take};
ghost use Rattle.rb_editor.specs.Above.{line_begin};
ghost use Rattle.rb_editor.specs.Told.{cut, left_after, left_behind, more_text, room, told_came, told_message};

use crate::actions::actual_output::ActualOutput;
use crate::actions::diagnostic::Diagnostic;
use crate::offers::line_begin;
use std::alloc::{AllocError, Global};

/// How many bytes of diffs and actual outputs are told of a document.
pub(crate) const MAX_TOLD: usize = 65_536;
// How many bytes of a diff are told, or of an actual output.
const MAX_DIFF: usize = 4096;

/// A diagnostic, and how many bytes are left for its diff, its actual output, and those after it.
#[derive(Clone, Copy)]
pub(crate) struct BoundedDiagnostic<'d> {
    pub(crate) diagnostic: &'d Diagnostic,
    pub(crate) left: usize,
}

#[tactic(auto, unfolding(crate::specs::Told::more_text))]
fn more_text() -> &'static [u8]
    ensures { result.now ≡ more_text }
{
    b"raftbench check shows the whole diff"
}

// How many bytes a message has, or an actual output, if so many are left for all.
fn room(left: usize) -> usize
    ensures { result ≡ room left }
{
    left.min(MAX_DIFF)
}

// Copies the first lines of a message that is too long, and says where the rest is.
fn first_lines(alloc: Global, most: usize, message: &[u8]) -> Result<Vec<u8>, AllocError>
    requires { most < length message.now }
    ensures { IfOk result (λ text. text.items ≡ take (line_begin most message.now) message.now ++ more_text) }
{
    let mut text = Vec::from_slice(alloc, &message[..line_begin(most, message)])?;
    text.extend_from_slice(more_text())?;
    Ok(text)
}

// Copies a message in so many bytes: all of it, or its first lines.
fn cut(alloc: Global, most: usize, message: &[u8]) -> Result<Vec<u8>, AllocError>
    ensures { IfOk result (λ text. text.items ≡ cut most message.now) }
{
    if message.len() <= most {
        return Vec::from_slice(alloc, message);
    }
    first_lines(alloc, most, message)
}

// How many bytes that is.
#[tactic(auto, using(crate::proofs::ToldLaws::cut_length, crate::proofs::ToldLaws::whole_length))]
fn cut_len(most: usize, message: &[u8]) -> usize
    ensures { result ≡ length (cut most message.now) }
{
    if message.len() <= most {
        return message.len();
    }
    line_begin(most, message) + more_text().len()
}

/// Copies the message of a diagnostic, as far as it is told.
///
/// # Errors
///
/// If memory was refused.
pub(crate) fn told_message(
    alloc: Global,
    bounded: BoundedDiagnostic<'_>,
) -> Result<Vec<u8>, AllocError>
    ensures { IfOk result (λ text. text.items ≡ told_message bounded.entry.left bounded.entry.diagnostic.now.message bounded.entry.diagnostic.now.came) }
{
    let diagnostic = bounded.diagnostic;
    let message = diagnostic.message.as_slice();
    match &diagnostic.came {
        Some(_) => cut(alloc, room(bounded.left), message),
        None => Vec::from_slice(alloc, message),
    }
}

// How many bytes are left behind a message.
fn left_after(left: usize, message: &[u8]) -> usize
    ensures { result ≡ left_after left message.now }
{
    left.saturating_sub(cut_len(room(left), message))
}

/// Gives the actual output of a mismatch, if it has room behind the message.
pub(crate) fn told_came(bounded: BoundedDiagnostic<'_>) -> Option<&ActualOutput>
    ensures { option_map (λ c. c.now) result ≡ told_came bounded.entry.left bounded.entry.diagnostic.now.message bounded.entry.diagnostic.now.came }
{
    let diagnostic = bounded.diagnostic;
    let message = diagnostic.message.as_slice();
    let came = diagnostic.came.as_ref()?;
    if came.shown.len() <= room(left_after(bounded.left, message)) {
        Some(came)
    } else {
        None
    }
}

/// Says how many bytes are left for the diagnostics after it.
pub(crate) fn left_behind(bounded: BoundedDiagnostic<'_>) -> usize
    ensures { result ≡ left_behind bounded.entry.left bounded.entry.diagnostic.now }
{
    let diagnostic = bounded.diagnostic;
    if diagnostic.came.is_none() {
        return bounded.left;
    }
    let left = left_after(bounded.left, diagnostic.message.as_slice());
    match told_came(bounded) {
        Some(came) => left.saturating_sub(came.shown.len()),
        None => left,
    }
}
