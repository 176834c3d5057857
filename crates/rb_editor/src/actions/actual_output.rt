//! The actual output of a mismatch, at the lines that expect something else.

ghost use Rattle.std.specs.Prelude.{◌≡◌, ◌<◌, IfOk, length, take};
ghost use Rattle.rb_editor.specs.Came.{actual_output_of, cut_off, shown, whole};
ghost use Rattle.rb_editor.specs.declared.actions.actual_output.TheConstants.{MAX_SHOWN};

use crate::offers::BlockLines;
use rb_script::Lines;
use rb_text::{Piece, add_pieces};
use std::alloc::{AllocError, Global};
use std::marker::Model;

// The most lines of an output that are shown.
const MAX_SHOWN: usize = 20;

/// The actual output of a mismatch, at the lines that expect something else.
#[derive(Drop)]
pub(crate) struct ActualOutput {
    /// The first line of the expectation, counted from 0.
    pub(crate) first: usize,
    /// The line after its last.
    pub(crate) behind: usize,
    /// The output, or its first lines and how many more there are.
    pub(crate) shown: Vec<u8>,
}

impl Model for ActualOutput {
    ghost use Rattle.rb_editor.specs.Diagnostics.{PlainActualOutput};

    ghost Value = { PlainActualOutput };

    ghost view = { λ c. record { first = c.first; behind = c.behind; shown = c.shown.items } };
}

// Copies an output without the end of its last line.
fn whole(alloc: Global, output: &Lines) -> Result<Vec<u8>, AllocError>
    ensures { IfOk result (λ text. text.items ≡ whole output.now) }
{
    let mut text = Vec::from_slice(alloc, output.text())?;
    text.truncate(text.len().saturating_sub(1));
    Ok(text)
}

// Copies the first lines of an output that has more.
fn first_lines(alloc: Global, output: &Lines) -> Result<Lines, AllocError>
    requires { MAX_SHOWN < length output.now }
    ensures { IfOk result (λ front. front ≡ take MAX_SHOWN output.now) }
{
    let mut front = Lines::new(alloc);
    for i in 0..MAX_SHOWN {
        front.push(output.line(i))?;
    }
    Ok(front)
}

// Copies the first lines of an output, and says how many more there are.
fn cut_off(alloc: Global, output: &Lines) -> Result<Vec<u8>, AllocError>
    requires { MAX_SHOWN < length output.now }
    ensures { IfOk result (λ text. text.items ≡ cut_off output.now) }
{
    let front = first_lines(alloc, output)?;
    let mut text = Vec::from_slice(alloc, front.text())?;
    let more = (output.len() - MAX_SHOWN) as u64;
    add_pieces(
        &mut text,
        &[
            Piece::Bytes(b"and "),
            Piece::Number(more),
            Piece::Bytes(b" more"),
        ],
    )?;
    Ok(text)
}

// Copies an output as far as it is shown.
#[tactic(auto, unfolding(crate::specs::Came::shown))]
fn shown(alloc: Global, output: &Lines) -> Result<Vec<u8>, AllocError>
    ensures { IfOk result (λ text. text.items ≡ shown output.now) }
{
    if output.len() <= MAX_SHOWN {
        whole(alloc, output)
    } else {
        cut_off(alloc, output)
    }
}

/// Makes the actual output of a directive with these lines.
pub(crate) fn actual_output_of(
    alloc: Global,
    lines: BlockLines,
    output: &Lines,
) -> Result<ActualOutput, AllocError>
    ensures { IfOk result (λ c. c ≡ actual_output_of lines output.now) }
{
    Ok(ActualOutput {
        first: lines.below,
        behind: lines.end,
        shown: shown(alloc, output)?,
    })
}
