//! The diagnostic of a directive that ran.

ghost use Rattle.std.specs.Prelude.{◌≡◌, ◌++◌, not, IfOk, OnOk};
ghost use Rattle.rb_report.specs.Diffs.{left_after};
ghost use Rattle.rb_report.specs.Hints.{plain_hint};
ghost use Rattle.rb_replay.specs.Report.{same_lines};
ghost use Rattle.rb_script_report.specs.Checked.{left_next};
ghost use Rattle.rb_editor.specs.BlockLines.{StandsIn, block_lines};
ghost use Rattle.rb_editor.specs.Comparisons.{IsDiffOf};
ghost use Rattle.rb_editor.specs.Findings.{diff_message, error_output, finding, hint_end, mismatch, mismatch_kind, mismatch_message};

use crate::actions::actual_output::actual_output_of;
use crate::actions::comparisons::{Comparisons, Diff};
use crate::actions::diagnostic::{Diagnostic, DiagnosticKind};
use crate::actions::front::{add_opening, common_front, marked_at};
use crate::offers::BlockLines;
use rb_report::check::{Colors, Hint, Table, put_diff_within};
use rb_report::help::suggested;
use rb_script::{Block, Lines, Through};
use rb_script_report::{first_line, is_unexpected};
use rb_text::{Piece, add_pieces};
use std::alloc::{AllocError, Global};

// Makes the diff that `check` shows, without the end of its last line. It takes its cells off those that are left.
fn diff_message(
    alloc: Global,
    table: &mut Table,
    expected: &Lines,
    output: &Lines,
) -> Result<Vec<u8>, AllocError>
    ensures message { IfOk result (λ message. message.items ≡ diff_message table.old.left expected.now output.now) }
    ensures left { OnOk result (table.new.left ≡ left_after table.old.left expected.now output.now) }
{
    let mut sink = Through(Vec::new(alloc));
    let Ok(()) = put_diff_within(&mut sink, table, expected, output, Colors::Off) else {
        return Err(AllocError);
    };
    let mut message = sink.0;
    message.truncate(message.len().saturating_sub(1));
    Ok(message)
}

// Makes the same diff, with the numbers of cells that were left and that it took.
fn compared(
    alloc: Global,
    table: &mut Table,
    expected: &Lines,
    output: &Lines,
) -> Result<Diff, AllocError>
    ensures made { IfOk result (λ diff. IsDiffOf table.old.left expected.now output.now diff) }
    ensures before { IfOk result (λ diff. diff.left ≡ table.old.left) }
    ensures left { OnOk result (table.new.left ≡ left_after table.old.left expected.now output.now) }
{
    let left = table.left;
    let text = diff_message(alloc, table, expected, output)?;
    Ok(Diff {
        text,
        left,
        cells: left.saturating_sub(table.left),
    })
}

// Takes the same diff from the kept ones, or makes it. Either way its cells are taken off those that are left.
fn known_or_compared(
    alloc: Global,
    table: &mut Table,
    comparisons: &mut Comparisons,
    expected: &Lines,
    output: &Lines,
) -> Result<Diff, AllocError>
    ensures known { IfOk result (λ diff. IsDiffOf table.old.left expected.now output.now diff) }
    ensures made { IfOk result (λ diff. IsDiffOf diff.left expected.now output.now diff) }
    ensures left { OnOk result (table.new.left ≡ left_after table.old.left expected.now output.now) }
{
    match comparisons.take(table.left, expected, output) {
        Some(diff) => {
            table.left = table.left.saturating_sub(diff.cells);
            Ok(diff)
        }
        None => compared(alloc, table, expected, output),
    }
}

// Adds the same diff to a message, and keeps it.
fn add_diff(
    alloc: Global,
    message: &mut Vec<u8>,
    table: &mut Table,
    comparisons: &mut Comparisons,
    expected: &Lines,
    output: &Lines,
) -> Result<(), AllocError>
    ensures message { OnOk result (message.new.items ≡ message.old.items ++ diff_message table.old.left expected.now output.now) }
    ensures left { OnOk result (table.new.left ≡ left_after table.old.left expected.now output.now) }
{
    let diff = known_or_compared(alloc, table, comparisons, expected, output)?;
    message.extend_from_slice(diff.text.as_slice())?;
    comparisons.keep(diff, expected, output);
    Ok(())
}

// Adds a hint, on a line of its own.
fn add_hint(message: &mut Vec<u8>, hint: Hint<'_>) -> Result<(), AllocError>
    ensures { OnOk result (message.new.items ≡ message.old.items ++ hint_end (plain_hint hint.entry)) }
{
    match hint {
        Hint::Unknown => Ok(()),
        Hint::Meant(word) => add_pieces(
            message,
            &[
                Piece::Bytes(b"\ndid you mean \""),
                Piece::Bytes(word),
                Piece::Bytes(b"\"?"),
            ],
        ),
        Hint::Sentence(sentence) => {
            add_pieces(message, &[Piece::Bytes(b"\n"), Piece::Bytes(sentence)])
        }
    }
}

// Makes a message: the first lines that differ, the diff, and a hint.
fn mismatch_message(
    alloc: Global,
    table: &mut Table,
    comparisons: &mut Comparisons,
    block: &Block,
    output: &Lines,
) -> Result<Vec<u8>, AllocError>
    ensures message { IfOk result (λ message. message.items ≡ mismatch_message table.old.left block.now output.now) }
    ensures left { OnOk result (table.new.left ≡ left_after table.old.left block.now.expected output.now) }
{
    let expected = block.expected();
    let mut message = Vec::new(alloc);
    add_opening(
        &mut message,
        common_front(expected, output),
        expected,
        output,
    )?;
    add_diff(alloc, &mut message, table, comparisons, expected, output)?;
    add_hint(&mut message, suggested(&block.directive()))?;
    Ok(message)
}

// The kind of a mismatch whose head is on a line: a later one if the first is above.
fn mismatch_kind(first: usize, line: usize) -> DiagnosticKind
    ensures { result ≡ mismatch_kind first line }
{
    if first < line {
        DiagnosticKind::LaterMismatch
    } else {
        DiagnosticKind::Mismatch
    }
}

/// A directive that ran: the line of its head, whether its output differs from the expectation, its block, and its output.
#[derive(Clone, Copy)]
pub(crate) struct CheckedDirective<'b, 'o> {
    pub(crate) line: usize,
    pub(crate) differs: bool,
    pub(crate) block: &'b Block,
    pub(crate) output: &'o Lines,
}

// Makes the diagnostic of a mismatch.
fn mismatch(
    alloc: Global,
    table: &mut Table,
    comparisons: &mut Comparisons,
    text: &Lines,
    first: usize,
    ran: CheckedDirective<'_, '_>,
) -> Result<Diagnostic, AllocError>
    requires { StandsIn text.now ran.line ran.block.now }
    ensures mismatch { IfOk result (λ d. d ≡ mismatch table.old.left text.now (block_lines text.now ran.entry.line ran.entry.block.now) first ran.entry.line ran.entry.block.now ran.entry.output.now) }
    ensures left { OnOk result (table.new.left ≡ left_after table.old.left ran.entry.block.now.expected ran.entry.output.now) }
{
    let lines = BlockLines::of_block(text, ran.line, ran.block);
    Ok(Diagnostic {
        line: marked_at(text, lines, ran.block.expected(), ran.output),
        kind: mismatch_kind(first, ran.line),
        message: mismatch_message(alloc, table, comparisons, ran.block, ran.output)?,
        came: Some(actual_output_of(alloc, lines, ran.output)?),
    })
}

fn error_output(
    alloc: Global,
    line: usize,
    block: &Block,
    output: &Lines,
) -> Result<Diagnostic, AllocError>
    ensures { IfOk result (λ d. d ≡ error_output line block.now output.now) }
{
    let mut message = Vec::from_slice(alloc, first_line(output))?;
    add_hint(&mut message, suggested(&block.directive()))?;
    Ok(Diagnostic {
        line,
        kind: DiagnosticKind::ErrorOutput,
        message,
        came: None,
    })
}

/// Makes the diagnostic of a directive, if it has one, with the cells that the directives before it left. The head of the first mismatch is on a
/// line that is known.
#[tactic(auto, unfolding(crate::specs::Findings::finding))]
pub(crate) fn finding(
    alloc: Global,
    table: &mut Table,
    comparisons: &mut Comparisons,
    text: &Lines,
    first: usize,
    ran: CheckedDirective<'_, '_>,
) -> Result<Option<Diagnostic>, AllocError>
    requires stands { StandsIn text.now ran.line ran.block.now }
    requires differs { ran.differs ≡ not (same_lines ran.block.now.expected ran.output.now) }
    ensures found { IfOk result (λ found. found ≡ finding table.old.left first text.now ran.entry.line ran.entry.block.now ran.entry.output.now) }
    ensures left { OnOk result (table.new.left ≡ left_next table.old.left ran.entry.block.now ran.entry.output.now) }
{
    if ran.differs {
        return Ok(Some(mismatch(alloc, table, comparisons, text, first, ran)?));
    }
    if is_unexpected(text, ran.line, ran.output) {
        return Ok(Some(error_output(alloc, ran.line, ran.block, ran.output)?));
    }
    Ok(None)
}
