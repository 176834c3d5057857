//! The place of a directive in a script, and its output.

ghost use Rattle.std.specs.Prelude.{◌≡◌, ◌++◌, OnOk};
ghost use Rattle.rb_replay.specs.Report.{same_lines};
ghost use Rattle.rb_view.specs.Kept.{texts_of};
ghost use Rattle.rb_view.specs.Steps.{left_next, mismatch_rows, script_rows};

use crate::rows::{Cell, keep_lines, keep_row, keep_texts};
use crate::steps::stretch::StretchTexts;
use rb_report::check::{Table, show_diff};
use rb_script::Lines;
use std::alloc::{AllocError, Global};

/// Whether both have the same lines.
pub(crate) fn is_same(lines: &Lines, other: &Lines) -> bool
    ensures { result ≡ same_lines lines.now other.now }
{
    lines.same(other)
}

// Adds where the output differs from what was expected, where it does.
fn keep_mismatch(
    alloc: Global,
    texts: &mut Lines,
    table: &mut Table,
    expected: &Lines,
    output: &Lines,
) -> Result<(), AllocError>
    ensures texts { OnOk result (texts.new ≡ texts.old ++ texts_of (mismatch_rows table.old.left expected.now output.now)) }
    ensures left { OnOk result (table.new.left ≡ left_next table.old.left expected.now output.now) }
{
    if is_same(expected, output) {
        return Ok(());
    }
    keep_row(texts, b"mismatch", &[])?;
    let mut stretches = StretchTexts::new(alloc);
    show_diff(&mut stretches, table, expected, output)?;
    keep_texts(texts, &stretches.texts)
}

/// Adds where a directive's head is, what it printed, and where that differs from what was expected.
pub(crate) fn keep_script(
    alloc: Global,
    texts: &mut Lines,
    table: &mut Table,
    line: usize,
    expected: &Lines,
    output: &Lines,
) -> Result<(), AllocError>
    ensures texts { OnOk result (texts.new ≡ texts.old ++ texts_of (script_rows table.old.left line expected.now output.now)) }
    ensures left { OnOk result (table.new.left ≡ left_next table.old.left expected.now output.now) }
{
    keep_row(texts, b"step", &[Cell::Number(line as u64)])?;
    keep_lines(texts, b"output", output)?;
    keep_mismatch(alloc, texts, table, expected, output)?;
    Ok(())
}
