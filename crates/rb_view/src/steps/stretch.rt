//! Where an output differs from what was expected, as rows: the stretches that `check` shows.

ghost use Rattle.std.specs.Prelude.{◌≡◌, ◌++◌, [], OnOk};
ghost use Rattle.rb_report.specs.LineRanges.{in_range};
ghost use Rattle.rb_view.specs.Kept.{line_rows, texts_of};
ghost use Rattle.rb_view.specs.Steps.{count_rows};

use crate::rows::{Cell, keep_row};
use rb_report::check::{LineRange, StretchObserver};
use rb_script::Lines;
use std::alloc::{AllocError, Global};

/// The rows of stretches.
#[derive(Drop)]
pub(crate) struct StretchTexts {
    pub(crate) texts: Lines,
}

impl StretchTexts {
    /// None.
    pub(crate) fn new(alloc: Global) -> StretchTexts
        ensures { result.texts ≡ [] }
    {
        StretchTexts {
            texts: Lines::new(alloc),
        }
    }
}

// Adds how many lines there are, where there are some.
fn keep_count(texts: &mut Lines, name: &[u8], count: usize) -> Result<(), AllocError>
    ensures { OnOk result (texts.new ≡ texts.old ++ texts_of (count_rows name.now count)) }
{
    if count == 0 {
        return Ok(());
    }
    keep_row(texts, name, &[Cell::Number(count as u64)])
}

// Adds a row of this name for each line.
fn keep_range(texts: &mut Lines, name: &[u8], lines: LineRange<'_>) -> Result<(), AllocError>
    ensures { OnOk result (texts.new ≡ texts.old ++ texts_of (line_rows name.now (in_range lines.entry))) }
{
    for i in 0..lines.len() {
        keep_row(texts, name, &[Cell::Text(lines.line(i))])?;
    }
    Ok(())
}

impl StretchObserver for StretchTexts {
    ghost use Rattle.std.specs.Prelude.{List, ◌++◌};
    ghost use Rattle.rb_script.specs.Lines.{Line};
    ghost use Rattle.rb_view.specs.Kept.{texts_of};
    ghost use Rattle.rb_view.specs.Steps.{stretch_rows};

    ghost Meaning = { List Line };

    ghost meaning = { λ rows. rows.texts };

    ghost taking = { λ texts s. texts ++ texts_of (stretch_rows s) };

    fn observe(
        &mut self,
        same: LineRange<'_>,
        expected: LineRange<'_>,
        output: LineRange<'_>,
    ) -> Result<(), AllocError> {
        keep_count(&mut self.texts, b"same", same.len())?;
        keep_range(&mut self.texts, b"expected", expected)?;
        keep_count(&mut self.texts, b"actual", output.len())?;
        Ok(())
    }
}
