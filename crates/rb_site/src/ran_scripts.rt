//! The page and the picture of a script, by running it.

ghost use Rattle.std.specs.Prelude.{◌≡◌, ◌++◌, IfOk};
ghost use Rattle.rb_view.specs.Charts.{chart_text};
ghost use Rattle.rb_view.specs.Pages.{rows_joined};
ghost use Rattle.rb_site.specs.Shown.{IsChart, IsPage, IsPicture};

use crate::steps::{read, rows_of};
use rb_book::{BookFault, ChapterTexts};
use rb_cluster::Meter;
use rb_raftlog::SplitLog;
use rb_script::{Lines, ScriptWithLines, Through};
use rb_view::chart::{Chart, ChartFault, ChartPart, ChartScript, STYLE, chart_of, put_chart};
use rb_view::steps::put_steps;
use std::alloc::{AllocError, Global};

/// The page and the picture of a script, by running it.
#[derive(Clone, Copy)]
pub(crate) struct RanScripts;

impl ChapterTexts for RanScripts {
    ghost is_page = { λ _ script name front back text. IsPage script name front back text };

    ghost is_picture = { λ _ script name text. IsPicture script text };

    fn page(
        &self,
        alloc: Global,
        script: &[u8],
        name: &[u8],
        front: &[u8],
        back: &[u8],
    ) -> Result<Vec<u8>, BookFault> {
        let ran = rows_of(alloc, script)?;
        Ok(page_text(alloc, name, front, back, &ran.rows)?)
    }

    fn picture(&self, alloc: Global, script: &[u8], name: &[u8]) -> Result<Vec<u8>, BookFault> {
        let chart = chart(alloc, script, name)?;
        Ok(picture_text(alloc, &chart)?)
    }
}

// A page: its rows between a front and a back.
fn page_text(
    alloc: Global,
    name: &[u8],
    front: &[u8],
    back: &[u8],
    rows: &Lines,
) -> Result<Vec<u8>, AllocError>
    ensures { IfOk result (λ text. text.items ≡ front.now ++ (rows_joined name.now rows.now ++ back.now)) }
{
    let rows = rows_text(alloc, name, rows)?;
    let mut text = Vec::from_slice(alloc, front)?;
    text.extend_from_slice(rows.as_slice())?;
    text.extend_from_slice(back)?;
    Ok(text)
}

fn rows_text(alloc: Global, name: &[u8], rows: &Lines) -> Result<Vec<u8>, AllocError>
    ensures { IfOk result (λ text. text.items ≡ rows_joined name.now rows.now) }
{
    let mut sink = Through(Vec::new(alloc));
    match put_steps(&mut sink, name, rows) {
        Ok(()) => Ok(sink.0),
        Err(_) => Err(AllocError),
    }
}

fn picture_text(alloc: Global, chart: &Chart) -> Result<Vec<u8>, AllocError>
    ensures { IfOk result (λ text. text.items ≡ chart_text STYLE.now chart.now) }
{
    let mut sink = Through(Vec::new(alloc));
    match put_chart(&mut sink, chart) {
        Ok(()) => Ok(sink.0),
        Err(_) => Err(AllocError),
    }
}

// The picture of all directives of a script.
fn chart(alloc: Global, bytes: &[u8], name: &[u8]) -> Result<Chart, BookFault>
    ensures { IfOk result (λ chart. IsChart bytes.now chart) }
{
    let ScriptWithLines {
        script,
        lines: _,
        heads,
    } = read(alloc, bytes)?;
    let source = ChartScript {
        bytes,
        script: &script,
        heads: heads.as_slice(),
    };
    let part = ChartPart {
        from: None,
        until: None,
    };
    match chart_of::<SplitLog>(alloc, name, source, part, &mut Meter::new()) {
        Ok(run) => Ok(run.chart),
        Err(ChartFault::TooLarge) => Err(BookFault::PictureTooLarge),
        Err(ChartFault::OutOfMemory) => Err(BookFault::OutOfMemory),
    }
}
