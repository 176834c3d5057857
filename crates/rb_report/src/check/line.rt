//! A line with its sign and the mark of its end.

ghost use Rattle.std.specs.Prelude.{◌≡◌, ◌==◌, ◌||◌, ◌+◌, ◌^◌, ◌<◌, IsOk, length};
ghost use Rattle.rb_script.specs.Writes.{Writes};
ghost use Rattle.rb_report.specs.LineRanges.{in_range};
ghost use Rattle.rb_report.specs.Shown.{dollar_sign, begins_fold, needs_mark, end_mark};
ghost use Rattle.rb_report.specs.Steps.{step_text, counted};
ghost use Rattle.rb_report.specs.Whys.{reasons_in, told_lines};

use crate::check::colors::Colors;
use crate::check::line_range::LineRange;
use crate::check::line_view::LineView;
use crate::check::piece::{ReportPiece, put_pieces};
use crate::check::position::DiffPosition;
use crate::check::side::{Side, after, before};
use crate::check::steps::{gap_above, indent_of};
use crate::check::why::put_explained_line;
use rb_script::{Sink, WriteFault, is_space};

// Whether the line looks like a fold.
fn begins_fold(line: &[u8]) -> bool
    ensures { result ≡ begins_fold line.now }
{
    line.len() >= 3 && &line[..3] == b".. ".as_slice()
}

fn is_mark(last: u8, line: &[u8]) -> bool
    ensures { result ≡ (last == dollar_sign || begins_fold line.now) }
{
    last == b'$' || begins_fold(line)
}

// Whether the line needs a mark: its end would not be seen, or it looks like something else.
fn needs_mark(line: &[u8]) -> bool
    ensures { result ≡ needs_mark line.now }
{
    match line.split_last() {
        Some((last, _front)) => is_space(*last) || is_mark(*last, line),
        None => true,
    }
}

/// The mark at the end of the line.
pub(crate) fn end_mark(line: &[u8]) -> &'static [u8]
    ensures { result.now ≡ end_mark line.now }
{
    if needs_mark(line) { b"$" } else { b"" }
}

/// Writes a line of a side, if the last line above it belongs to a delivery or not.
pub(crate) fn put_line<S: Sink>(
    sink: &mut S,
    colors: Colors,
    side: Side,
    delivered: bool,
    line: &[u8],
) -> Result<(), WriteFault>
    ensures wrote { Writes result (S.held sink.old) (S.held sink.new) (step_text colors side delivered line.now) }
    ensures all { S.takes_all sink.old → IsOk result × S.takes_all sink.new }
{
    put_pieces(
        sink,
        &[
            ReportPiece::Bytes(gap_above(delivered, line)),
            ReportPiece::Bytes(before(colors, side)),
            ReportPiece::Bytes(indent_of(delivered, line)),
            ReportPiece::Bytes(line),
            ReportPiece::Bytes(end_mark(line)),
            ReportPiece::Bytes(after(colors, side)),
            ReportPiece::Bytes(b"\n"),
        ],
    )
}

/// Writes the lines of a side from a position on, each with its reason below it.
pub(crate) fn put_explained_lines<S: Sink>(
    sink: &mut S,
    view: LineView<'_>,
    side: Side,
    lines: LineRange<'_>,
    position: DiffPosition,
) -> Result<(), WriteFault>
    requires { position.at + counted side (length (in_range lines)) < 2 ^ 64 }
    ensures wrote { Writes result (S.held sink.old) (S.held sink.new) (told_lines view.entry.colors side (reasons_in view.entry.why) position (in_range lines.entry)) }
    ensures all { S.takes_all sink.old → IsOk result × S.takes_all sink.new }
{
    let mut here = position;
    for i in 0..lines.len() {
        let line = lines.line(i);
        put_explained_line(sink, view, side, line, here)?;
        here = here.after_line(side, line);
    }
    Ok(())
}
