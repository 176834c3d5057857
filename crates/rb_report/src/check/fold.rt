//! Common lines, of which many are folded.

ghost use Rattle.std.specs.Prelude.{◌+◌, ◌^◌, ◌<◌, IsOk, length};
ghost use Rattle.rb_script.specs.Writes.{Writes};
ghost use Rattle.rb_report.specs.LineRanges.{in_range};
ghost use Rattle.rb_report.specs.Whys.{reasons_in, told_same};

use crate::check::line::put_explained_lines;
use crate::check::line_range::LineRange;
use crate::check::line_view::LineView;
use crate::check::piece::{ReportPiece, noun, put_pieces};
use crate::check::position::DiffPosition;
use crate::check::side::Side;
use rb_script::{Sink, WriteFault};

// How many common lines are shown on either side of a fold; twice as many are shown without one.
const KEPT: usize = 3;

/// Writes common lines from a position on, with their reasons. If there are more than six, the first three and the last
/// three are shown, and how many are between.
pub(crate) fn put_same<S: Sink>(
    sink: &mut S,
    view: LineView<'_>,
    lines: LineRange<'_>,
    position: DiffPosition,
) -> Result<(), WriteFault>
    requires { position.at + length (in_range lines) < 2 ^ 64 }
    ensures wrote { Writes result (S.held sink.old) (S.held sink.new) (told_same view.entry.colors (reasons_in view.entry.why) position (in_range lines.entry)) }
    ensures all { S.takes_all sink.old → IsOk result × S.takes_all sink.new }
{
    let count = lines.len();
    if count <= 2 * KEPT {
        return put_explained_lines(sink, view, Side::Both, lines, position);
    }
    let folded = (count - 2 * KEPT) as u64;
    put_explained_lines(sink, view, Side::Both, lines.front(KEPT), position)?;
    put_pieces(
        sink,
        &[
            ReportPiece::Bytes(b"  .. "),
            ReportPiece::Number(folded),
            ReportPiece::Bytes(noun(folded, b" line", b" lines")),
            ReportPiece::Bytes(b"\n"),
        ],
    )?;
    let last = count - KEPT;
    let next = position.after(Side::Both, lines.front(last));
    put_explained_lines(sink, view, Side::Both, lines.behind(last), next)
}
