//! Reasons below the lines of an output.
//!
//! A reason is not a line of the output: it follows a sign of its own, which points at the line above it.

ghost use Rattle.std.specs.Prelude.{◌≡◌, IsOk};
ghost use Rattle.rb_script.specs.Writes.{Writes};
ghost use Rattle.rb_report.specs.Whys.{reasons_in, below, reason_at, reason_on, told_line};

use crate::check::line::put_line;
use crate::check::line_view::LineView;
use crate::check::piece::{ReportPiece, put_pieces};
use crate::check::position::DiffPosition;
use crate::check::side::Side;
use rb_script::{Lines, Sink, WriteFault};

/// Reasons for the lines of an output.
#[derive(Clone, Copy)]
pub enum Why<'a> {
    /// They weren't asked for.
    Unasked,
    /// Each belongs to the line of the output at the same index; an empty one isn't shown.
    Given(&'a Lines),
}

// The reason of the line at an index of an output, or an empty one.
fn reason_of<'a>(why: Why<'a>, at: usize) -> &'a [u8]
    ensures { below result.now ≡ reason_at (reasons_in why.entry) at }
{
    match why {
        Why::Unasked => b"",
        Why::Given(reasons) if at < reasons.len() => reasons.line(at),
        Why::Given(_) => b"",
    }
}

// Writes the reason of the line at an index of an output, if there is one.
fn put_reason<S: Sink>(sink: &mut S, why: Why<'_>, at: usize) -> Result<(), WriteFault>
    ensures wrote { Writes result (S.held sink.old) (S.held sink.new) (reason_at (reasons_in why.entry) at) }
    ensures all { S.takes_all sink.old → IsOk result × S.takes_all sink.new }
{
    let reason = reason_of(why, at);
    if reason.is_empty() {
        return Ok(());
    }
    put_pieces(
        sink,
        &[
            ReportPiece::Bytes(b"^ "),
            ReportPiece::Bytes(reason),
            ReportPiece::Bytes(b"\n"),
        ],
    )
}

/// Writes the reason below a line of a side, in its position, if there is one.
pub(crate) fn put_reason_on<S: Sink>(
    sink: &mut S,
    side: Side,
    why: Why<'_>,
    position: DiffPosition,
) -> Result<(), WriteFault>
    ensures wrote { Writes result (S.held sink.old) (S.held sink.new) (reason_on side (reasons_in why.entry) position) }
    ensures all { S.takes_all sink.old → IsOk result × S.takes_all sink.new }
{
    match side {
        Side::Expected => Ok(()),
        Side::Both | Side::Output => put_reason(sink, why, position.at),
    }
}

/// Writes a line of a side in its position, and its reason below it.
pub(crate) fn put_explained_line<S: Sink>(
    sink: &mut S,
    view: LineView<'_>,
    side: Side,
    line: &[u8],
    position: DiffPosition,
) -> Result<(), WriteFault>
    ensures wrote { Writes result (S.held sink.old) (S.held sink.new) (told_line view.entry.colors side (reasons_in view.entry.why) position line.now) }
    ensures all { S.takes_all sink.old → IsOk result × S.takes_all sink.new }
{
    let delivered = position.is_below_delivery(side);
    put_line(sink, view.colors, side, delivered, line)?;
    put_reason_on(sink, side, view.why, position)
}
