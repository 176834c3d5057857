//! The differences within two lines that replace each other.
//!
//! If as many actual lines as expected lines differ, each is compared with its counterpart. All but their common beginning and
//! their common end is shown in reverse video, if colours are on.

ghost use Rattle.std.specs.Prelude.{◌≡◌, ◌+◌, ◌^◌, ◌<◌, ◌≤◌, IsOk, get_or, length};
ghost use Rattle.rb_script.specs.Writes.{Writes};
ghost use Rattle.rb_report.specs.Ends.{read_from};
ghost use Rattle.rb_report.specs.LineRanges.{in_range};
ghost use Rattle.rb_report.specs.Highlights.{same_len, parts_beside, is_paired};
ghost use Rattle.rb_report.specs.Steps.{counted, step_beside};
ghost use Rattle.rb_report.specs.Whys.{reasons_in, told_beside, told_paired, told_changed};

use crate::check::colors::Colors;
use crate::check::end::End;
use crate::check::line::{end_mark, put_explained_lines, put_line};
use crate::check::line_range::LineRange;
use crate::check::line_view::LineView;
use crate::check::piece::{ReportPiece, put_pieces};
use crate::check::position::DiffPosition;
use crate::check::side::{Side, after, before};
use crate::check::steps::{gap_above, indent_of};
use crate::check::why::{Why, put_reason_on};
use rb_script::{Sink, WriteFault};

// The byte at an index that counts from this end.
#[tactic(auto, using(crate::proofs::HighlightLaws::get_back))]
fn byte_from(end: End, line: &[u8], index: usize) -> u8
    requires { index < length line.now }
    ensures { result ≡ get_or (read_from end line.now) index 0 }
{
    match end {
        End::Front => line[index],
        End::Back => line[line.len() - 1 - index],
    }
}

// How many bytes are the same at this end.
fn same_len(end: End, line: &[u8], other: &[u8]) -> usize
    ensures value { result ≡ same_len end line.now other.now }
    ensures within { result ≤ length line.now }
    ensures within_other { result ≤ length other.now }
{
    let most = line.len().min(other.len());
    for i in 0..most {
        let here = byte_from(end, line, i);
        let there = byte_from(end, other, i);
        if here != there {
            return i;
        }
    }
    most
}

// The beginning of a line that another has too, the part that differs, and the end that the other has too.
fn parts_beside<'a>(line: &'a [u8], other: &[u8]) -> (&'a [u8], &'a [u8], &'a [u8])
    ensures { record { front = result.0.now; differs = result.1.now; back = result.2.now } ≡ parts_beside line.now other.now }
{
    let front_len = same_len(End::Front, line, other);
    let (front, rest) = line.split_at(front_len);
    let (_, rest_other) = other.split_at(front_len);
    let (differs, back) = rest.split_at(rest.len() - same_len(End::Back, rest, rest_other));
    (front, differs, back)
}

// Writes a line, with the part that differs in reverse video if not all of it differs. The last line above it belongs to a delivery or not.
fn put_beside<S: Sink>(
    sink: &mut S,
    side: Side,
    delivered: bool,
    line: &[u8],
    other: &[u8],
) -> Result<(), WriteFault>
    ensures wrote { Writes result (S.held sink.old) (S.held sink.new) (step_beside side delivered line.now other.now) }
    ensures all { S.takes_all sink.old → IsOk result × S.takes_all sink.new }
{
    let (front, differs, back) = parts_beside(line, other);
    if differs.len() == line.len() {
        return put_line(sink, Colors::On, side, delivered, line);
    }
    put_pieces(
        sink,
        &[
            ReportPiece::Bytes(gap_above(delivered, line)),
            ReportPiece::Bytes(before(Colors::On, side)),
            ReportPiece::Bytes(indent_of(delivered, line)),
            ReportPiece::Bytes(front),
            ReportPiece::Bytes(b"\x1b[7m"),
            ReportPiece::Bytes(differs),
            ReportPiece::Bytes(b"\x1b[27m"),
            ReportPiece::Bytes(back),
            ReportPiece::Bytes(end_mark(line)),
            ReportPiece::Bytes(after(Colors::On, side)),
            ReportPiece::Bytes(b"\n"),
        ],
    )
}

// Writes a line compared with its counterpart, in its position, and its reason below it.
fn put_explained_beside<S: Sink>(
    sink: &mut S,
    side: Side,
    line: &[u8],
    other: &[u8],
    why: Why<'_>,
    position: DiffPosition,
) -> Result<(), WriteFault>
    ensures wrote { Writes result (S.held sink.old) (S.held sink.new) (told_beside side (reasons_in why.entry) position line.now other.now) }
    ensures all { S.takes_all sink.old → IsOk result × S.takes_all sink.new }
{
    put_beside(sink, side, position.is_below_delivery(side), line, other)?;
    put_reason_on(sink, side, why, position)
}

// Writes lines compared with their counterparts from a position on, each with its reason below it.
fn put_paired<S: Sink>(
    sink: &mut S,
    side: Side,
    lines: LineRange<'_>,
    others: LineRange<'_>,
    why: Why<'_>,
    position: DiffPosition,
) -> Result<(), WriteFault>
    requires as_many { length (in_range lines) ≡ length (in_range others) }
    requires room { position.at + counted side (length (in_range lines)) < 2 ^ 64 }
    ensures wrote { Writes result (S.held sink.old) (S.held sink.new) (told_paired side (reasons_in why.entry) position (in_range lines.entry) (in_range others.entry)) }
    ensures all { S.takes_all sink.old → IsOk result × S.takes_all sink.new }
{
    let mut here = position;
    for i in 0..lines.len() {
        let line = lines.line(i);
        put_explained_beside(sink, side, line, others.line(i), why, here)?;
        here = here.after_line(side, line);
    }
    Ok(())
}

fn is_paired(colors: Colors, count: usize, other_count: usize) -> bool
    ensures { result ≡ is_paired colors count other_count }
{
    match colors {
        Colors::Off => false,
        Colors::On => count == other_count,
    }
}

/// Writes lines that replace those of the other side from a position on, each with its reason below it.
pub(crate) fn put_changed<S: Sink>(
    sink: &mut S,
    view: LineView<'_>,
    side: Side,
    lines: LineRange<'_>,
    others: LineRange<'_>,
    position: DiffPosition,
) -> Result<(), WriteFault>
    requires { position.at + counted side (length (in_range lines)) < 2 ^ 64 }
    ensures wrote { Writes result (S.held sink.old) (S.held sink.new) (told_changed view.entry.colors side (reasons_in view.entry.why) position (in_range lines.entry) (in_range others.entry)) }
    ensures all { S.takes_all sink.old → IsOk result × S.takes_all sink.new }
{
    if is_paired(view.colors, lines.len(), others.len()) {
        return put_paired(sink, side, lines, others, view.why, position);
    }
    put_explained_lines(sink, view, side, lines, position)
}
