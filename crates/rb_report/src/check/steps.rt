//! A directive's output, step by step.
//!
//! In an output the events of a node follow the delivery that causes them, so they are indented below it. A round of `stabilize` lets each
//! node with something ready send, and then delivers, so an empty line separates deliveries from what is ready after them.

ghost use Rattle.std.specs.Prelude.{◌≡◌, IsOk};
ghost use Rattle.rb_script.specs.Tokens.{plain};
ghost use Rattle.rb_script.specs.Writes.{Writes};
ghost use Rattle.rb_report.specs.Heads.{head_text};
ghost use Rattle.rb_report.specs.Hints.{hint_text, plain_hint};
ghost use Rattle.rb_report.specs.Steps.{is_delivery, is_event, is_ready, is_delivered, gap_above, indent_of};
ghost use Rattle.rb_report.specs.Whys.{reasons_in, told_run};

use crate::check::colors::Colors;
use crate::check::file_line::{FileLine, put_heading};
use crate::check::hint::{Hint, put_hint};
use crate::check::line::put_explained_lines;
use crate::check::line_range::LineRange;
use crate::check::line_view::LineView;
use crate::check::position::DiffPosition;
use crate::check::side::Side;
use crate::check::why::Why;
use rb_script::{DirectiveRef, Lines, Sink, WriteFault};

fn is_delivery(line: &[u8]) -> bool
    ensures { result ≡ is_delivery line.now }
{
    line.len() >= 8 && &line[..8] == b"deliver ".as_slice()
}

fn is_event(line: &[u8]) -> bool
    ensures { result ≡ is_event line.now }
{
    match line {
        [] => false,
        [first, ..] => b'A' <= *first && *first <= b'Z',
    }
}

fn is_ready(line: &[u8]) -> bool
    ensures { result ≡ is_ready line.now }
{
    match line {
        [] => false,
        [first, ..] => b'0' <= *first && *first <= b'9',
    }
}

/// Whether the last line above the next line belongs to a delivery.
pub(crate) fn is_delivered(delivered: bool, line: &[u8]) -> bool
    ensures { result ≡ is_delivered delivered line.now }
{
    is_delivery(line) || (delivered && is_event(line))
}

/// The empty line above a line, if the last line above it belongs to a delivery or not.
pub(crate) fn gap_above(delivered: bool, line: &[u8]) -> &'static [u8]
    ensures { result.now ≡ gap_above delivered line.now }
{
    if delivered && is_ready(line) {
        b"\n"
    } else {
        b""
    }
}

/// The indentation of a line, if the last line above it belongs to a delivery or not.
pub(crate) fn indent_of(delivered: bool, line: &[u8]) -> &'static [u8]
    ensures { result.now ≡ indent_of delivered line.now }
{
    if delivered && is_event(line) {
        b"  "
    } else {
        b""
    }
}

/// Writes a directive with its output step by step, each line after two blanks and with its reason below it; and the hint. On a failure
/// a beginning of the text was written.
pub fn put_run<S: Sink>(
    sink: &mut S,
    place: FileLine<'_>,
    directive: &DirectiveRef<'_>,
    output: &Lines,
    why: Why<'_>,
    hint: Hint<'_>,
) -> Result<(), WriteFault>
    ensures wrote { Writes result (S.held sink.old) (S.held sink.new) (told_run place.entry.path.now place.entry.line (head_text (plain directive.now)) output.now (reasons_in why.entry) (hint_text (plain_hint hint.entry))) }
    ensures all { S.takes_all sink.old → IsOk result × S.takes_all sink.new }
{
    put_heading(sink, place, directive)?;
    sink.put(b"\n")?;
    let colors = Colors::Off;
    put_explained_lines(
        sink,
        LineView { colors, why },
        Side::Both,
        LineRange::whole(output),
        DiffPosition::start(true),
    )?;
    put_hint(sink, hint)
}
