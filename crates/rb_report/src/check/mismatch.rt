//! A directive with its output.

ghost use Rattle.std.specs.Prelude.{◌≡◌, IsOk, OnOk};
ghost use Rattle.rb_script.specs.Tokens.{plain};
ghost use Rattle.rb_script.specs.Writes.{Writes};
ghost use Rattle.rb_report.specs.Diffs.{left_after};
ghost use Rattle.rb_report.specs.Heads.{head_text};
ghost use Rattle.rb_report.specs.Headings.{directive_text, note_text};
ghost use Rattle.rb_report.specs.Hints.{hint_text, plain_hint};
ghost use Rattle.rb_report.specs.Whys.{reasons_in, told_mismatch};

use crate::check::colors::Colors;
use crate::check::diff::put_laid_out_diff;
use crate::check::file_line::{FileLine, put_heading};
use crate::check::hint::{Hint, put_hint};
use crate::check::line::put_explained_lines;
use crate::check::line_range::LineRange;
use crate::check::line_view::LineView;
use crate::check::piece::{ReportPiece, put_pieces};
use crate::check::position::DiffPosition;
use crate::check::side::Side;
use crate::check::table::Table;
use crate::check::why::Why;
use rb_script::{DirectiveRef, Lines, Sink, WriteFault};

/// A directive's expectation and its output.
#[derive(Clone, Copy)]
pub struct Sides<'a> {
    /// The expected lines.
    pub expected: &'a Lines,
    /// The lines of the output.
    pub output: &'a Lines,
}

/// How a mismatch is shown.
#[derive(Clone, Copy)]
pub struct MismatchView<'a> {
    /// Whether lines that differ have colours.
    pub colors: Colors,
    /// Whether the lines are shown step by step: events indented below their delivery, and an empty line between a delivery and what is
    /// ready after it.
    pub grouped: bool,
    /// The reasons that are shown below the lines of the output.
    pub why: Why<'a>,
    /// What the writer of the directive probably meant.
    pub hint: Hint<'a>,
}

/// Writes a mismatch: `PATH:LINE: HEAD`, with the line on which the directive's head begins and the head on one line; then what
/// differs: `- ` before a line that is expected, `+ ` before one of the output, and two blanks before one that is both, and below each line
/// of the output its reason, after `^ `; the hint; last an empty line. On a failure a beginning of the text was written.
pub fn put_mismatch<S: Sink>(
    sink: &mut S,
    table: &mut Table,
    place: FileLine<'_>,
    directive: &DirectiveRef<'_>,
    sides: Sides<'_>,
    view: MismatchView<'_>,
) -> Result<(), WriteFault>
    ensures wrote { Writes result (S.held sink.old) (S.held sink.new) (told_mismatch table.old.left view.entry.grouped view.entry.colors place.entry.path.now place.entry.line (head_text (plain directive.now)) sides.entry.expected.now sides.entry.output.now (reasons_in view.entry.why) (hint_text (plain_hint view.entry.hint))) }
    ensures all { S.takes_all sink.old → IsOk result × S.takes_all sink.new }
    ensures left { OnOk result (table.new.left ≡ left_after table.old.left sides.entry.expected.now sides.entry.output.now) }
{
    put_heading(sink, place, directive)?;
    sink.put(b"\n")?;
    let MismatchView { colors, why, .. } = view;
    let lines = LineView { colors, why };
    let Sides { expected, output } = sides;
    put_laid_out_diff(sink, table, expected, output, lines, view.grouped)?;
    put_hint(sink, view.hint)?;
    sink.put(b"\n")
}

/// Writes a directive with its output, each line after two blanks, and the hint. On a failure a beginning of the text was written.
pub fn put_directive<S: Sink>(
    sink: &mut S,
    place: FileLine<'_>,
    directive: &DirectiveRef<'_>,
    output: &Lines,
    hint: Hint<'_>,
) -> Result<(), WriteFault>
    ensures wrote { Writes result (S.held sink.old) (S.held sink.new) (directive_text place.entry.path.now place.entry.line (head_text (plain directive.now)) output.now (hint_text (plain_hint hint.entry))) }
    ensures all { S.takes_all sink.old → IsOk result × S.takes_all sink.new }
{
    put_heading(sink, place, directive)?;
    sink.put(b"\n")?;
    let colors = Colors::Off;
    let why = Why::Unasked;
    put_explained_lines(
        sink,
        LineView { colors, why },
        Side::Both,
        LineRange::whole(output),
        DiffPosition::start(false),
    )?;
    put_hint(sink, hint)
}

/// Writes a note on a directive, `PATH:LINE: HEAD: ` and the note, and the hint. On a failure a beginning of the text was written.
pub fn put_note<S: Sink>(
    sink: &mut S,
    place: FileLine<'_>,
    directive: &DirectiveRef<'_>,
    note: &[u8],
    hint: Hint<'_>,
) -> Result<(), WriteFault>
    ensures wrote { Writes result (S.held sink.old) (S.held sink.new) (note_text place.entry.path.now place.entry.line (head_text (plain directive.now)) note.now (hint_text (plain_hint hint.entry))) }
    ensures all { S.takes_all sink.old → IsOk result × S.takes_all sink.new }
{
    put_heading(sink, place, directive)?;
    put_pieces(
        sink,
        &[
            ReportPiece::Bytes(b": "),
            ReportPiece::Bytes(note),
            ReportPiece::Bytes(b"\n"),
        ],
    )?;
    put_hint(sink, hint)
}
