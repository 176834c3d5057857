//! Lines to people that are not about a run: failures and their causes, the end of a review, the totals.

ghost use Rattle.std.specs.Prelude.{IsOk};
ghost use Rattle.rb_script.specs.Writes.{Writes};
ghost use Rattle.rb_check.specs.Reviews.{quit_text};
ghost use Rattle.rb_check.specs.Shown.{cause_line, left_file_text, note_line, note_text};

use rb_report::check::{Failure, ReportPiece, Totals, put_failure, put_totals};
use rb_script::{Sink, WriteFault};
use rb_text::{WrittenPiece, put_pieces};

/// A note of a report.
#[derive(Clone, Copy)]
pub(crate) enum Note<'a> {
    /// Why a path failed.
    Failure(&'a [u8], Failure),
    /// What the system says of it.
    Cause(&'a [u8], &'a [u8]),
    /// A new file could be neither used nor removed.
    LeftFile(&'a [u8]),
    /// The output on this line can't be expected.
    LongLine(&'a [u8], usize),
    /// A review ended after this many accepted outputs, before this many scripts.
    Quit(u64, usize),
    /// The totals of all paths, and the time in milliseconds.
    Totals(Totals, u64),
}

impl WrittenPiece for Note<'_> {
    ghost text = { note_line };

    fn put<S: Sink>(&self, sink: &mut S) -> Result<(), WriteFault> {
        match *self {
            Note::Failure(path, failure) => put_failure(sink, path, failure),
            Note::Cause(path, words) => put_cause(sink, path, words),
            Note::LeftFile(path) => put_left_file(sink, path),
            Note::LongLine(path, line) => {
                let note =
                    b"this output has a line of more than 65,536 bytes, which no script can expect";
                put_note(sink, path, line, note)
            }
            Note::Quit(accepted, left) => put_quit(sink, accepted, left),
            Note::Totals(totals, milliseconds) => put_totals(sink, &totals, milliseconds),
        }
    }
}

/// Writes a note about a line of a script.
pub(crate) fn put_note<'a, S: Sink>(
    sink: &mut S,
    path: &'a [u8],
    line: usize,
    note: &'a [u8],
) -> Result<(), WriteFault>
    ensures wrote { Writes result (S.held sink.old) (S.held sink.new) (note_text path.now line note.now) }
    ensures all { S.takes_all sink.old → IsOk result × S.takes_all sink.new }
{
    put_pieces(
        sink,
        &[
            ReportPiece::Name(path),
            ReportPiece::Bytes(b":"),
            ReportPiece::Number(line as u64),
            ReportPiece::Bytes(b": "),
            ReportPiece::Bytes(note),
            ReportPiece::Bytes(b"\n"),
        ],
    )
}

fn put_cause<'a, S: Sink>(sink: &mut S, path: &'a [u8], words: &'a [u8]) -> Result<(), WriteFault>
    ensures wrote { Writes result (S.held sink.old) (S.held sink.new) (cause_line path.now words.now) }
    ensures all { S.takes_all sink.old → IsOk result × S.takes_all sink.new }
{
    put_pieces(
        sink,
        &[
            ReportPiece::Name(path),
            ReportPiece::Bytes(b": "),
            ReportPiece::Name(words),
            ReportPiece::Bytes(b"\n"),
        ],
    )
}

fn put_left_file<S: Sink>(sink: &mut S, path: &[u8]) -> Result<(), WriteFault>
    ensures wrote { Writes result (S.held sink.old) (S.held sink.new) (left_file_text path.now) }
    ensures all { S.takes_all sink.old → IsOk result × S.takes_all sink.new }
{
    put_pieces(
        sink,
        &[
            ReportPiece::Name(path),
            ReportPiece::Bytes(b": this new file could not be removed\n"),
        ],
    )
}

// Writes what is said where a review ends before all scripts were looked at.
fn put_quit<S: Sink>(sink: &mut S, accepted: u64, left: usize) -> Result<(), WriteFault>
    ensures wrote { Writes result (S.held sink.old) (S.held sink.new) (quit_text accepted left) }
    ensures all { S.takes_all sink.old → IsOk result × S.takes_all sink.new }
{
    put_pieces(
        sink,
        &[
            ReportPiece::Bytes(b"the review ends here; accepted so far: "),
            ReportPiece::Number(accepted),
            ReportPiece::Bytes(b"; scripts not looked at: "),
            ReportPiece::Number(left as u64),
            ReportPiece::Bytes(b"\n"),
        ],
    )
}
