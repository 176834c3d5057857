//! A directive whose output was not accepted.

ghost use Rattle.std.specs.Prelude.{IsOk};
ghost use Rattle.rb_script.specs.Tokens.{plain};
ghost use Rattle.rb_script.specs.Writes.{Writes};
ghost use Rattle.rb_report.specs.Heads.{head_text};
ghost use Rattle.rb_report.specs.Notices.{left_text};

use crate::check::file_line::{FileLine, put_heading};
use crate::check::piece::{ReportPiece, put_pieces};
use rb_script::{DirectiveRef, Sink, WriteFault};

/// Writes that a directive's error was not accepted: `PATH:LINE: HEAD: `, and the error. On a failure a beginning
/// of the text was written.
pub fn put_left<S: Sink>(
    sink: &mut S,
    place: FileLine<'_>,
    directive: &DirectiveRef<'_>,
    error: &[u8],
) -> Result<(), WriteFault>
    ensures wrote { Writes result (S.held sink.old) (S.held sink.new) (left_text place.entry.path.now place.entry.line (head_text (plain directive.now)) error.now) }
    ensures all { S.takes_all sink.old → IsOk result × S.takes_all sink.new }
{
    put_heading(sink, place, directive)?;
    put_pieces(
        sink,
        &[
            ReportPiece::Bytes(b": "),
            ReportPiece::Bytes(error),
            ReportPiece::Bytes(b" was not accepted\n"),
        ],
    )
}
