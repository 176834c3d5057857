//! A script with mismatches, in one line.

ghost use Rattle.std.specs.Prelude.{IsOk};
ghost use Rattle.rb_script.specs.Writes.{Writes};
ghost use Rattle.rb_report.specs.Briefs.{brief_text};

use crate::check::piece::{ReportPiece, put_pieces};
use rb_script::{Sink, WriteFault};

/// Writes how many directives of a script differ: `PATH: 5 of 17 differ, first at line 20`. On a failure a beginning of the text was written.
pub fn put_brief<S: Sink>(
    sink: &mut S,
    path: &[u8],
    mismatches: usize,
    directives: usize,
    line: usize,
) -> Result<(), WriteFault>
    ensures wrote { Writes result (S.held sink.old) (S.held sink.new) (brief_text path.now mismatches directives line) }
    ensures all { S.takes_all sink.old → IsOk result × S.takes_all sink.new }
{
    put_pieces(
        sink,
        &[
            ReportPiece::Name(path),
            ReportPiece::Bytes(b": "),
            ReportPiece::Number(mismatches as u64),
            ReportPiece::Bytes(b" of "),
            ReportPiece::Number(directives as u64),
            ReportPiece::Bytes(b" differ, first at line "),
            ReportPiece::Number(line as u64),
            ReportPiece::Bytes(b"\n"),
        ],
    )
}
