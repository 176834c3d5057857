//! A script into which actual outputs were written.

ghost use Rattle.std.specs.Prelude.{IsOk};
ghost use Rattle.rb_script.specs.Writes.{Writes};
ghost use Rattle.rb_report.specs.Counts.{accepted_text};

use crate::check::piece::{ReportPiece, noun, put_pieces};
use rb_script::{Sink, WriteFault};

/// Writes how many outputs were accepted in a script: `PATH: accepted 2 outputs`. On a failure a beginning of the text was written.
pub fn put_accepted<S: Sink>(sink: &mut S, path: &[u8], outputs: usize) -> Result<(), WriteFault>
    ensures wrote { Writes result (S.held sink.old) (S.held sink.new) (accepted_text path.now outputs) }
    ensures all { S.takes_all sink.old → IsOk result × S.takes_all sink.new }
{
    let count = outputs as u64;
    put_pieces(
        sink,
        &[
            ReportPiece::Name(path),
            ReportPiece::Bytes(b": accepted "),
            ReportPiece::Number(count),
            ReportPiece::Bytes(noun(count, b" output", b" outputs")),
            ReportPiece::Bytes(b"\n"),
        ],
    )
}
