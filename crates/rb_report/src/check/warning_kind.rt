//! Lines that are probably a mistake.

ghost use Rattle.std.specs.Prelude.{◌≡◌, IsOk};
ghost use Rattle.rb_script.specs.Writes.{Writes};
ghost use Rattle.rb_report.specs.Notices.{warning_sentence, warning_text, unaccepted_text};

use crate::check::piece::{ReportPiece, put_pieces};
use rb_script::{Sink, WriteFault};

/// Why a line is probably a mistake.
#[derive(Clone, Copy, Debug, PartialEq, Eq)]
pub enum WarningKind {
    /// It could be a directive, and it is in an expected output.
    InExpectation,
    /// It could be a directive, and it is input.
    InInput,
    /// It is input of a directive that takes none.
    Unread,
}

/// Says what is wrong with the line, in a sentence.
pub fn warning_sentence(doubt: WarningKind) -> &'static [u8]
    ensures { result.now ≡ warning_sentence doubt }
{
    match doubt {
        WarningKind::InExpectation =>
            b"this looks like a directive inside an expectation: an empty line is missing before it",
        WarningKind::InInput =>
            b"this looks like a directive inside input: a line ---- is missing before it",
        WarningKind::Unread =>
            b"this is input, and the directive above it takes none: a line ---- is missing before it",
    }
}

/// Writes a warning: `PATH:LINE: warning: ` and a sentence. On a failure a beginning of the text was written.
pub fn put_warning<S: Sink>(
    sink: &mut S,
    path: &[u8],
    line: usize,
    doubt: WarningKind,
) -> Result<(), WriteFault>
    ensures wrote { Writes result (S.held sink.old) (S.held sink.new) (warning_text path.now line doubt) }
    ensures all { S.takes_all sink.old → IsOk result × S.takes_all sink.new }
{
    put_pieces(
        sink,
        &[
            ReportPiece::Name(path),
            ReportPiece::Bytes(b":"),
            ReportPiece::Number(line as u64),
            ReportPiece::Bytes(b": warning: "),
            ReportPiece::Bytes(warning_sentence(doubt)),
            ReportPiece::Bytes(b"\n"),
        ],
    )
}

/// Writes that nothing was accepted in a script because it has warnings. On a failure a beginning of the text was written.
pub fn put_unaccepted<S: Sink>(sink: &mut S, path: &[u8]) -> Result<(), WriteFault>
    ensures wrote { Writes result (S.held sink.old) (S.held sink.new) (unaccepted_text path.now) }
    ensures all { S.takes_all sink.old → IsOk result × S.takes_all sink.new }
{
    put_pieces(
        sink,
        &[
            ReportPiece::Name(path),
            ReportPiece::Bytes(
                b": nothing was accepted, since it has warnings; --force accepts all the same\n",
            ),
        ],
    )
}
