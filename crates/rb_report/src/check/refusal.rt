//! Why a script is refused, in a sentence.

ghost use Rattle.std.specs.Prelude.{◌≡◌, IsOk};
ghost use Rattle.rb_script.specs.Writes.{Writes};
ghost use Rattle.rb_report.specs.Refusals.{sentence, fault_line, refusal_text};

use crate::check::piece::{ReportPiece, put_pieces};
use rb_script::{ScriptFault, Sink, WriteFault};

/// What is wrong, and its usual cause.
pub fn sentence(fault: ScriptFault) -> &'static [u8]
    ensures { result.now ≡ sentence fault }
{
    match fault {
        ScriptFault::TooLong =>
            b"the script, or its canonical text, has more than 4,194,304 bytes; cut it into several scripts",
        ScriptFault::LineTooLong(_) =>
            b"this line has more than 65,536 bytes; usually an end of line is missing, or the file is not a script",
        ScriptFault::BadLine(_) =>
            b"this is not a name with arguments; usually a parenthesis is not closed or has no name= before it, a backslash is missing, or an empty line cut the output above",
        ScriptFault::NoSeparator(_) =>
            b"no line ---- follows this directive; usually it was left out, or an empty line cut the output above",
        ScriptFault::NotClosed(_) =>
            b"the output below this ---- has no end; usually an empty line is missing before the next directive, or the two closing ---- are missing",
        ScriptFault::TooManyDirectives =>
            b"the script has more than 20,000 directives; cut it into several scripts",
        ScriptFault::NotOneBlock =>
            b"one directive with its output is wanted, and nothing after it",
        ScriptFault::TooManyArguments(_) =>
            b"this directive has more than 64 arguments, or more than 64 values of one; usually a backslash takes in a line too many",
        ScriptFault::OutOfMemory => b"out of memory",
    }
}

/// The line of the fault, counted from 1.
pub fn fault_line(fault: ScriptFault) -> Option<usize>
    ensures { result ≡ fault_line fault }
{
    match fault {
        ScriptFault::LineTooLong(line) => Some(line),
        ScriptFault::BadLine(line) => Some(line),
        ScriptFault::NoSeparator(line) => Some(line),
        ScriptFault::NotClosed(line) => Some(line),
        ScriptFault::TooManyArguments(line) => Some(line),
        ScriptFault::TooLong => None,
        ScriptFault::TooManyDirectives => None,
        ScriptFault::NotOneBlock => None,
        ScriptFault::OutOfMemory => None,
    }
}

/// Writes why a script is refused: `PATH:LINE: ` if the fault names a line, else `PATH: `, then what is wrong and its usual
/// cause. On a failure a beginning of the text was written.
pub fn put_refusal<S: Sink>(sink: &mut S, path: &[u8], fault: ScriptFault) -> Result<(), WriteFault>
    ensures wrote { Writes result (S.held sink.old) (S.held sink.new) (refusal_text path.now fault) }
    ensures all { S.takes_all sink.old → IsOk result × S.takes_all sink.new }
{
    let sentence = sentence(fault);
    match fault_line(fault) {
        Some(line) => put_pieces(
            sink,
            &[
                ReportPiece::Name(path),
                ReportPiece::Bytes(b":"),
                ReportPiece::Number(line as u64),
                ReportPiece::Bytes(b": "),
                ReportPiece::Bytes(sentence),
                ReportPiece::Bytes(b"\n"),
            ],
        ),
        None => put_pieces(
            sink,
            &[
                ReportPiece::Name(path),
                ReportPiece::Bytes(b": "),
                ReportPiece::Bytes(sentence),
                ReportPiece::Bytes(b"\n"),
            ],
        ),
    }
}
