//! Why a path could not be checked.

ghost use Rattle.std.specs.Prelude.{◌≡◌, IsOk};
ghost use Rattle.rb_script.specs.Writes.{Writes};
ghost use Rattle.rb_report.specs.Failures.{failure_sentence, failure_text};

use crate::check::piece::{ReportPiece, put_pieces};
use rb_script::{Sink, WriteFault};

/// Why a path could not be checked.
#[derive(Clone, Copy, Debug, PartialEq, Eq)]
pub enum Failure {
    /// Nothing has this name.
    NotFound,
    /// The system denies permission.
    NoPermission,
    /// It is a pipe.
    Pipe,
    /// It is a device.
    Device,
    /// It is a socket.
    Socket,
    /// It is something else that is neither a file nor a folder.
    NoFile,
    /// Its links lead in a circle.
    LinkLoop,
    /// Opening, listing or reading it failed for another reason.
    NotRead,
    /// Its new text could not be written.
    NotWritten,
    /// The report could not be written.
    NotShown,
    /// There was no script.
    NoScripts,
    /// The script has no directive at the line that is named, or above it.
    NoDirective,
    /// Memory was refused.
    OutOfMemory,
}

/// Why, in a sentence.
pub fn failure_sentence(failure: Failure) -> &'static [u8]
    ensures { result.now ≡ failure_sentence failure }
{
    match failure {
        Failure::NotFound => b"no such file or folder",
        Failure::NoPermission => b"there is no permission to read it",
        Failure::Pipe => b"it is a pipe, neither a file nor a folder",
        Failure::Device => b"it is a device, neither a file nor a folder",
        Failure::Socket => b"it is a socket, neither a file nor a folder",
        Failure::NoFile => b"it is neither a file nor a folder",
        Failure::LinkLoop => b"its links lead round in a loop",
        Failure::NotRead => b"it could not be read",
        Failure::NotWritten => b"the outputs could not be accepted; the file is as it was",
        Failure::NotShown => b"the report could not be written",
        Failure::NoScripts => b"no script was found",
        Failure::NoDirective => b"no directive is at this line or above it",
        Failure::OutOfMemory => b"out of memory",
    }
}

/// Writes why a path could not be checked: `PATH: ` and a sentence. On a failure a beginning of the text was written.
pub fn put_failure<S: Sink>(sink: &mut S, path: &[u8], failure: Failure) -> Result<(), WriteFault>
    ensures wrote { Writes result (S.held sink.old) (S.held sink.new) (failure_text path.now failure) }
    ensures all { S.takes_all sink.old → IsOk result × S.takes_all sink.new }
{
    put_pieces(
        sink,
        &[
            ReportPiece::Name(path),
            ReportPiece::Bytes(b": "),
            ReportPiece::Bytes(failure_sentence(failure)),
            ReportPiece::Bytes(b"\n"),
        ],
    )
}
