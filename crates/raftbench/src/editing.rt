//! `raftbench lsp`: an editor over standard input and output.

ghost use Rattle.std.specs.Prelude.{◌≡◌, ◌⊎◌, Err, Ok};

use rb_editor::actions::lsp;
use rb_lsp::server::{ExitStatus, ServeFault};
use rb_program::ProgramError;
use rb_script::Through;
use rb_text::ReadSource;
use std::io;

/// Serves an editor, and gives the program's status.
pub(crate) fn serve_editor<R: Input + Print + AllocGlobal>(rt: &R) -> Result<u8, ProgramError> {
    let mut source = ReadSource(rt.reader());
    let mut sink = Through(io::writer(rt));
    ended(lsp(rt.alloc(), &mut source, &mut sink))
}

// The status of a conversation: 0 only if it ended as the protocol says.
fn ended(served: Result<ExitStatus, ServeFault>) -> Result<u8, ProgramError>
    ensures done { served ≡ Ok ExitStatus.Done → result ≡ Ok 0 }
    ensures exited { (served ≡ Ok ExitStatus.Exited) ⊎ (served ≡ Ok ExitStatus.Closed) → result ≡ Ok 1 }
    ensures cut_off { (served ≡ Ok ExitStatus.CutOff) ⊎ (served ≡ Ok ExitStatus.NoMessage) ⊎ (served ≡ Err ServeFault.Io) → result ≡ Err ProgramError.Io }
    ensures memory { served ≡ Err ServeFault.OutOfMemory → result ≡ Err ProgramError.OutOfMemory }
{
    match served {
        Ok(ExitStatus::Done) => Ok(0),
        Ok(ExitStatus::Exited | ExitStatus::Closed) => Ok(1),
        Ok(ExitStatus::CutOff | ExitStatus::NoMessage) | Err(ServeFault::Io) => Err(
            ProgramError::Io,
        ),
        Err(ServeFault::OutOfMemory) => Err(ProgramError::OutOfMemory),
    }
}
