//! A writer that never retries a failed call.

ghost use Rattle.std.specs.Prelude.{◌≢◌, IfErr};
ghost use Rattle.std.specs.Io.{WritesAtMost};
ghost use Rattle.std.specs.Io.KnownBytes.{Keeps, WriteAppends};
ghost use Rattle.std.specs.IoError.{error_kind};
ghost use Rattle.rb_script.specs.Writers.{IsCall};

use rb_script::Writer;
use std::io;
use std::io::{ErrorKind, Write};

/// A `Write` that reports interrupted calls as other failures. Buffered writers retry interrupted calls; with this writer they
/// don't.
#[derive(Drop)]
pub struct FailFast<W>(pub W);

impl<W: Writer> Write for FailFast<W> {
    ghost contents = { λ w. W.contents w.0 };

    fn write(&mut self, buf: &[u8]) -> io::Result<usize>
        ensures bound { WritesAtMost result buf.now }
        ensures bytes { WriteAppends (W.contents self.old.0) (W.contents self.new.0) result buf.now }
        // The writer is called once, whatever it answers.
        ensures counted { IsCall result (W.calls self.old.0) (W.calls self.new.0) }
        // No failure is called an interrupted call.
        ensures kind { IfErr result (λ error. error_kind error ≢ ErrorKind.Interrupted) }
    {
        match self.0.write_part(buf) {
            Ok(taken) => Ok(taken),
            Err(error) => Err(lasting(error)),
        }
    }

    fn flush(&mut self) -> io::Result<()>
        ensures bytes { Keeps (W.contents self.old.0) (W.contents self.new.0) }
        ensures counted { IsCall result (W.calls self.old.0) (W.calls self.new.0) }
        ensures kind { IfErr result (λ error. error_kind error ≢ ErrorKind.Interrupted) }
    {
        match self.0.hand_on() {
            Ok(()) => Ok(()),
            Err(error) => Err(lasting(error)),
        }
    }
}

/// Changes the kind of an interrupted call's error.
fn lasting(error: io::Error) -> io::Error
    ensures { error_kind result ≢ ErrorKind.Interrupted }
{
    match error.kind() {
        ErrorKind::Interrupted => io::Error::from(ErrorKind::Other),
        _ => error,
    }
}
