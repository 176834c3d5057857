//! Where answers go.
//!
//! A [`Sink`] takes text, but may hold it back. An [`Outlet`] also hands on what it took, so that a reader that waits for an answer
//! gets it. It can be known to take all and to hand on all: over such a one there is no failure to be answered.

ghost use Rattle.std.specs.Prelude.{ℕ, List, Option, None, IsOk, OnOk};
ghost use Rattle.std.specs.Io.KnownBytes.{Keeps};
ghost use Rattle.rb_script.specs.Writers.{IsCall};
ghost use Rattle.rb_bench.specs.Handed.{IsHandedOn};

use rb_script::{Sink, Through, WriteFault, Writer};
use std::io::Write;

/// Takes text, and hands it on.
pub trait Outlet: Sink {
    // the flushed bytes, if they are known
    ghost handed: { Self → Option (List ℕ) };

    /// Hands on what it holds back. Where it takes all, this doesn't fail either.
    fn flush(&mut self) -> Result<(), WriteFault>
        ensures kept { Keeps (Self.held self.old) (Self.held self.new) }
        ensures handed { OnOk result (IsHandedOn (handed self.new) (Self.held self.new)) }
        ensures all { Self.takes_all self.old → IsOk result × Self.takes_all self.new };
}

/// A `Write` hands on by its `flush`, of which it isn't known when it fails.
impl<W: Write> Outlet for Through<W> {
    ghost handed = { λ _. None };

    fn flush(&mut self) -> Result<(), WriteFault> {
        hand_on(self)
    }
}

// Hands on what a writer holds back, by one call.
fn hand_on<W: Writer>(writer: &mut W) -> Result<(), WriteFault>
    ensures kept { Keeps (W.contents writer.old) (W.contents writer.new) }
    ensures once { IsCall result (W.calls writer.old) (W.calls writer.new) }
{
    match writer.hand_on() {
        Ok(()) => Ok(()),
        Err(_) => Err(WriteFault),
    }
}
