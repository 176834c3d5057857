//! Sinks: where text is written.

ghost use Rattle.std.specs.Prelude.{ℕ, List, Option, None, IsOk};
ghost use Rattle.std.specs.Io.{WritesAtMost};
ghost use Rattle.std.specs.Io.KnownBytes.{Keeps, WriteAppends};
ghost use Rattle.rb_script.specs.Writes.{Writes};
ghost use Rattle.rb_script.specs.Writers.{WriterCalls, IsCall, EndAtFailure};

use std::io;
use std::io::Write;
use thiserror::Error;

/// The writer failed, or accepted no byte.
#[derive(Clone, Copy, Debug, PartialEq, Eq, Error)]
#[error("the writer failed")]
pub struct WriteFault;

/// Accepts text. Unlike a `Write`, it can be known never to fail.
pub trait Sink {
    // the bytes written so far, if they are known
    ghost held: { Self → Option (List ℕ) };

    // no write fails
    ghost takes_all: { Self → Type 0 };

    /// Writes the bytes. After a failure a beginning of them is written.
    fn put(&mut self, bytes: &[u8]) -> Result<(), WriteFault>
        ensures wrote { Writes result (held self.old) (held self.new) bytes.now }
        ensures all { takes_all self.old → IsOk result × takes_all self.new };
}

/// Takes text part by part, as a `Write` does. It may count its calls and those that fail, so that a contract can require that none is made
/// again.
pub trait Writer {
    // the bytes written so far, if they are known
    ghost contents: { Self → Option (List ℕ) };

    // its calls, if they are counted
    ghost calls: { Self → Option WriterCalls };

    /// Writes a beginning of the bytes, and returns its length.
    fn write_part(&mut self, bytes: &[u8]) -> io::Result<usize>
        ensures bound { WritesAtMost result bytes.now }
        ensures bytes { WriteAppends (contents self.old) (contents self.new) result bytes.now }
        ensures counted { IsCall result (calls self.old) (calls self.new) };

    /// Hands on what it holds back.
    fn hand_on(&mut self) -> io::Result<()>
        ensures bytes { Keeps (contents self.old) (contents self.new) }
        ensures counted { IsCall result (calls self.old) (calls self.new) };
}

/// A `Write` as a sink, or `Through(&mut writer)`. Each error is a failure, also an interrupted call and a write that accepts no
/// byte.
#[derive(Drop)]
pub struct Through<W>(pub W);

impl<W: Write> Writer for Through<W> {
    ghost contents = { λ t. W.contents t.0 };

    ghost calls = { λ _. None };

    fn write_part(&mut self, bytes: &[u8]) -> io::Result<usize> {
        self.0.write(bytes)
    }

    fn hand_on(&mut self) -> io::Result<()> {
        self.0.flush()
    }
}

impl<W: Write> Sink for Through<W> {
    ghost held = { λ t. W.contents t.0 };

    ghost takes_all = { λ _. ⊥ };

    fn put(&mut self, bytes: &[u8]) -> Result<(), WriteFault> {
        put_whole(self, bytes)
    }
}

/// Writes all the bytes. No call is made after one that failed.
fn put_whole<W: Writer>(writer: &mut W, bytes: &[u8]) -> Result<(), WriteFault>
    ensures wrote { Writes result (W.contents writer.old) (W.contents writer.new) bytes.now }
    ensures ends { EndAtFailure result (W.calls writer.old) (W.calls writer.new) }
{
    let mut rest = bytes;
    while !rest.is_empty() {
        match writer.write_part(rest) {
            Ok(taken) if taken > 0 => rest = &rest[taken..],
            _ => return Err(WriteFault),
        }
    }
    Ok(())
}
