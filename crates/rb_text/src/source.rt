//! Sources: where bytes are read.
//!
//! A contract can't say when a `Read` fails, so a reader could report failures at will. A [`Source`] can be known never to fail, as a
//! `Sink` of [`rb_script`] can. It may also count its calls and its failed calls, so that a contract can require failures to be
//! reported.

ghost use Rattle.std.specs.Prelude.{ℕ, ◌≤◌, List, Option, None, Some, IsOk, IfOk, OnOk, OnErr, length};
ghost use Rattle.std.specs.Io.KnownBytes.{ReadConsumes};
ghost use Rattle.rb_text.specs.Asked.{Asks, Calls, Fails};

use std::io::Read;

/// The source failed, or no calls of it are left.
#[derive(Clone, Copy, Debug, PartialEq, Eq)]
pub struct InputFault;

/// Gives bytes. Unlike a `Read`, it can be known never to fail.
pub trait Source {
    // the bytes left, if they are known
    ghost left: { Self → Option (List ℕ) };

    // the numbers of calls and of failed calls, if they are counted
    ghost asked: { Self → Option Calls };

    // no call fails
    ghost gives_all: { Self → Type 0 };

    /// Reads the next bytes, and returns their number: 0 only at the end, or if there is no room.
    ///
    /// # Errors
    ///
    /// At the first error, also an interrupted call. Nothing is lost then.
    fn get(&mut self, room: &mut [u8]) -> Result<usize, InputFault>
        ensures bound { IfOk result (λ n. n ≤ length room.new) }
        ensures bytes { ReadConsumes (left self.old) (left self.new) result room.new }
        ensures counted { Asks (asked self.old) (asked self.new) 1 }
        ensures unfailed { OnOk result (Fails (asked self.old) (asked self.new) 0) }
        ensures failed { OnErr result (Fails (asked self.old) (asked self.new) 1) }
        ensures all { gives_all self.old → IsOk result × gives_all self.new };
}

/// A `Read` as a source. It isn't known when it fails.
#[derive(Drop)]
pub struct ReadSource<R>(pub R);

impl<R: Read> Source for ReadSource<R> {
    ghost left = { λ s. R.remaining s.0 };

    ghost asked = { λ _. None };

    ghost gives_all = { λ _. ⊥ };

    fn get(&mut self, room: &mut [u8]) -> Result<usize, InputFault> {
        match self.0.read(room) {
            Ok(n) => Ok(n),
            Err(_) => Err(InputFault),
        }
    }
}

/// A slice gives its bytes in order.
impl Source for &[u8] {
    ghost left = { λ s. Some s.now };

    ghost asked = { λ _. None };

    ghost gives_all = { λ _. Unit {0} };

    fn get(&mut self, room: &mut [u8]) -> Result<usize, InputFault> {
        let n = room.len().min(self.len());
        let (given, rest) = self.split_at(n);
        room[..n].copy_from_slice(given);
        *self = rest;
        Ok(n)
    }
}
