//! A buffer of unread bytes.

ghost use Rattle.std.specs.Prelude.{◌≡◌, ◌↔◌, ◌≤◌, ◌∷◌, [], length, IfNone, IfSome, IsOk, OnOk, OnErr, IsTrue};
ghost use Rattle.std.specs.Io.KnownBytes.{Consumes, IsAtEnd, Keeps};
ghost use Rattle.rb_text.specs.Asked.{Asks, Fails};

use crate::{InputFault, Source};
use std::marker::Model;

// The most bytes of one call.
const CHUNK: usize = 16_384;

/// The bytes of the last call that aren't consumed yet.
#[derive(Drop)]
pub(crate) struct InputBuffer {
    bytes: [u8; CHUNK],
    from: usize,
    to: usize,
}

impl Model for InputBuffer {
    ghost use Rattle.std.specs.Prelude.{◌≤◌, ◌-◌, List, ℕ, drop, length, take};

    ghost Value = { List ℕ };

    ghost view = { λ a. take (a.to - a.from) (drop a.from a.bytes) };

    ghost invariant = { λ a. (a.from ≤ a.to) × (a.to ≤ length a.bytes) };
}

impl InputBuffer {
    pub(crate) fn new() -> InputBuffer
        ensures { result ≡ [] }
    {
        InputBuffer {
            bytes: [0; CHUNK],
            from: 0,
            to: 0,
        }
    }

    /// Whether all bytes are consumed.
    pub(crate) fn is_empty(&self) -> bool
        ensures { IsTrue result ↔ (self.now ≡ []) }
    {
        self.from == self.to
    }

    /// Consumes the next byte.
    pub(crate) fn take_next(&mut self) -> Option<u8>
        ensures none { IfNone result ((self.old ≡ []) × (self.new ≡ [])) }
        ensures some { IfSome result (λ byte. self.old ≡ byte ∷ self.new) }
    {
        if self.from == self.to {
            return None;
        }
        let byte = self.bytes[self.from];
        self.from += 1;
        Some(byte)
    }

    /// Fills the buffer by one call of the source. It stays empty if the source is at its end.
    pub(crate) fn fill<S: Source>(&mut self, source: &mut S) -> Result<(), InputFault>
        ensures ok { OnOk result (Consumes (S.left source.old) (S.left source.new) self.new) }
        ensures end { OnOk result (self.new ≡ [] → IsAtEnd (S.left source.new)) }
        ensures err { OnErr result ((self.new ≡ []) × Keeps (S.left source.old) (S.left source.new)) }
        ensures most { length self.new ≤ CHUNK }
        ensures counted { Asks (S.asked source.old) (S.asked source.new) 1 }
        ensures unfailed { OnOk result (Fails (S.asked source.old) (S.asked source.new) 0) }
        ensures all { S.gives_all source.old → IsOk result × S.gives_all source.new }
    {
        self.from = 0;
        self.to = 0;
        self.to = source.get(self.bytes.as_mut_slice())?;
        Ok(())
    }
}
