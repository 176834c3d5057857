//! Entries of a Raft log.
//!
//! An entry is a command with the term in which a leader appended it (Ongaro's thesis, section 3.3). The command is a payload for the state
//! machine, or a change of the cluster's configuration (section 4). An entry doesn't have its index, which is its place in the log.
//!
//! Bytes and words are shared and never change, so a copy of an entry costs a pointer.

ghost use Rattle.std.specs.Prelude.{◌≡◌, ◌↔◌, IsTrue, IfOk};

use rb_vocab::{Shared, Transition, Word};
use std::alloc::AllocError;

/// The command of an entry.
#[derive(Clone, PartialEq, Drop)]
pub enum Body {
    /// Bytes for the state machine.
    Payload(Shared<u8>),
    /// A change of the configuration, its words in order. One without words leaves a joint configuration.
    Change {
        transition: Transition,
        words: Shared<Word>,
    },
}

impl Body {
    ghost use Rattle.rb_raftlog.specs.Bodies.{is_change};

    /// Whether it changes the configuration.
    pub fn is_change(&self) -> bool
        ensures { result ≡ is_change self.now }
    {
        matches!(self, Body::Change { .. })
    }

    /// Copies the body, at one pointer.
    pub fn try_copy(&self) -> Result<Body, AllocError>
        ensures { IfOk result (λ copy. copy ≡ self.now) }
    {
        self.clone()
    }
}

/// An entry: the term in which it was appended, and its command.
#[derive(Clone, PartialEq, Drop)]
pub struct Entry {
    pub term: u64,
    pub body: Body,
}

impl Entry {
    /// Copies the entry, at one pointer.
    pub fn try_copy(&self) -> Result<Entry, AllocError>
        ensures { IfOk result (λ copy. copy ≡ self.now) }
    {
        self.clone()
    }

    /// Whether both entries are equal, by the derived `==`, which is proved to be equality. Compares terms first.
    #[tactic(auto, using(crate::proofs::EqualLaws::entries_decide))]
    pub fn same(&self, other: &Entry) -> bool
        ensures { IsTrue result ↔ (self.now ≡ other.now) }
    {
        *self == *other
    }
}
