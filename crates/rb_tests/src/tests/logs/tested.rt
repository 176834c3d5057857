//! A log as the tests see it: its calls over plain values, with nothing said of what they answer.
//!
//! What makes many logs and many calls is written for whatever is `Tested`. It is proved with little, since of such a log nothing is
//! known; what the calls of a log require is looked after once, below.

ghost use Rattle.std.specs.Prelude.{◌≤◌};

use crate::tests::counting::entries_in;
use rb_raftlog::{Appended, Body, CompactFault, Entries, Entry, LogFault, MAX_INDEX, RaftLog};
use std::alloc::Global;
use std::process::Abort;

/// A term, and the byte of a payload.
pub type Item = (u64, u8);

/// The first and the last index, the base's term and the last one, and the last index that is durable.
pub type Numbers = (u64, u64, u64, u64, u64);

pub trait Tested: Drop {
    /// A log of a base that is within the limits.
    fn begin(rt: &impl Abort, alloc: Global, base: u64, term: u64) -> Self;

    fn copied(&self, rt: &impl Abort) -> Self;

    fn is_same(&self, other: &Self) -> bool;

    fn numbers(&self) -> Numbers;

    /// Appends an entry, where there is room.
    fn put(&mut self, rt: &impl Abort, entry: Entry);

    fn save(&mut self, rt: &impl Abort);

    /// Takes entries of a leader after an index and its term, where there is room.
    fn take(
        &mut self,
        rt: &impl Abort,
        after: (u64, u64),
        entries: &[Entry],
        commit: u64,
    ) -> Option<Appended>;

    fn sent_after(&self, rt: &impl Abort, index: u64) -> Entries;

    /// Moves the base to an index up to another, or to the last that is durable.
    fn cut(&mut self, index: u64, upto: u64) -> Result<(), CompactFault>;

    fn term_of(&self, index: u64) -> Result<u64, LogFault>;

    fn has_entry(&self, index: u64) -> bool;

    /// The item at an index, if a payload of one byte is there.
    fn item_at(&self, index: u64) -> Option<Item>;

    /// How many entries there are from an index on, as its pieces have them.
    fn count_from(&self, from: u64) -> usize;

    /// How many entries aren't durable.
    fn unsaved(&self) -> usize;

    fn hint_for(&self, index: u64, term: u64) -> u64;

    fn is_no_newer(&self, index: u64, term: u64) -> bool;

    fn changes_in(&self, after: u64, upto: u64) -> bool;
}

fn item_of(entry: &Entry) -> Option<Item> {
    match &entry.body {
        Body::Payload(bytes) => match bytes.as_slice() {
            [byte] => Some((entry.term, *byte)),
            _ => None,
        },
        _ => None,
    }
}

fn count<L: RaftLog>(log: &L, from: u64) -> usize {
    match log.entries(from) {
        Ok(pieces) => entries_in(pieces),
        Err(_) => 0,
    }
}

impl<L: RaftLog> Tested for L {
    fn begin(rt: &impl Abort, alloc: Global, base: u64, term: u64) -> L {
        L::fresh(alloc, base.min(MAX_INDEX), term).expect(rt, "memory")
    }

    fn copied(&self, rt: &impl Abort) -> L {
        self.try_copy().expect(rt, "memory")
    }

    fn is_same(&self, other: &L) -> bool {
        self.same(other)
    }

    fn numbers(&self) -> Numbers {
        (
            self.first_index(),
            self.last_index(),
            self.base_term(),
            self.last_term(),
            self.durable(),
        )
    }

    fn put(&mut self, rt: &impl Abort, entry: Entry) {
        if self.last_index() < MAX_INDEX {
            self.push_own(entry).expect(rt, "memory");
        } else {
            drop(entry);
        }
    }

    fn save(&mut self, rt: &impl Abort) {
        self.mark_durable().expect(rt, "memory")
    }

    fn take(
        &mut self,
        rt: &impl Abort,
        after: (u64, u64),
        entries: &[Entry],
        commit: u64,
    ) -> Option<Appended> {
        if after.0 > 1_000_000 || entries.len() > 1_000 {
            return None;
        }
        let told = self.append_after(after.0, after.1, entries, commit);
        Some(told.expect(rt, "memory"))
    }

    fn sent_after(&self, rt: &impl Abort, index: u64) -> Entries {
        self.entries_after(index).expect(rt, "memory")
    }

    fn cut(&mut self, index: u64, upto: u64) -> Result<(), CompactFault> {
        let applied = upto.min(self.durable());
        self.compact(index, applied)
    }

    fn term_of(&self, index: u64) -> Result<u64, LogFault> {
        self.term_at(index)
    }

    fn has_entry(&self, index: u64) -> bool {
        self.entry_at(index).is_ok()
    }

    fn item_at(&self, index: u64) -> Option<Item> {
        match self.entry_at(index) {
            Ok(entry) => item_of(entry),
            Err(_) => None,
        }
    }

    fn count_from(&self, from: u64) -> usize {
        count(self, from)
    }

    fn unsaved(&self) -> usize {
        entries_in(self.not_durable())
    }

    fn hint_for(&self, index: u64, term: u64) -> u64 {
        self.hint(index, term)
    }

    fn is_no_newer(&self, index: u64, term: u64) -> bool {
        self.is_up_to_date(index, term)
    }

    fn changes_in(&self, after: u64, upto: u64) -> bool {
        self.has_change(after, upto)
    }
}
