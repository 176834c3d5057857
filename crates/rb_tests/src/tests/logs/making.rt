//! Entries and logs to test with.

use super::tested::{Item, Tested};
use rb_raftlog::{Appended, Body, Entry};
use rb_vocab::{Shared, Transition, Word, WordKind};
use std::alloc::Global;
use std::process::Abort;

/// A payload of one byte.
pub fn payload(rt: &impl Abort, alloc: Global, term: u64, byte: u8) -> Entry {
    let bytes = vec![in alloc; byte].expect(rt, "memory");
    Entry {
        term,
        body: Body::Payload(Shared::new(bytes).expect(rt, "memory")),
    }
}

/// A change of one word.
pub fn change(rt: &impl Abort, alloc: Global, term: u64, id: u64) -> Entry {
    let kind = WordKind::Voter;
    let words = vec![in alloc; Word { kind, id }].expect(rt, "memory");
    Entry {
        term,
        body: Body::Change {
            transition: Transition::Auto,
            words: Shared::new(words).expect(rt, "memory"),
        },
    }
}

pub fn entries_of(rt: &impl Abort, alloc: Global, items: &[Item]) -> Vec<Entry> {
    let mut entries = Vec::new(alloc);
    for item in items {
        entries
            .push(payload(rt, alloc, item.0, item.1))
            .expect(rt, "memory");
    }
    entries
}

/// Takes payloads of a leader after an index and its term.
pub fn take_items<T: Tested>(
    rt: &impl Abort,
    alloc: Global,
    log: &mut T,
    after: (u64, u64),
    items: &[Item],
    commit: u64,
) -> Option<Appended> {
    let entries = entries_of(rt, alloc, items);
    let told = log.take(rt, after, entries.as_slice(), commit);
    drop(entries);
    told
}

/// Appends a payload of one byte.
pub fn push<T: Tested>(rt: &impl Abort, alloc: Global, log: &mut T, item: Item) {
    log.put(rt, payload(rt, alloc, item.0, item.1));
}

/// The payload of a filled log at a place.
fn kth(k: u64) -> Item {
    (1, (k % 251) as u8)
}

/// A log of a base of term 1, with as many entries of term 1, each made durable by itself.
pub fn filled<T: Tested>(rt: &impl Abort, alloc: Global, base: u64, count: u64) -> T {
    let mut log = T::begin(rt, alloc, base, 1);
    for k in 0..count {
        push(rt, alloc, &mut log, kth(k));
        log.save(rt);
    }
    log
}

/// The same, made durable all at once.
pub fn filled_at_once<T: Tested>(rt: &impl Abort, alloc: Global, base: u64, count: u64) -> T {
    let mut log = T::begin(rt, alloc, base, 1);
    for k in 0..count {
        push(rt, alloc, &mut log, kth(k));
    }
    log.save(rt);
    log
}
