//! Calls that take no memory. These tests are run once for each allocation, which is refused then: what is made for the calls may be
//! refused, and then none is made; the calls answer as ever.

mod logs;
mod nodes;
mod trackers;

use rb_raftlog::{Body, Entry};
use rb_vocab::Shared;
use std::alloc::Global;

/// A list of these ids. Nothing if memory was refused.
fn ids(alloc: Global, ids: &[u64]) -> Option<Shared<u64>> {
    let list = ids.to_vec(alloc).ok()?;
    Shared::new(list).ok()
}

/// A payload of one byte.
fn entry(alloc: Global, term: u64) -> Option<Entry> {
    let bytes = b"e".to_vec(alloc).ok()?;
    let body = Body::Payload(Shared::new(bytes).ok()?);
    Some(Entry { term, body })
}
