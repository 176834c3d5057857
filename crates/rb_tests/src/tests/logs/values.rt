//! Contents, and the limits.

use crate::tests::{is, is_in_row};
use rb_raftlog::{Content, limits_are};
use std::alloc::Global;
use std::process::Abort;

/// The same bytes, appended so many at a time.
fn content_by(rt: &impl Abort, alloc: Global, bytes: &[u8], step: usize) -> Content {
    let mut content = Content::new(alloc);
    for part in bytes.chunks(step.max(1)) {
        content.append(part).expect(rt, "memory");
    }
    content
}

fn bytes_of(rt: &impl Abort, alloc: Global, count: usize) -> Vec<u8> {
    let mut bytes = Vec::new(alloc);
    for k in 0..count {
        bytes.push((k % 251) as u8).expect(rt, "memory");
    }
    bytes
}

/// However it is appended, a content is the same.
fn is_one(rt: &impl Abort, alloc: Global, bytes: &[u8], whole: &Content) {
    for step in [1, 7, 1_023, 1_024, 1_056, 5_000] {
        let content = content_by(rt, alloc, bytes, step);
        is_in_row(rt, content.same(whole), "as much at a time", step);
        drop(content);
    }
}

/// A copy that grows is another content.
fn grows_alone(rt: &impl Abort, whole: &Content, count: usize) {
    let mut longer = whole.try_copy().expect(rt, "memory");
    longer.append(b"x").expect(rt, "memory");
    is(rt, !longer.same(whole), "longer");
    is(rt, whole.len() == count, "its length");
    is(rt, longer.len() == count.saturating_add(1), "one more");
    drop(longer);
}

/// A content of these bytes shows the end of them.
fn shows(rt: &impl Abort, alloc: Global, bytes: &[u8]) {
    let whole = Content::from_slice(alloc, bytes).expect(rt, "memory");
    let end = &bytes[bytes.len().saturating_sub(32)..];
    is(rt, whole.end() == end, "the end");
    is_one(rt, alloc, bytes, &whole);
    grows_alone(rt, &whole, bytes.len());
    drop(whole);
}

#[test]
fn contents_grow(rt: HostRuntime) {
    limits_are();
    for count in [0, 1, 31, 32, 33, 1_055, 1_056, 1_057, 2_080, 70_000] {
        let bytes = bytes_of(&rt, rt.alloc(), count);
        shows(&rt, rt.alloc(), &bytes);
        drop(bytes);
    }
}
