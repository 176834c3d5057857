//! Logs, and what they hold.

use super::entry;
use crate::tests::counting::entries_in;
use crate::tests::is;
use rb_raftlog::{Content, LogFault, MAX_INDEX, PlainLog, RaftLog, SplitLog};
use std::alloc::Global;
use std::process::Abort;

fn push<L: RaftLog>(alloc: Global, log: &mut L) -> Option<()> {
    let entry = entry(alloc, 1)?;
    if log.last_index() < MAX_INDEX {
        log.push_own(entry).ok()?;
    } else {
        drop(entry);
    }
    Some(())
}

/// A log of the base 1/10 with entries of term 1 up to 140.
fn log_of<L: RaftLog>(alloc: Global) -> Option<L> {
    let mut log = L::fresh(alloc, 10, 1).ok()?;
    for _ in 0..130u64 {
        push(alloc, &mut log)?;
    }
    Some(log)
}

/// How many entries there are from an index on.
fn count_from<L: RaftLog>(log: &L, index: u64) -> Option<usize> {
    match log.entries(index) {
        Ok(pieces) => Some(entries_in(pieces)),
        Err(_) => None,
    }
}

fn takes_no_memory<L: RaftLog>(rt: &impl Abort, log: &L) {
    is(rt, log.term_at(75) == Ok(1), "a term");
    is(rt, log.term_at(9) == Err(LogFault::Compacted), "no term");
    is(rt, count_from(log, 11) == Some(130), "all entries");
    is(rt, count_from(log, 100) == Some(41), "the last entries");
    is(rt, count_from(log, 10).is_none(), "no entries");
    is(rt, log.hint(80, 1) == 80, "a hint");
    is(rt, log.same(log), "the same");
}

/// Compares the log with a copy, if there is memory for it.
fn is_copied<L: RaftLog>(rt: &impl Abort, log: &L) -> bool {
    let Ok(copy) = log.try_copy() else {
        return false;
    };
    is(rt, log.same(&copy) && copy.same(log), "the copy");
    drop(copy);
    true
}

/// Makes each call, if there is memory for what it is made on.
fn all<L: RaftLog>(rt: &impl Abort, alloc: Global) -> bool {
    let Some(log) = log_of::<L>(alloc) else {
        return false;
    };
    takes_no_memory(rt, &log);
    let is_whole = is_copied(rt, &log);
    drop(log);
    is_whole
}

#[test]
fn each_call_of_a_log(rt: HostRuntime) {
    is(&rt, all::<PlainLog>(&rt, rt.alloc()), "a plain log");
    is(&rt, all::<SplitLog>(&rt, rt.alloc()), "a split log");
}

#[test]
fn plain_logs_under_refusals(rt: HostRuntime) {
    let _whole = all::<PlainLog>(&rt, rt.alloc());
}

#[test]
fn split_logs_under_refusals(rt: HostRuntime) {
    let _whole = all::<SplitLog>(&rt, rt.alloc());
}

/// Two contents differ.
fn are_apart(rt: &impl Abort, content: &Content, other: &Content) {
    is(rt, content.same(content), "the same");
    is(rt, !content.same(other), "another");
}

#[test]
fn contents_under_refusals(rt: HostRuntime) {
    if let Ok(content) = Content::from_slice(rt.alloc(), &[7; 2_000]) {
        if let Ok(other) = Content::from_slice(rt.alloc(), &[8; 2_000]) {
            are_apart(&rt, &content, &other);
            drop(other);
        }
        drop(content);
    }
}
