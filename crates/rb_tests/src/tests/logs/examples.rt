//! Examples, in both logs.

use super::making::{change, filled, filled_at_once, payload, push, take_items};
use super::tested::{Item, Numbers, Tested};
use crate::tests::{is, is_in_row};
use rb_raftlog::{Appended, Entries, LogFault, PlainLog, SplitLog};
use std::alloc::Global;
use std::process::Abort;

/// A hundred entries, of which those past 49 give way to another.
fn of_two_terms<T: Tested>(rt: &impl Abort, alloc: Global) -> T {
    let mut log: T = filled_at_once(rt, alloc, 0, 49);
    push(rt, alloc, &mut log, (2, 7));
    log.save(rt);
    log
}

fn has_numbers<T: Tested>(log: &T, numbers: Numbers) -> bool {
    log.numbers() == numbers
}

/// An entry of a copy is replaced; the first log stays as it is. Where pages are cut is no matter.
fn differs_from_its_copy<T: Tested>(rt: &impl Abort, alloc: Global, log: &T, copy: &mut T) {
    is(
        rt,
        take_items(rt, alloc, copy, (49, 1), &[(2, 7)], 49) == Some(Appended::Matched(50)),
        "matched at 50",
    );
    is(
        rt,
        has_numbers(copy, (1, 50, 1, 2, 49)),
        "the copy's numbers",
    );
    is(
        rt,
        log.count_from(1) == 100 && copy.count_from(1) == 50,
        "counts",
    );
    is(rt, !copy.is_same(log), "they differ");
    copy.save(rt);
}

fn copies_share<T: Tested>(rt: &impl Abort, alloc: Global) {
    let log: T = filled(rt, alloc, 0, 100);
    let mut copy = log.copied(rt);
    differs_from_its_copy(rt, alloc, &log, &mut copy);
    let other: T = of_two_terms(rt, alloc);
    let so = copy.is_same(&other);
    is(rt, so, "the same, page by page or not");
    drop(other);
    drop(copy);
    drop(log);
}

/// What is sent to a log that goes from 11 to 15 in term 1, where 14 is committed: after which index and term, which entries, and
/// what it answers.
static SENT: [(u64, u64, &'static [Item], Appended); 4] = [
    (13, 1, &[(2, 0)], Appended::BelowCommit(14)),
    (12, 1, &[], Appended::Matched(14)),
    (16, 1, &[], Appended::Refused(15)),
    (15, 0, &[], Appended::Refused(0)),
];

/// What a follower answers.
fn answers<T: Tested>(rt: &impl Abort, alloc: Global, log: &mut T) {
    for (k, (prev, term, items, wanted)) in SENT.iter().enumerate() {
        let told = take_items(rt, alloc, log, (*prev, *term), items, 14);
        is_in_row(rt, told == Some(*wanted), "an answer", k);
    }
}

fn compares<T: Tested>(rt: &impl Abort, log: &T) {
    is(
        rt,
        log.hint_for(12, 1) == 12,
        "a hint at an entry of the term",
    );
    is(
        rt,
        log.hint_for(9, 1) == 0 && log.hint_for(15, 0) == 0,
        "no hint",
    );
    is(
        rt,
        log.is_no_newer(15, 1) && log.is_no_newer(11, 2),
        "as new, or newer",
    );
    is(rt, !log.is_no_newer(14, 1), "older");
}

/// What is at the ends of a log from 11 to 15.
fn has_ends<T: Tested>(rt: &impl Abort, log: &T) {
    is(rt, log.term_of(10) == Ok(1), "the base's term");
    is(
        rt,
        log.term_of(9) == Err(LogFault::Compacted),
        "below the base",
    );
    is(
        rt,
        log.term_of(16) == Err(LogFault::Unavailable),
        "past the end",
    );
    is(
        rt,
        !log.has_entry(10) && log.has_entry(11),
        "entries from 11 on",
    );
}

/// What a change at 16 shows.
fn has_change<T: Tested>(rt: &impl Abort, log: &T) {
    is(rt, has_numbers(log, (11, 16, 1, 3, 15)), "one entry more");
    is(rt, log.unsaved() == 1, "it isn't durable");
    is(
        rt,
        log.changes_in(15, 16) && log.changes_in(0, 99),
        "a change at 16",
    );
    is(
        rt,
        !log.changes_in(0, 15) && !log.changes_in(16, 99),
        "and no other",
    );
}

fn follows<T: Tested>(rt: &impl Abort, alloc: Global) {
    let mut log: T = filled(rt, alloc, 10, 5);
    answers(rt, alloc, &mut log);
    compares(rt, &log);
    has_ends(rt, &log);
    log.put(rt, change(rt, alloc, 3, 4));
    has_change(rt, &log);
    drop(log);
}

/// What is at the greatest index that there is, in a log that goes up to it; then the log is compacted to it.
fn ends_there<T: Tested>(rt: &impl Abort, log: &mut T) {
    is(
        rt,
        log.item_at(2_000_000_000).is_some(),
        "an entry at the limit",
    );
    is(rt, log.item_at(2_000_000_001).is_none(), "none past it");
    is(rt, log.cut(2_000_000_000, u64::MAX) == Ok(()), "compacted");
    is(
        rt,
        has_numbers(log, (2_000_000_001, 2_000_000_000, 1, 1, 2_000_000_000)),
        "no entries",
    );
}

/// A log can go up to the greatest index that there is, and can begin there. `put` gives it nothing more, as a log requires.
fn ends_at_the_limit<T: Tested>(rt: &impl Abort, alloc: Global) {
    let mut log: T = filled(rt, alloc, 1_999_999_998, 2);
    is(
        rt,
        has_numbers(&log, (1_999_999_999, 2_000_000_000, 1, 1, 2_000_000_000)),
        "two entries",
    );
    push(rt, alloc, &mut log, (1, 3));
    ends_there(rt, &mut log);
    drop(log);
}

fn all<T: Tested>(rt: &impl Abort, alloc: Global) {
    copies_share::<T>(rt, alloc);
    follows::<T>(rt, alloc);
    ends_at_the_limit::<T>(rt, alloc);
}

#[test]
fn plain_logs(rt: HostRuntime) {
    all::<PlainLog>(&rt, rt.alloc())
}

#[test]
fn split_logs(rt: HostRuntime) {
    all::<SplitLog>(&rt, rt.alloc())
}

/// What two logs of the entries 11 to 140 send after 60 is the same.
fn are_alike(rt: &impl Abort, sent: &Entries, shared: &Entries) {
    is(
        rt,
        sent.same(shared) && shared.same(sent),
        "the same is sent",
    );
    is(
        rt,
        shared.last_term() == Some(1) && shared.len() == 80,
        "80 entries of term 1",
    );
}

fn send_alike<P: Tested, S: Tested>(rt: &impl Abort, plain: &P, split: &S) -> Entries {
    let shared = split.sent_after(rt, 60);
    let sent = plain.sent_after(rt, 60);
    are_alike(rt, &sent, &shared);
    drop(sent);
    shared
}

/// Whether the log sends these entries after an index.
fn sends<T: Tested>(rt: &impl Abort, log: &T, index: u64, entries: &Entries) -> bool {
    let sent = log.sent_after(rt, index);
    let so = entries.same(&sent);
    drop(sent);
    so
}

fn one_entry(rt: &impl Abort, alloc: Global) -> Entries {
    let entries = vec![in alloc; payload(rt, alloc, 2, 3)].expect(rt, "memory");
    Entries::from_vec(entries).expect(rt, "memory")
}

fn first_piece(entries: &Entries) -> usize {
    entries.pieces().next().map_or(0, |piece| piece.len())
}

/// What a log from 11 to 141 sends, whose last entry is of term 2.
fn sends_its_end<S: Tested>(rt: &impl Abort, alloc: Global, split: &S) {
    let none = Entries::empty();
    is(rt, sends(rt, split, 141, &none), "nothing after its end");
    drop(none);
    let one = one_entry(rt, alloc);
    is(rt, sends(rt, split, 140, &one), "its last entry");
    drop(one);
    let last = split.sent_after(rt, 140);
    is(rt, first_piece(&last) == 1, "in one piece");
    drop(last);
}

fn stays<P: Tested, S: Tested>(rt: &impl Abort, plain: &P, split: &S, sent: &Entries) {
    is(rt, !sends(rt, split, 60, sent), "one log has gone on");
    is(rt, sends(rt, plain, 60, sent), "the other sends the same");
}

fn share_between<P: Tested, S: Tested>(rt: &impl Abort, alloc: Global, plain: &P, split: &mut S) {
    let sent = send_alike(rt, plain, split);
    push(rt, alloc, split, (2, 3));
    stays(rt, plain, split, &sent);
    drop(sent);
}

/// What a message holds of a log is the same whatever log it is of, and stays when the log goes on.
fn share<P: Tested, S: Tested>(rt: &impl Abort, alloc: Global) {
    let plain: P = filled(rt, alloc, 10, 130);
    let mut split: S = filled(rt, alloc, 10, 130);
    share_between(rt, alloc, &plain, &mut split);
    sends_its_end(rt, alloc, &split);
    drop(split);
    drop(plain);
}

#[test]
fn messages_share(rt: HostRuntime) {
    let none = Entries::empty();
    is(
        &rt,
        none.is_empty() && none.last_term().is_none(),
        "no entries",
    );
    drop(none);
    share::<PlainLog, SplitLog>(&rt, rt.alloc());
}
