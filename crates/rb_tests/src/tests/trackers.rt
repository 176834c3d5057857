//! What no clause says: that the definitions mean what is meant, by tables worked out by hand and by slow plain counts, and that calls
//! succeed. In the tables ids and indexes are digits, so a set of ids is a word of digits.

mod changes;
mod counts;
mod progresses;
mod quorums;
mod trackers;
mod windows;

use rb_tracker::{Config, IdSet, Progress, Tracker, Votes};
use std::alloc::Global;
use std::process::Abort;

/// The number that a digit stands for.
fn number(digit: u8) -> u64 {
    u64::from(digit.saturating_sub(b'0'))
}

/// Puts ids into a set, a digit each.
fn put(rt: &impl Abort, set: &mut IdSet, digits: &str) {
    for digit in digits.as_bytes() {
        set.insert(number(*digit)).expect(rt, "memory");
    }
}

/// Whether a list has these numbers, a digit each, in this order.
fn are(list: &[u64], digits: &str) -> bool {
    if list.len() != digits.len() {
        return false;
    }
    for (x, digit) in list.iter().zip(digits.as_bytes()) {
        if *x != number(*digit) {
            return false;
        }
    }
    true
}

/// A configuration of these voters, and of nobody else.
fn voting(rt: &impl Abort, alloc: Global, incoming: &str, outgoing: &str) -> Config {
    let mut config = Config::new(alloc);
    put(rt, &mut config.incoming, incoming);
    put(rt, &mut config.outgoing, outgoing);
    config
}

/// Puts in a view of an id that holds the log up to an index.
fn hold(rt: &impl Abort, alloc: Global, tracker: &mut Tracker, id: u64, matched: u64) {
    if matched < 1_000 && !tracker.has_view(id) {
        let view = Progress::own(alloc, 1, matched, matched + 1).expect(rt, "memory");
        tracker.add(id, view).expect(rt, "memory");
    }
}

/// Puts in views of the ids 1, 2 and so on, which hold the log up to a digit each. Who has `-` has no view.
fn hold_all(rt: &impl Abort, alloc: Global, tracker: &mut Tracker, digits: &str) {
    let mut id: u64 = 0;
    for digit in digits.as_bytes() {
        id = id.saturating_add(1);
        if *digit != b'-' {
            hold(rt, alloc, tracker, id, number(*digit));
        }
    }
}

/// Sets the mark of an id's view, if it has one.
fn mark(tracker: &mut Tracker, id: u64, active: bool) {
    if let Some(place) = tracker.place(id) {
        tracker.set_active(place, active);
    }
}

/// A tracker of these voters, in which the ids 1, 2 and so on hold the log up to a digit each.
fn tracking(
    rt: &impl Abort,
    alloc: Global,
    incoming: &str,
    outgoing: &str,
    digits: &str,
) -> Tracker {
    let mut tracker = Tracker::new(alloc, voting(rt, alloc, incoming, outgoing));
    hold_all(rt, alloc, &mut tracker, digits);
    tracker
}

/// What the ids 1, 2 and so on answered: `y` granted, `n` refused, and `_` nothing yet.
fn answered(rt: &impl Abort, alloc: Global, answers: &str) -> Votes {
    let mut votes = Votes::new(alloc);
    answer_all(rt, &mut votes, answers);
    votes
}

fn answer_all(rt: &impl Abort, votes: &mut Votes, answers: &str) {
    let mut id: u64 = 0;
    for answer in answers.as_bytes() {
        id = id.saturating_add(1);
        if *answer != b'_' {
            votes.answer(id, *answer == b'y').expect(rt, "memory");
        }
    }
}
