//! Views, call by call: what a leader knows of a follower after each, worked out by hand from the rules of progress (Ongaro's thesis,
//! section 3.5; etcd raft documentation, "Progress").

use super::number;
use crate::tests::is_in_row;
use rb_tracker::ProgressState::{Probe, Replicate, Snapshot};
use rb_tracker::{Progress, ProgressState};
use std::alloc::Global;
use std::process::Abort;

/// A call that changes a view.
#[derive(Clone, Copy)]
enum Call {
    Sent(u32),
    Acked(u32),
    Freed(u32),
    /// A refusal of what follows an index, with a hint. One that isn't believed isn't told.
    Refused(u32, u32),
    Probe,
    Snapshot(u32),
    Resume,
}

/// Makes a call.
fn make(view: &mut Progress, call: Call) {
    match call {
        Call::Sent(last) => view.sent(u64::from(last)),
        Call::Acked(index) => view.acked(u64::from(index)),
        Call::Freed(index) => view.free_through(u64::from(index)),
        Call::Refused(index, hint) => {
            if view.is_current_reject(u64::from(index)) {
                view.refused(u64::from(index), u64::from(hint));
            }
        }
        Call::Probe => view.to_probe(),
        Call::Snapshot(index) => view.to_snapshot(u64::from(index)),
        Call::Resume => view.resume(),
    }
}

/// State, match, next, whether a probe is on its way, the snapshot on its way, and whether it is sent nothing for now.
#[derive(Clone, Copy, PartialEq, Eq)]
struct Seen(ProgressState, u64, u64, bool, u64, bool);

/// A call, what is seen of the view after it, and what is in flight then, a digit each.
type Step = (Call, Seen, &'static str);

/// From a view that probes at 7.
static PROBING: [Step; 11] = [
    (Call::Sent(8), Seen(Probe, 0, 7, true, 0, true), ""),
    (Call::Freed(8), Seen(Probe, 0, 7, true, 0, true), ""),
    (Call::Resume, Seen(Probe, 0, 7, false, 0, false), ""),
    (Call::Sent(6), Seen(Probe, 0, 7, true, 0, true), ""),
    // A refusal of another index than the one before `next` is an old one.
    (Call::Refused(5, 2), Seen(Probe, 0, 7, true, 0, true), ""),
    (Call::Refused(7, 2), Seen(Probe, 0, 7, true, 0, true), ""),
    (Call::Refused(6, 2), Seen(Probe, 0, 3, false, 0, false), ""),
    (Call::Refused(2, 9), Seen(Probe, 0, 2, false, 0, false), ""),
    (Call::Refused(1, 0), Seen(Probe, 0, 1, false, 0, false), ""),
    (Call::Refused(0, 0), Seen(Probe, 0, 1, false, 0, false), ""),
    (Call::Acked(3), Seen(Replicate, 3, 4, false, 0, false), ""),
];

/// From a view that holds the log up to 3, with two appends in flight at most.
static REPLICATING: [Step; 18] = [
    (Call::Sent(5), Seen(Replicate, 3, 6, false, 0, false), "5"),
    // It was sent already.
    (Call::Sent(5), Seen(Replicate, 3, 6, false, 0, false), "5"),
    (Call::Sent(6), Seen(Replicate, 3, 7, false, 0, true), "56"),
    // There is no room.
    (Call::Sent(9), Seen(Replicate, 3, 7, false, 0, true), "56"),
    (Call::Freed(4), Seen(Replicate, 3, 7, false, 0, true), "56"),
    (Call::Freed(5), Seen(Replicate, 3, 7, false, 0, false), "6"),
    (Call::Sent(9), Seen(Replicate, 3, 10, false, 0, true), "69"),
    (Call::Acked(5), Seen(Replicate, 5, 10, false, 0, true), "69"),
    (Call::Acked(6), Seen(Replicate, 6, 10, false, 0, false), "9"),
    // It holds 6: the refusal is an old one.
    (
        Call::Refused(6, 0),
        Seen(Replicate, 6, 10, false, 0, false),
        "9",
    ),
    (Call::Refused(8, 0), Seen(Probe, 6, 7, false, 0, false), ""),
    (Call::Sent(8), Seen(Probe, 6, 7, true, 0, true), ""),
    // The hint is below what it holds.
    (Call::Refused(6, 2), Seen(Probe, 6, 7, false, 0, false), ""),
    (Call::Acked(6), Seen(Replicate, 6, 7, false, 0, false), ""),
    (Call::Sent(8), Seen(Replicate, 6, 9, false, 0, false), "8"),
    // More than was sent.
    (
        Call::Acked(11),
        Seen(Replicate, 11, 12, false, 0, false),
        "",
    ),
    (
        Call::Refused(12, 0),
        Seen(Probe, 11, 12, false, 0, false),
        "",
    ),
    (Call::Probe, Seen(Probe, 11, 12, false, 0, false), ""),
];

/// From the same view.
static SNAPSHOTS: [Step; 15] = [
    (Call::Sent(9), Seen(Replicate, 3, 10, false, 0, false), "9"),
    (Call::Snapshot(8), Seen(Snapshot, 3, 9, false, 8, true), ""),
    (Call::Sent(9), Seen(Snapshot, 3, 9, false, 8, true), ""),
    (Call::Freed(9), Seen(Snapshot, 3, 9, false, 8, true), ""),
    (
        Call::Refused(8, 1),
        Seen(Snapshot, 3, 9, false, 8, true),
        "",
    ),
    (Call::Acked(7), Seen(Snapshot, 7, 9, false, 8, true), ""),
    (Call::Acked(8), Seen(Replicate, 8, 9, false, 0, false), ""),
    (
        Call::Snapshot(30),
        Seen(Snapshot, 8, 31, false, 30, true),
        "",
    ),
    (
        Call::Acked(40),
        Seen(Replicate, 40, 41, false, 0, false),
        "",
    ),
    // Whether a probe is on its way, and the snapshot, stay; they are looked at in their own states alone.
    (
        Call::Snapshot(50),
        Seen(Snapshot, 40, 51, false, 50, true),
        "",
    ),
    (Call::Probe, Seen(Probe, 40, 41, false, 50, false), ""),
    (Call::Sent(60), Seen(Probe, 40, 41, true, 50, true), ""),
    (
        Call::Snapshot(45),
        Seen(Snapshot, 40, 46, true, 45, true),
        "",
    ),
    (Call::Probe, Seen(Probe, 40, 41, false, 45, false), ""),
    (
        Call::Acked(41),
        Seen(Replicate, 41, 42, false, 0, false),
        "",
    ),
];

fn look(view: &Progress) -> Seen {
    Seen(
        view.state(),
        view.matched(),
        view.next(),
        view.waiting(),
        view.pending(),
        view.paused(),
    )
}

/// Whether these indexes are in flight, a digit each.
fn are_in_flight(view: &Progress, digits: &str) -> bool {
    let window = view.window();
    if window.len() != digits.len() {
        return false;
    }
    let mut place: usize = 0;
    for digit in digits.as_bytes() {
        if place >= window.len() {
            return false;
        }
        if window.index_at(place) != number(*digit) {
            return false;
        }
        place = place.saturating_add(1);
    }
    true
}

/// Makes call after call, and looks at the view after each.
fn follow(rt: &impl Abort, view: &mut Progress, steps: &[Step]) {
    for (k, step) in steps.iter().enumerate() {
        make(view, step.0);
        let so = look(view) == step.1 && are_in_flight(view, step.2);
        is_in_row(rt, so, "after the step", k);
    }
}

/// A view that holds the log up to 3, and has room for two appends in flight.
fn own(rt: &impl Abort, alloc: Global) -> Progress {
    Progress::own(alloc, 2, 3, 4).expect(rt, "memory")
}

#[test]
fn a_probe_finds_the_place(rt: HostRuntime) {
    let mut view = Progress::new(rt.alloc(), 2, 7, true).expect(&rt, "memory");
    follow(&rt, &mut view, &PROBING);
    drop(view);
}

#[test]
fn appends_are_in_flight(rt: HostRuntime) {
    let mut view = own(&rt, rt.alloc());
    follow(&rt, &mut view, &REPLICATING);
    drop(view);
}

#[test]
fn snapshots_arrive(rt: HostRuntime) {
    let mut view = own(&rt, rt.alloc());
    follow(&rt, &mut view, &SNAPSHOTS);
    drop(view);
}

/// The view after calls.
fn after(rt: &impl Abort, alloc: Global, calls: &[Call]) -> Progress {
    let mut view = own(rt, alloc);
    for call in calls {
        make(&mut view, *call);
    }
    view
}

/// Calls, an index, whether an answer that accepts it tells something, and whether one that refuses what follows it is believed.
static ANSWERS: [(&[Call], u64, bool, bool); 10] = [
    (&[], 2, false, false),
    (&[], 3, false, false),
    (&[], 4, true, true),
    (&[Call::Probe], 2, false, false),
    (&[Call::Probe], 3, true, true),
    (&[Call::Probe], 4, true, false),
    (&[Call::Sent(9), Call::Acked(5)], 5, false, false),
    (&[Call::Sent(9), Call::Acked(5)], 6, true, true),
    (&[Call::Snapshot(8)], 3, false, false),
    (&[Call::Snapshot(8)], 8, true, false),
];

/// Whether the answers that a row tells of are told as it wants.
fn is_answer(rt: &impl Abort, alloc: Global, row: &(&[Call], u64, bool, bool)) -> bool {
    let view = after(rt, alloc, row.0);
    let told = (view.is_news(row.1), view.is_current_reject(row.1));
    drop(view);
    told == (row.2, row.3)
}

#[test]
fn answers_that_tell_something(rt: HostRuntime) {
    for (k, row) in ANSWERS.iter().enumerate() {
        is_in_row(&rt, is_answer(&rt, rt.alloc(), row), "an answer", k);
    }
}
