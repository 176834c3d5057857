//! Trackers: views by id, and marks.

use super::{are, hold, number, tracking};
use crate::tests::is;
use rb_tracker::Tracker;
use std::alloc::Global;
use std::process::Abort;

/// A tracker of two voters, with views that were put in out of their order.
fn unordered(rt: &impl Abort, alloc: Global) -> Tracker {
    let mut tracker = tracking(rt, alloc, "12", "", "");
    hold_unordered(rt, alloc, &mut tracker);
    tracker
}

fn hold_unordered(rt: &impl Abort, alloc: Global, tracker: &mut Tracker) {
    for id in [3, 1, 7, 2] {
        hold(rt, alloc, tracker, id, id.saturating_mul(10));
    }
}

/// Whether the view at the place of an id is its own, by one call and by the other, and holds ten times the id.
fn is_found(tracker: &Tracker, id: u64, place: usize) -> bool {
    if tracker.place(id) != Some(place) || place >= tracker.len() {
        return false;
    }
    let (owner, view) = tracker.view(place);
    let matched = tracker.progress(place).matched();
    owner == id && view.matched() == matched && matched == id.saturating_mul(10)
}

/// Whether these ids, a digit each, have views, and nobody else.
fn has_views(tracker: &Tracker, digits: &str) -> bool {
    let mut place: usize = 0;
    for digit in digits.as_bytes() {
        let id = number(*digit);
        if !is_found(tracker, id, place) || tracker.match_of(id) != id.saturating_mul(10) {
            return false;
        }
        place = place.saturating_add(1);
    }
    tracker.len() == place
}

/// Whether an id has no view, whatever is asked.
fn is_absent(tracker: &Tracker, id: u64) -> bool {
    !tracker.has_view(id) && tracker.place(id).is_none() && tracker.match_of(id) == 0
}

fn lists_ids(rt: &impl Abort, tracker: &Tracker, digits: &str) -> bool {
    let ids = tracker.ids().expect(rt, "memory");
    let so = are(ids.as_slice(), digits);
    drop(ids);
    so
}

/// Whether views go where they are removed, and the configuration stays.
fn views_go(tracker: &mut Tracker) -> bool {
    tracker.remove(2);
    tracker.remove(9);
    let removed = has_views(tracker, "137") && is_absent(tracker, 2);
    tracker.clear();
    let cleared = has_views(tracker, "") && is_absent(tracker, 1);
    removed && cleared && are(tracker.config().incoming.as_slice(), "12")
}

#[test]
fn views_stand_by_id(rt: HostRuntime) {
    let mut tracker = unordered(&rt, rt.alloc());
    is(&rt, has_views(&tracker, "1237"), "views");
    is(&rt, lists_ids(&rt, &tracker, "1237"), "ids");
    is(&rt, views_go(&mut tracker), "they go");
    drop(tracker);
}

/// Whether the marks of the views of 1, 2, 3 and 7 are these.
fn marks_are(tracker: &Tracker, marks: [bool; 4]) -> bool {
    tracker.is_active(1) == marks[0]
        && tracker.is_active(2) == marks[1]
        && tracker.is_active(3) == marks[2]
        && tracker.is_active(7) == marks[3]
        && !tracker.is_active(4)
}

fn marks_go(tracker: &mut Tracker) -> bool {
    let all = marks_are(tracker, [true; 4]);
    tracker.mark_others_inactive(3);
    let one = marks_are(tracker, [false, false, true, false]);
    // Who has no view has no mark to keep.
    tracker.mark_others_inactive(5);
    all && one && marks_are(tracker, [false; 4])
}

#[test]
fn marks_go_off_but_ones_own(rt: HostRuntime) {
    let mut tracker = unordered(&rt, rt.alloc());
    is(&rt, marks_go(&mut tracker), "marks go");
    drop(tracker);
}
