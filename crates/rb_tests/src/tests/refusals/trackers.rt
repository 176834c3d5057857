//! Views, marks and quorums.

use crate::tests::is;
use rb_tracker::{Config, Progress, Tracker, Votes, Window};
use std::alloc::Global;
use std::process::Abort;

/// What is in flight goes into the room that the window has taken, and out of it.
fn goes_round(rt: &impl Abort, view: &mut Progress) {
    view.sent(5);
    view.sent(6);
    is(rt, view.is_full(), "full");
    view.free_through(5);
    is(rt, view.window().len() == 1, "one is free");
    view.sent(7);
    is(rt, view.is_full(), "full again");
}

/// A mark is set and read, and seen by a comparison with the view as it was.
fn is_marked(rt: &impl Abort, view: &mut Progress, copy: &Progress) {
    is(rt, view.same(copy), "the same");
    view.set_active(false);
    is(rt, !view.active() && copy.active(), "marks");
    is(rt, !view.same(copy), "another");
}

/// A view's calls and a copy's, if there is memory for it.
fn marks_a_view(rt: &impl Abort, view: &mut Progress) -> bool {
    goes_round(rt, view);
    let Ok(copy) = view.try_copy() else {
        return false;
    };
    is_marked(rt, view, &copy);
    drop(copy);
    true
}

/// Makes each call of a view, if there is memory for it.
fn views(rt: &impl Abort, alloc: Global) -> bool {
    let Ok(view) = Progress::own(alloc, 2, 3, 4) else {
        return false;
    };
    let mut view = view;
    let is_whole = marks_a_view(rt, &mut view);
    drop(view);
    is_whole
}

#[test]
fn views_under_refusals(rt: HostRuntime) {
    let _whole = views(&rt, rt.alloc());
}

/// An append goes into the room that a window has taken, and out of it. If there is no memory for the room, none does.
fn windows(rt: &impl Abort, alloc: Global) -> bool {
    let Ok(window) = Window::new(alloc, 1) else {
        return false;
    };
    let mut window = window;
    window.push(5);
    is(rt, window.is_full() && window.len() == 1, "one in flight");
    window.free_through(5);
    is(
        rt,
        window.len() == 0 && window.same(&window),
        "none in flight",
    );
    drop(window);
    true
}

#[test]
fn windows_under_refusals(rt: HostRuntime) {
    let _whole = windows(&rt, rt.alloc());
}

/// Puts in the view of a member.
fn add(alloc: Global, tracker: &mut Tracker, id: u64) -> Option<()> {
    let view = Progress::own(alloc, 1, 3, 4).ok()?;
    if tracker.has_view(id) {
        drop(view);
    } else {
        tracker.add(id, view).ok()?;
    }
    Some(())
}

fn config_of(alloc: Global) -> Option<Config> {
    let mut config = Config::new(alloc);
    config.incoming.extend(&[1, 2, 3]).ok()?;
    Some(config)
}

/// Three voters with a view each.
fn tracker_of(alloc: Global) -> Option<Tracker> {
    let config = config_of(alloc)?;
    let mut tracker = Tracker::new(alloc, config);
    for id in 1..4 {
        add(alloc, &mut tracker, id)?;
    }
    Some(tracker)
}

fn mark(tracker: &mut Tracker, id: u64, active: bool) {
    if let Some(place) = tracker.place(id) {
        tracker.set_active(place, active);
    }
}

/// Marks of two members are a quorum, and one is none.
fn hears_a_quorum(rt: &impl Abort, tracker: &mut Tracker) {
    is(rt, tracker.quorum_active(), "all three");
    mark(tracker, 2, false);
    is(rt, tracker.quorum_active(), "two of three");
    mark(tracker, 3, false);
    is(rt, !tracker.quorum_active(), "one of three");
    mark(tracker, 2, true);
    is(rt, tracker.quorum_active(), "two again");
}

/// A mark is seen by a comparison with a copy, if there is memory for it.
fn is_seen(rt: &impl Abort, tracker: &mut Tracker) -> bool {
    let Ok(copy) = tracker.try_copy() else {
        return false;
    };
    is(rt, tracker.same(&copy), "the same");
    mark(tracker, 1, false);
    is(rt, !tracker.same(&copy), "another");
    drop(copy);
    true
}

/// Makes each call of a tracker, if there is memory for it.
fn quorums(rt: &impl Abort, alloc: Global) -> bool {
    let Some(tracker) = tracker_of(alloc) else {
        return false;
    };
    let mut tracker = tracker;
    hears_a_quorum(rt, &mut tracker);
    let is_whole = is_seen(rt, &mut tracker);
    drop(tracker);
    is_whole
}

#[test]
fn quorums_under_refusals(rt: HostRuntime) {
    let _whole = quorums(&rt, rt.alloc());
}

/// Eighteen who granted, which is more than a set holds without memory.
fn votes_of(alloc: Global) -> Option<Votes> {
    let mut votes = Votes::new(alloc);
    for id in 1..19 {
        votes.answer(id, true).ok()?;
    }
    Some(votes)
}

/// Compares votes, if there is memory for them.
fn votes(rt: &impl Abort, alloc: Global) -> bool {
    let Some(votes) = votes_of(alloc) else {
        return false;
    };
    is(rt, votes.same(&votes), "the same");
    drop(votes);
    true
}

#[test]
fn votes_under_refusals(rt: HostRuntime) {
    let _whole = votes(&rt, rt.alloc());
}

#[test]
fn each_call_of_a_tracker(rt: HostRuntime) {
    is(&rt, windows(&rt, rt.alloc()), "a window");
    is(&rt, views(&rt, rt.alloc()), "a view");
    is(&rt, quorums(&rt, rt.alloc()), "a tracker");
    is(&rt, votes(&rt, rt.alloc()), "votes");
}
