//! Windows that go round their ring, at the least room that there may be, at two, and at the most that a node asks for.

use crate::tests::is;
use rb_tracker::Progress;
use std::process::Abort;

/// Sends so many appends of one entry each, after an index, and says whether there was room for each.
fn send(view: &mut Progress, after: u32, count: u32) -> bool {
    let mut has_room = true;
    for k in 0..count {
        has_room = has_room && !view.paused();
        view.sent(u64::from(after.saturating_add(k).saturating_add(1)));
    }
    has_room
}

/// Whether so many indexes are in flight, one after another, after an index.
fn has_run(view: &Progress, after: u32, count: u32) -> bool {
    let window = view.window();
    let mut index = u64::from(after);
    for place in 0..window.len() {
        index = index.saturating_add(1);
        if window.index_at(place) != index {
            return false;
        }
    }
    window.len() as u64 == u64::from(count)
}

/// In a full window, whose first index follows `after`, a part is freed and sent anew, so that the ring goes round.
fn turn(rt: &impl Abort, view: &mut Progress, after: u32, capacity: u32, part: u32) {
    let last = after.saturating_add(capacity);
    let freed = after.saturating_add(part);
    view.free_through(u64::from(freed));
    is(
        rt,
        has_run(view, freed, capacity.saturating_sub(part)),
        "freed",
    );
    is(rt, send(view, last, part), "room again");
    is(rt, has_run(view, freed, capacity), "full again");
    // A full window takes no more, and forgets nothing.
    is(rt, !send(view, last.saturating_add(part), 1), "no room");
    is(rt, has_run(view, freed, capacity), "still full");
}

/// A window is filled, and goes round by one, by its half, by all but one, and by all.
fn goes_round(rt: &impl Abort, view: &mut Progress, capacity: u32) {
    is(rt, view.window().is_empty(), "empty at first");
    is(
        rt,
        send(view, 0, capacity) && has_run(view, 0, capacity),
        "filled",
    );
    let mut after: u32 = 0;
    for part in [
        0,
        1,
        capacity / 2,
        capacity.saturating_sub(1),
        capacity,
        1,
        capacity / 2,
    ] {
        turn(rt, view, after, capacity, part);
        after = after.saturating_add(part);
    }
    view.acked(u64::from(after.saturating_add(capacity)));
    is(
        rt,
        view.window().is_empty() && !view.is_full(),
        "empty at last",
    );
}

#[test]
fn windows_go_round(rt: HostRuntime) {
    for (room, capacity) in [(1, 1), (2, 2), (256, 256)] {
        let mut view = Progress::own(rt.alloc(), room, 0, 1).expect(&rt, "memory");
        is(&rt, view.window().capacity() == room, "room");
        goes_round(&rt, &mut view, capacity);
        drop(view);
    }
}

/// A view whose window has room for nothing is sent nothing.
#[test]
fn a_window_without_room(rt: HostRuntime) {
    let mut view = Progress::own(rt.alloc(), 0, 0, 1).expect(&rt, "memory");
    is(&rt, view.paused(), "sent nothing");
    is(
        &rt,
        !send(&mut view, 0, 1) && has_run(&view, 0, 0),
        "no room",
    );
    drop(view);
}
