//! Each call once where it succeeds, and what is ready.

use super::making::{Player, played};
use super::moves::{ALONE, FOLLOWS, LEADS, Move, START, Says};
use super::seen::Said;
use crate::tests::{is, is_in_row};
use rb_node::{ELECTION_TICKS, HEARTBEAT_TICKS, MAX_TICKS, limits_are};
use rb_raftlog::CompactFault;
use std::alloc::Global;
use std::process::Abort;

/// What is ready: the hard state's term, vote and commit, and a snapshot's term and index, where there are such; how many entries are to
/// be saved, and applied; how many messages were sent, and how many answers wait.
pub type Ready = (
    Option<(u64, u64, u64)>,
    Option<(u64, u64)>,
    usize,
    usize,
    usize,
    usize,
);

const NOTHING: Ready = (None, None, 0, 0, 0, 0);

static READY: [(&[Move], Ready); 8] = [
    (&[], (None, None, 0, 0, 0, 0)),
    (FOLLOWS, (None, None, 0, 0, 0, 0)),
    (LEADS, (None, None, 0, 0, 0, 0)),
    (&[Move::Campaign], (Some((1, 1, 10)), None, 0, 0, 2, 1)),
    (
        &[Move::Get(2, 2, Says::Append(1, 10, 12, 3))],
        (Some((2, 0, 12)), None, 3, 2, 0, 1),
    ),
    (
        &[Move::Get(2, 2, Says::Append(1, 10, 12, 3)), Move::Advance],
        (None, None, 0, 0, 0, 0),
    ),
    (
        &[Move::Get(2, 2, Says::Snapshot(2, 20))],
        (Some((2, 0, 20)), Some((2, 20)), 0, 0, 0, 1),
    ),
    (
        &[Move::Get(2, 2, Says::Heartbeat(0))],
        (Some((2, 0, 10)), None, 0, 0, 1, 0),
    ),
];

/// Whether this is ready once a node did all this, and whether something is.
fn is_ready_after<P: Player>(
    rt: &impl Abort,
    alloc: Global,
    moves: &[Move],
    wanted: Ready,
) -> bool {
    let player: P = played(rt, alloc, &START, moves);
    let came = (player.ready(), player.has_ready());
    drop(player);
    came == (wanted, wanted != NOTHING)
}

fn readies<P: Player>(rt: &impl Abort, alloc: Global, rows: &[(&[Move], Ready)]) {
    for (k, (moves, wanted)) in rows.iter().enumerate() {
        let so = is_ready_after::<P>(rt, alloc, moves, *wanted);
        is_in_row(rt, so, "what is ready", k);
    }
}

/// What goes out first, how many messages go out, how many events there are, and whether anything is ready then.
pub type Gone = (Said, usize, usize, bool);

static TAKES_ENTRIES: &[Move] = &[
    Move::Get(2, 2, Says::Append(1, 10, 12, 3)),
    Move::Get(2, 2, Says::Heartbeat(12)),
];

/// What a follower is to apply, and what goes out: the sent messages, then the answers to others.
fn hands_over<P: Player>(rt: &impl Abort, alloc: Global) {
    let mut player: P = played(rt, alloc, &START, TAKES_ENTRIES);
    is(
        rt,
        player.applies_what_it_saves(),
        "what is saved and applied",
    );
    let gone = player.gone_out(rt, alloc);
    is(
        rt,
        gone == (Said::HeartbeatAnswer, 2, 0, false),
        "what goes out",
    );
    drop(player);
}

/// Whether a log of 11 to 13, all of it applied, can begin at 13, and then at no index up to there.
fn compacts<P: Player>(player: &mut P) -> bool {
    player.compact(14) == Err(CompactFault::PastApplied)
        && player.compact(10) == Err(CompactFault::AlreadyCompacted)
        && player.compact(13) == Ok(())
        && player.held().0 == 13
}

static LIVES: &[Move] = &[
    Move::Tick,
    Move::Campaign,
    Move::Advance,
    Move::Propose(b'c'),
    Move::Propose(b'd'),
    Move::Advance,
    Move::Advance,
];

/// A lone voter takes two payloads; its snapshot is its content, and its log can begin there.
fn life<P: Player>(rt: &impl Abort, alloc: Global) {
    let mut player: P = played(rt, alloc, &ALONE, LIVES);
    let seen = player.snapshot_seen(rt, b"abcd");
    is(rt, seen == (13, 1, true), "the snapshot");
    is(rt, compacts(&mut player), "compacted");
    drop(player);
}

pub fn all<P: Player>(rt: &impl Abort, alloc: Global) {
    readies::<P>(rt, alloc, &READY);
    hands_over::<P>(rt, alloc);
    life::<P>(rt, alloc);
}

#[test]
fn limits(rt: HostRuntime) {
    limits_are();
    let ticks = (ELECTION_TICKS, HEARTBEAT_TICKS, MAX_TICKS);
    is(&rt, ticks == (3, 1, 1_000), "ticks");
}
