//! What a node holds, and how much of it is committed, applied and durable.

use super::making::{Player, played};
use super::moves::{ALONE, FOLLOWS, Move, START, Says, Start};
use crate::tests::is_in_row;
use rb_vocab::{Transition, WordKind};
use std::alloc::Global;
use std::process::Abort;

/// The base, the last index and its term, the last that is durable, commit and applied.
pub type Held = (u64, u64, u64, u64, u64, u64);

/// Node 2 leads term 2, with three entries that are durable.
const HOLDS_THREE: Move = Move::Get(2, 2, Says::Append(1, 10, 10, 3));

/// Node 3 leads term 3, and has another entry at 12.
const CONFLICTS: Move = Move::Get(3, 3, Says::Append(2, 11, 10, 1));

/// Nodes 1 and 2 hold 3/14, which node 1 appended in term 3 after three entries of term 2.
const VOTED_FOR: Move = Move::Get(2, 3, Says::VoteAnswer(true));

static HELD: [(&[Move], Held); 17] = [
    (FOLLOWS, (10, 10, 1, 10, 10, 10)),
    (&[HOLDS_THREE], (10, 13, 2, 10, 10, 10)),
    (&[HOLDS_THREE, Move::Advance], (10, 13, 2, 13, 10, 10)),
    // what conflicts is dropped with all that follows, and is durable no more
    (
        &[HOLDS_THREE, Move::Advance, CONFLICTS],
        (10, 12, 3, 11, 10, 10),
    ),
    (&[HOLDS_THREE, CONFLICTS], (10, 12, 3, 10, 10, 10)),
    (
        &[HOLDS_THREE, Move::Advance, CONFLICTS, Move::Advance],
        (10, 12, 3, 12, 10, 10),
    ),
    // what is sent again is kept, with all that follows
    (
        &[
            HOLDS_THREE,
            Move::Advance,
            Move::Get(2, 2, Says::Append(1, 10, 10, 1)),
        ],
        (10, 13, 2, 13, 10, 10),
    ),
    // commit is what is committed of what is held: all of it by a heartbeat, what was sent by an append
    (
        &[HOLDS_THREE, Move::Get(2, 2, Says::Heartbeat(50))],
        (10, 13, 2, 10, 13, 10),
    ),
    (
        &[HOLDS_THREE, Move::Get(2, 2, Says::Append(2, 11, 50, 0))],
        (10, 13, 2, 10, 11, 10),
    ),
    (
        &[
            HOLDS_THREE,
            Move::Get(2, 2, Says::Heartbeat(12)),
            Move::Advance,
        ],
        (10, 13, 2, 13, 12, 12),
    ),
    // a snapshot takes the place of all; one whose entry is held commits
    (
        &[HOLDS_THREE, Move::Get(2, 2, Says::Snapshot(2, 20))],
        (20, 20, 2, 20, 20, 20),
    ),
    (
        &[HOLDS_THREE, Move::Get(2, 2, Says::Snapshot(1, 13))],
        (13, 13, 1, 13, 13, 13),
    ),
    (
        &[HOLDS_THREE, Move::Get(2, 2, Says::Snapshot(2, 12))],
        (10, 13, 2, 10, 12, 10),
    ),
    // compacting goes to what is applied
    (
        &[
            HOLDS_THREE,
            Move::Get(2, 2, Says::Heartbeat(12)),
            Move::Advance,
            Move::Compact(12),
        ],
        (12, 13, 2, 13, 12, 12),
    ),
    (
        &[
            HOLDS_THREE,
            Move::Get(2, 2, Says::Heartbeat(12)),
            Move::Advance,
            Move::Compact(13),
        ],
        (10, 13, 2, 13, 12, 12),
    ),
    // a quorum that holds entries of an earlier term commits them by one of the leader's own alone
    (
        &[
            HOLDS_THREE,
            Move::Advance,
            Move::Campaign,
            Move::Advance,
            VOTED_FOR,
            Move::Advance,
            Move::Get(2, 3, Says::Accepted(13)),
        ],
        (10, 14, 3, 14, 10, 10),
    ),
    (
        &[
            HOLDS_THREE,
            Move::Advance,
            Move::Campaign,
            Move::Advance,
            VOTED_FOR,
            Move::Advance,
            Move::Get(2, 3, Says::Accepted(14)),
        ],
        (10, 14, 3, 14, 14, 10),
    ),
];

/// A leader counts its own entry once that is durable, and not before.
static COUNTED: [(&[Move], Held); 2] = [
    (
        &[
            Move::Campaign,
            Move::Advance,
            Move::Get(2, 1, Says::VoteAnswer(true)),
            Move::Get(2, 1, Says::Accepted(11)),
        ],
        (10, 11, 1, 10, 10, 10),
    ),
    (
        &[
            Move::Campaign,
            Move::Advance,
            Move::Get(2, 1, Says::VoteAnswer(true)),
            Move::Get(2, 1, Says::Accepted(11)),
            Move::Advance,
        ],
        (10, 11, 1, 11, 11, 10),
    ),
];

/// A lone leader's entry isn't committed once a second voter is there, which lacks it.
static SHARED: [(&[Move], Held); 1] = [(
    &[
        Move::Campaign,
        Move::Advance,
        Move::Advance,
        Move::Change(Transition::Auto, WordKind::Voter, 2),
        Move::Advance,
        Move::Propose(b'x'),
        Move::Advance,
    ],
    (10, 13, 1, 13, 12, 12),
)];

fn held<P: Player>(rt: &impl Abort, alloc: Global, start: &Start, moves: &[Move]) -> Held {
    let player: P = played(rt, alloc, start, moves);
    let held = player.held();
    drop(player);
    held
}

fn hold<P: Player>(rt: &impl Abort, alloc: Global, start: &Start, rows: &[(&[Move], Held)]) {
    for (k, (moves, wanted)) in rows.iter().enumerate() {
        let so = held::<P>(rt, alloc, start, moves) == *wanted;
        is_in_row(rt, so, "what is held", k);
    }
}

pub fn all<P: Player>(rt: &impl Abort, alloc: Global) {
    hold::<P>(rt, alloc, &START, &HELD);
    hold::<P>(rt, alloc, &START, &COUNTED);
    hold::<P>(rt, alloc, &ALONE, &SHARED);
}
