//! A slow plain count beside what the crate answers, over all pairs of sets of four ids and all that each of the four may hold, answer
//! or be marked: it goes over every set of the four and asks which of them is a quorum. A set is a number with a bit for each id.

use super::{hold, mark, voting};
use crate::tests::is_in_row;
use rb_tracker::{Config, Tracker, VoteResult, Votes};
use std::alloc::Global;
use std::process::Abort;

/// How many sets of four ids there are.
const SETS: u32 = 16;

/// Each of them, a digit for an id.
static DIGITS: [&str; 16] = [
    "", "1", "2", "12", "3", "13", "23", "123", "4", "14", "24", "124", "34", "134", "234", "1234",
];

/// How many ways there are for each of the four to do one of three things.
const WAYS: u32 = 81;

/// The bit of an id.
fn bit(id: u32) -> u32 {
    match id {
        1 => 1,
        2 => 2,
        3 => 4,
        _ => 8,
    }
}

/// Which of three things an id does: a digit to the base 3.
fn done(ways: u32, id: u32) -> u32 {
    match id {
        1 => ways % 3,
        2 => ways / 3 % 3,
        3 => ways / 9 % 3,
        _ => ways / 27 % 3,
    }
}

/// The ids that do at least so much.
fn doing(ways: u32, least: u32) -> u32 {
    let mut set = 0;
    for id in 1..5 {
        if least <= done(ways, id) {
            set |= bit(id);
        }
    }
    set
}

/// Whether more than half of the voters are in a set; of nobody, all are.
fn has_most(voters: u32, set: u32) -> bool {
    voters == 0 || voters.count_ones() < (voters & set).count_ones().saturating_mul(2)
}

/// Whether a quorum is part of a set.
fn has_quorum(incoming: u32, outgoing: u32, set: u32) -> bool {
    for quorum in 0..SETS {
        if quorum & set == quorum && has_most(incoming, quorum) && has_most(outgoing, quorum) {
            return true;
        }
    }
    false
}

/// The most that each of a quorum does.
fn most_done(incoming: u32, outgoing: u32, ways: u32) -> u32 {
    if has_quorum(incoming, outgoing, doing(ways, 2)) {
        2
    } else if has_quorum(incoming, outgoing, doing(ways, 1)) {
        1
    } else {
        0
    }
}

/// What that many hold: of nobody, nothing.
fn slow_committed(incoming: u32, outgoing: u32, most: u32) -> u64 {
    if incoming | outgoing == 0 {
        0
    } else {
        u64::from(most)
    }
}

/// Who does 0 refused, who does 1 hasn't answered, and who does 2 granted.
fn slow_result(most: u32) -> VoteResult {
    match most {
        2 => VoteResult::Won,
        1 => VoteResult::Pending,
        _ => VoteResult::Lost,
    }
}

/// Each of the four holds as much as it does, and is marked where it does 2.
fn hold_all(rt: &impl Abort, alloc: Global, tracker: &mut Tracker, ways: u32) {
    for id in 1..5 {
        let way = done(ways, id);
        hold(rt, alloc, tracker, u64::from(id), u64::from(way));
        mark(tracker, u64::from(id), way == 2);
    }
}

fn answer_all(rt: &impl Abort, votes: &mut Votes, ways: u32) {
    for id in 1..5 {
        let way = done(ways, id);
        if way != 1 {
            votes.answer(u64::from(id), way == 2).expect(rt, "memory");
        }
    }
}

/// Whether the three answers are those of the slow count.
fn agrees(
    rt: &impl Abort,
    tracker: &Tracker,
    votes: &Votes,
    incoming: u32,
    outgoing: u32,
    ways: u32,
) -> bool {
    let committed = tracker.committed().expect(rt, "memory");
    let most = most_done(incoming, outgoing, ways);
    committed == slow_committed(incoming, outgoing, most)
        && tracker.vote_result(votes) == slow_result(most)
        && tracker.quorum_active() == (most == 2)
}

/// A pair of sets of voters is put into the tracker, which is then asked.
fn agrees_at(
    rt: &impl Abort,
    alloc: Global,
    tracker: &mut Tracker,
    votes: &Votes,
    pair: u32,
    ways: u32,
) -> bool {
    let incoming = pair % SETS;
    let outgoing = pair / SETS % SETS;
    let config = voting(
        rt,
        alloc,
        DIGITS[incoming as usize],
        DIGITS[outgoing as usize],
    );
    tracker.set_config(config);
    agrees(rt, tracker, votes, incoming, outgoing, ways)
}

/// How many pairs of sets of voters there are at which all three agree.
fn count_agreeing(
    rt: &impl Abort,
    alloc: Global,
    tracker: &mut Tracker,
    votes: &Votes,
    ways: u32,
) -> u32 {
    let mut count: u32 = 0;
    for pair in 0..SETS * SETS {
        if agrees_at(rt, alloc, tracker, votes, pair, ways) {
            count = count.saturating_add(1);
        }
    }
    count
}

fn agreeing(rt: &impl Abort, alloc: Global, ways: u32) -> u32 {
    let mut tracker = Tracker::new(alloc, Config::new(alloc));
    hold_all(rt, alloc, &mut tracker, ways);
    let mut votes = Votes::new(alloc);
    answer_all(rt, &mut votes, ways);
    let count = count_agreeing(rt, alloc, &mut tracker, &votes, ways);
    drop(votes);
    drop(tracker);
    count
}

#[test]
fn quorums_are_as_a_slow_count_finds_them(rt: HostRuntime) {
    for ways in 0..WAYS {
        let so = agreeing(&rt, rt.alloc(), ways) == SETS * SETS;
        is_in_row(&rt, so, "a way to do three things", ways as usize);
    }
}
