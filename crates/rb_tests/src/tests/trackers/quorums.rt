//! Tables of what a quorum holds, of what votes come to and of who hears a quorum, worked out by hand from the definition: of n voters
//! more than half are 1 of 1, 2 of 2 and 3, 3 of 4 and 5, 4 of 6 and 7; of nobody it is nobody, who always agrees. While there are two
//! sets of voters, both have to agree.

use super::{answered, mark, tracking};
use crate::tests::{is, is_in_row};
use rb_tracker::VoteResult::{Lost, Pending, Won};
use rb_tracker::{Tracker, VoteResult, Votes};
use std::alloc::Global;
use std::process::Abort;

/// Incoming voters, outgoing voters, what the ids 1, 2 and so on hold (`-`: no view), and the greatest index that a quorum holds.
static HELD: [(&str, &str, &str, u64); 43] = [
    ("", "", "", 0),
    ("", "", "9", 0),
    ("1", "", "5", 5),
    ("1", "", "0", 0),
    ("1", "", "-", 0),
    ("1", "", "", 0),
    ("2", "", "94", 4),
    ("12", "", "53", 3),
    ("12", "", "35", 3),
    ("12", "", "55", 5),
    ("12", "", "5-", 0),
    ("123", "", "543", 4),
    ("123", "", "354", 4),
    ("123", "", "5-5", 5),
    ("123", "", "5--", 0),
    // A learner's view counts for nothing.
    ("123", "", "54399", 4),
    ("1234", "", "9753", 5),
    ("1234", "", "3957", 5),
    ("1234", "", "9733", 3),
    ("1234", "", "97--", 0),
    ("12345", "", "98765", 7),
    ("12345", "", "99111", 1),
    ("12345", "", "-6-78", 6),
    ("123456", "", "654321", 3),
    ("123456", "", "999111", 1),
    ("123456", "", "999911", 9),
    ("123456", "", "999---", 0),
    ("1234567", "", "7654321", 4),
    ("1234567", "", "1999921", 9),
    ("1234567", "", "777----", 0),
    ("1234567", "", "7772---", 2),
    ("357", "", "9919293", 2),
    // Two sets of voters.
    ("1", "1", "6", 6),
    ("1", "2", "94", 4),
    ("", "123", "543", 4),
    ("123", "345", "54321", 2),
    ("345", "123", "54321", 2),
    ("12", "3", "997", 7),
    ("123", "1234", "8621", 2),
    ("12345", "67", "999993-", 0),
    ("1234567", "12345", "7654321", 4),
    // A majority of all five holds 1, and one of the outgoing voters nothing.
    ("123", "345", "991--", 0),
    // A majority of all six holds 4, and one of the outgoing voters 1.
    ("123", "456", "999411", 1),
];

/// Incoming voters, outgoing voters, what the ids 1, 2 and so on answered, and what that comes to.
static DECIDED: [(&str, &str, &str, VoteResult); 49] = [
    ("", "", "", Won),
    ("1", "", "_", Pending),
    ("1", "", "n", Lost),
    ("1", "", "y", Won),
    ("12", "", "__", Pending),
    ("12", "", "y_", Pending),
    ("12", "", "n_", Lost),
    ("12", "", "yn", Lost),
    ("12", "", "yy", Won),
    ("123", "", "y__", Pending),
    ("123", "", "n__", Pending),
    ("123", "", "yn_", Pending),
    ("123", "", "yy_", Won),
    ("123", "", "yny", Won),
    ("123", "", "nn_", Lost),
    ("123", "", "ynn", Lost),
    ("1234", "", "n___", Pending),
    ("1234", "", "yyn_", Pending),
    // Half of four win nothing, and half of them can refuse all.
    ("1234", "", "yynn", Lost),
    ("1234", "", "nn__", Lost),
    ("1234", "", "yyy_", Won),
    ("1234", "", "nyyy", Won),
    ("12345", "", "yynn_", Pending),
    ("12345", "", "nn___", Pending),
    ("12345", "", "nnn__", Lost),
    ("12345", "", "yyy__", Won),
    ("123456", "", "yyy___", Pending),
    ("123456", "", "nn____", Pending),
    ("123456", "", "nnn___", Lost),
    ("123456", "", "yyyynn", Won),
    ("1234567", "", "yyynnn_", Pending),
    ("1234567", "", "yyynnnn", Lost),
    ("1234567", "", "yyyynnn", Won),
    ("1234567", "", "___yyyy", Won),
    // Answers of others count for nothing.
    ("123", "", "___yyynnn", Pending),
    // Two sets of voters.
    ("234", "123", "_yy_", Won),
    ("234", "123", "_y_y", Pending),
    ("234", "123", "nyny", Lost),
    ("12", "3", "yy_", Pending),
    ("12", "3", "yyy", Won),
    ("12", "3", "yyn", Lost),
    ("12", "3", "n_y", Lost),
    ("", "12", "y_", Pending),
    ("", "12", "yy", Won),
    ("1", "1", "y", Won),
    ("123", "345", "yyn__", Pending),
    ("123", "345", "yynn_", Lost),
    ("123", "345", "yy_yy", Won),
    // Five of seven granted, and of two outgoing voters none.
    ("12345", "67", "yyyyy__", Pending),
];

/// Incoming voters, outgoing voters, whether the ids 1, 2 and so on are marked (`+`), not marked (`.`) or have no view (`-`), and
/// whether that is a quorum.
static HEARD: [(&str, &str, &str, bool); 23] = [
    ("", "", "", true),
    ("1", "", "+", true),
    ("1", "", ".", false),
    ("1", "", "-", false),
    ("12", "", "++", true),
    ("12", "", "+.", false),
    ("123", "", "++.", true),
    ("123", "", "+.-", false),
    ("123", "", "+-+", true),
    // A learner's mark is no voter's.
    ("123", "", "..++", false),
    ("1234", "", "++..", false),
    ("1234", "", "+++.", true),
    ("12345", "", "++...", false),
    ("12345", "", "++--+", true),
    ("123456", "", "+++...", false),
    ("123456", "", "++++..", true),
    ("1234567", "", "+++....", false),
    ("1234567", "", "++++...", true),
    ("123", "345", "++...", false),
    ("123", "345", "++.++", true),
    ("123", "189", "+++", false),
    ("", "12", "+.", false),
    ("12345", "67", "+++++..", false),
];

fn held(rt: &impl Abort, alloc: Global, row: &(&str, &str, &str, u64)) -> u64 {
    let tracker = tracking(rt, alloc, row.0, row.1, row.2);
    let held = tracker.committed().expect(rt, "memory");
    drop(tracker);
    held
}

#[test]
fn what_a_quorum_holds(rt: HostRuntime) {
    for (k, row) in HELD.iter().enumerate() {
        let so = held(&rt, rt.alloc(), row) == row.3;
        is_in_row(&rt, so, "what a quorum holds", k);
    }
}

fn decided(rt: &impl Abort, alloc: Global, row: &(&str, &str, &str, VoteResult)) -> VoteResult {
    let tracker = tracking(rt, alloc, row.0, row.1, "");
    let votes = answered(rt, alloc, row.2);
    let outcome = tracker.vote_result(&votes);
    drop(votes);
    drop(tracker);
    outcome
}

#[test]
fn what_votes_come_to(rt: HostRuntime) {
    for (k, row) in DECIDED.iter().enumerate() {
        let so = decided(&rt, rt.alloc(), row) == row.3;
        is_in_row(&rt, so, "what votes come to", k);
    }
}

/// Sets the marks of the views that there are, and says whether each is as it was set.
fn mark_all(tracker: &mut Tracker, marks: &str) -> bool {
    let mut id: u64 = 0;
    let mut are_set = true;
    for byte in marks.as_bytes() {
        id = id.saturating_add(1);
        mark(tracker, id, *byte == b'+');
        are_set = are_set && tracker.is_active(id) == (*byte == b'+');
    }
    are_set
}

/// Whether a quorum is heard, as the row wants it, and the marks are as they were set.
fn is_heard_so(rt: &impl Abort, alloc: Global, row: &(&str, &str, &str, bool)) -> bool {
    let mut tracker = tracking(rt, alloc, row.0, row.1, row.2);
    let are_set = mark_all(&mut tracker, row.2);
    let is_heard = tracker.quorum_active();
    drop(tracker);
    are_set && is_heard == row.3
}

#[test]
fn who_hears_a_quorum(rt: HostRuntime) {
    for (k, row) in HEARD.iter().enumerate() {
        is_in_row(
            &rt,
            is_heard_so(&rt, rt.alloc(), row),
            "who hears a quorum",
            k,
        );
    }
}

/// Two answered once and then the other way: their first answers stay. Then the fourth refuses, which is seen.
fn counts_first_answers(rt: &impl Abort, votes: &mut Votes) {
    let before = votes.try_copy().expect(rt, "memory");
    votes.answer(2, true).expect(rt, "memory");
    votes.answer(1, false).expect(rt, "memory");
    is(rt, votes.same(&before), "first answers stay");
    votes.answer(4, false).expect(rt, "memory");
    is(
        rt,
        votes.has_answered(2) && votes.has_answered(4),
        "they answered",
    );
    is(rt, !votes.has_answered(5), "the fifth didn't");
    is(
        rt,
        votes.granted.len() == 2 && votes.refused.len() == 2,
        "two and two",
    );
    is(rt, !votes.same(&before), "one more");
    drop(before);
}

fn forgets(votes: &mut Votes) -> bool {
    votes.clear();
    votes.granted.is_empty() && votes.refused.is_empty()
}

#[test]
fn the_first_answer_counts(rt: HostRuntime) {
    let mut votes = answered(&rt, rt.alloc(), "yny");
    counts_first_answers(&rt, &mut votes);
    is(&rt, forgets(&mut votes), "nobody answered");
    drop(votes);
}
