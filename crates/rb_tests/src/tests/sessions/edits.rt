//! Edits of sessions, each with its answer, the checkpoints after it and the report. Where an allocation is refused, the session shows
//! what it showed before, at most the edit's cost was executed, and the edit is made again.

use super::tested::{Ask, Tested, asked};
use super::{BenchSession, PlainSession};
use crate::tests::bench::fakes::repeated;
use crate::tests::{is, is_in_row};
use rb_replay::{Changed, StartFault};
use rb_script::{Block, Edit, EditFault, ScriptFault};
use std::alloc::Global;
use std::process::Abort;

/// One node, and eleven directives that leave it alone.
const SCRIPT: &[u8] = b"add-nodes 1 voters=(1) index=10
----
INFO 1 started at 1/10 with voters=(1)

log-level debug
----
ok

log-level debug
----
ok

log-level debug
----
ok

log-level debug
----
ok

log-level debug
----
ok

log-level debug
----
ok

log-level debug
----
ok

log-level debug
----
ok

log-level debug
----
ok

log-level debug
----
ok

log-level debug
----
ok

";

/// A script of one directive.
const ONE: &[u8] = b"log-level info\n----\nok\n";

/// An edit.
struct Step {
    ask: Ask,
    answer: Result<Changed, EditFault>,
    checkpoints: &'static [usize],
    report: &'static [u8],
}

const INSERTED: Step = Step {
    ask: Ask::Insert(6, b"raft-log 1\n----\n"),
    answer: Ok(Changed {
        executed: 5,
        mismatches: 1,
    }),
    checkpoints: &[0, 4, 8, 9, 13],
    report: b"mismatch 6
+ base=1/10 durable=10 commit=10 applied=10
13 directives, 1 mismatches
",
};

/// The clusters agree soon after the inserted directive. Expectations execute nothing. A campaign changes the cluster up to the end.
static TO_THE_END: [Step; 4] = [
    INSERTED,
    Step {
        ask: Ask::Expect(3, b"no\n"),
        answer: Ok(Changed {
            executed: 0,
            mismatches: 2,
        }),
        checkpoints: &[0, 4, 8, 9, 13],
        report: b"mismatch 3
- no
+ ok
mismatch 6
+ base=1/10 durable=10 commit=10 applied=10
13 directives, 2 mismatches
",
    },
    Step {
        ask: Ask::Accept,
        answer: Ok(Changed {
            executed: 0,
            mismatches: 0,
        }),
        checkpoints: &[0, 4, 8, 9, 13],
        report: b"13 directives, 0 mismatches\n",
    },
    Step {
        ask: Ask::Replace(3, b"campaign 1\n----\nINFO 1 became candidate at term 1\n"),
        answer: Ok(Changed {
            executed: 13,
            mismatches: 0,
        }),
        checkpoints: &[0, 4, 8, 12],
        report: b"13 directives, 0 mismatches\n",
    },
];

/// The clusters agree at the position that was a checkpoint, which is then too near to the next.
static REMOVED: [Step; 2] = [
    INSERTED,
    Step {
        ask: Ask::Remove(6),
        answer: Ok(Changed {
            executed: 3,
            mismatches: 0,
        }),
        checkpoints: &[0, 4, 8, 12],
        report: b"12 directives, 0 mismatches\n",
    },
];

/// Edits that the script of one directive refuses.
static REFUSED: [Step; 2] = [
    Step {
        ask: Ask::Insert(99, ONE),
        answer: Err(EditFault::NoSuchPlace),
        checkpoints: &[0],
        report: b"1 directives, 0 mismatches\n",
    },
    Step {
        ask: Ask::Expect(1, b"a\n----\n"),
        answer: Err(EditFault::BadExpectation),
        checkpoints: &[0],
        report: b"1 directives, 0 mismatches\n",
    },
];

/// Scripts, how many directives each checkpoint is after the one before, the checkpoints at the start, and how many directives run.
static STARTS: [(&[u8], u64, &[usize], u64); 2] = [
    (SCRIPT, 4, &[0, 4, 8, 12], 12),
    (ONE, 16, &[0], 1),
];

/// How many directives an edit executes.
fn cost(answer: Result<Changed, EditFault>) -> u64 {
    match answer {
        Ok(changed) => changed.executed,
        Err(_) => 0,
    }
}

/// The edit answers so, and executes so much.
fn is_answered<T: Tested>(rt: &impl Abort, session: &mut T, edit: &Edit, step: &Step) {
    let mut executed = 0;
    let answer = session.change(edit, &mut executed);
    is(rt, answer == step.answer, "the answer");
    is(rt, executed == cost(step.answer), "what is executed");
}

/// The session has these checkpoints and this report.
fn is_after<T: Tested>(rt: &impl Abort, session: &T, step: &Step) {
    is(rt, session.kept() == step.checkpoints, "the checkpoints");
    is(rt, session.reports(step.report), "the report");
}

/// Makes an edit. If memory is refused, all is as before, and the edit is made again.
fn change<T: Tested>(rt: &impl Abort, session: &mut T, edit: &Edit, step: &Step, before: &[u8]) {
    let mut executed = 0;
    let answer = session.change(edit, &mut executed);
    if answer == Err(EditFault::OutOfMemory) {
        is(rt, executed <= cost(step.answer), "at most the cost");
        is(rt, session.shows(before), "all as before");
        is_answered(rt, session, edit, step);
    } else {
        is(rt, answer == step.answer, "the answer");
        is(rt, executed == cost(step.answer), "what is executed");
    }
}

/// Makes an edit, if there is memory to record what the session shows before it.
fn change_recorded<T: Tested>(
    rt: &impl Abort,
    alloc: Global,
    session: &mut T,
    edit: &Edit,
    step: &Step,
) -> bool {
    let Some(before) = session.record(alloc) else {
        return false;
    };
    is(rt, session.shows(before.as_slice()), "what it shows");
    change(rt, session, edit, step, before.as_slice());
    drop(before);
    is_after(rt, session, step);
    true
}

/// Makes one edit, if there is memory for it.
fn make<T: Tested>(rt: &impl Abort, alloc: Global, session: &mut T, step: &Step) -> bool {
    let Some(edit) = asked(alloc, step.ask) else {
        return false;
    };
    let is_made = change_recorded(rt, alloc, session, &edit, step);
    drop(edit);
    is_made
}

/// Makes one edit after the other, up to one that there is no memory to ask for.
fn make_all<T: Tested>(rt: &impl Abort, alloc: Global, session: &mut T, steps: &[Step]) -> bool {
    for step in steps {
        if !make(rt, alloc, session, step) {
            return false;
        }
    }
    true
}

/// A session on one of the scripts, which ran each directive once. Nothing if memory was refused, which is never the script's fault.
fn start<T: Tested>(rt: &impl Abort, alloc: Global, k: usize) -> Option<T> {
    let (script, every, checkpoints, count) = STARTS[k.min(1)];
    let mut executed = 0;
    match T::begin(alloc, script, every, &mut executed) {
        Ok(session) => {
            is(rt, executed == count, "what is executed");
            is(rt, session.kept() == checkpoints, "the checkpoints");
            Some(session)
        }
        Err(fault) => {
            is(rt, fault == StartFault::OutOfMemory, "no memory");
            is(rt, executed <= count, "at most each directive");
            None
        }
    }
}

/// Whether there was memory to start a session and to ask for these edits.
fn edit_all<T: Tested>(rt: &impl Abort, alloc: Global, k: usize, steps: &[Step]) -> bool {
    let Some(session) = start::<T>(rt, alloc, k) else {
        return false;
    };
    let mut session = session;
    let are_made = make_all(rt, alloc, &mut session, steps);
    drop(session);
    are_made
}

fn make_each_edit<T: Tested>(rt: &impl Abort, alloc: Global) {
    let to_the_end = edit_all::<T>(rt, alloc, 0, &TO_THE_END);
    is(rt, to_the_end, "to the end");
    let removed = edit_all::<T>(rt, alloc, 0, &REMOVED);
    is(rt, removed, "removed");
    let refused = edit_all::<T>(rt, alloc, 1, &REFUSED);
    is(rt, refused, "refused");
}

#[test]
fn each_edit(rt: HostRuntime) {
    make_each_edit::<BenchSession>(&rt, rt.alloc());
    make_each_edit::<PlainSession>(&rt, rt.alloc());
}

#[test]
fn edits_to_the_end_under_refusals(rt: HostRuntime) {
    let _all = edit_all::<BenchSession>(&rt, rt.alloc(), 0, &TO_THE_END);
}

#[test]
fn a_remove_under_refusals(rt: HostRuntime) {
    let _all = edit_all::<BenchSession>(&rt, rt.alloc(), 0, &REMOVED);
}

#[test]
fn refused_edits_under_refusals(rt: HostRuntime) {
    let _all = edit_all::<BenchSession>(&rt, rt.alloc(), 1, &REFUSED);
}

/// Texts that are not one block.
static NOT_ONE: [&[u8]; 3] = [
    b"log-level info\n----\nok\n\nlog-level info\n----\nok\n",
    b"log-level info\n----\nok\n\n# more\n",
    b"",
];

// The fault comes whether or not there is memory to find it.
#[test]
fn not_one_block_under_refusals(rt: HostRuntime) {
    for (k, text) in NOT_ONE.iter().enumerate() {
        let fault = Block::read(rt.alloc(), text).err();
        let so = fault == Some(ScriptFault::NotOneBlock) || fault == Some(ScriptFault::OutOfMemory);
        is_in_row(&rt, so, "not one block", k);
    }
}

#[test]
fn not_one_block(rt: HostRuntime) {
    for (k, text) in NOT_ONE.iter().enumerate() {
        let fault = Block::read(rt.alloc(), text).err();
        let so = fault == Some(ScriptFault::NotOneBlock);
        is_in_row(&rt, so, "not one block", k);
    }
}

/// A script of one node and 199 directives that leave it alone.
fn long_script(rt: &impl Abort, alloc: Global) -> Vec<u8> {
    let first =
        b"add-nodes 1 voters=(1) index=10\n----\nINFO 1 started at 1/10 with voters=(1)\n\n";
    let mut text = repeated(rt, alloc, first, 1);
    for _ in 0..199u64 {
        text.extend_from_slice(b"log-level debug\n----\nok\n\n")
            .expect(rt, "memory");
    }
    text
}

/// Whether an insert at a position of a fresh session executes at most 7 directives.
fn is_near<T: Tested>(rt: &impl Abort, session: &mut T, edit: &Edit) -> bool {
    let mut executed = 0;
    let answer = session.change(edit, &mut executed);
    match answer {
        Ok(changed) => changed.executed == executed && executed <= 7,
        Err(_) => false,
    }
}

fn inserts_at<T: Tested>(rt: &impl Abort, alloc: Global, script: &[u8], place: usize) -> bool {
    let ask = Ask::Insert(place, b"raft-log 1\n----\n");
    let edit = asked(alloc, ask).expect(rt, "an edit");
    let mut session = T::begin(alloc, script, 4, &mut 0).expect(rt, "a session");
    let so = is_near(rt, &mut session, &edit);
    drop(session);
    drop(edit);
    so
}

fn insert_at_each_position<T: Tested>(rt: &impl Abort, alloc: Global) {
    let script = long_script(rt, alloc);
    for place in 1..202 {
        let so = inserts_at::<T>(rt, alloc, script.as_slice(), place);
        is_in_row(rt, so, "at most seven", place);
    }
    drop(script);
}

#[test]
fn an_insert_at_each_position(rt: HostRuntime) {
    insert_at_each_position::<BenchSession>(&rt, rt.alloc());
    insert_at_each_position::<PlainSession>(&rt, rt.alloc());
}
