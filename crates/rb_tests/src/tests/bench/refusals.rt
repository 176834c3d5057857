//! Each allocation of a run and of a session refused: these tests are run once for each, and pass whether or not one was refused.

use super::fakes::{REFUSED_EDITS, Room};
use crate::tests::is;
use rb_bench::{BenchFault, Mode, NoProgress, run_over, serve};
use rb_report::check::Status;
use rb_script::Through;
use std::alloc::Global;
use std::process::Abort;

const CARRIAGE_RETURNS: &[u8] = b"# first\r\nlog-level \\\r\n  info\r\n----\r\nok";

/// What a run writes is this; if memory was refused, that is the answer, and nothing is written.
fn runs(rt: &impl Abort, alloc: Global, mode: Mode, text: &[u8]) {
    let mut reader = CARRIAGE_RETURNS;
    let mut out = Through(Room::new());
    let answer = run_over(alloc, &mut reader, &mut out, mode, 16, &NoProgress);
    let so = match answer {
        Ok(status) => status == Status::Matched && out.0.taken() == text,
        Err(fault) => fault == BenchFault::OutOfMemory && out.0.taken().is_empty(),
    };
    is(rt, so, "the text or no memory");
}

#[test]
fn reports_under_refusals(rt: HostRuntime) {
    runs(&rt, rt.alloc(), Mode::Run, b"1 directives, 0 mismatches\n");
}

#[test]
fn rewrites_under_refusals(rt: HostRuntime) {
    let text = b"# first\nlog-level \\\n  info\n----\nok\n\n";
    runs(&rt, rt.alloc(), Mode::Rewrite, text);
}

/// A status, and the answers that end with it.
type Talk = (Status, &'static [u8]);

/// One node, and eleven directives that leave it alone.
const SCRIPT: &[u8] = b"add-nodes 1 voters=(1) index=10
----
INFO 1 started at 1/10 with voters=(1)

log-level debug
----
ok

log-level debug
----
ok

log-level debug
----
ok

log-level debug
----
ok

log-level debug
----
ok

log-level debug
----
ok

log-level debug
----
ok

log-level debug
----
ok

log-level debug
----
ok

log-level debug
----
ok

log-level debug
----
ok

";

const EDITS: &[u8] = b"insert 6 2
raft-log 1
----
show 6
expect 3 1
no
accept
replace 3 3
campaign 1
----
INFO 1 became candidate at term 1
";

/// What is answered with ample memory; if memory is refused to the insert; to what is expected; to `accept`; to the replace.
static EDITED: [Talk; 5] = [
    (
        Status::Matched,
        b"done executed=5 mismatches=1
output 1
base=1/10 durable=10 commit=10 applied=10
done executed=0 mismatches=2
done executed=0 mismatches=0
done executed=13 mismatches=0
",
    ),
    (
        Status::Matched,
        b"refused OutOfMemory
output 1
ok
done executed=0 mismatches=1
done executed=0 mismatches=0
done executed=12 mismatches=0
",
    ),
    (
        Status::Matched,
        b"done executed=5 mismatches=1
output 1
base=1/10 durable=10 commit=10 applied=10
refused OutOfMemory
done executed=0 mismatches=0
done executed=13 mismatches=0
",
    ),
    (
        Status::Mismatched,
        b"done executed=5 mismatches=1
output 1
base=1/10 durable=10 commit=10 applied=10
done executed=0 mismatches=2
refused OutOfMemory
done executed=13 mismatches=1
",
    ),
    (
        Status::Matched,
        b"done executed=5 mismatches=1
output 1
base=1/10 durable=10 commit=10 applied=10
done executed=0 mismatches=2
done executed=0 mismatches=0
refused OutOfMemory
",
    ),
];

const INSERT: &[u8] = b"insert 6 2\nraft-log 1\n----\nshow 6\n";

static INSERTED: [Talk; 2] = [
    (
        Status::Mismatched,
        b"done executed=5 mismatches=1
output 1
base=1/10 durable=10 commit=10 applied=10
",
    ),
    (Status::Matched, b"refused OutOfMemory\noutput 1\nok\n"),
];

/// A script of one directive.
const ONE: &[u8] = b"log-level info\n----\nok\n";

/// What is answered with ample memory; if memory is refused to the first edit; to the second; to the third.
static REFUSED: [Talk; 4] = [
    (
        Status::Failed,
        b"refused NoSuchPlace
refused NotOneBlock
refused BadExpectation
1 directives, 0 mismatches
refused CutOff
",
    ),
    (
        Status::Failed,
        b"refused OutOfMemory
refused NotOneBlock
refused BadExpectation
1 directives, 0 mismatches
refused CutOff
",
    ),
    (
        Status::Failed,
        b"refused NoSuchPlace
refused OutOfMemory
refused BadExpectation
1 directives, 0 mismatches
refused CutOff
",
    ),
    (
        Status::Failed,
        b"refused NoSuchPlace
refused NotOneBlock
refused OutOfMemory
1 directives, 0 mismatches
refused CutOff
",
    ),
];

/// Whether one of these is what was answered.
fn is_one_of(talks: &[Talk], answer: Status, text: &[u8]) -> bool {
    for (status, answers) in talks {
        if answer == *status && text == *answers {
            return true;
        }
    }
    false
}

/// A session answers as one of these; if there is no memory to start it, that is the answer, and nothing is written.
fn talks(rt: &impl Abort, alloc: Global, script: &[u8], input: &[u8], rows: &[Talk]) {
    let mut reader = input;
    let mut out = Through(Room::new());
    let answer = serve(alloc, script, 4, &mut reader, &mut out);
    let so = match answer {
        Ok(status) => is_one_of(rows, status, out.0.taken()),
        Err(fault) => fault == BenchFault::OutOfMemory && out.0.taken().is_empty(),
    };
    is(rt, so, "the answers or no memory");
}

#[test]
fn an_insert_is_answered_under_refusals(rt: HostRuntime) {
    talks(&rt, rt.alloc(), SCRIPT, INSERT, &INSERTED);
}

#[test]
fn edits_are_answered_under_refusals(rt: HostRuntime) {
    talks(&rt, rt.alloc(), SCRIPT, EDITS, &EDITED);
}

#[test]
fn refused_edits_are_answered_under_refusals(rt: HostRuntime) {
    talks(&rt, rt.alloc(), ONE, REFUSED_EDITS, &REFUSED);
}

// With ample memory it is the first row.
#[test]
fn sessions_with_ample_memory(rt: HostRuntime) {
    talks(&rt, rt.alloc(), SCRIPT, INSERT, &INSERTED[..1]);
    talks(&rt, rt.alloc(), SCRIPT, EDITS, &EDITED[..1]);
    talks(&rt, rt.alloc(), ONE, REFUSED_EDITS, &REFUSED[..1]);
}
