//! Scripts and commands at a limit and past it.

use super::fakes::repeated;
use super::streams::{Answer, WHOLE, runs, talks};
use crate::tests::is_in_row;
use rb_bench::{BenchFault, Mode};
use rb_report::check::Status;
use rb_script::ScriptFault;
use std::alloc::Global;
use std::process::Abort;

/// The parts of a long text: its beginning, a part that is repeated, the number of repetitions, and its end.
type Long = (&'static [u8], &'static [u8], usize, &'static [u8]);

fn long_text(rt: &impl Abort, alloc: Global, parts: Long) -> Vec<u8> {
    let mut text = repeated(rt, alloc, parts.0, 1);
    for _ in 0..parts.2 {
        text.extend_from_slice(parts.1).expect(rt, "memory");
    }
    text.extend_from_slice(parts.3).expect(rt, "memory");
    text
}

/// Texts at a limit, and past it.
static LONG_SCRIPTS: [(Long, Answer, &[u8]); 14] = [
    (
        (b"#", b"x", 65_535, b"\n"),
        Ok(Status::Matched),
        b"0 directives, 0 mismatches\n",
    ),
    (
        (b"#", b"x", 65_536, b"\n"),
        Err(BenchFault::Script(ScriptFault::LineTooLong(1))),
        b"",
    ),
    (
        (
            b"stabilize",
            b" a",
            64,
            b"\n----\nerror: bad argument \"a\"\n",
        ),
        Ok(Status::Matched),
        b"1 directives, 0 mismatches\n",
    ),
    (
        (
            b"stabilize",
            b" a",
            65,
            b"\n----\nerror: bad argument \"a\"\n",
        ),
        Err(BenchFault::Script(ScriptFault::TooManyArguments(1))),
        b"",
    ),
    (
        (
            b"add-nodes 1 index=10 voters=(",
            b"1 ",
            64,
            b")\n----\nINFO 1 started at 1/10 with voters=(1)\n",
        ),
        Ok(Status::Matched),
        b"1 directives, 0 mismatches\n",
    ),
    (
        (
            b"add-nodes 1 index=10 voters=(",
            b"1 ",
            65,
            b")\n----\nINFO 1 started at 1/10 with voters=(1)\n",
        ),
        Err(BenchFault::Script(ScriptFault::TooManyArguments(1))),
        b"",
    ),
    (
        (
            b"add-nodes 1 index=10 voters=(1",
            b")",
            1,
            b"\n----\nINFO 1 started at 1/10 with voters=(1)\n",
        ),
        Ok(Status::Matched),
        b"1 directives, 0 mismatches\n",
    ),
    (
        (b"add-nodes 1 voters=(1", b")", 0, b"\n----\n"),
        Err(BenchFault::Script(ScriptFault::BadLine(1))),
        b"",
    ),
    (
        (b"raft-state", b"\r", 4_194_294, b""),
        Err(BenchFault::Script(ScriptFault::NoSeparator(1))),
        b"",
    ),
    (
        (b"raft-state", b"\r", 4_194_295, b""),
        Err(BenchFault::Script(ScriptFault::TooLong)),
        b"",
    ),
    (
        (b"", b"\n", 4_194_304, b""),
        Ok(Status::Matched),
        b"0 directives, 0 mismatches\n",
    ),
    (
        (b"", b"\n", 4_194_305, b""),
        Err(BenchFault::Script(ScriptFault::TooLong)),
        b"",
    ),
    (
        (b"", b"raft-state\n----\nok\n\n", 20_000, b""),
        Ok(Status::Matched),
        b"20000 directives, 0 mismatches\n",
    ),
    (
        (b"", b"raft-state\n----\nok\n\n", 20_001, b""),
        Err(BenchFault::Script(ScriptFault::TooManyDirectives)),
        b"",
    ),
];

fn runs_long(rt: &impl Abort, alloc: Global, row: &(Long, Answer, &[u8])) -> bool {
    let script = long_text(rt, alloc, row.0);
    let so = runs(alloc, script.as_slice(), Mode::Run, WHOLE, row.1, row.2);
    drop(script);
    so
}

#[test]
fn scripts_at_a_limit_and_past_it(rt: HostRuntime) {
    for (k, row) in LONG_SCRIPTS.iter().enumerate() {
        let so = runs_long(&rt, rt.alloc(), row);
        is_in_row(&rt, so, "a long script", k);
    }
}

static LONG_COMMANDS: [(Long, Answer, &[u8]); 5] = [
    (
        (b"", b"x", 65_536, b"\n"),
        Ok(Status::Matched),
        b"refused BadCommand\n",
    ),
    (
        (b"", b"x", 65_537, b"\nreport\n"),
        Ok(Status::Failed),
        b"refused LineTooLong\n",
    ),
    (
        (b"expect 1 65536\n", b"\n", 65_536, b""),
        Ok(Status::Mismatched),
        b"done executed=0 mismatches=1\n",
    ),
    (
        (b"expect 1 65536\n", b"\n", 65_535, b""),
        Ok(Status::Failed),
        b"refused CutOff\n",
    ),
    (
        (b"expect 1 65537\n", b"", 0, b"report\n"),
        Ok(Status::Matched),
        b"refused BadCommand\n1 directives, 0 mismatches\n",
    ),
];

fn talks_long(rt: &impl Abort, alloc: Global, row: &(Long, Answer, &[u8])) -> bool {
    let input = long_text(rt, alloc, row.0);
    let so = talks(alloc, input.as_slice(), WHOLE, row.1, row.2);
    drop(input);
    so
}

#[test]
fn commands_at_a_limit_and_past_it(rt: HostRuntime) {
    for (k, row) in LONG_COMMANDS.iter().enumerate() {
        let so = talks_long(&rt, rt.alloc(), row);
        is_in_row(&rt, so, "long commands", k);
    }
}
