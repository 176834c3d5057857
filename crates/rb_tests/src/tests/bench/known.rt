//! Sources and outlets of which all is known: what they give and hold, how often they are asked, and whether they fail. Over these
//! alone the clauses `io`, `asked`, `unfailed` and `handed` of a run and a session say something; so the functions here promise
//! what follows from them.

ghost use Rattle.std.specs.Prelude.{◌≡◌, ◌≢◌, ◌+◌, ◌<◌, ◌≤◌, length, Some, None, Err, OnOk};
ghost use Rattle.rb_bench.specs.declared.limits.TheConstants.{MAX_READS};

use crate::tests::{is, is_text};
use rb_bench::{BenchFault, MAX_READS, Mode, NoProgress, Outlet, run_over, serve};
use rb_report::check::Status;
use rb_script::{Sink, WriteFault};
use rb_text::{InputFault, Source};
use std::alloc::Global;
use std::process::Abort;

/// Gives its bytes, counts the calls, and fails at one of them, which counts from 1, where there is to be such a one.
#[derive(Drop)]
struct Counted<'a, R> {
    rest: &'a [u8],
    made: u64,
    failed: u64,
    fails_at: Option<u64>,
    rt: &'a R,
}

impl<R: Abort> Source for Counted<'_, R> {
    ghost use Rattle.std.specs.Prelude.{◌≡◌, Some, None};

    ghost left = { λ s. Some s.rest.now };

    ghost asked = { λ s. Some (record { made = s.made; failed = s.failed }) };

    ghost gives_all = { λ s. s.fails_at ≡ None };

    fn get(&mut self, room: &mut [u8]) -> Result<usize, InputFault> {
        let made = self.made.checked_add(1).expect(self.rt, "fewer calls");
        self.made = made;
        if self.fails_at == Some(made) {
            let failed = self.failed.checked_add(1).expect(self.rt, "fewer calls");
            self.failed = failed;
            return Err(InputFault);
        }
        let n = room.len().min(self.rest.len());
        let (given, rest) = self.rest.split_at(n);
        room[..n].copy_from_slice(given);
        self.rest = rest;
        Ok(n)
    }
}

/// Takes all text into memory, and hands it on at once. Where there is no room for it the test ends.
#[derive(Drop)]
struct InMemory<'a, R> {
    text: Vec<u8>,
    rt: &'a R,
}

impl<R: Abort> Sink for InMemory<'_, R> {
    ghost use Rattle.std.specs.Prelude.{Some};

    ghost held = { λ p. Some p.text.items };

    ghost takes_all = { λ _. Unit {0} };

    fn put(&mut self, bytes: &[u8]) -> Result<(), WriteFault> {
        self.text
            .extend_from_slice(bytes)
            .expect(self.rt, "memory for the text");
        Ok(())
    }
}

impl<R: Abort> Outlet for InMemory<'_, R> {
    ghost use Rattle.std.specs.Prelude.{Some};

    ghost handed = { λ p. Some p.text.items };

    fn flush(&mut self) -> Result<(), WriteFault> {
        Ok(())
    }
}

/// What came of a run or a session: the answer, what text was taken, how often the source was asked, and how often it failed.
#[derive(Drop)]
struct Came {
    answer: Result<Status, BenchFault>,
    text: Vec<u8>,
    made: u64,
    failed: u64,
}

fn ran<R: Abort>(rt: &R, alloc: Global, script: &[u8], fails_at: Option<u64>) -> Came
    // No call failed, so no failure is answered.
    ensures io { fails_at ≡ None → result.answer ≢ Err BenchFault.Io }
    ensures asked { result.made ≤ length script.now + 1 }
    ensures unfailed { OnOk result.answer (result.failed ≡ 0) }
{
    let mut source = Counted {
        rest: script,
        made: 0,
        failed: 0,
        fails_at,
        rt,
    };
    let mut out = InMemory {
        text: Vec::new(alloc),
        rt,
    };
    let answer = run_over(alloc, &mut source, &mut out, Mode::Run, 16, &NoProgress);
    Came {
        answer,
        text: out.text,
        made: source.made,
        failed: source.failed,
    }
}

fn talked<R: Abort>(
    rt: &R,
    alloc: Global,
    script: &[u8],
    input: &[u8],
    fails_at: Option<u64>,
) -> Came
    requires { length input.now < MAX_READS }
    ensures io { fails_at ≡ None → result.answer ≢ Err BenchFault.Io }
    ensures asked { result.made ≤ length input.now + 1 }
    ensures unfailed { OnOk result.answer (result.failed ≡ 0) }
{
    let mut source = Counted {
        rest: input,
        made: 0,
        failed: 0,
        fails_at,
        rt,
    };
    let mut out = InMemory {
        text: Vec::new(alloc),
        rt,
    };
    let answer = serve(alloc, script, 16, &mut source, &mut out);
    Came {
        answer,
        text: out.text,
        made: source.made,
        failed: source.failed,
    }
}

const SCRIPT: &[u8] = b"add-nodes 1 voters=(1) index=10
----
INFO 1 started at 1/10 with voters=(1)

log-level debug
----
ok

";

const REPORT: &[u8] = b"2 directives, 0 mismatches\n";

fn came_so<R: Abort>(
    rt: &R,
    came: &Came,
    answer: Result<Status, BenchFault>,
    text: &[u8],
    counts: (u64, u64),
) {
    is(rt, came.answer == answer, "the answer");
    is_text(rt, came.text.as_slice(), text);
    is(rt, (came.made, came.failed) == counts, "the calls");
}

// One call gives all, and one finds the end. The second is the one that fails.
#[test]
fn runs_over_known_sources(rt: HostRuntime) {
    let whole = ran(&rt, rt.alloc(), SCRIPT, None);
    came_so(&rt, &whole, Ok(Status::Matched), REPORT, (2, 0));
    let broken = ran(&rt, rt.alloc(), SCRIPT, Some(2));
    came_so(&rt, &broken, Err(BenchFault::Io), b"", (2, 1));
    drop(broken);
    drop(whole);
}

#[test]
fn talks_over_known_sources(rt: HostRuntime) {
    let whole = talked(&rt, rt.alloc(), SCRIPT, b"report", None);
    came_so(&rt, &whole, Ok(Status::Matched), REPORT, (2, 0));
    // The answers to the commands that came whole, and nothing of the one that was begun.
    let broken = talked(&rt, rt.alloc(), SCRIPT, b"report\nreport", Some(2));
    came_so(&rt, &broken, Err(BenchFault::Io), REPORT, (2, 1));
    drop(broken);
    drop(whole);
}
