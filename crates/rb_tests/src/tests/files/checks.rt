//! What a check shows, and no script leads to: lines of outputs that are empty or end in blanks, and a time that is known.

use crate::tests::is_text;
use rb_report::check::{
    Colors, Failure, FileLine, Hint, MismatchView, Outcome, Sides, Table, Totals, Why,
    put_directive, put_mismatch, put_totals,
};
use rb_script::{Block, Lines, ScriptFault, Through};
use std::alloc::Global;
use std::process::Abort;

const PLACE: FileLine<'static> = FileLine {
    path: b"a/b.txt",
    line: 12,
};

fn lines(rt: &impl Abort, alloc: Global, all: &[&[u8]]) -> Lines {
    let mut lines = Lines::new(alloc);
    for line in all {
        lines.push(line).expect(rt, "memory");
    }
    lines
}

fn block(rt: &impl Abort, alloc: Global, text: &[u8]) -> Block {
    Block::read(alloc, text).expect(rt, "a block")
}

// Shows the mismatch of a directive.
fn put_differing(
    rt: &impl Abort,
    alloc: Global,
    out: &mut Through<Vec<u8>>,
    expected: &Lines,
    output: &Lines,
    colors: Colors,
) {
    let block = block(rt, alloc, b"campaign \\\n 1\n----\n");
    let mut table = Table::new(alloc).expect(rt, "memory");
    let sides = Sides { expected, output };
    let view = MismatchView {
        colors,
        grouped: false,
        why: Why::Unasked,
        hint: Hint::Unknown,
    };
    put_mismatch(out, &mut table, PLACE, &block.directive(), sides, view).expect(rt, "memory");
    drop(table);
    drop(block);
}

// This is shown of a mismatch of these lines.
fn is_shown(
    rt: &impl Abort,
    alloc: Global,
    expected: &[&[u8]],
    output: &[&[u8]],
    colors: Colors,
    want: &[u8],
) {
    let expected = lines(rt, alloc, expected);
    let output = lines(rt, alloc, output);
    let mut out = Through(Vec::new(alloc));
    put_differing(rt, alloc, &mut out, &expected, &output, colors);
    is_text(rt, out.0.as_slice(), want);
    drop(out);
    drop(output);
    drop(expected);
}

#[test]
fn shows_what_differs_between_what_is_the_same(rt: HostRuntime) {
    is_shown(
        &rt,
        rt.alloc(),
        &[b"one", b"two", b"two", b"", b"six"],
        &[b"one", b"two", b"three \t", b"four$", b"", b"six"],
        Colors::Off,
        b"a/b.txt:12: campaign 1\n  one\n  two\n- two\n+ three \t$\n+ four$$\n  $\n  six\n\n",
    );
}

#[test]
fn shows_colors(rt: HostRuntime) {
    is_shown(
        &rt,
        rt.alloc(),
        &[b"a", b"ok"],
        &[b"b ", b"ok"],
        Colors::On,
        b"a/b.txt:12: campaign 1\n\x1b[31m- a\x1b[0m\n\x1b[32m+ b $\x1b[0m\n  ok\n\n",
    );
}

#[test]
fn shows_a_directive(rt: HostRuntime) {
    let output = lines(&rt, rt.alloc(), &[b"ok", b""]);
    let block = block(&rt, rt.alloc(), b"log-level info\n----\n");
    let mut out = Through(Vec::new(rt.alloc()));
    put_directive(&mut out, PLACE, &block.directive(), &output, Hint::Unknown).expect(
        &rt, "memory",
    );
    is_text(
        &rt,
        out.0.as_slice(),
        b"a/b.txt:12: log-level info\n  ok\n  $\n",
    );
    drop(out);
    drop(block);
    drop(output);
}

fn totals(outcomes: &[Outcome]) -> Totals {
    let mut totals = Totals::new();
    for outcome in outcomes {
        totals.add(*outcome);
    }
    totals
}

#[test]
fn counts_what_came_of_paths(rt: HostRuntime) {
    let all = totals(&[
        Outcome::Ran {
            directives: 17,
            mismatches: 1,
            accepted: 0,
            errors: 3,
            warnings: 1,
        },
        Outcome::Ran {
            directives: 2,
            mismatches: 0,
            accepted: 2,
            errors: 0,
            warnings: 1,
        },
        Outcome::Refused(ScriptFault::BadLine(3)),
        Outcome::Failed(Failure::NotFound),
    ]);
    let mut out = Through(Vec::new(rt.alloc()));
    put_totals(&mut out, &all, 61_045).expect(&rt, "memory");
    put_totals(&mut out, &Totals::new(), 7).expect(&rt, "memory");
    let want =
        b"3 scripts, 19 directives, 1 mismatch, 1 refused, 3 errors, 2 warnings, 2 accepted, 1 failed, 61.045 s\n0 scripts, 0 directives, 0 mismatches, 0 refused, 0.007 s\n";
    is_text(&rt, out.0.as_slice(), want);
    drop(out);
}
