//! What no clause of rb_text says: that each error of a reader is answered, and how many calls are made.

use super::fakes::{FailingReader, repeated};
use crate::tests::is;
use rb_script::{Lines, MAX_LINE};
use rb_text::{InputFault, LineBuffer, LineReader, Next, PushByte, Source};
use std::alloc::Global;
use std::process::Abort;
use std::test::Fail;

fn line_reader(rt: &impl Abort, alloc: Global, calls: u64) -> LineReader {
    LineReader::new(alloc, calls).expect(rt, "memory")
}

/// Keeps lines, up to what comes in place of one more.
fn keep_lines<R: Source>(
    rt: &impl Abort,
    input: &mut LineReader,
    reader: &mut R,
    lines: &mut Lines,
) -> Result<Next, InputFault> {
    for _ in 0..1000u64 {
        let next = input.next(reader);
        if next != Ok(Next::Line) {
            return next;
        }
        lines.push(input.line()).expect(rt, "memory");
    }
    Ok(Next::Line)
}

/// The lines of a reader, and what came in place of one more.
fn lines_of<R: Source>(
    rt: &impl Abort,
    alloc: Global,
    reader: &mut R,
    calls: u64,
) -> (Lines, Result<Next, InputFault>) {
    let mut input = line_reader(rt, alloc, calls);
    let mut lines = Lines::new(alloc);
    let stop = keep_lines(rt, &mut input, reader, &mut lines);
    drop(input);
    (lines, stop)
}

/// The reader has these lines, and in place of one more comes this.
fn has_lines<R: Source>(
    rt: &impl Abort,
    alloc: Global,
    reader: &mut R,
    calls: u64,
    want: &[u8],
    stop: Result<Next, InputFault>,
) {
    let (lines, came) = lines_of(rt, alloc, reader, calls);
    is(rt, lines.text() == want, "the lines");
    is(rt, came == stop, "what comes then");
    drop(lines);
}

static ENDS: [(&[u8], &[u8]); 8] = [
    (b"", b""),
    (b"\n", b"\n"),
    (b"one\ntwo\n", b"one\ntwo\n"),
    (b"one\ntwo", b"one\ntwo\n"),
    (b"one\r\n\r\r\n", b"one\n\n"),
    (b"one\rtwo\r\n", b"one\rtwo\n"),
    (b"\r", b"\n"),
    (b"one\n\r", b"one\n\n"),
];

fn is_cut(rt: &impl Abort, alloc: Global, bytes: &[u8], most: usize, want: &[u8]) {
    let mut reader = FailingReader::new(bytes, most, usize::MAX);
    has_lines(rt, alloc, &mut reader, 100, want, Ok(Next::End));
}

#[test]
fn cuts_bytes_into_lines(rt: HostRuntime) {
    for (bytes, want) in &ENDS {
        for most in [1, 2, 100_000usize] {
            is_cut(&rt, rt.alloc(), bytes, most, want);
        }
    }
}

/// How long the first line is, and what it is.
fn first_of(rt: &impl Abort, alloc: Global, bytes: &[u8]) -> (usize, Result<Next, InputFault>) {
    let mut reader = bytes;
    let mut input = line_reader(rt, alloc, 1000);
    let next = input.next(&mut reader);
    let len = input.line().len();
    drop(input);
    (len, next)
}

/// What a line of `MAX_LINE` bytes and then these is.
fn after_the_longest(
    rt: &impl Abort,
    alloc: Global,
    rest: &[u8],
) -> (usize, Result<Next, InputFault>) {
    let mut bytes = repeated(rt, alloc, b"x", MAX_LINE);
    bytes.extend_from_slice(rest).expect(rt, "memory");
    let first = first_of(rt, alloc, bytes.as_slice());
    drop(bytes);
    first
}

static ENDED: [&[u8]; 5] = [b"", b"\n", b"\r\n", b"\r\r\r", b"\r\r\nx"];

static TOO_LONG: [&[u8]; 5] = [b"x", b"x\n", b"\rx", b"\r\rx\n", b"\0"];

fn many_returns(rt: &impl Abort, alloc: Global) -> Vec<u8> {
    let mut many = repeated(rt, alloc, b"\r", 1_000_000);
    many.push(b'\n').expect(rt, "memory");
    many
}

#[test]
fn takes_the_longest_line_and_no_longer(rt: HostRuntime) {
    for rest in &ENDED {
        let got = after_the_longest(&rt, rt.alloc(), rest);
        is(&rt, got == (65_536, Ok(Next::Line)), "a line");
    }
    for rest in &TOO_LONG {
        let got = after_the_longest(&rt, rt.alloc(), rest);
        is(&rt, got.1 == Ok(Next::TooLong), "too long");
    }
    let many = many_returns(&rt, rt.alloc());
    let got = after_the_longest(&rt, rt.alloc(), many.as_slice());
    is(&rt, got == (65_536, Ok(Next::Line)), "many returns");
    drop(many);
}

// The byte that makes the line too long is the last that is asked for.
#[test]
fn tells_a_long_line_at_once(rt: HostRuntime) {
    let bytes = repeated(&rt, rt.alloc(), b"x", MAX_LINE + 9);
    let mut reader = FailingReader::new(bytes.as_slice(), 1, usize::MAX);
    has_lines(
        &rt,
        rt.alloc(),
        &mut reader,
        100_000,
        b"",
        Ok(Next::TooLong),
    );
    is(&rt, reader.0.calls == 65_537, "calls");
    drop(bytes);
}

// Each call in turn is interrupted, the one that would find the end too.
#[test]
fn fails_where_a_call_fails(rt: HostRuntime) {
    for nth in 0..5usize {
        let mut reader = FailingReader::new(b"a\nbc", 1, nth);
        let want = if nth < 2 { b"".as_slice() } else { b"a\n" };
        has_lines(&rt, rt.alloc(), &mut reader, 100, want, Err(InputFault));
    }
}

/// So many calls are made of a reader of two lines, and then comes this.
fn makes_calls(rt: &impl Abort, alloc: Global, calls: u64, stop: Result<Next, InputFault>) {
    let mut reader = FailingReader::new(b"a\nbc", 1, usize::MAX);
    let (lines, came) = lines_of(rt, alloc, &mut reader, calls);
    is(
        rt,
        came == stop && reader.0.calls as u64 == calls,
        "what comes of so many calls",
    );
    drop(lines);
}

#[test]
fn makes_no_more_calls_than_it_may(rt: HostRuntime) {
    for calls in [0, 3, 4] {
        makes_calls(&rt, rt.alloc(), calls, Err(InputFault));
    }
    makes_calls(&rt, rt.alloc(), 5, Ok(Next::End));
}

// A last line without its end needs no second end.
#[test]
fn asks_no_more_after_the_end(rt: HostRuntime) {
    let mut reader = FailingReader::new(b"a", 1, 2);
    let mut input = line_reader(&rt, rt.alloc(), 100);
    is(&rt, input.next(&mut reader) == Ok(Next::Line), "a line");
    is(&rt, input.line() == b"a".as_slice(), "its text");
    is(&rt, input.next(&mut reader) == Ok(Next::End), "the end");
    is(&rt, input.next(&mut reader) == Ok(Next::End), "once more");
    is(&rt, reader.0.calls == 2, "calls");
    drop(input);
}

fn feeds(rt: &impl Abort, line: &mut LineBuffer) {
    is(rt, line.is_empty(), "nothing yet");
    is(rt, line.push(b'a') == PushByte::Continue, "a byte");
    is(rt, line.push(b'\r') == PushByte::Continue, "a return");
    is(rt, !line.is_empty(), "something");
    is(rt, line.push(b'\n') == PushByte::EndOfLine, "the end");
    is(rt, line.line() == b"a".as_slice(), "a line");
    line.clear();
    is(rt, line.is_empty(), "nothing more");
}

#[test]
fn feeds_a_line(rt: HostRuntime) {
    let mut line = LineBuffer::new(rt.alloc()).expect(&rt, "memory");
    feeds(&rt, &mut line);
    drop(line);
}

fn reads_two_lines(rt: &impl Abort, input: &mut LineReader) {
    let mut reader: &[u8] = b"one\r\ntwo";
    is(rt, input.next(&mut reader) == Ok(Next::Line), "a line");
    is(rt, input.line() == b"one".as_slice(), "its text");
    is(rt, input.next(&mut reader) == Ok(Next::Line), "another");
    is(rt, input.line() == b"two".as_slice(), "its text");
    is(rt, input.next(&mut reader) == Ok(Next::End), "the end");
}

// The room is taken at the start; no other call is refused any.
#[test]
fn reads_lines_under_refusals(rt: HostRuntime) -> Result<(), Fail> {
    let Ok(mut input) = LineReader::new(rt.alloc(), 100) else {
        println!(rt; "refused")?;
        return Ok(());
    };
    reads_two_lines(&rt, &mut input);
    drop(input);
    Ok(())
}
