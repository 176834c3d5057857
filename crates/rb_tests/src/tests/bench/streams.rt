//! Runs and sessions over a `Read` and a `Write` that give and take few bytes a call, or fail at a call; and inputs that are cut at each
//! length.

use super::fakes::{FailingReader, FailingWriter, REFUSED_EDITS};
use crate::tests::is_in_row;
use rb_bench::{BenchFault, Mode, NoProgress, run_over, serve};
use rb_report::check::Status;
use rb_script::{ScriptFault, Through};
use std::alloc::Global;

/// How many bytes a call gives or takes at most, which call of the reader and which of the writer fails, counted from 0, and whether that
/// one of the writer takes no byte instead.
#[derive(Clone, Copy)]
pub struct Streams {
    most: usize,
    failing_read: usize,
    failing_write: usize,
    takes_none: bool,
}

pub const WHOLE: Streams = Streams {
    most: usize::MAX,
    failing_read: usize::MAX,
    failing_write: usize::MAX,
    takes_none: false,
};

const BYTEWISE: Streams = Streams { most: 1, ..WHOLE };

pub type Answer = Result<Status, BenchFault>;

/// What came of a run or a session: the answer, and the text that the writer took.
#[derive(Drop)]
struct Outcome {
    answer: Answer,
    text: Vec<u8>,
}

fn ran(alloc: Global, script: &[u8], mode: Mode, streams: Streams) -> Outcome {
    let mut reader = FailingReader::new(script, streams.most, streams.failing_read);
    let mut writer = Through(FailingWriter::new(
        alloc,
        streams.most,
        streams.failing_write,
        streams.takes_none,
    ));
    let answer = run_over(alloc, &mut reader, &mut writer, mode, 16, &NoProgress);
    Outcome {
        answer,
        text: writer.0.taken,
    }
}

/// A script of one directive.
const ONE: &[u8] = b"log-level info\n----\nok\n";

/// A session on that script.
fn talked(alloc: Global, input: &[u8], streams: Streams) -> Outcome {
    let mut reader = FailingReader::new(input, streams.most, streams.failing_read);
    let mut writer = Through(FailingWriter::new(
        alloc,
        streams.most,
        streams.failing_write,
        streams.takes_none,
    ));
    let answer = serve(alloc, ONE, 16, &mut reader, &mut writer);
    Outcome {
        answer,
        text: writer.0.taken,
    }
}

fn is_outcome(outcome: &Outcome, answer: Answer, text: &[u8]) -> bool {
    outcome.answer == answer && outcome.text.as_slice() == text
}

pub fn runs(
    alloc: Global,
    script: &[u8],
    mode: Mode,
    streams: Streams,
    answer: Answer,
    text: &[u8],
) -> bool {
    let outcome = ran(alloc, script, mode, streams);
    let so = is_outcome(&outcome, answer, text);
    drop(outcome);
    so
}

pub fn talks(alloc: Global, input: &[u8], streams: Streams, answer: Answer, text: &[u8]) -> bool {
    let outcome = talked(alloc, input, streams);
    let so = is_outcome(&outcome, answer, text);
    drop(outcome);
    so
}

/// What is answered from this length of the input on, up to that of the next row.
type Cut = (usize, Answer, &'static [u8]);

/// The row of a length.
fn cut_at(rows: &[Cut], len: usize) -> (Answer, &'static [u8]) {
    let mut found: (Answer, &'static [u8]) = (Ok(Status::Matched), b"");
    for row in rows {
        if row.0 <= len {
            found = (row.1, row.2);
        }
    }
    found
}

/// 38 bytes.
const CARRIAGE_RETURNS: &[u8] = b"# first\r\nlog-level \\\r\n  info\r\n----\r\nok";

static CUT_SCRIPT: [Cut; 5] = [
    (0, Ok(Status::Matched), b"0 directives, 0 mismatches\n"),
    (
        10,
        Err(BenchFault::Script(ScriptFault::NoSeparator(2))),
        b"",
    ),
    (
        34,
        Ok(Status::Mismatched),
        b"mismatch 1\n+ ok\n1 directives, 1 mismatches\n",
    ),
    (
        37,
        Ok(Status::Mismatched),
        b"mismatch 1\n- o\n+ ok\n1 directives, 1 mismatches\n",
    ),
    (38, Ok(Status::Matched), b"1 directives, 0 mismatches\n"),
];

fn runs_cut(alloc: Global, len: usize, streams: Streams) -> bool {
    let (answer, text) = cut_at(&CUT_SCRIPT, len);
    let script = &CARRIAGE_RETURNS[..len.min(CARRIAGE_RETURNS.len())];
    runs(alloc, script, Mode::Run, streams, answer, text)
}

#[test]
fn a_script_cut_at_each_length(rt: HostRuntime) {
    for len in 0..39usize {
        let so = runs_cut(rt.alloc(), len, WHOLE) && runs_cut(rt.alloc(), len, BYTEWISE);
        is_in_row(&rt, so, "a cut script", len);
    }
}

static CUT_COMMANDS: [Cut; 15] = [
    (0, Ok(Status::Matched), b""),
    (1, Ok(Status::Matched), b"refused BadCommand\n"),
    (11, Ok(Status::Failed), b"refused CutOff\n"),
    (33, Ok(Status::Matched), b"refused NoSuchPlace\n"),
    (
        36,
        Ok(Status::Matched),
        b"refused NoSuchPlace\nrefused BadCommand\n",
    ),
    (
        45,
        Ok(Status::Failed),
        b"refused NoSuchPlace\nrefused CutOff\n",
    ),
    (
        91,
        Ok(Status::Matched),
        b"refused NoSuchPlace\nrefused NotOneBlock\n",
    ),
    (
        94,
        Ok(Status::Matched),
        b"refused NoSuchPlace\nrefused NotOneBlock\nrefused BadCommand\n",
    ),
    (
        103,
        Ok(Status::Failed),
        b"refused NoSuchPlace\nrefused NotOneBlock\nrefused CutOff\n",
    ),
    (
        107,
        Ok(Status::Mismatched),
        b"refused NoSuchPlace\nrefused NotOneBlock\ndone executed=0 mismatches=1\n",
    ),
    (
        110,
        Ok(Status::Matched),
        b"refused NoSuchPlace\nrefused NotOneBlock\nrefused BadExpectation\n",
    ),
    (
        112,
        Ok(Status::Matched),
        b"refused NoSuchPlace\nrefused NotOneBlock\nrefused BadExpectation\nrefused BadCommand\n",
    ),
    (
        117,
        Ok(Status::Matched),
        b"refused NoSuchPlace\nrefused NotOneBlock\nrefused BadExpectation\n1 directives, 0 mismatches\n",
    ),
    (
        119,
        Ok(Status::Matched),
        b"refused NoSuchPlace\nrefused NotOneBlock\nrefused BadExpectation\n1 directives, 0 mismatches\nrefused BadCommand\n",
    ),
    (129, Ok(Status::Failed), ANSWERS),
];

/// What is answered to all commands.
const ANSWERS: &[u8] = b"refused NoSuchPlace
refused NotOneBlock
refused BadExpectation
1 directives, 0 mismatches
refused CutOff
";

fn talks_cut(alloc: Global, len: usize, streams: Streams) -> bool {
    let (answer, text) = cut_at(&CUT_COMMANDS, len);
    let input = &REFUSED_EDITS[..len.min(REFUSED_EDITS.len())];
    talks(alloc, input, streams, answer, text)
}

#[test]
fn commands_cut_at_each_byte(rt: HostRuntime) {
    for len in 0..146usize {
        let so = talks_cut(rt.alloc(), len, WHOLE) && talks_cut(rt.alloc(), len, BYTEWISE);
        is_in_row(&rt, so, "cut commands", len);
    }
}

fn failing_read(nth: usize) -> Streams {
    Streams {
        failing_read: nth,
        ..BYTEWISE
    }
}

fn failing_write(nth: usize, takes_none: bool) -> Streams {
    Streams {
        failing_write: nth,
        takes_none,
        ..BYTEWISE
    }
}

const REPORT: &[u8] = b"1 directives, 0 mismatches\n";

const CANONICAL: &[u8] = b"# first\nlog-level \\\n  info\n----\nok\n\n";

fn fails(alloc: Global, mode: Mode, streams: Streams, text: &[u8]) -> bool {
    let answer = Err(BenchFault::Io);
    runs(alloc, CARRIAGE_RETURNS, mode, streams, answer, text)
}

// Each of 38 reads, and the one that finds the end.
#[test]
fn a_read_of_a_run_that_fails(rt: HostRuntime) {
    for nth in 0..39usize {
        let so = fails(rt.alloc(), Mode::Run, failing_read(nth), b"");
        is_in_row(&rt, so, "nothing is written", nth);
    }
}

/// Whether the write that fails is answered, and what went out before it is the beginning of the text.
fn fails_at_write(alloc: Global, mode: Mode, text: &[u8], nth: usize) -> bool {
    let begun = &text[..nth.min(text.len())];
    fails(alloc, mode, failing_write(nth, false), begun)
        && fails(alloc, mode, failing_write(nth, true), begun)
}

// Each write, and what hands the text on.
#[test]
fn a_write_of_a_run_that_fails(rt: HostRuntime) {
    for nth in 0..28usize {
        let so = fails_at_write(rt.alloc(), Mode::Run, REPORT, nth);
        is_in_row(&rt, so, "a beginning of the report", nth);
    }
    for nth in 0..37usize {
        let so = fails_at_write(rt.alloc(), Mode::Rewrite, CANONICAL, nth);
        is_in_row(&rt, so, "a beginning of the script", nth);
    }
}

#[test]
fn a_byte_a_call(rt: HostRuntime) {
    let answer = Ok(Status::Matched);
    let modes = [(Mode::Run, REPORT), (Mode::Rewrite, CANONICAL)];
    for (k, (mode, text)) in modes.iter().enumerate() {
        let so = runs(rt.alloc(), CARRIAGE_RETURNS, *mode, BYTEWISE, answer, text);
        is_in_row(&rt, so, "the whole text", k);
    }
}

/// What was answered once so many bytes were read, if the next read fails: the commands that were read whole are answered.
static ANSWERED: [Cut; 5] = [
    (0, Err(BenchFault::Io), b""),
    (35, Err(BenchFault::Io), b"refused NoSuchPlace\n"),
    (
        93,
        Err(BenchFault::Io),
        b"refused NoSuchPlace\nrefused NotOneBlock\n",
    ),
    (
        111,
        Err(BenchFault::Io),
        b"refused NoSuchPlace\nrefused NotOneBlock\nrefused BadExpectation\n",
    ),
    (
        118,
        Err(BenchFault::Io),
        b"refused NoSuchPlace\nrefused NotOneBlock\nrefused BadExpectation\n1 directives, 0 mismatches\n",
    ),
];

// Each of 145 reads, and the one that finds the end.
#[test]
fn a_read_of_a_session_that_fails(rt: HostRuntime) {
    for nth in 0..146usize {
        let (answer, text) = cut_at(&ANSWERED, nth);
        let so = talks(rt.alloc(), REFUSED_EDITS, failing_read(nth), answer, text);
        is_in_row(&rt, so, "the answers so far", nth);
    }
}

/// Whether a session whose write fails says so, and what went out is a beginning of the answers: all calls before were writes of a
/// byte, but for at most one call an answer.
fn is_begun(outcome: &Outcome, nth: usize) -> bool {
    let len = outcome.text.len();
    outcome.answer == Err(BenchFault::Io)
        && ANSWERS.starts_with(outcome.text.as_slice())
        && len <= nth
        && nth <= len.saturating_add(5)
}

fn talk_fails_at_write(alloc: Global, nth: usize, takes_none: bool) -> bool {
    let outcome = talked(alloc, REFUSED_EDITS, failing_write(nth, takes_none));
    let so = is_begun(&outcome, nth);
    drop(outcome);
    so
}

// 105 bytes, and five answers that are handed on.
#[test]
fn a_write_of_a_session_that_fails(rt: HostRuntime) {
    for nth in 0..110usize {
        let so = talk_fails_at_write(rt.alloc(), nth, false)
            && talk_fails_at_write(rt.alloc(), nth, true);
        is_in_row(&rt, so, "a beginning of the answers", nth);
    }
    let answer = Ok(Status::Failed);
    let so = talks(
        rt.alloc(),
        REFUSED_EDITS,
        failing_write(110, false),
        answer,
        ANSWERS,
    );
    is_in_row(&rt, so, "all answers", 110);
}
