//! Who answers the questions of a review.

ghost use Rattle.std.specs.Prelude.{◌≡◌, ◌++◌, ℕ, [], Bool, List, Option, ⊤, true, option_map, string_bytes};
ghost use Rattle.rb_check.specs.Asking.{IsAsked, echo_of, help_text};
ghost use Rattle.rb_check.specs.Reviews.{Hears, after_answer, answered, first_heard, heard_by_line, heard_by_read, rest_heard};
ghost use Rattle.rb_check.specs.Shown.{Prints};

use crate::answer::{Answer, HeardAnswer, heard_by_line, heard_by_read, visible_key};
use crate::report::Report;
use crate::report_sink::ReportSink;
use std::io::Read;
use std::time::{Clock, Duration, Instant};

// A terminal has no more bytes at once.
pub(crate) const MOST_KEYS: usize = 4_096;

// For how many milliseconds after a key that is no answer no other key is one.
const KEYS_APART: u64 = 200;

/// Who answers the questions of a review.
pub(crate) trait Person: Drop {
    ghost use Rattle.rb_check.specs.declared.answer.HeardAnswer.{HeardAnswer};

    // the lines that are still to be read, if they are known
    ghost left: { Self → List HeardAnswer };

    ghost is_known: { Self → Type 0 };

    /// Shows the question, and reads a line or a key. If the question can't be shown, nothing more is read.
    fn ask<W: ReportSink, E: ReportSink>(
        &mut self,
        question: &[u8],
        report: &mut Report<W, E>,
    ) -> HeardAnswer
        // The question goes out, and of the answer what the terminal doesn't show itself.
        ensures shown { (keys : Option (List ℕ)) × Prints W.held report.old report.new (question.now ++ echo_of keys) }
        // If standard output is closed, no question is shown, and the input counts as ended.
        ensures unasked { report.old.state.is_closed ≡ true → result ≡ HeardAnswer.End }
        ensures known { is_known self.old → is_known self.new }
        ensures next { is_known self.old → result ≡ first_heard (left self.old) }
        ensures rest { is_known self.old → left self.new ≡ rest_heard (left self.old) };
}

/// Who has the terminal.
#[derive(Drop)]
pub(crate) struct TerminalPerson<'a, R> {
    rt: &'a R,
    // whether the terminal gives each key at once
    gives_keys: bool,
    // when the last key came that was no answer
    missed: Option<Instant>,
}

impl<'a, R> TerminalPerson<'a, R> {
    pub(crate) fn new(rt: &'a R, gives_keys: bool) -> TerminalPerson<'a, R> {
        TerminalPerson {
            rt,
            gives_keys,
            missed: None,
        }
    }
}

impl<'a, R: KeyInput + Clock> TerminalPerson<'a, R> {
    // Reads what is there, at least a byte. Such a terminal shows nothing of it. A read that fails ends the review.
    fn hear_key<W: ReportSink, E: ReportSink>(&mut self, report: &mut Report<W, E>) -> HeardAnswer
        ensures shown { (keys : Option (List ℕ)) × Prints W.held report.old report.new (echo_of keys) }
        ensures heard { (keys : Option (List ℕ)) × (is_soon : Bool) × R.gives self.old.rt.now keys × (result ≡ heard_by_read is_soon keys) }
    {
        let mut room = [0u8; MOST_KEYS];
        let keys = self.rt.keys(&mut room);
        echo(keys.unwrap_or(b""), report);
        let heard = heard_by_read(keys, self.is_soon());
        if matches!(heard, HeardAnswer::Else) {
            self.missed = Instant::now(self.rt).ok();
        }
        heard
    }

    // Whether a key that was no answer came so shortly before that what comes now may belong to it: a text that is pasted comes in parts.
    fn is_soon(&self) -> bool {
        let Some(missed) = self.missed else {
            return false;
        };
        match missed.elapsed(self.rt) {
            Ok(elapsed) => elapsed < Duration::from_millis(KEYS_APART),
            Err(_) => false,
        }
    }
}

/// Reads what a terminal gives at once. Code over it is proved of whatever is read.
pub(crate) trait KeyInput {
    // a read gives these keys, none at the end, or it fails
    ghost gives: { Self → Option (List ℕ) → Type 0 };

    /// What is there, read into the room: nothing at the end; `None`, if the read failed.
    fn keys<'k>(&self, room: &'k mut [u8]) -> Option<&'k [u8]>
        ensures { gives self.now (option_map (λ keys. keys.now) result) };
}

// What comes from a terminal is not known.
impl<R: Input> KeyInput for R {
    ghost gives = { λ _ _. ⊤ };

    fn keys<'k>(&self, room: &'k mut [u8]) -> Option<&'k [u8]> {
        match self.reader().read(room) {
            Ok(count) => Some(&room[..count]),
            Err(_) => None,
        }
    }
}

/// Reads lines. Code over it is proved of whatever is read.
pub(crate) trait LineInput {
    // a read gives this line, which is empty at the end, or it fails
    ghost reads: { Self → Option (List ℕ) → Type 0 };

    /// The next line; none, if the read failed.
    fn line(&self) -> Option<String>
        ensures { reads self.now (option_map string_bytes result) };
}

// What comes from a terminal is not known.
impl<R: Input + AllocGlobal> LineInput for R {
    ghost reads = { λ _ _. ⊤ };

    fn line(&self) -> Option<String> {
        let mut line = String::new(self.alloc());
        match self.read_line(&mut line) {
            Ok(_) => Some(line),
            Err(_) => None,
        }
    }
}

// Reads a line.
fn hear_line<I: LineInput>(input: &I) -> HeardAnswer
    ensures { (line : Option (List ℕ)) × I.reads input.now line × (result ≡ heard_by_line line) }
{
    heard_by_line(input.line().as_deref())
}

// Writes what was keyed, and the end of its line.
fn echo<W: ReportSink, E: ReportSink>(keys: &[u8], report: &mut Report<W, E>)
    ensures { (keyed : Option (List ℕ)) × Prints W.held report.old report.new (echo_of keyed) }
{
    if keys.is_empty() {
        return;
    }
    report.put(visible_key(keys));
    report.put(b"\n");
}

// What comes from a terminal is not known.
impl<'a, R: Input + Clock + AllocGlobal> Person for TerminalPerson<'a, R> {
    ghost left = { λ _. [] };

    ghost is_known = { λ _. ⊥ };

    fn ask<W: ReportSink, E: ReportSink>(
        &mut self,
        question: &[u8],
        report: &mut Report<W, E>,
    ) -> HeardAnswer {
        if !report.say(question) {
            return HeardAnswer::End;
        }
        if self.gives_keys {
            self.hear_key(report)
        } else {
            hear_line(self.rt)
        }
    }
}

/// Asks until a line or a key is one of the answers. The end of the input ends the review.
pub(crate) fn ask<P: Person, W: ReportSink, E: ReportSink>(
    person: &mut P,
    question: &[u8],
    report: &mut Report<W, E>,
) -> Answer
    ensures shown { (text : List ℕ) × IsAsked question.now text × Prints W.held report.old report.new text }
    ensures heard { Hears P.is_known P.left person.old person.new ((result ≡ answered (P.left person.old)) × (P.left person.new ≡ after_answer (P.left person.old))) }
{
    let mut turns = 0u64;
    while turns < u64::MAX {
        match person.ask(question, report) {
            HeardAnswer::Answer(answer) => return answer,
            HeardAnswer::Else => report.put(help()),
            HeardAnswer::End => return Answer::Quit,
        }
        turns += 1;
    }
    Answer::Quit
}

// What the answers mean.
fn help() -> &'static [u8]
    ensures { result.now ≡ help_text }
{
    b"y  accepts this output\nn  leaves what is expected\na  accepts this one and all that follow in this script, but new errors; with --accept-errors these too\ns  leaves this one and all that follow in this script\nq  leaves this one and all that follow, and ends\n?  shows this\n"
}
