//! The system calls of a check.

ghost use Rattle.std.specs.Prelude.{◌≡◌, ◌≢◌, ◌+◌, ◌++◌, ℕ, ⊤, Bool, false, Err, IfErr, IfOk, IfSome, IsErr, IsOk, MatchOption, MatchResult, List, [], length, string_bytes, take};
ghost use Rattle.rb_script.specs.Reads.{Reads};
ghost use Rattle.rb_script_report.specs.Accepting.{accepted};
ghost use Rattle.rb_check.specs.AcceptTexts.{left_in};
ghost use Rattle.rb_check.specs.Reported.{IsUnread};
ghost use Rattle.rb_check.specs.Shown.{Prints, Tells, cleared, left_file_text};
ghost use Rattle.rb_check.specs.Subjects.{plain_of};
ghost use Rattle.rb_report.specs.declared.check.failure.Failure.TheVariants.{NotRead, OutOfMemory};
ghost use Rattle.rb_files.specs.PathErrors.{without_cause};
ghost use Rattle.rb_files.specs.Places.{WasPut};

use crate::checked_script::CheckedScript;
use crate::notes::Note;
use crate::report::Report;
use crate::report_sink::ReportSink;
use rb_files::{AtomicReplace, FilePlace, PathError, Unreplaced, file_at, opened, replace};
use rb_machine::Machine;
use rb_report::check::Failure;
use rb_script::MAX_SCRIPT;
use rb_script_report::AcceptOptions;
use rb_text::{ReadFault, ReadSource, read_up_to};
use std::alloc::Global;
use std::fs::Metadata;
use std::io::Read;
use std::rt::Files;

/// The first bytes of a file, and its metadata when it was opened.
#[derive(Drop)]
pub(crate) struct Text {
    pub(crate) bytes: Vec<u8>,
    pub(crate) seen: Metadata,
}

/// The system calls for the check of a script, except the streams of the report. Code over it is proved of this trait alone, and not
/// of each trait of a runtime.
pub(crate) trait System {
    /// The place of a script's file.
    type Place: FilePlace;

    // the bytes were read from the script's file at the path
    ghost has_read: { Self → List ℕ → List ℕ → Type 0 };

    // the text was written in the place of the script's file at the path
    ghost has_written: { Self → List ℕ → List ℕ → Type 0 };

    // whether both paths lead to one script, as the system tells
    ghost tells_one: { Self → List ℕ → List ℕ → Bool → Type 0 };

    /// Memory.
    fn alloc(&self) -> Global;

    /// The first bytes of a script's file, which is closed again.
    fn read(&self, path: &str) -> Result<Text, PathError>
        ensures read { IfOk result (λ text. has_read self.now path.now text.bytes.items) }
        ensures failed { IfErr result IsUnread };

    /// Puts the text in the place of the script's file: it is the script with the outputs that are wanted.
    fn write<M: Machine, W: ReportSink, E: ReportSink>(
        &self,
        subject: &CheckedScript<'_, M>,
        wanted: AcceptOptions<'_>,
        text: &[u8],
        report: &mut Report<W, E>,
    ) -> Result<(), PathError>
        requires reads { Reads text.now (accepted wanted subject.now.layout.now.text subject.now.layout.now.heads.items subject.now.session.now.script) }
        // Some output is accepted.
        requires changes { length (left_in wanted (plain_of subject.now)) ≢ subject.now.ran.left }
        ensures shown { Prints W.held report.old report.new [] }
        ensures written { IfOk result (λ _. has_written self.now subject.now.path.now text.now × WasPut Self.Place.contents Self.Place.is_unchanged Self.Place.is_settled text.now) };

    /// Whether both paths lead to one script.
    fn is_one_script(&self, path: &str, other: &str) -> bool
        ensures { tells_one self.now path.now other.now result };
}

/// The calls of a runtime.
#[derive(Drop)]
pub(crate) struct RuntimeSystem<'a, R>(pub(crate) &'a R);

// What files hold, and where paths lead, is not known.
impl<'a, R: Files + AllocGlobal> System for RuntimeSystem<'a, R> {
    ghost has_read = { λ _ _ _. ⊤ };

    ghost has_written = { λ _ _ _. ⊤ };

    ghost tells_one = { λ _ _ _ _. ⊤ };

    type Place = AtomicReplace<'a, R>;

    fn alloc(&self) -> Global {
        self.0.alloc()
    }

    fn read(&self, path: &str) -> Result<Text, PathError> {
        let (file, seen) = opened(self.0, path)?;
        text_of(self.0.alloc(), file, seen)
    }

    fn write<M: Machine, W: ReportSink, E: ReportSink>(
        &self,
        subject: &CheckedScript<'_, M>,
        _wanted: AcceptOptions<'_>,
        text: &[u8],
        report: &mut Report<W, E>,
    ) -> Result<(), PathError> {
        let seen = subject.text.seen.clone()?;
        let mut place = AtomicReplace::new(self.0, subject.path, seen)?;
        let outcome = replace(&mut place, text);
        told(outcome, &place, report)
    }

    fn is_one_script(&self, path: &str, other: &str) -> bool {
        let one = file_at(self.0, path).ok().flatten();
        let another = file_at(self.0, other).ok().flatten();
        are_one(&one, &another)
    }
}

// Reads a file to its end, however long it is said to be.
fn text_of<F: Read + Drop>(alloc: Global, file: F, seen: Metadata) -> Result<Text, PathError>
    ensures bytes { IfOk result (λ text. IfSome (F.remaining file) (λ all. text.bytes.items ≡ take (MAX_SCRIPT + 1) all)) }
    ensures seen { IfOk result (λ text. text.seen ≡ seen) }
    ensures failed { IfErr result IsUnread }
{
    let bytes = first_bytes(alloc, file)?;
    Ok(Text { bytes, seen })
}

// Reads all bytes of a file. Of a file longer than a script may be it reads one byte more than that.
fn first_bytes<F: Read + Drop>(alloc: Global, file: F) -> Result<Vec<u8>, PathError>
    ensures bytes { IfOk result (λ bytes. IfSome (F.remaining file) (λ all. bytes.items ≡ take (MAX_SCRIPT + 1) all)) }
    ensures failed { IfErr result IsUnread }
{
    match read_up_to(alloc, &mut ReadSource(file), MAX_SCRIPT + 1) {
        Ok(bytes) => Ok(bytes),
        Err(fault) => Err(unread(fault)),
    }
}

// Gives the error of a read that failed.
fn unread(fault: ReadFault) -> PathError
    ensures failed { fault ≡ ReadFault.Io → result ≡ without_cause NotRead }
    ensures memory { fault ≡ ReadFault.OutOfMemory → result ≡ without_cause OutOfMemory }
    ensures is { IsUnread result }
{
    match fault {
        ReadFault::Io => PathError::alone(Failure::NotRead),
        ReadFault::OutOfMemory => PathError::alone(Failure::OutOfMemory),
    }
}

// Whether both are there, and the same.
fn are_one<T: PartialEq>(one: &Option<T>, another: &Option<T>) -> bool
    ensures { MatchOption one.now (result ≡ false) (λ a. MatchOption another.now (result ≡ false) (λ b. result ≡ T.eq a b)) }
{
    match (one, another) {
        (Some(one), Some(another)) => one == another,
        _ => false,
    }
}

// Gives the error of a text that was not put in its place. A new file that could be neither used nor removed is named.
fn told<R: Files + AllocGlobal, W: ReportSink, E: ReportSink>(
    outcome: Result<(), Unreplaced>,
    place: &AtomicReplace<'_, R>,
    report: &mut Report<W, E>,
) -> Result<(), PathError>
    ensures shown { Prints W.held report.old report.new [] }
    ensures outcome { MatchResult outcome (λ _. IsOk result) (λ why. result ≡ Err why.error) }
    ensures left { IsErr outcome → IfSome place.now.new (λ new. Tells E.takes_all E.held report.old report.new (cleared report.old.errors.shows_progress ++ left_file_text (string_bytes new.path))) }
{
    match outcome {
        Ok(()) => Ok(()),
        Err(why) => {
            if let Some(left) = place.left() {
                report.errors.tell(&Note::LeftFile(left.as_bytes()));
            }
            Err(why.error)
        }
    }
}
