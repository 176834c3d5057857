//! The report of a check.
//!
//! What is found goes to standard output, failures and the progress line to standard error. If standard output fails,
//! that is reported once, and the check continues without it. `Prints` says what each call writes on standard output.

ghost use Rattle.std.specs.Prelude.{◌≡◌, ◌<◌, ◌++◌, ℕ, true, false, not, List, Option, MatchOption, Some, is_some, IfErr, IfOk, length, slice_get};
ghost use Rattle.std.specs.Io.KnownBytes.{Keeps};
ghost use Rattle.rb_script.specs.Writes.{AppendsFront, Writes};
ghost use Rattle.rb_report.specs.declared.check.failure.Failure.TheVariants.{OutOfMemory};
ghost use Rattle.rb_report.specs.Failures.{failure_text};
ghost use Rattle.rb_script_report.specs.Shows.{Shows};
ghost use Rattle.rb_check.specs.declared.remark.Remark.TheVariants as remarks;
ghost use Rattle.rb_check.specs.Shown.{GoesOut, GoesOutIf, LosesNothing, Prints, Tells, begun_text, beginning, cleared, closed, colors_in, failure_lines, is_broken_pipe, is_reader_gone, lacking, lost_output_text, programs_text, remark_text, shown_in, started, warnings_text};
ghost use Rattle.rb_check.specs.Visible.{showing_of_lines};

use crate::check_request::CheckRequest;
use crate::error_stream::ErrorStream;
use crate::format::Format;
use crate::notes::Note;
use crate::remark::{Remark, RemarkLine, programs_text};
use crate::report_sink::ReportSink;
use crate::report_state::ReportState;
use crate::visible::{Showing, showing_of_lines};
use rb_files::PathError;
use rb_report::check::{Colors, Failure, acts_in_line};
use rb_script::{Lines, WriteFault};
use rb_script_report::{ShowFault, Warning};
use rb_text::WrittenPiece;
use std::alloc::Global;
use std::io;

/// The report of a check: its streams, and what it has lost.
#[derive(Drop)]
pub(crate) struct Report<W: ReportSink, E: ReportSink> {
    pub(crate) alloc: Global,
    pub(crate) output: W,
    pub(crate) errors: ErrorStream<E>,
    // how bytes go out on standard output
    pub(crate) showing: Showing,
    pub(crate) state: ReportState,
}

impl<W: ReportSink, E: ReportSink> Report<W, E> {
    /// Nothing is written yet.
    pub(crate) fn new(
        alloc: Global,
        output: W,
        errors: ErrorStream<E>,
        asked: &CheckRequest<'_>,
    ) -> Report<W, E>
        ensures state { result.state ≡ started asked.now }
        ensures output { result.output ≡ output }
        ensures errors { result.errors ≡ errors }
    {
        Report {
            alloc,
            output,
            errors,
            showing: Showing::AsIs,
            state: ReportState::new(asked),
        }
    }

    /// From here on the report is about the script at the path, with these lines if they are known. None of it acts in a terminal.
    pub(crate) fn heed(&mut self, path: &[u8], lines: Option<&Lines>)
        ensures state { self.new.state ≡ self.old.state }
        ensures held { Keeps (W.held self.old.output) (W.held self.new.output) }
        ensures output { W.shown_as self.new.output ≡ self.new.showing }
        // If something of the lines acts, bytes go out by their numbers.
        ensures harmless { (showing : Showing) × (self.new.showing ≡ shown_in self.old.state.form.format path.now showing) × (E.shown_as self.new.errors.sink ≡ showing) × MatchOption lines.entry (showing ≡ Showing.AsIs) (λ ls. showing ≡ showing_of_lines ls.now) }
    {
        let showing = showing_for(lines);
        self.errors.sink.show_as(showing);
        self.showing = shown_in(self.state.form.format, path, showing);
        self.output.show_as(self.showing);
    }

    /// The chosen colours, if bytes are written as they are.
    pub(crate) fn colors(&self, wanted: Colors) -> Colors
        ensures { result ≡ colors_in self.now.showing wanted }
    {
        match self.showing {
            Showing::AsIs => wanted,
            Showing::Visible => Colors::Off,
            Showing::Json => Colors::Off,
        }
    }

    /// Whether it is for programs.
    pub(crate) fn is_for_programs(&self) -> bool
        ensures { result ≡ is_some self.now.state.form.format }
    {
        self.state.form.format.is_some()
    }

    /// Whether something can be written on standard output. If so, the progress line is removed.
    pub(crate) fn is_open(&mut self) -> bool
        ensures value { result ≡ not self.old.state.is_closed }
        ensures state { self.new.state ≡ self.old.state }
        ensures output { self.new.output ≡ self.old.output }
        ensures showing { self.new.showing ≡ self.old.showing }
        ensures errors { self.old.errors.shows_progress ≡ false → self.new.errors ≡ self.old.errors }
        ensures progress { self.old.state.is_closed ≡ false → self.new.errors.shows_progress ≡ false }
        ensures cleared { self.old.state.is_closed ≡ false → Tells E.takes_all E.held self.old self.new (cleared self.old.errors.shows_progress) }
    {
        if self.state.is_closed {
            return false;
        }
        self.errors.clear();
        true
    }

    /// Flushes what was written, and records whether that failed.
    pub(crate) fn wrote(&mut self, written: Result<(), WriteFault>)
        ensures showing { self.new.showing ≡ self.old.showing }
        ensures errors { LosesNothing self.old.state self.new.state → self.new.errors ≡ self.old.errors }
        // What was written is handed on, unless that failed.
        ensures flushed { self.new.state.is_closed ≡ false → W.is_flushed self.new.output }
        ensures shown { (before : Option (List ℕ)) (text : List ℕ) → self.old.state.is_closed ≡ false → Writes written before (W.held self.old.output) text
            → GoesOut self.old.state self.new.state before (W.held self.new.output) text }
    {
        let handed_on = self.output.flush();
        if written.is_ok() && handed_on.is_ok() {
            return;
        }
        self.lose_output(&handed_on);
    }

    /// The same, where a script was shown: memory may have been refused for that.
    ///
    /// # Errors
    ///
    /// If memory was refused for it.
    pub(crate) fn showed(&mut self, shown: Result<(), ShowFault>) -> Result<(), PathError>
        ensures memory { IfErr result (λ error. error.failure ≡ OutOfMemory) }
        ensures flushed { IfOk result (λ _. self.new.state.is_closed ≡ false → W.is_flushed self.new.output) }
        ensures shown { (before : Option (List ℕ)) (text : List ℕ) → self.old.state.is_closed ≡ false → Shows shown before (W.held self.old.output) text
            → GoesOutIf result self.old.state self.new.state before (W.held self.new.output) text }
    {
        match shown {
            Ok(()) => {
                self.wrote(Ok(()));
                Ok(())
            }
            Err(fault) => self.showed_in_part(fault),
        }
    }

    // What was shown is cut off; or nothing was shown, since memory was refused.
    fn showed_in_part(&mut self, fault: ShowFault) -> Result<(), PathError>
        ensures memory { IfErr result (λ error. error.failure ≡ OutOfMemory) }
        ensures flushed { IfOk result (λ _. self.new.state.is_closed ≡ false → W.is_flushed self.new.output) }
        ensures shown { (before : Option (List ℕ)) (text : List ℕ) → self.old.state.is_closed ≡ false → AppendsFront before (W.held self.old.output) text
            → GoesOutIf result self.old.state self.new.state before (W.held self.new.output) text }
    {
        match fault {
            ShowFault::Writing => {
                self.wrote(Err(WriteFault));
                Ok(())
            }
            ShowFault::OutOfMemory => Err(PathError::alone(Failure::OutOfMemory)),
        }
    }

    // Nothing more goes to standard output.
    fn lose_output(&mut self, handed_on: &io::Result<()>)
        ensures showing { self.new.showing ≡ self.old.showing }
        ensures output { self.new.output ≡ self.old.output }
        ensures closed { self.new.state.is_closed ≡ true }
        ensures kept { self.old.state.is_closed ≡ true → self.new ≡ self.old }
        ensures told { self.old.state.is_closed ≡ false → Tells E.takes_all E.held self.old self.new (lost_output_text self.old.errors.shows_progress handed_on.now) }
        ensures state { self.old.state.is_closed ≡ false → self.new.state ≡ closed self.old.state }
    {
        if self.state.is_closed {
            return;
        }
        self.state.close();
        if !is_reader_gone(handed_on) {
            self.errors
                .tell(&Note::Failure(b"raftbench", Failure::NotShown));
        }
    }

    // Records that memory was refused for the report.
    pub(crate) fn fail_for_memory(&mut self, path: &[u8])
        ensures showing { self.new.showing ≡ self.old.showing }
        ensures output { self.new.output ≡ self.old.output }
        ensures told { Tells E.takes_all E.held self.old self.new (cleared self.old.errors.shows_progress ++ failure_text path.now OutOfMemory) }
        ensures state { self.new.state ≡ lacking self.old.state }
    {
        self.state.lack_memory();
        self.errors.tell(&Note::Failure(path, Failure::OutOfMemory));
    }

    /// Writes the text on standard output.
    pub(crate) fn show<T: WrittenPiece>(&mut self, text: &T)
        ensures showing { self.new.showing ≡ self.old.showing }
        ensures errors { self.old.errors.shows_progress ≡ false → LosesNothing self.old.state self.new.state → self.new.errors ≡ self.old.errors }
        ensures flushed { self.new.state.is_closed ≡ false → W.is_flushed self.new.output }
        ensures shown { Prints W.held self.old self.new (T.text text.now) }
        ensures closed { self.old.state.is_closed ≡ true → self.new.state.is_closed ≡ true }
    {
        if !self.is_open() {
            return;
        }
        let written = text.put(&mut self.output);
        self.wrote(written);
    }

    /// Writes the bytes on standard output; returns whether that worked.
    pub(crate) fn say(&mut self, text: &[u8]) -> bool
        ensures flushed { self.new.state.is_closed ≡ false → W.is_flushed self.new.output }
        ensures shown { Prints W.held self.old self.new text.now }
        ensures said { result ≡ not self.new.state.is_closed }
        ensures closed { self.old.state.is_closed ≡ true → result ≡ false }
    {
        self.show(&text);
        !self.state.is_closed
    }

    /// Writes the bytes on standard output.
    pub(crate) fn put(&mut self, text: &[u8])
        ensures showing { self.new.showing ≡ self.old.showing }
        ensures errors { self.old.errors.shows_progress ≡ false → LosesNothing self.old.state self.new.state → self.new.errors ≡ self.old.errors }
        ensures flushed { self.new.state.is_closed ≡ false → W.is_flushed self.new.output }
        ensures shown { Prints W.held self.old self.new text.now }
    {
        self.show(&text);
    }

    // Writes a notice to programs.
    fn notify(&mut self, format: Format, path: &[u8], remark: Remark)
        ensures showing { self.new.showing ≡ self.old.showing }
        ensures errors { self.old.errors.shows_progress ≡ false → LosesNothing self.old.state self.new.state → self.new.errors ≡ self.old.errors }
        ensures shown { Prints W.held self.old self.new (programs_text format self.old.state.form.is_strict path.now remark) }
    {
        match programs_text(self.alloc, format, self.state.form.is_strict, path, remark) {
            Ok(text) => self.put(&text),
            Err(_) => self.fail_for_memory(path),
        }
    }

    /// Says something of the script: a line to people, or a notice to programs.
    pub(crate) fn remark(&mut self, path: &[u8], remark: Remark)
        ensures showing { self.new.showing ≡ self.old.showing }
        ensures errors { self.old.errors.shows_progress ≡ false → LosesNothing self.old.state self.new.state → self.new.errors ≡ self.old.errors }
        ensures shown { Prints W.held self.old self.new (remark_text self.old.state.form path.now remark) }
    {
        match self.state.form.format {
            Some(format) => self.notify(format, path, remark),
            None => self.show(&RemarkLine { path, remark }),
        }
    }

    /// Says of each of the lines that it looks like a slip.
    pub(crate) fn warn(&mut self, path: &[u8], warnings: &[Warning])
        ensures { Prints W.held self.old self.new (warnings_text self.old.state.form path.now warnings.now) }
    {
        for i in 0..warnings.len() {
            self.remark(path, Remark::Warning(warning_at(warnings, i)));
        }
    }

    /// Reports that a path failed. If standard error fails too, that can't be reported; the status has the path's failure.
    pub(crate) fn fail(&mut self, path: &[u8], error: PathError)
        ensures showing { self.new.showing ≡ self.old.showing }
        // If nothing of the report itself fails, this is all that the stream of errors has.
        ensures told { LosesNothing self.old.state self.new.state → (words : List ℕ) × Tells E.takes_all E.held self.old self.new (cleared self.old.errors.shows_progress ++ failure_lines path.now error words) }
        ensures progress { LosesNothing self.old.state self.new.state → self.new.errors.shows_progress ≡ false }
        ensures shown { Prints W.held self.old self.new (remark_text self.old.state.form path.now (remarks.Failed error.failure)) }
    {
        self.errors.tell_failure(path, error);
        self.remark(path, Remark::Failed(error.failure));
    }

    /// Writes the beginning of a report for programs.
    pub(crate) fn begin(&mut self)
        ensures { Prints W.held self.old self.new (begun_text self.old.state.form) }
    {
        match self.state.form.format {
            Some(format) => self.put(beginning(format)),
            None => {}
        }
    }
}

// The warning at an index, which counts from 0.
fn warning_at(warnings: &[Warning], index: usize) -> Warning
    requires { index < length warnings.now }
    ensures { slice_get warnings.now index ≡ Some result }
{
    warnings[index]
}

// The beginning of a report for programs.
fn beginning(format: Format) -> &'static [u8]
    ensures { result.now ≡ beginning format }
{
    match format {
        Format::Json => b"",
        Format::Github => b"",
        Format::Junit =>
            b"<?xml version=\"1.0\" encoding=\"UTF-8\"?>\n<testsuites name=\"raftbench\">\n",
    }
}

// How what is about a script goes out, with these lines if they are known.
fn showing_for(lines: Option<&Lines>) -> Showing
    ensures { MatchOption lines.entry (result ≡ Showing.AsIs) (λ ls. result ≡ showing_of_lines ls.now) }
{
    match lines {
        Some(lines) => showing_of_lines(lines),
        None => Showing::AsIs,
    }
}

// How what is about a script at a path goes out in a format. A workflow command has the path itself.
fn shown_in(format: Option<Format>, path: &[u8], showing: Showing) -> Showing
    ensures { result ≡ shown_in format path.now showing }
{
    match format {
        Some(Format::Json) => Showing::Json,
        Some(Format::Junit) => Showing::AsIs,
        Some(Format::Github) if acts_in_line(path) => Showing::Visible,
        Some(Format::Github) => showing,
        None => showing,
    }
}

// Whether the reader closed the pipe, which is no failure to report.
fn is_reader_gone(handed_on: &io::Result<()>) -> bool
    ensures { result ≡ is_reader_gone handed_on.now }
{
    match handed_on {
        Ok(()) => false,
        Err(error) => is_broken_pipe(error.kind()),
    }
}

fn is_broken_pipe(kind: io::ErrorKind) -> bool
    ensures { result ≡ is_broken_pipe kind }
{
    match kind {
        io::ErrorKind::BrokenPipe => true,
        _ => false,
    }
}
