//! The stream of errors: failures, and how far the work is.

ghost use Rattle.std.specs.Prelude.{◌≡◌, ℕ, List, ◌++◌, false, is_some, IsOk, IsSome};
ghost use Rattle.rb_script.specs.Writes.{Writes};
ghost use Rattle.rb_check.specs.Shown.{Told, cause_line, cleared, failure_lines, progress_text, says_cause, says_little};

use crate::notes::Note;
use crate::report_sink::ReportSink;
use rb_files::PathError;
use rb_report::check::Failure;
use rb_script::WriteFault;
use rb_text::{Piece, WrittenPiece, put_pieces};
use std::alloc::{AllocError, Global};
use std::io;

// Takes the cursor back to the line's first column, and clears the line (ECMA-48).
const CLEARED: &[u8] = b"\r\x1b[K";

/// The stream of errors.
#[derive(Drop)]
pub(crate) struct ErrorStream<E: ReportSink> {
    alloc: Global,
    pub(crate) sink: E,
    // The progress line is on the terminal.
    pub(crate) shows_progress: bool,
}

impl<E: ReportSink> ErrorStream<E> {
    /// There is no progress line on the terminal yet.
    pub(crate) fn new(alloc: Global, sink: E) -> ErrorStream<E>
        ensures sink { result.sink ≡ sink }
        ensures shown { result.shows_progress ≡ false }
    {
        ErrorStream {
            alloc,
            sink,
            shows_progress: false,
        }
    }

    /// Removes the progress line.
    pub(crate) fn clear(&mut self)
        ensures shown { self.new.shows_progress ≡ false }
        ensures told { Told (E.takes_all self.old.sink) (E.takes_all self.new.sink) (E.held self.old.sink) (E.held self.new.sink) (cleared self.old.shows_progress) }
        ensures kept { self.old.shows_progress ≡ false → self.new ≡ self.old }
    {
        if !self.shows_progress {
            return;
        }
        let _ = self.sink.put_acting(CLEARED);
        let _ = self.sink.flush();
        self.shows_progress = false;
    }

    /// Writes the text in the place of the progress line. If that fails, it can't be reported.
    pub(crate) fn tell<T: WrittenPiece>(&mut self, text: &T)
        ensures shown { self.new.shows_progress ≡ false }
        ensures told { Told (E.takes_all self.old.sink) (E.takes_all self.new.sink) (E.held self.old.sink) (E.held self.new.sink) (cleared self.old.shows_progress ++ T.text text.now) }
        ensures flushed { E.takes_all self.old.sink → E.is_flushed self.new.sink }
    {
        self.clear();
        let _ = text.put(&mut self.sink);
        let _ = self.sink.flush();
    }

    /// Writes why a path failed, and what the system says of it, if the failure alone says too little.
    pub(crate) fn tell_failure(&mut self, path: &[u8], error: PathError)
        ensures shown { self.new.shows_progress ≡ false }
        ensures told { (words : List ℕ) × Told (E.takes_all self.old.sink) (E.takes_all self.new.sink) (E.held self.old.sink) (E.held self.new.sink) (cleared self.old.shows_progress ++ failure_lines path.now error words) }
        ensures flushed { E.takes_all self.old.sink → E.is_flushed self.new.sink }
    {
        let failure = error.failure;
        self.tell(&Note::Failure(path, failure));
        match said_cause(error) {
            Some(cause) => self.tell_cause(path, cause),
            None => {}
        }
    }

    fn tell_cause(&mut self, path: &[u8], cause: io::Error)
        ensures shown { self.new.shows_progress ≡ false }
        ensures told { (words : List ℕ) × Told (E.takes_all self.old.sink) (E.takes_all self.new.sink) (E.held self.old.sink) (E.held self.new.sink) (cleared self.old.shows_progress ++ cause_line path.now words) }
        ensures flushed { E.takes_all self.old.sink → E.is_flushed self.new.sink }
    {
        let cause = cause.to_string(self.alloc);
        self.tell(&Note::Cause(path, words_of(&cause)));
    }

    /// Shows how far the work is.
    pub(crate) fn show_progress(&mut self, done: usize, all: usize)
        ensures told { Told (E.takes_all self.old.sink) (E.takes_all self.new.sink) (E.held self.old.sink) (E.held self.new.sink) (progress_text done all) }
        ensures flushed { E.takes_all self.old.sink → E.is_flushed self.new.sink }
    {
        let _ = put_progress(&mut self.sink, done, all);
        let _ = self.sink.flush();
        self.shows_progress = true;
    }
}

// The system's words, if there was memory for them.
fn words_of(cause: &Result<String, AllocError>) -> &[u8] {
    match cause {
        Ok(words) => words.as_bytes(),
        Err(_) => b"out of memory",
    }
}

fn put_progress<E: ReportSink>(sink: &mut E, done: usize, all: usize) -> Result<(), WriteFault>
    ensures wrote { Writes result (E.held sink.old) (E.held sink.new) (progress_text done all) }
    ensures all { E.takes_all sink.old → IsOk result × E.takes_all sink.new }
{
    sink.put_acting(CLEARED)?;
    put_pieces(
        sink,
        &[
            Piece::Number(done as u64),
            Piece::Bytes(b" of "),
            Piece::Number(all as u64),
            Piece::Bytes(b" scripts"),
        ],
    )
}

// The system's error, if the failure alone says too little.
fn said_cause(error: PathError) -> Option<io::Error>
    ensures said { is_some result ≡ says_cause error }
    ensures own { IsSome result → result ≡ error.cause }
{
    if says_little(error.failure) {
        error.cause
    } else {
        None
    }
}

// Whether the system's own words say more.
fn says_little(failure: Failure) -> bool
    ensures { result ≡ says_little failure }
{
    match failure {
        Failure::NotRead | Failure::NotWritten => true,
        _ => false,
    }
}
