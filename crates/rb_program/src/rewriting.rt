//! `raftbench rewrite FILE` with notes for a reader.

ghost use Rattle.std.specs.Prelude.{◌≡◌, ◌≢◌, ℕ, Err, IfErr, IfOk, IfSome, OnOk};
ghost use Rattle.rb_bench.specs.declared.running.Mode.TheVariants as modes;
ghost use Rattle.rb_bench.specs.Handed.{IsHandedOn};
ghost use Rattle.rb_bench.specs.Runs.{Answers};
ghost use Rattle.rb_text.specs.declared.reading.ReadFault.{ReadFault};
ghost use Rattle.rb_program.specs.Done.{IsNoted};
ghost use Rattle.rb_program.specs.Notes.{AreNotes, status_of_rewriting};
ghost use Rattle.rb_program.specs.Refusals.{EndsAs, of_reading};
ghost use Rattle.rb_program.specs.Scripts.{AreRead, IsOfBytes, IsOfInput, sources_of};

use crate::noting::notes_of;
use crate::program_error::ProgramError;
use crate::running::{ended, script};
use rb_bench::{BenchFault, Mode, Outlet, RunProgress, Runner, write_run};
use rb_report::check::Status;
use rb_script::{MAX_SCRIPT, Through};
use rb_text::{FailFast, ReadSource, read_up_to};
use std::alloc::Global;
use std::io;
use std::io::{BufWriter, Write};
use std::rt::Files;

/// Writes the script in the file, or on standard input, with its outputs. `errors` gets its probable mistakes: that changes neither
/// the output nor the status.
pub(crate) fn rewrite<R: Files + Input + Print + AllocGlobal, E: Write + Drop, P: RunProgress>(
    rt: &R,
    file: &str,
    errors: E,
    progress: &P,
) -> Result<Status, ProgramError>
    ensures { IsNoted (sources_of R.Reader R.File R.Reader.remaining R.File.remaining) file.now result }
{
    if file == "-" {
        rewrite_input(rt, errors, progress)
    } else {
        rewrite_file(rt, file, errors, progress)
    }
}

fn rewrite_input<R: Input + Print + AllocGlobal, E: Write + Drop, P: RunProgress>(
    rt: &R,
    errors: E,
    progress: &P,
) -> Result<Status, ProgramError>
    ensures { IsOfInput R.Reader R.Reader.remaining (λ bytes ended. EndsAs (Answers modes.Rewrite bytes) ended) result }
{
    let script = input(rt)?;
    let bytes = script.as_slice();
    rewrite_noted(rt, "standard input", bytes, errors, progress)
}

fn rewrite_file<R: Files + Print + AllocGlobal, E: Write + Drop, P: RunProgress>(
    rt: &R,
    file: &str,
    errors: E,
    progress: &P,
) -> Result<Status, ProgramError>
    ensures { IsOfBytes R.File R.File.remaining file.now (λ bytes ended. EndsAs (Answers modes.Rewrite bytes) ended) result }
{
    let script = script(rt, file)?;
    let bytes = script.as_slice();
    rewrite_noted(rt, file, bytes, errors, progress)
}

// Writes the script of the bytes with its outputs, and its notes, in which it has this name.
fn rewrite_noted<R: Print + AllocGlobal, E: Write + Drop, P: RunProgress>(
    rt: &R,
    name: &str,
    bytes: &[u8],
    errors: E,
    progress: &P,
) -> Result<Status, ProgramError>
    ensures { EndsAs (Answers modes.Rewrite bytes.now) result }
{
    let alloc = rt.alloc();
    let mut writer = Through(BufWriter::new(alloc, FailFast(Through(io::writer(rt))))?);
    let rewritten = rewrite_bytes(alloc, name.as_bytes(), bytes, &mut writer, progress);
    ended(put_notes(rewritten, errors))
}

// Writes the notes, if there are any, and gives the status.
fn put_notes<E: Write + Drop>(
    rewritten: Result<Rewritten, BenchFault>,
    errors: E,
) -> Result<Status, BenchFault>
    ensures { result ≡ status_of_rewriting rewritten }
{
    let Rewritten { status, notes } = rewritten?;
    if let Some(notes) = notes {
        let mut errors = errors;
        let _ = errors.write_all(&notes);
    }
    Ok(status)
}

// A script that is written with its outputs.
#[derive(Drop)]
struct Rewritten {
    status: Status,
    // The notes on it, if there is memory for them.
    notes: Option<Vec<u8>>,
}

// Runs the script of the bytes once, and writes it with its outputs.
fn rewrite_bytes<W: Outlet, P: RunProgress>(
    alloc: Global,
    path: &[u8],
    bytes: &[u8],
    writer: &mut W,
    progress: &P,
) -> Result<Rewritten, BenchFault>
    ensures answered { Answers modes.Rewrite bytes.now (status_of_rewriting result) (W.held writer.old) (W.held writer.new) }
    ensures noted { IfOk result (λ rewritten. IfSome rewritten.notes (λ notes. AreNotes path.now bytes.now notes.items)) }
    ensures handed { OnOk result (IsHandedOn (W.handed writer.new) (W.held writer.new)) }
    ensures io { W.takes_all writer.old → result ≢ Err BenchFault.Io }
{
    let mut runner = Runner::new(alloc, progress);
    let run = runner.run_script(bytes, false)?;
    let status = write_run(&run.session, writer, Mode::Rewrite)?;
    let notes = notes_of(alloc, path, bytes, &run);
    Ok(Rewritten { status, notes })
}

fn input<R: Input + AllocGlobal>(rt: &R) -> Result<Vec<u8>, ProgramError>
    ensures read { IfOk result (λ bytes. AreRead R.Reader R.Reader.remaining bytes.items) }
    ensures failed { IfErr result (λ refusal. (fault : ReadFault) × (refusal ≡ of_reading fault)) }
{
    match read_up_to(rt.alloc(), &mut ReadSource(rt.reader()), MAX_SCRIPT + 1) {
        Ok(bytes) => Ok(bytes),
        Err(fault) => Err(ProgramError::from(fault)),
    }
}
