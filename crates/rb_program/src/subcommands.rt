//! Subcommands for one script.

ghost use Rattle.std.specs.Prelude.{◌≡◌, ◌||◌, true, Err, IfOk, IfSome, None, option_map, string_bytes};
ghost use Rattle.rb_program.specs.Done.{IsCarriedOut, IsDone, IsWithEvery, IsWorked};
ghost use Rattle.rb_program.specs.Work.{NamesEvery, has_interval, task_asked};
ghost use Rattle.rb_program.specs.Scripts.{sources_of};

use crate::chart::chart;
use crate::checking::Terminals;
use crate::document::{DocumentKind, page, write_document};
use crate::look::look_at;
use crate::program_error::ProgramError;
use crate::progress::TerminalProgress;
use crate::rewriting::rewrite;
use crate::running::{run, session};
use crate::usage_error::{UsageError, usage_error_of_every};
use crate::work::{Work, task_of};
use rb_args::{CommandChoice, ScriptCommand};
use rb_bench::{Mode, RunProgress};
use rb_report::check::Status;
use std::alloc::Global;
use std::io::Write;
use std::rt::Files;
use std::time::Clock;

/// Does with the script in FILE what is asked for, and gives how it ended. `rewrite` names what looks like a mistake on `errors`, where that is a
/// terminal or `--warn` is given. On a terminal a run of more than a second shows its directives on standard error.
///
/// # Errors
///
/// Why it was not done. What is wrong with `--every` is told with its text.
pub fn carry_out<R: Files + Input + Print + Eprint + Clock + AllocGlobal, E: Write + Drop>(
    rt: &R,
    command: ScriptCommand,
    choice: &CommandChoice,
    errors: E,
    terminals: Terminals,
) -> Result<Status, ProgramError>
    ensures missing { choice.now.file ≡ None → result ≡ Err (ProgramError.Usage UsageError.NoFile) }
    // What comes of it is what comes of the task that is asked for.
    ensures done { IfSome (option_map string_bytes choice.now.file) (λ file. IsCarriedOut (sources_of R.Reader R.File R.Reader.remaining R.File.remaining) choice.now file (task_asked command file (option_map string_bytes choice.now.every) (terminals.errors || choice.now.warns)) result) }
{
    let Some(file) = choice.file.as_deref() else {
        return Err(ProgramError::Usage(UsageError::NoFile));
    };
    let progress = TerminalProgress::new(rt, terminals.errors);
    let notes = wants_notes(choice, progress.is_wanted());
    let every = choice.every.as_deref();
    let task = task_of(command, file, every, notes);
    carried(rt, task, file, choice, errors, &progress)
}

// Whether a person is to read notes: on a terminal, or asked for.
fn wants_notes(choice: &CommandChoice, is_read: bool) -> bool
    ensures { result ≡ is_read || choice.now.warns }
{
    is_read || choice.warns
}

// Does the work, or says why there is none.
fn carried<R: Files + Input + Print + AllocGlobal, E: Write + Drop, P: RunProgress>(
    rt: &R,
    task: Result<Work, UsageError>,
    file: &str,
    choice: &CommandChoice,
    errors: E,
    progress: &P,
) -> Result<Status, ProgramError>
    // What can't be done is refused, and named.
    ensures done { IsCarriedOut (sources_of R.Reader R.File R.Reader.remaining R.File.remaining) choice.now file.now task result }
    // What is done has an interval that a session takes.
    ensures taken { IfOk task (λ work. IfOk result (λ _. has_interval work ≡ true)) }
{
    match task {
        Ok(work) => worked(rt, work, file, choice, errors, progress),
        Err(misuse) => {
            let every = choice.every.as_deref();
            Err(with_every(rt.alloc(), every, ProgramError::Usage(misuse)))
        }
    }
}

// Does the work, and names what is wrong with `--every`.
fn worked<R: Files + Input + Print + AllocGlobal, E: Write + Drop, P: RunProgress>(
    rt: &R,
    work: Work,
    file: &str,
    choice: &CommandChoice,
    errors: E,
    progress: &P,
) -> Result<Status, ProgramError>
    ensures done { IsWorked (sources_of R.Reader R.File R.Reader.remaining R.File.remaining) choice.now file.now work result }
    ensures taken { IfOk result (λ _. has_interval work ≡ true) }
{
    let ended = done(rt, work, file, choice, errors, progress);
    let every = choice.every.as_deref();
    ended_with_every(rt.alloc(), every, ended)
}

fn ended_with_every(
    alloc: Global,
    every: Option<&str>,
    ended: Result<Status, ProgramError>,
) -> Result<Status, ProgramError>
    ensures { IsWithEvery (option_map (λ word. word.now) every.entry) ended result }
{
    match ended {
        Ok(status) => Ok(status),
        Err(refusal) => Err(with_every(alloc, every, refusal)),
    }
}

// The refusal, with the text after `--every` if that is what is wrong.
fn with_every(alloc: Global, every: Option<&str>, refusal: ProgramError) -> ProgramError
    ensures { NamesEvery (option_map (λ word. word.now) every.entry) refusal result }
{
    match &refusal {
        ProgramError::Usage(UsageError::Spacing) => ProgramError::Usage(usage_error_of_every(
            alloc, every,
        )),
        _ => refusal,
    }
}

#[tactic(auto, unfolding(crate::specs::Done::IsDone))]
fn done<R: Files + Input + Print + AllocGlobal, E: Write + Drop, P: RunProgress>(
    rt: &R,
    work: Work,
    file: &str,
    choice: &CommandChoice,
    errors: E,
    progress: &P,
) -> Result<Status, ProgramError>
    ensures right { IfOk result (λ _. has_interval work ≡ true) }
    ensures done { IsDone (sources_of R.Reader R.File R.Reader.remaining R.File.remaining) file.now (option_map string_bytes choice.now.from) (option_map string_bytes choice.now.until) work result }
{
    match work {
        Work::Report(every) => run(rt, file, Mode::Run, every, progress),
        Work::Rewriting(every) => run(rt, file, Mode::Rewrite, every, progress),
        Work::Noting => rewrite(rt, file, errors, progress),
        Work::Session(every) => session(rt, file, every),
        Work::Look => look_at(rt, file),
        Work::Page => page(rt, file),
        Work::Chart => chart(rt, file, choice.from.as_deref(), choice.until.as_deref()),
        Work::Trace => write_document(rt, file, DocumentKind::Trace),
    }
}
