//! `raftbench run|rewrite|session FILE`: the report of a script, its text with its outputs, and a session on it.

ghost use Rattle.std.specs.Prelude.{◌≡◌, ◌⊎◌, true, IfErr, IfOk, Some};
ghost use Rattle.rb_replay.specs.Start.{is_checkpoint_interval};
ghost use Rattle.rb_bench.specs.Runs.{RunsOver};
ghost use Rattle.rb_bench.specs.Serves.{ServesOut};
ghost use Rattle.rb_program.specs.Done.{IsRun, IsServed};
ghost use Rattle.rb_program.specs.Refusals.{Explains, IsFolder, IsUnopened, of_run};
ghost use Rattle.rb_program.specs.Scripts.{AreRead, IsUnreadFile, sources_of};

use crate::job::{Job, run_from, run_job};
use crate::program_error::ProgramError;
use rb_bench::{BenchFault, Mode, Outlet, RunProgress, run_over, serve};
use rb_report::check::Status;
use rb_script::MAX_SCRIPT;
use rb_text::{ReadSource, Source, read_up_to};
use std::alloc::Global;
use std::fs;
use std::fs::File;
use std::rt::Files;

/// Writes the report of the script in the file, or on standard input, or its text with its outputs. The progress is told where the run is.
pub(crate) fn run<R: Files + Input + Print + AllocGlobal, P: RunProgress>(
    rt: &R,
    file: &str,
    mode: Mode,
    every: u64,
    progress: &P,
) -> Result<Status, ProgramError>
    ensures right { IfOk result (λ _. is_checkpoint_interval every ≡ true) }
    ensures answered { IsRun (sources_of R.Reader R.File R.Reader.remaining R.File.remaining) file.now mode every result }
{
    run_job(
        rt,
        file,
        &Running {
            mode,
            every,
            progress,
        },
    )
}

// The report of a script, or its text with its outputs.
#[derive(Drop)]
struct Running<'p, P> {
    mode: Mode,
    every: u64,
    progress: &'p P,
}

impl<'p, P: RunProgress> Job for Running<'p, P> {
    ghost is_right = { λ job. is_checkpoint_interval job.every };

    ghost answers = { λ job all left result old new. RunsOver job.mode all left result old new };

    fn run<S: Source, W: Outlet>(
        &self,
        alloc: Global,
        source: &mut S,
        writer: &mut W,
    ) -> Result<Status, BenchFault> {
        run_over(alloc, source, writer, self.mode, self.every, self.progress)
    }
}

/// What it came to, or why it came to nothing. It stands by itself so that what was opened is closed on one way out.
pub(crate) fn ended(status: Result<Status, BenchFault>) -> Result<Status, ProgramError>
    ensures { result ≡ of_run status }
{
    Ok(status?)
}

/// Holds a session on the script in the file, over standard input and output.
pub(crate) fn session<R: Files + Input + Print + AllocGlobal>(
    rt: &R,
    file: &str,
    every: u64,
) -> Result<Status, ProgramError>
    ensures right { IfOk result (λ _. is_checkpoint_interval every ≡ true) }
    ensures answered { IsServed (sources_of R.Reader R.File R.Reader.remaining R.File.remaining) file.now every result }
{
    let script = script(rt, file)?;
    let bytes = script.as_slice();
    let serving = Serving {
        script: bytes,
        every,
    };
    run_from(rt, &mut ReadSource(rt.reader()), &serving)
}

// A session on the script of these bytes.
#[derive(Drop)]
struct Serving<'a> {
    script: &'a [u8],
    every: u64,
}

impl<'a> Job for Serving<'a> {
    ghost is_right = { λ job. is_checkpoint_interval job.every };

    ghost answers = { λ job all left result old new. ServesOut (Some all) result job.script.now job.every old new };

    fn run<S: Source, W: Outlet>(
        &self,
        alloc: Global,
        source: &mut S,
        writer: &mut W,
    ) -> Result<Status, BenchFault> {
        serve(alloc, self.script, self.every, source, writer)
    }
}

/// The first bytes of the file, which is closed again. Where standard input was closed, the file took its place: what is
/// left of it must not be read for commands.
pub(crate) fn script<R: Files + AllocGlobal>(rt: &R, file: &str) -> Result<Vec<u8>, ProgramError>
    ensures read { IfOk result (λ bytes. AreRead R.File R.File.remaining bytes.items) }
    ensures unread { IfErr result (λ refusal. IsUnreadFile file.now refusal) }
{
    let opened = opened(rt, file)?;
    let mut source = ReadSource(opened);
    match read_up_to(rt.alloc(), &mut source, MAX_SCRIPT + 1) {
        Ok(bytes) => Ok(bytes),
        Err(fault) => Err(explained(rt, file, ProgramError::from(fault))),
    }
}

/// The refusal, with the reason where input failed because the path is a folder's: such a path is opened, and isn't read.
pub(crate) fn explained<R: Files + AllocGlobal>(
    rt: &R,
    file: &str,
    refusal: ProgramError,
) -> ProgramError
    ensures { Explains file.now refusal result }
{
    match &refusal {
        ProgramError::Io if is_folder(rt, file) => folder(rt.alloc(), file),
        _ => refusal,
    }
}

fn folder(alloc: Global, file: &str) -> ProgramError
    ensures { IsFolder file.now result ⊎ (result ≡ ProgramError.Io) }
{
    match String::from_str(alloc, file) {
        Ok(path) => ProgramError::Folder(path),
        Err(_) => ProgramError::Io,
    }
}

fn is_folder<R: Files>(rt: &R, path: &str) -> bool {
    matches!(fs::metadata(rt, path), Ok(metadata) if metadata.is_dir())
}

/// A file that can't be opened is failed input, whatever the system's error is.
pub(crate) fn opened<R: Files + AllocGlobal>(rt: &R, file: &str) -> Result<R::File, ProgramError>
    ensures { IfErr result (λ refusal. IsUnopened file.now refusal) }
{
    match File::open(rt, file) {
        Ok(opened) => Ok(opened),
        Err(error) => match String::from_str(rt.alloc(), file) {
            Ok(path) => Err(ProgramError::Unopened(path, error)),
            Err(_) => Err(ProgramError::Io),
        },
    }
}
