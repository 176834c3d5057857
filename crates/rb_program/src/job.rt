//! One script, from reading it to writing the result.

ghost use Rattle.std.specs.Prelude.{◌≡◌, ℕ, Bool, true, List, Option, Result, Err, IfOk, IfSome};
ghost use Rattle.rb_report.specs.declared.check.status.Status.{Status};
ghost use Rattle.rb_bench.specs.declared.fault.BenchFault.{BenchFault};
ghost use Rattle.rb_program.specs.Refusals.{EndsAs};
ghost use Rattle.rb_program.specs.Scripts.{IsOfFile, IsOfScript, sources_of};

use crate::program_error::ProgramError;
use crate::running::{ended, explained, opened};
use rb_bench::{BenchFault, Outlet};
use rb_report::check::Status;
use rb_script::Through;
use rb_text::{FailFast, ReadSource, Source};
use std::alloc::Global;
use std::io;
use std::io::BufWriter;
use std::rt::Files;

/// A job for one script.
pub(crate) trait Job {
    // its interval is one that a session takes
    ghost is_right: { Self → Bool };

    // what comes of a source that has these bytes, and then has those left, and of what a writer held and holds then
    ghost answers: { Self → List ℕ → Option (List ℕ) → Result Status BenchFault → Option (List ℕ) → Option (List ℕ) → Type 0 };

    /// Reads the script from the source, and writes the result.
    fn run<S: Source, W: Outlet>(
        &self,
        alloc: Global,
        source: &mut S,
        writer: &mut W,
    ) -> Result<Status, BenchFault>
        ensures right { IfOk result (λ _. is_right self.now ≡ true) }
        ensures answered { is_right self.now ≡ true → IfSome (S.left source.old) (λ all. answers self.now all (S.left source.new) result (W.held writer.old) (W.held writer.new)) };
}

/// Does it with the script in the file, or on standard input.
pub(crate) fn run_job<R: Files + Input + Print + AllocGlobal, J: Job>(
    rt: &R,
    file: &str,
    job: &J,
) -> Result<Status, ProgramError>
    ensures right { IfOk result (λ _. J.is_right job.now ≡ true) }
    ensures answered { J.is_right job.now ≡ true → IsOfScript (sources_of R.Reader R.File R.Reader.remaining R.File.remaining) file.now (λ all left ended. EndsAs (J.answers job.now all left) ended) result }
{
    if file == "-" {
        run_from(rt, &mut ReadSource(rt.reader()), job)
    } else {
        run_opened(rt, file, job)
    }
}

fn run_opened<R: Files + Print + AllocGlobal, J: Job>(
    rt: &R,
    file: &str,
    job: &J,
) -> Result<Status, ProgramError>
    ensures right { IfOk result (λ _. J.is_right job.now ≡ true) }
    ensures answered { J.is_right job.now ≡ true → IsOfFile R.File R.File.remaining file.now (λ all left ended. EndsAs (J.answers job.now all left) ended) result }
{
    let opened = opened(rt, file)?;
    let ended = run_from(rt, &mut ReadSource(opened), job);
    match ended {
        Ok(status) => Ok(status),
        Err(refusal) => Err(explained(rt, file, refusal)),
    }
}

/// Does it with the script from the source.
pub(crate) fn run_from<R: Print + AllocGlobal, S: Source, J: Job>(
    rt: &R,
    source: &mut S,
    job: &J,
) -> Result<Status, ProgramError>
    ensures right { IfOk result (λ _. J.is_right job.now ≡ true) }
    // If the source's bytes are known, it ends as the job answers them.
    ensures answered { J.is_right job.now ≡ true → IfSome (S.left source.old) (λ all. EndsAs (J.answers job.now all (S.left source.new)) result) }
{
    let alloc = rt.alloc();
    let mut writer = Through(BufWriter::new(alloc, FailFast(Through(io::writer(rt))))?);
    ended(job.run(alloc, source, &mut writer))
}
