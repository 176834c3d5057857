//! The job for one script, and its checkpoint interval.

ghost use Rattle.std.specs.Prelude.{◌≡◌, option_map};
ghost use Rattle.rb_program.specs.Work.{noted, task_asked, work_of};

use crate::spacing::spacing;
use crate::usage_error::UsageError;
use rb_args::ScriptCommand;
use rb_replay::is_checkpoint_interval;

/// The job for one script.
#[derive(Clone, Copy, Debug, PartialEq, Eq)]
pub(crate) enum Work {
    Report(u64),
    Rewriting(u64),
    /// The same, with notes for a person.
    Noting,
    Session(u64),
    Look,
    Page,
    Chart,
    Trace,
}

/// What the subcommand does; nothing, where it looks at `--every` and the text after that is no number.
pub(crate) fn work_of(command: ScriptCommand, every: Option<&str>) -> Option<Work>
    ensures { result ≡ work_of command (option_map (λ word. word.now) every.entry) }
{
    match command {
        ScriptCommand::Run => Some(Work::Report(spacing(every)?)),
        ScriptCommand::Rewrite => Some(Work::Rewriting(spacing(every)?)),
        ScriptCommand::Session => Some(Work::Session(spacing(every)?)),
        ScriptCommand::Look => Some(Work::Look),
        ScriptCommand::Page => Some(Work::Page),
        ScriptCommand::Chart => Some(Work::Chart),
        ScriptCommand::Trace => Some(Work::Trace),
    }
}

/// What is done with the script in the file; `notes`, if a person is to read notes on it.
#[tactic(auto, unfolding(crate::specs::Work::task_asked))]
pub(crate) fn task_of(
    command: ScriptCommand,
    file: &str,
    every: Option<&str>,
    notes: bool,
) -> Result<Work, UsageError>
    ensures { result ≡ task_asked command file.now (option_map (λ word. word.now) every.entry) notes }
{
    if file == "-" && command == ScriptCommand::Session {
        return Err(UsageError::Input);
    }
    match work_of(command, every) {
        Some(work) => Ok(noted(work, notes)),
        None => Err(UsageError::Spacing),
    }
}

// The same work, with notes if they are wanted of it. A number that no session takes is refused as in any rewrite.
fn noted(work: Work, notes: bool) -> Work
    ensures { result ≡ noted notes work }
{
    match work {
        Work::Rewriting(every) if notes && is_checkpoint_interval(every) => Work::Noting,
        work => work,
    }
}
