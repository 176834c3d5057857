//! Why the program could not do its work.

ghost use Rattle.std.specs.Prelude.{◌≡◌, Bool, IfSome, false};
ghost use Rattle.std.specs.Io.KnownBytes.{Appends};
ghost use Rattle.std.specs.IoError.{error_kind};
ghost use Rattle.rb_program.specs.declared.program_error.ProgramError.TheVariants.{OutOfMemory};
ghost use Rattle.rb_program.specs.Refusals.{EndsWith, of_bench, of_choice, of_kind, of_reading, of_script};
ghost use Rattle.rb_program.specs.Sentences.{first_line, refused_word, second_line};
ghost use Rattle.rb_program.specs.Told.{EndsByOutput, IsExplained, TellsWhy};

use crate::clap_text::tell_clap;
use crate::console::Console;
use crate::environment::{Environment, asks_for_explanations};
use crate::error_lines::{SecondLine, say};
use crate::shown::{shown_word, text_of};
use crate::usage_error::{UsageError, tell_help};
use rb_args::ChoiceFault;
use rb_bench::BenchFault;
use rb_report::check::Status;
use rb_script::ScriptFault;
use rb_text::ReadFault;
use std::alloc::{AllocError, Global};
use std::io;

/// Why the program ends early.
pub enum ProgramError {
    /// Help, or arguments that are not taken; the text is clap's.
    Clap(clap::Error),
    Usage(UsageError),
    /// The same, where nothing fixes the text: the sentence alone is told.
    OwnUsage(UsageError),
    Script(ScriptFault),
    /// The file of this path couldn't be opened, and why.
    Unopened(String, io::Error),
    /// More happens than a picture has room for.
    ChartTooLarge,
    /// A page has no room for the rows of what happens.
    PageTooLarge,
    /// The file of this path is a folder, so it couldn't be read.
    Folder(String),
    Io,
    OutOfMemory,
}

// Written out, as that of a misuse.
impl Drop for ProgramError {
    fn drop(self) {
        match self {
            ProgramError::Clap(_)
            | ProgramError::Usage(_)
            | ProgramError::OwnUsage(_)
            | ProgramError::Unopened(_, _)
            | ProgramError::Folder(_)
            | ProgramError::Script(_)
            | ProgramError::ChartTooLarge
            | ProgramError::PageTooLarge
            | ProgramError::Io
            | ProgramError::OutOfMemory => {}
        }
    }
}

impl ProgramError {
    /// Writes the one line with the reason, and returns the status. If a person reads standard error, or the environment asks for it, a second
    /// line says more.
    pub fn tell<C: Console, S: Environment>(
        &self,
        alloc: Global,
        console: &mut C,
        system: &S,
        is_read: bool,
    ) -> Status
        ensures ends { EndsWith self.now result }
        ensures told { C.takes_all console.old → (explained : Bool) × IsExplained (S.tells_setting system.now) is_read explained × TellsWhy self.now explained (C.told console.old) (C.told console.new) }
        // Help that isn't written is a failed output.
        ensures lost { C.has_lost console.old ≡ false → EndsByOutput self.now (C.has_lost console.new) result }
    {
        let explained = is_explained(system, is_read);
        let shown = shown_word(alloc, self.word());
        let word = text_of(&shown);
        let status = self.tell_why(alloc, console, word);
        if !explained {
            return status;
        }
        self.explain(alloc, console, word);
        status
    }

    // The word that it is about; empty, if there is none.
    fn word(&self) -> &str
        ensures { result.now ≡ refused_word self.now }
    {
        match self {
            ProgramError::Usage(misuse) => misuse.word(),
            ProgramError::OwnUsage(misuse) => misuse.word(),
            ProgramError::Unopened(path, _) => path.as_str(),
            ProgramError::Folder(path) => path.as_str(),
            ProgramError::Clap(_)
            | ProgramError::Script(_)
            | ProgramError::ChartTooLarge
            | ProgramError::PageTooLarge
            | ProgramError::Io
            | ProgramError::OutOfMemory => "",
        }
    }

    // Writes the line with the reason.
    fn tell_why<C: Console>(&self, alloc: Global, console: &mut C, word: &str) -> Status
        ensures ends { EndsWith self.now result }
        ensures told { C.takes_all console.old → C.takes_all console.new × IfSome (first_line self.now word.now) (Appends (C.told console.old) (C.told console.new)) }
        ensures lost { C.has_lost console.old ≡ false → EndsByOutput self.now (C.has_lost console.new) result }
    {
        match self {
            ProgramError::Clap(error) => tell_clap(alloc, console, error),
            ProgramError::Usage(_) | ProgramError::OwnUsage(_) => {
                say(console, self, word);
                Status::BadUsage
            }
            ProgramError::Script(_) | ProgramError::ChartTooLarge | ProgramError::PageTooLarge => {
                say(console, self, word);
                Status::Refused
            }
            ProgramError::Unopened(_, _) | ProgramError::Folder(_) | ProgramError::Io => {
                say(console, self, word);
                Status::Failed
            }
            ProgramError::OutOfMemory => {
                say(console, self, word);
                Status::OutOfMemory
            }
        }
    }

    // Writes the second line, if the first doesn't say enough to a person.
    fn explain<C: Console>(&self, alloc: Global, console: &mut C, word: &str)
        ensures told { C.takes_all console.old → IfSome (second_line self.now word.now) (Appends (C.told console.old) (C.told console.new)) }
        ensures lost { C.has_lost console.new ≡ C.has_lost console.old }
    {
        if let ProgramError::Usage(UsageError::NoCommand) = self {
            return tell_help(alloc, console);
        }
        let refusal = self;
        console.tell(SecondLine { refusal, word });
    }
}

// Whether there is a second line: standard error is read by a person, or the environment asks for it.
fn is_explained<S: Environment>(system: &S, is_read: bool) -> bool
    ensures { IsExplained (S.tells_setting system.now) is_read result }
{
    let is_asked = asks_for_explanations(system);
    is_read || is_asked
}

impl From<ChoiceFault> for ProgramError {
    ghost from_gives = { λ fault made. made ≡ of_choice fault };

    fn from(fault: ChoiceFault) -> ProgramError {
        match fault {
            ChoiceFault::Refused(error) => ProgramError::Clap(error),
            ChoiceFault::OutOfMemory => ProgramError::OutOfMemory,
        }
    }
}

impl From<BenchFault> for ProgramError {
    ghost from_gives = { λ fault made. made ≡ of_bench fault };

    fn from(fault: BenchFault) -> ProgramError {
        match fault {
            BenchFault::Spacing => ProgramError::Usage(UsageError::Spacing),
            BenchFault::Script(fault) => ProgramError::Script(fault),
            BenchFault::Io => ProgramError::Io,
            BenchFault::OutOfMemory => ProgramError::OutOfMemory,
        }
    }
}

impl From<ScriptFault> for ProgramError {
    ghost from_gives = { λ fault made. made ≡ of_script fault };

    fn from(fault: ScriptFault) -> ProgramError {
        match fault {
            ScriptFault::OutOfMemory => ProgramError::OutOfMemory,
            fault => ProgramError::Script(fault),
        }
    }
}

impl From<ReadFault> for ProgramError {
    ghost from_gives = { λ fault made. made ≡ of_reading fault };

    fn from(fault: ReadFault) -> ProgramError {
        match fault {
            ReadFault::Io => ProgramError::Io,
            ReadFault::OutOfMemory => ProgramError::OutOfMemory,
        }
    }
}

impl From<io::Error> for ProgramError {
    ghost from_gives = { λ error made. made ≡ of_kind (error_kind error) };

    fn from(error: io::Error) -> ProgramError {
        of_kind(error.kind())
    }
}

fn of_kind(kind: io::ErrorKind) -> ProgramError
    ensures { result ≡ of_kind kind }
{
    match kind {
        io::ErrorKind::OutOfMemory => ProgramError::OutOfMemory,
        _ => ProgramError::Io,
    }
}

impl From<AllocError> for ProgramError {
    ghost from_gives = { λ _ made. made ≡ OutOfMemory };

    fn from(_error: AllocError) -> ProgramError {
        ProgramError::OutOfMemory
    }
}
