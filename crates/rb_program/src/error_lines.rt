//! The two lines on standard error of a program that ends early.

ghost use Rattle.std.specs.Prelude.{◌≡◌, IfSome};
ghost use Rattle.std.specs.Fmt.{WritesOnOk};
ghost use Rattle.std.specs.Io.KnownBytes.{Appends, Keeps};
ghost use Rattle.rb_report.specs.Refusals.{fault_line};
ghost use Rattle.rb_bench.specs.Names.{script_name};
ghost use Rattle.rb_program.specs.Sentences.{first_line, script_line, second_line};

use crate::console::Console;
use crate::program_error::ProgramError;
use crate::usage_error::UsageLine;
use rb_bench::script_fault_name;
use rb_report::check::fault_line;
use rb_script::ScriptFault;
use rb_view::chart::MAX_EVENTS;
use rb_view::steps::MAX_PAGE;
use std::fmt;
use std::fmt::Display;

/// The line with the reason; a usage error's word is shown so.
#[derive(Clone, Copy)]
pub(crate) struct FirstLine<'a> {
    pub(crate) refusal: &'a ProgramError,
    pub(crate) word: &'a str,
}

impl Display for FirstLine<'_> {
    ghost output = { λ line. first_line line.refusal.now line.word.now };

    fn fmt<W: fmt::Write>(&self, f: &mut fmt::Formatter<W>) -> fmt::Result {
        match self.refusal {
            ProgramError::Clap(_) => Ok(()),
            ProgramError::Usage(_) => f.write_str("raftbench: bad usage\n"),
            ProgramError::OwnUsage(misuse) => {
                let line = UsageLine {
                    misuse,
                    word: self.word,
                };
                write!(f, "raftbench: {line}")
            }
            ProgramError::Script(fault) => write_fault(f, *fault),
            ProgramError::ChartTooLarge => write!(
                f,
                "raftbench: a picture has room for {MAX_EVENTS} events: choose a part by --from and --until\n"
            ),
            ProgramError::PageTooLarge => write!(
                f,
                "raftbench: a page has room for {MAX_PAGE} bytes of rows: divide the script, or see a part of it by chart\n"
            ),
            ProgramError::Unopened(_, _) | ProgramError::Folder(_) | ProgramError::Io =>
                f.write_str("raftbench: input or output failed\n"),
            ProgramError::OutOfMemory => f.write_str("raftbench: out of memory\n"),
        }
    }
}

// Writes why a script is refused, and at which line.
fn write_fault<W: fmt::Write>(f: &mut fmt::Formatter<W>, fault: ScriptFault) -> fmt::Result
    ensures { WritesOnOk W.write_str_gives f.old result (script_line (script_name fault) (fault_line fault)) f.new }
{
    let name = script_fault_name(fault);
    match fault_line(fault) {
        Some(line) => write!(f, "raftbench: script refused: {name} at line {line}\n"),
        None => write!(f, "raftbench: script refused: {name}\n"),
    }
}

/// Writes the line with the reason, in which the word is shown so.
pub(crate) fn say<C: Console>(console: &mut C, refusal: &ProgramError, word: &str)
    ensures told { C.takes_all console.old → C.takes_all console.new × IfSome (first_line refusal.now word.now) (Appends (C.told console.old) (C.told console.new)) }
    ensures printed { Keeps (C.printed console.old) (C.printed console.new) }
    ensures lost { C.has_lost console.new ≡ C.has_lost console.old }
{
    console.tell(FirstLine { refusal, word });
}

/// The line that says more to a person, or nothing; a usage error's word, or a path, is shown so.
#[derive(Clone, Copy)]
pub(crate) struct SecondLine<'a> {
    pub(crate) refusal: &'a ProgramError,
    pub(crate) word: &'a str,
}

impl Display for SecondLine<'_> {
    ghost output = { λ line. second_line line.refusal.now line.word.now };

    fn fmt<W: fmt::Write>(&self, f: &mut fmt::Formatter<W>) -> fmt::Result {
        let word = self.word;
        match self.refusal {
            ProgramError::Usage(misuse) => {
                let line = UsageLine { misuse, word };
                write!(f, "{line}")
            }
            ProgramError::Unopened(_, error) => write!(f, "{word}: {error}\n"),
            ProgramError::Folder(_) => write!(
                f,
                "{word}: it is a folder, and not a script; raftbench check takes folders\n"
            ),
            ProgramError::Clap(_)
            | ProgramError::OwnUsage(_)
            | ProgramError::Script(_)
            | ProgramError::ChartTooLarge
            | ProgramError::PageTooLarge
            | ProgramError::Io
            | ProgramError::OutOfMemory => Ok(()),
        }
    }
}
