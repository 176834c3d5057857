//! Help, and what is wrong with the arguments, in clap's words.

ghost use Rattle.std.specs.Prelude.{◌≡◌, ◌||◌, not, IfOk, IfSome, IsTrue, false, string_bytes};
ghost use Rattle.std.specs.Io.KnownBytes.{Appends, Keeps};
ghost use Rattle.clap.specs.Values.{kind_of};
ghost use Rattle.rb_program.specs.Refusals.{EndsByKind, status_by_kind};
ghost use Rattle.rb_program.specs.Told.{IsMistake, IsOutputShown, TellsText};

use crate::console::Console;
use crate::error_lines::say;
use crate::program_error::ProgramError;
use crate::shown::shown_text;
use clap::error::ErrorKind;
use rb_report::check::Status;
use std::alloc::{AllocError, Global};
use std::fmt::Display;

/// Help was asked for, and goes to standard output: if that fails, what was asked for wasn't done. What is wrong with the arguments goes to
/// standard error, and they are wrong whether or not it gets there.
pub(crate) fn tell_clap<C: Console>(alloc: Global, console: &mut C, error: &clap::Error) -> Status
    ensures ends { EndsByKind (kind_of error.now) result }
    ensures lost { C.has_lost console.old ≡ false → result ≡ status_by_kind (kind_of error.now) (not (C.has_lost console.new)) }
    ensures mistake { IsMistake (kind_of error.now) → Keeps (C.printed console.old) (C.printed console.new) }
    ensures takes { C.takes_all console.old → C.takes_all console.new }
{
    let went_out = if error.use_stderr() {
        tell_mistake(alloc, console, error);
        true
    } else {
        print_help(console, error)
    };
    status_by_kind(error.kind(), went_out)
}

// Writes a text on standard error. No byte of an argument in it acts, unless memory was refused.
fn tell_mistake<C: Console, D: Display>(alloc: Global, console: &mut C, text: &D)
    ensures told { C.takes_all console.old → C.takes_all console.new × IfSome (D.output text.now) (λ bytes. TellsText bytes (C.told console.old) (C.told console.new)) }
    ensures printed { Keeps (C.printed console.old) (C.printed console.new) }
    ensures lost { C.has_lost console.new ≡ C.has_lost console.old }
{
    match shown(alloc, text) {
        Ok(shown) => console.tell(shown),
        Err(_) => console.tell(text),
    }
}

// A text for a terminal.
fn shown<D: Display>(alloc: Global, text: &D) -> Result<String, AllocError>
    ensures { IfOk result (λ shown. IsOutputShown (D.output text.now) (string_bytes shown)) }
{
    let text = text.to_string(alloc)?;
    shown_text(alloc, text.as_str())
}

// Writes a text on standard output, and returns whether it went out.
fn print_help<C: Console, D: Display>(console: &mut C, help: &D) -> bool
    ensures printed { C.takes_all console.old → C.takes_all console.new × IsTrue result × IfSome (D.output help.now) (Appends (C.printed console.old) (C.printed console.new)) }
    ensures told { IsTrue result → Keeps (C.told console.old) (C.told console.new) }
    ensures lost { C.has_lost console.new ≡ C.has_lost console.old || not result }
{
    let went_out = console.print(help);
    if !went_out {
        say(console, &ProgramError::Io, "");
    }
    went_out
}

// The status of a text of clap's that went out, or did not.
fn status_by_kind(kind: ErrorKind, went_out: bool) -> Status
    ensures { result ≡ status_by_kind kind went_out }
{
    match kind {
        ErrorKind::DisplayHelp | ErrorKind::DisplayVersion if went_out => Status::Matched,
        ErrorKind::DisplayHelp | ErrorKind::DisplayVersion => Status::Failed,
        _ => Status::BadUsage,
    }
}
