//! The arguments of the command line, as clap reads them.

ghost use Rattle.std.specs.Prelude.{◌≡◌, IfErr, IfOk, map, string_bytes};
ghost use Rattle.clap.specs.Words.{subcommand_of};
ghost use Rattle.rb_args.specs.CommandLine.{command_line};
ghost use Rattle.rb_args.specs.Chosen.{IsChoiceOf};
ghost use Rattle.rb_report.specs.Names.{shown_name};
ghost use Rattle.rb_program.specs.Arguments.{IsRefusedAs};

use crate::program_error::ProgramError;
use crate::shown::shown_word;
use crate::usage_error::UsageError;
use rb_args::{ChoiceFault, CommandChoice, chosen};
use std::alloc::{AllocError, Global};

/// What the arguments choose, the program's name first.
///
/// # Errors
///
/// Why they choose nothing. The text of clap's error has the arguments as they are shown, so nothing of one ends a line or acts.
pub fn choice_by(alloc: Global, words: &[String]) -> Result<CommandChoice, ProgramError>
    ensures chosen { IfOk result (IsChoiceOf (subcommand_of command_line (map string_bytes words.now))) }
    ensures refused { IfErr result (IsRefusedAs (map (λ word. shown_name (string_bytes word)) words.now)) }
{
    match chosen(alloc, words) {
        Ok(choice) => Ok(choice),
        Err(ChoiceFault::OutOfMemory) => Err(ProgramError::OutOfMemory),
        Err(ChoiceFault::Refused(_)) => Err(refused(alloc, words)),
    }
}

// Why clap refuses the arguments. It reads what is shown of them, which it refuses as well: an argument that acts is no name or value of its.
fn refused(alloc: Global, words: &[String]) -> ProgramError
    ensures { IsRefusedAs (map (λ word. shown_name (string_bytes word)) words.now) result }
{
    let Ok(shown) = shown_words(alloc, words) else {
        return ProgramError::OutOfMemory;
    };
    match chosen(alloc, shown.as_slice()) {
        Ok(_) => ProgramError::Usage(UsageError::NoText),
        Err(ChoiceFault::OutOfMemory) => ProgramError::OutOfMemory,
        Err(ChoiceFault::Refused(error)) => ProgramError::Clap(error),
    }
}

fn shown_words(alloc: Global, words: &[String]) -> Result<Vec<String>, AllocError>
    ensures { IfOk result (λ shown. map string_bytes shown.items ≡ map (λ word. shown_name (string_bytes word)) words.now) }
{
    let mut shown = Vec::new(alloc);
    for word in words {
        shown.push(shown_word(alloc, word.as_str())?)?;
    }
    Ok(shown)
}
