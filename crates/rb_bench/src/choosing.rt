//! The choices of a run or a session: a subset of those of [`rb_args::chosen`].

ghost use Rattle.std.specs.Prelude.{◌≡◌, [], IfOk, IfErr, map, true};
ghost use Rattle.clap.specs.Words.{fault_of, subcommand_of, takes};
ghost use Rattle.rb_args.specs.CommandLine.{command_line};
ghost use Rattle.rb_args.specs.Chosen.{RefusedFor};
ghost use Rattle.rb_bench.specs.Chosen.{IsChosen};

use rb_args::{ChoiceFault, Subcommand};
use std::alloc::Global;
use std::convert::AsStr;

/// The choices of a run or a session. Arguments that aren't given are `None`.
#[derive(Drop)]
pub struct Choice {
    /// The subcommand.
    pub mode: Option<Subcommand>,
    /// Its FILE, as it was given.
    pub file: Option<String>,
    /// The text of its `--every`, as it was given.
    pub every: Option<String>,
}

/// Reads the arguments of a command line, which begin with the program's name.
///
/// # Errors
///
/// Those of [`rb_args::chosen`].
pub fn chosen<S: AsStr>(alloc: Global, words: &[S]) -> Result<Choice, ChoiceFault>
    ensures ok { IfOk result (λ choice. (fault_of command_line (map S.text words.now) ≡ [])
        × IsChosen (subcommand_of command_line (map S.text words.now)) choice) }
    ensures refused { IfErr result (RefusedFor (fault_of command_line (map S.text words.now))) }
    ensures taken { takes command_line (map S.text words.now) ≡ true
        → IfErr result (λ fault. fault ≡ ChoiceFault.OutOfMemory) }
{
    let (mode, file, every) = rb_args::chosen(alloc, words)?.into_run();
    Ok(Choice { mode, file, every })
}
