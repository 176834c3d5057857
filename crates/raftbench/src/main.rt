//! The program: its arguments are read, and what they ask for is done, or it says why it isn't. The streams are the process's own.
#![tactic(auto)]

mod editing;
mod pages;

use crate::editing::serve_editor;
use crate::pages::{with_pages, write_pages};
use rb_args::{CommandChoice, ScriptCommand, Subcommand};
use rb_program::{
    ProgramError, RuntimeConsole, Terminals, UsageError, carry_out, check_all, choice_by,
    show_directives,
};
use rb_report::check::Status;
use std::io::{IsTerminal, Write};
use std::process::ExitCode;
use std::rt::{Env, Files};
use std::time::Clock;
use std::{env, io};

fn main(rt: HostRuntime) -> ExitCode {
    let errors = rt.stderr();
    let terminals = Terminals {
        input: rt.stdin().is_terminal(),
        output: rt.stdout().is_terminal(),
        errors: errors.is_terminal(),
    };
    let code = match answered(&rt, errors, terminals) {
        Ok(code) => code,
        Err(refusal) => {
            let mut console = RuntimeConsole::new(&rt);
            u8::from(refusal.tell(rt.alloc(), &mut console, &rt, terminals.errors))
        }
    };
    ExitCode::from(code)
}

fn answered<R: Files + Input + Print + Eprint + Env + Clock + AllocGlobal, E: Write + Drop>(
    rt: &R,
    errors: E,
    terminals: Terminals,
) -> Result<u8, ProgramError> {
    let choice = choose(rt)?;
    match choice.subcommand {
        Some(Subcommand::Check) => {
            let ended = check_all(rt, &choice.check, errors, terminals);
            exit_code_of(with_pages(rt, &choice.check, ended))
        }
        Some(Subcommand::Script(ScriptCommand::Page)) if choice.out.is_some() => exit_code_of(
            write_pages(rt, &choice),
        ),
        Some(Subcommand::Directives) => exit_code_of(show_directives(rt, choice.name.as_deref())),
        Some(Subcommand::Lsp) => serve_editor(rt),
        Some(Subcommand::Script(command)) => exit_code_of(carry_out(
            rt, command, &choice, errors, terminals,
        )),
        None => Err(ProgramError::Usage(UsageError::NoCommand)),
    }
}

fn exit_code_of(ended: Result<Status, ProgramError>) -> Result<u8, ProgramError> {
    match ended {
        Ok(status) => Ok(u8::from(status)),
        Err(refusal) => Err(refusal),
    }
}

fn choose<R: Env + AllocGlobal>(rt: &R) -> Result<CommandChoice, ProgramError> {
    let words: Vec<String> = match env::args(rt) {
        Ok(args) => args.collect(rt.alloc())?,
        Err(error) if error.kind() == io::ErrorKind::InvalidData => {
            return Err(ProgramError::Usage(UsageError::NoText));
        }
        Err(error) => return Err(ProgramError::from(error)),
    };
    choice_by(rt.alloc(), words.as_slice())
}
