//! The command line, made for `clap` of its table.

ghost use Rattle.std.specs.Prelude.{◌≡◌, IfOk, codes, false, fold};
ghost use Rattle.clap.specs.Words.{App, app_of, new_app, rule_of, with_rule, with_subcommand};
ghost use Rattle.clap.specs.declared.builder.command.Command.TheViews.{out-Command};
ghost use Rattle.rb_args.specs.CommandLine.{IsMade, command_line, line_of, rule_of_row, with_version, flag_rule, option_rule, value_rule};

use crate::table::{ArgumentForm, ArgumentRow, LINES, Line};
use clap::{Arg, ArgAction, Command};
use std::alloc::{AllocError, Global};

/// What `--version` shows after the program's name: its version, and the toolchain that it was proved with.
pub const VERSION: &str = "0.2.0, proved with rattle-kit-13f logic dac8208d650f15bf";

// A command, where there was memory for it.
type Made<'a> = Result<Command<'a>, AllocError>;

// raftbench, with its subcommands.
pub(crate) fn raftbench_command<'a>(alloc: Global) -> Made<'a>
    ensures { IfOk result (λ command. app_of command ≡ command_line) }
{
    with_parts(Ok(bare_command(alloc)), alloc, &LINES)
}

// raftbench, without a subcommand.
fn bare_command<'a>(alloc: Global) -> Command<'a>
    ensures app { app_of result ≡ with_version (new_app (codes "raftbench")) }
    ensures local { (out-Command result).has_globals ≡ false }
{
    described(
        alloc,
        "raftbench",
        "Runs scripts of Raft directives on a cluster in memory, and shows where their outputs differ",
    )
    .version(VERSION)
}

fn described<'a>(alloc: Global, name: &'a str, about: &'a str) -> Command<'a>
    ensures app { app_of result ≡ new_app name.entry.now }
    ensures local { (out-Command result).has_globals ≡ false }
{
    Command::new(alloc, name).about(about)
}

// What a command takes: a subcommand, or an argument.
trait CommandLinePart: Copy {
    // the command line with it
    ghost added: { App → Self → App };

    // The command with it.
    fn added<'a>(self, alloc: Global, command: Command<'a>) -> Made<'a>
        ensures { (out-Command command.entry).has_globals ≡ false → IsMade result (added (app_of command.entry) self) };
}

impl CommandLinePart for Line {
    ghost added = { λ app line. with_subcommand app (line_of line).top };

    fn added<'a>(self, alloc: Global, command: Command<'a>) -> Made<'a> {
        with_made(command, line_command(alloc, self))
    }
}

impl CommandLinePart for ArgumentRow {
    ghost added = { λ app row. with_rule app (rule_of_row row) };

    fn added<'a>(self, alloc: Global, command: Command<'a>) -> Made<'a> {
        command.arg(argument(alloc, self))
    }
}

// These parts more.
fn with_parts<'a, P: CommandLinePart>(command: Made<'a>, alloc: Global, parts: &[P]) -> Made<'a>
    ensures { (app : App) → IsMade command.entry app → IsMade result (fold P.added app parts.now) }
{
    let mut made = command;
    for part in parts {
        made = with_part(made, alloc, *part);
    }
    made
}

// One part more. It is made only where there was memory so far, so nothing of it is given back.
fn with_part<'a, P: CommandLinePart>(command: Made<'a>, alloc: Global, part: P) -> Made<'a>
    ensures { (app : App) → IsMade command.entry app → IsMade result (P.added app part) }
{
    let command = command?;
    part.added(alloc, command)
}

fn with_made<'a>(command: Command<'a>, one: Made<'a>) -> Made<'a>
    ensures { (sub : App) → (out-Command command.entry).has_globals ≡ false → IsMade one.entry sub → IsMade result (with_subcommand (app_of command.entry) sub.top) }
{
    let one = one?;
    command.subcommand(one)
}

// The subcommand of the line.
fn line_command<'a>(alloc: Global, line: Line) -> Made<'a>
    ensures { IsMade result (line_of line) }
{
    with_parts(Ok(helped_command(alloc, line)), alloc, line.rows)
}

// The subcommand of the line, without an argument.
fn helped_command<'a>(alloc: Global, line: Line) -> Command<'a>
    ensures app { app_of result ≡ new_app line.name.now }
    ensures local { (out-Command result).has_globals ≡ false }
{
    let command = described(alloc, line.name, line.about);
    if line.usage.is_empty() {
        command
    } else {
        command.override_usage(line.usage).after_help(line.after)
    }
}

// The argument of the row.
fn argument<'a>(alloc: Global, row: ArgumentRow) -> Arg<'a>
    ensures rule { rule_of result ≡ rule_of_row row }
    ensures local { result.global ≡ false }
{
    match row.form {
        ArgumentForm::File => value_argument(alloc, row.name, "FILE").hide(true),
        ArgumentForm::Name => value_argument(alloc, row.name, "NAME").help(row.help),
        ArgumentForm::Paths => value_argument(alloc, row.name, "PATH")
            .required(true)
            .action(ArgAction::Append)
            .help(row.help),
        ArgumentForm::Value(value) => option_argument(alloc, row, value),
        ArgumentForm::Values(value) => option_argument(alloc, row, value).action(ArgAction::Append),
        ArgumentForm::Flag => flag_argument(alloc, row),
        ArgumentForm::Letter(letter) => flag_argument(alloc, row).short(letter),
    }
}

// A value that stands by itself.
fn value_argument<'a>(alloc: Global, name: &'a str, value: &'a str) -> Arg<'a>
    ensures rule { rule_of result ≡ value_rule name.entry.now }
    ensures local { result.global ≡ false }
{
    Arg::new(alloc, name).value_name(value)
}

// --NAME VALUE
fn option_argument<'a>(alloc: Global, row: ArgumentRow, value: &'a str) -> Arg<'a>
    ensures rule { rule_of result ≡ option_rule row.name.now }
    ensures local { result.global ≡ false }
{
    value_argument(alloc, row.name, value)
        .long(row.name)
        .help(row.help)
        .hide(row.help.is_empty())
}

// --NAME
fn flag_argument<'a>(alloc: Global, row: ArgumentRow) -> Arg<'a>
    ensures rule { rule_of result ≡ flag_rule row.name.now }
    ensures local { result.global ≡ false }
{
    Arg::new(alloc, row.name)
        .long(row.name)
        .action(ArgAction::SetTrue)
        .help(row.help)
}
