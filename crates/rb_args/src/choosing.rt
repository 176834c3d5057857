//! Choosing by `clap`.

ghost use Rattle.std.specs.Prelude.{◌≡◌, [], Some, None, IfOk, IfErr, map, true, option_map, string_bytes, unwrap_or};
ghost use Rattle.clap.specs.Words.{all_of, fault_of, first_of, found_of, rows_of, subcommand_of, subcommand_rows_of, takes};
ghost use Rattle.rb_args.specs.CommandLine.{command_line};
ghost use Rattle.rb_args.specs.Chosen.{IsCheckOf, IsChoiceOf, IsRefusal, RefusedFor, is_set, named_by, of_one_script, of_one_view};

use crate::commands::raftbench_command;
use crate::{CheckChoice, ChoiceFault, CommandChoice, ScriptCommand, Subcommand};
use clap::error::ErrorKind;
use clap::{ArgMatches, Error};
use std::alloc::{AllocError, Global};
use std::convert::AsStr;

/// What the arguments of a command line choose, the program's name first.
///
/// # Errors
///
/// `Refused` with `clap`'s error where it refuses the arguments, and where they ask for help. `OutOfMemory` where
/// memory was refused, to `clap` too.
pub fn chosen<S: AsStr>(alloc: Global, words: &[S]) -> Result<CommandChoice, ChoiceFault>
    // Only arguments without a fault have a choice, and it is that of their matches.
    ensures ok { IfOk result (λ choice. (fault_of command_line (map S.text words.now) ≡ [])
        × IsChoiceOf (subcommand_of command_line (map S.text words.now)) choice) }
    ensures refused { IfErr result (RefusedFor (fault_of command_line (map S.text words.now))) }
    // Arguments that the command line takes are refused for want of memory alone.
    ensures taken { takes command_line (map S.text words.now) ≡ true
        → IfErr result (λ fault. fault ≡ ChoiceFault.OutOfMemory) }
{
    let Ok(command) = raftbench_command(alloc) else {
        return Err(ChoiceFault::OutOfMemory);
    };
    let matches = match command.try_get_matches_from(words) {
        Ok(matches) => matches,
        Err(error) => return Err(refusal(error)),
    };
    match choice_of(alloc, &matches) {
        Ok(choice) => Ok(choice),
        Err(_) => Err(ChoiceFault::OutOfMemory),
    }
}

fn refusal(error: Error) -> ChoiceFault
    ensures { IsRefusal error result }
{
    if error.kind() == ErrorKind::OutOfMemory {
        ChoiceFault::OutOfMemory
    } else {
        ChoiceFault::Refused(error)
    }
}

fn choice_of(alloc: Global, matches: &ArgMatches<'_>) -> Result<CommandChoice, AllocError>
    ensures { IfOk result (IsChoiceOf (subcommand_rows_of matches.now)) }
{
    let Some((name, inner)) = matches.subcommand() else {
        return Ok(no_choice(alloc));
    };
    given(alloc, name, inner)
}

fn no_choice(alloc: Global) -> CommandChoice
    ensures { IsChoiceOf None result }
{
    let check = CheckChoice {
        paths: Vec::new(alloc),
        filters: Vec::new(alloc),
        color: None,
        format: None,
        pages: None,
        accepts: false,
        accepts_errors: false,
        is_forced: false,
        reviews: false,
        is_verbose: false,
        is_first: false,
        is_brief: false,
        is_quiet: false,
        explains: false,
        is_strict: false,
    };
    CommandChoice {
        subcommand: None,
        file: None,
        name: None,
        every: None,
        from: None,
        until: None,
        out: None,
        warns: false,
        check,
    }
}

// What the subcommand of this name is given.
fn given(alloc: Global, name: &str, inner: &ArgMatches<'_>) -> Result<CommandChoice, AllocError>
    ensures { IfOk result (IsChoiceOf (Some (name.now, rows_of (found_of inner.now)))) }
{
    let check = check_choice(alloc, inner)?;
    let mut choice = CommandChoice {
        subcommand: named_by(name),
        file: None,
        name: None,
        every: None,
        from: None,
        until: None,
        out: None,
        warns: is_given(inner, "warn"),
        check,
    };
    choice.file = text_of(alloc, inner, "file")?;
    choice.name = text_of(alloc, inner, "name")?;
    choice.every = text_of(alloc, inner, "every")?;
    choice.from = text_of(alloc, inner, "from")?;
    choice.until = text_of(alloc, inner, "until")?;
    choice.out = text_of(alloc, inner, "out")?;
    Ok(choice)
}

fn check_choice(alloc: Global, inner: &ArgMatches<'_>) -> Result<CheckChoice, AllocError>
    ensures { IfOk result (IsCheckOf (Some (rows_of (found_of inner.now)))) }
{
    let mut check = CheckChoice {
        paths: Vec::new(alloc),
        filters: Vec::new(alloc),
        color: None,
        format: None,
        pages: None,
        accepts: is_given(inner, "accept"),
        accepts_errors: is_given(inner, "accept-errors"),
        is_forced: is_given(inner, "force"),
        reviews: is_given(inner, "review"),
        is_verbose: is_given(inner, "verbose"),
        is_first: is_given(inner, "first"),
        is_brief: is_given(inner, "brief"),
        is_quiet: is_given(inner, "quiet"),
        explains: is_given(inner, "why"),
        is_strict: is_given(inner, "strict"),
    };
    check.paths = texts_of(alloc, inner, "path")?;
    check.filters = texts_of(alloc, inner, "filter")?;
    check.color = text_of(alloc, inner, "color")?;
    check.format = text_of(alloc, inner, "format")?;
    check.pages = text_of(alloc, inner, "pages")?;
    Ok(check)
}

// The subcommand of this name.
fn named_by(name: &str) -> Option<Subcommand>
    ensures { result ≡ named_by name.now }
{
    if name == "check" {
        Some(Subcommand::Check)
    } else if name == "directives" {
        Some(Subcommand::Directives)
    } else if name == "lsp" {
        Some(Subcommand::Lsp)
    } else {
        Some(Subcommand::Script(of_one_script(name)?))
    }
}

// What the subcommand of this name does with one script.
fn of_one_script(name: &str) -> Option<ScriptCommand>
    ensures { result ≡ of_one_script name.now }
{
    if name == "run" {
        Some(ScriptCommand::Run)
    } else if name == "rewrite" {
        Some(ScriptCommand::Rewrite)
    } else if name == "session" {
        Some(ScriptCommand::Session)
    } else {
        of_one_view(name)
    }
}

// The same, where it shows what a script does.
fn of_one_view(name: &str) -> Option<ScriptCommand>
    ensures { result ≡ of_one_view name.now }
{
    if name == "look" {
        Some(ScriptCommand::Look)
    } else if name == "page" {
        Some(ScriptCommand::Page)
    } else if name == "chart" {
        Some(ScriptCommand::Chart)
    } else if name == "trace" {
        Some(ScriptCommand::Trace)
    } else {
        None
    }
}

// The first value of an argument.
#[tactic(auto, using(crate::proofs::ChoiceLaws::first_in_rows))]
fn text_of(alloc: Global, inner: &ArgMatches<'_>, id: &str) -> Result<Option<String>, AllocError>
    ensures { IfOk result (λ text. option_map string_bytes text ≡ first_of id.now (rows_of (found_of inner.now))) }
{
    match inner.get_str(id) {
        Some(text) => Ok(Some(String::from_str(alloc, text)?)),
        None => Ok(None),
    }
}

// All values of an argument.
#[tactic(auto, using(crate::proofs::ChoiceLaws::all_in_rows))]
fn texts_of(alloc: Global, inner: &ArgMatches<'_>, id: &str) -> Result<Vec<String>, AllocError>
    ensures { IfOk result (λ all. map string_bytes all.items ≡ unwrap_or (all_of id.now (rows_of (found_of inner.now))) []) }
{
    match inner.get_strs(id) {
        Some(texts) => owned(alloc, texts),
        None => Ok(Vec::new(alloc)),
    }
}

fn owned(alloc: Global, texts: &[&str]) -> Result<Vec<String>, AllocError>
    ensures { IfOk result (λ all. map string_bytes all.items ≡ map (λ t. t.now) texts.now) }
{
    let mut all = Vec::new(alloc);
    for text in texts {
        all.push(String::from_str(alloc, text)?)?;
    }
    Ok(all)
}

// Whether a flag is given. clap gives each flag of a subcommand a text, of which one is that it is given.
#[tactic(auto, using(crate::proofs::ChoiceLaws::first_in_rows))]
fn is_given(inner: &ArgMatches<'_>, id: &str) -> bool
    ensures { result ≡ is_set (first_of id.now (rows_of (found_of inner.now))) }
{
    match inner.get_str(id) {
        Some(text) => text == "true",
        None => false,
    }
}
