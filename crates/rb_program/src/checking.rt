//! `raftbench check PATH..`: scripts and folders of scripts.

ghost use Rattle.std.specs.Prelude.{◌≡◌, ◌≢◌, IfOk, IsOk, MatchOption, Err, None, Some, option_map, string_bytes};
ghost use Rattle.rb_program.specs.Checks.{IsAskedBy, IsCheckOf, wants_progress};
ghost use Rattle.rb_program.specs.Choices.{accepts, color_choice_of, review_fault, shown_of, style_of};

use crate::colors::{ColorChoice, color_choice_of, colors};
use crate::environment::{Environment, gives_keys};
use crate::path_kind::PathKinds;
use crate::program_error::ProgramError;
use crate::progress::TerminalProgress;
use crate::style::{Style, style_of};
use crate::target::targets;
use crate::usage_error::{UsageError, misused};
use rb_args::CheckChoice;
use rb_bench::Runner;
use rb_check::{CheckRequest, Target, check};
use rb_report::check::{Colors, Status};
use rb_script_report::Detail;
use std::alloc::Global;
use std::io::Write;
use std::rt::Files;
use std::time::Clock;

/// Which of the streams are terminals.
#[derive(Clone, Copy)]
pub struct Terminals {
    pub input: bool,
    pub output: bool,
    pub errors: bool,
}

/// Checks scripts and folders of scripts.
///
/// # Errors
///
/// If the arguments are wrong, or memory was refused at the beginning.
pub fn check_all<
    R: Files + Input + Print + Eprint + Clock + AllocGlobal + Environment + PathKinds,
    E: Write + Drop,
>(rt: &R, choice: &CheckChoice, errors: E, terminals: Terminals) -> Result<Status, ProgramError>
    // Wrong arguments are a usage error.
    ensures right { IfOk result (λ status. status ≢ Status.BadUsage) }
    // The check is that of the options, and of what the system tells.
    ensures asked { IfOk result (λ status. IsCheckOf (R.tells_kind rt.now) (R.tells_setting rt.now) choice.now terminals status) }
{
    let (color, style) = colors_and_style(rt.alloc(), choice, terminals)?;
    let words = choice.paths.as_slice();
    let targets = targets(rt.alloc(), rt, words)?;
    let named = targets.as_slice();
    let colors = colors(rt, color, terminals.output);
    let wanted = wants_progress(choice, terminals);
    let progress = TerminalProgress::new(rt, wanted);
    let keys = gives_keys(rt);
    let is_told = progress.is_wanted();
    let asked = request(choice, named, style, colors, is_told, keys);
    let mut runner = Runner::new(rt.alloc(), &progress);
    Ok(check(rt, &mut runner, asked, errors)?)
}

// What the command line asks for.
fn request<'a>(
    choice: &'a CheckChoice,
    targets: &'a [Target],
    style: Style,
    colors: Colors,
    wants_progress: bool,
    gives_keys: bool,
) -> CheckRequest<'a>
    ensures asked { IsAskedBy choice.now style colors wants_progress result }
    ensures keys { result.gives_keys ≡ gives_keys }
    ensures targets { result.targets.now ≡ targets.now }
    ensures filters { result.filters.now ≡ choice.now.filters.items }
{
    CheckRequest {
        targets,
        filters: &choice.filters,
        accepts: accepts(choice),
        accepts_errors: choice.accepts_errors,
        is_forced: choice.is_forced,
        reviews: choice.reviews,
        gives_keys,
        is_quiet: choice.is_quiet,
        explains: choice.explains && !choice.is_quiet,
        is_strict: choice.is_strict,
        shown: shown(choice, style),
        format: style.format(),
        colors,
        wants_progress,
    }
}

// Whether it is shown how far the check is.
fn wants_progress(choice: &CheckChoice, terminals: Terminals) -> bool
    ensures { result ≡ wants_progress choice.now terminals }
{
    terminals.errors && !choice.reviews
}

fn accepts(choice: &CheckChoice) -> bool
    ensures { result ≡ accepts choice.now }
{
    choice.accepts || choice.accepts_errors || choice.reviews
}

// The form of the report. The other options are checked too.
fn colors_and_style(
    alloc: Global,
    choice: &CheckChoice,
    terminals: Terminals,
) -> Result<(ColorChoice, Style), ProgramError>
    ensures { IfOk result (λ form. (color_choice_of (option_map string_bytes choice.now.color) ≡ Some form.0) × (style_of (option_map string_bytes choice.now.format) ≡ Some form.1) × (review_fault choice.now form.1 terminals ≡ None)) }
{
    let color = color_choice_asked(alloc, choice)?;
    let style = style_asked(alloc, choice)?;
    check_review(choice, style, terminals)?;
    Ok((color, style))
}

fn color_choice_asked(alloc: Global, choice: &CheckChoice) -> Result<ColorChoice, ProgramError>
    ensures { IfOk result (λ color. color_choice_of (option_map string_bytes choice.now.color) ≡ Some color) }
{
    match color_choice_of(choice.color.as_deref()) {
        Some(color) => Ok(color),
        None => match misused(alloc, choice.color.as_deref()) {
            Some(text) => Err(ProgramError::OwnUsage(UsageError::Color(text))),
            None => Err(ProgramError::OutOfMemory),
        },
    }
}

fn style_asked(alloc: Global, choice: &CheckChoice) -> Result<Style, ProgramError>
    ensures { IfOk result (λ style. style_of (option_map string_bytes choice.now.format) ≡ Some style) }
{
    match style_of(choice.format.as_deref()) {
        Some(style) => Ok(style),
        None => match misused(alloc, choice.format.as_deref()) {
            Some(text) => Err(ProgramError::OwnUsage(UsageError::Format(text))),
            None => Err(ProgramError::OutOfMemory),
        },
    }
}

// Whether there is a terminal to ask on, and the question is shown on it.
fn check_review(
    choice: &CheckChoice,
    style: Style,
    terminals: Terminals,
) -> Result<(), ProgramError>
    ensures { MatchOption (review_fault choice.now style terminals) (IsOk result) (λ misuse. result ≡ Err (ProgramError.OwnUsage misuse)) }
{
    if !choice.reviews {
        Ok(())
    } else if choice.is_quiet || !style.is_text() {
        Err(ProgramError::OwnUsage(UsageError::Unseen))
    } else if terminals.input && terminals.output {
        Ok(())
    } else {
        Err(ProgramError::OwnUsage(UsageError::NoTerminal))
    }
}

// How much of each script is shown; the least of what is asked for. Programs are told what differs, and no less;
// where each mismatch is shown to be asked about, a line is before those of a script.
fn shown(choice: &CheckChoice, style: Style) -> Detail
    ensures { result ≡ shown_of choice.now style }
{
    if !style.is_text() {
        Detail::Differing
    } else if choice.is_brief || choice.reviews {
        Detail::Brief
    } else if choice.is_first {
        Detail::First
    } else if choice.is_verbose {
        Detail::All
    } else {
        Detail::Differing
    }
}
