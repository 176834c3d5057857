//! Usage errors, each with a sentence.

ghost use Rattle.std.specs.Prelude.{◌≡◌, IfSome, Some, option_map, string_bytes};
ghost use Rattle.std.specs.Fmt.{WritesOnOk};
ghost use Rattle.rb_program.specs.Sentences.{misused_word, unknown_line, usage_line};
ghost use Rattle.rb_program.specs.Work.{IsOfEvery};

use crate::console::Console;
use rb_args::{ChoiceFault, chosen};
use std::alloc::Global;
use std::fmt;
use std::fmt::Display;

/// A usage error.
pub enum UsageError {
    /// An argument is no text.
    NoText,
    /// No subcommand is named.
    NoCommand,
    /// No FILE is named.
    NoFile,
    /// A session's FILE is standard input.
    Input,
    /// The value of `--every` is not one of its numbers.
    Every(String),
    /// The same, without the text.
    Spacing,
    /// The value of `--color` is not one of its values.
    Color(String),
    /// The value of `--format` is not one of its values.
    Format(String),
    /// `--review` needs a terminal to ask on.
    NoTerminal,
    /// The mismatches that `--review` asks about aren't shown.
    Unseen,
    /// The value of `--from` is not a line.
    From(String),
    /// The value of `--until` is not a line.
    Until(String),
    /// The argument of `look` doesn't name a directive of a file.
    Place(String),
    /// No directive has the name; and the one that is near it.
    Directive(String, Option<&'static str>),
}

// Written out, so that giving one back is a call wherever it is owned, and is proved here alone.
impl Drop for UsageError {
    fn drop(self) {
        match self {
            UsageError::NoText
            | UsageError::NoCommand
            | UsageError::NoFile
            | UsageError::Input
            | UsageError::Spacing
            | UsageError::NoTerminal
            | UsageError::Unseen => {}
            UsageError::Every(_)
            | UsageError::Color(_)
            | UsageError::Format(_)
            | UsageError::From(_)
            | UsageError::Until(_)
            | UsageError::Place(_)
            | UsageError::Directive(_, _) => {}
        }
    }
}

impl UsageError {
    /// The word that it is about; empty, if there is none.
    pub(crate) fn word(&self) -> &str
        ensures { result.now ≡ misused_word self.now }
    {
        match self {
            UsageError::NoText
            | UsageError::NoCommand
            | UsageError::NoFile
            | UsageError::Input
            | UsageError::Spacing
            | UsageError::NoTerminal
            | UsageError::Unseen => "",
            UsageError::Every(text) => text.as_str(),
            UsageError::Color(text) => text.as_str(),
            UsageError::Format(text) => text.as_str(),
            UsageError::From(text) => text.as_str(),
            UsageError::Until(text) => text.as_str(),
            UsageError::Place(text) => text.as_str(),
            UsageError::Directive(name, _) => name.as_str(),
        }
    }
}

/// The sentence of a usage error for a person, with its word as it is shown.
#[derive(Clone, Copy)]
pub(crate) struct UsageLine<'a> {
    pub(crate) misuse: &'a UsageError,
    pub(crate) word: &'a str,
}

impl Display for UsageLine<'_> {
    ghost output = { λ line. usage_line line.misuse.now line.word.now };

    fn fmt<W: fmt::Write>(&self, f: &mut fmt::Formatter<W>) -> fmt::Result {
        let word = self.word;
        match self.misuse {
            UsageError::NoText => f.write_str("the words are to be UTF-8\n"),
            UsageError::NoCommand => Ok(()),
            UsageError::NoFile => f.write_str("FILE is missing: the file of a script\n"),
            UsageError::Input => f.write_str(
                "-: a session's commands come from standard input, so its script stands in a file\n",
            ),
            UsageError::Every(_) => write!(f, "--every {word}: a number from 1 to 64\n"),
            UsageError::Spacing => f.write_str("--every: a number from 1 to 64\n"),
            UsageError::Color(_) => write!(f, "--color {word}: auto, always or never\n"),
            UsageError::Format(_) => write!(f, "--format {word}: text, json, github or junit\n"),
            UsageError::NoTerminal => f.write_str(
                "--review: it asks on a terminal, and standard input or output is none\n",
            ),
            UsageError::Unseen => f.write_str(
                "--review: it shows what it asks about, so it goes with neither --quiet nor --format\n",
            ),
            UsageError::From(_) => write!(f, "--from {word}: the line of a directive\n"),
            UsageError::Until(_) => write!(f, "--until {word}: the line of a directive\n"),
            UsageError::Place(_) => write!(
                f,
                "{word}: FILE:LINE, where a directive stands at the line or above it\n"
            ),
            UsageError::Directive(_, meant) => write_unknown(f, word, *meant),
        }
    }
}

// Writes that no directive has this name, and which one may be meant.
fn write_unknown<W: fmt::Write>(
    f: &mut fmt::Formatter<W>,
    name: &str,
    meant: Option<&'static str>,
) -> fmt::Result
    ensures { WritesOnOk W.write_str_gives f.old result (unknown_line name.now (option_map (λ m. m.now) meant.entry)) f.new }
{
    match meant {
        Some(meant) => write!(f, "no directive is called {name}; did you mean {meant}?\n"),
        None => write!(
            f,
            "no directive is called {name}; raftbench directives shows those that there are\n"
        ),
    }
}

/// What is wrong with the text of `--every`, where it isn't one that a session takes.
pub(crate) fn usage_error_of_every(alloc: Global, every: Option<&str>) -> UsageError
    ensures { IsOfEvery (option_map (λ word. word.now) every.entry) result }
{
    match misused(alloc, every) {
        Some(text) => UsageError::Every(text),
        None => UsageError::Spacing,
    }
}

/// The text, if it is given and there is memory for it.
pub(crate) fn misused(alloc: Global, word: Option<&str>) -> Option<String>
    ensures { IfSome result (λ text. option_map (λ word. word.now) word.entry ≡ Some (string_bytes text)) }
{
    match String::from_str(alloc, word?) {
        Ok(text) => Some(text),
        Err(_) => None,
    }
}

/// Writes the help of the whole program on standard error.
pub(crate) fn tell_help<C: Console>(alloc: Global, console: &mut C)
    ensures takes { C.takes_all console.old → C.takes_all console.new }
    ensures lost { C.has_lost console.new ≡ C.has_lost console.old }
{
    if let Some(help) = help(alloc) {
        console.tell(help);
    }
}

fn help(alloc: Global) -> Option<clap::Error> {
    match chosen(alloc, &["raftbench", "--help"]) {
        Err(ChoiceFault::Refused(help)) => Some(help),
        _ => None,
    }
}
