//! The commands of a session.

ghost use Rattle.std.specs.Prelude.{◌≡◌, ◌≢◌};
ghost use Rattle.std.specs.Str.{bytes_eq};
ghost use Rattle.rb_text.specs.Numbers.{number_of};
ghost use Rattle.rb_text.specs.Words.{words};
ghost use Rattle.rb_bench.specs.Spelling.{Spells};
ghost use Rattle.rb_bench.specs.declared.command.Command.{Command};
ghost use Rattle.rb_bench.specs.Commands.{command_of, alone, placed, given, purpose_of};

use crate::limits::MAX_GIVEN;
use rb_text::{first_word, number_of};

/// The use of a command's lines.
#[derive(Clone, Copy, Debug, PartialEq, Eq)]
pub enum Purpose {
    /// They are a block to put in.
    Insert,
    /// They are a block that takes another's place.
    Replace,
    /// They are the expected output.
    Expect,
}

/// A command of a session. Places count from 1.
#[derive(Clone, Copy, Debug, PartialEq, Eq)]
pub enum Command {
    /// Nothing: the line is blank.
    Blank,
    /// The line is no command.
    Bad,
    /// An edit at a place, and how many lines follow for it.
    Given(Purpose, usize, usize),
    /// Take out the directive at a place.
    Remove(usize),
    /// Take every output for its expectation.
    Accept,
    /// Show the output at a place.
    Show(usize),
    /// Write the report.
    Report,
    /// Write the script.
    Script,
    /// Write the script with its outputs for expectations.
    Rewrite,
}

/// Reads the command of a line without its end.
pub fn command_of(line: &[u8]) -> Command
    // Its name and its numbers are the words of the line.
    ensures means { result ≢ Command.Bad → Spells result (words line.now) }
    // It is the only one that they spell: what is `Bad` is none.
    ensures only { (command : Command) → Spells command (words line.now) → result ≡ command }
    ensures value { result ≡ command_of line.now }
{
    spelled(line)
}

#[tactic(auto, unfolding(crate::specs::Commands::command_of))]
fn spelled(line: &[u8]) -> Command
    ensures { result ≡ command_of line.now }
{
    let Some((name, rest)) = first_word(line) else {
        return Command::Blank;
    };
    let Some((place, rest)) = first_word(rest) else {
        return alone(name);
    };
    let Some((count, rest)) = first_word(rest) else {
        return placed(name, number(place));
    };
    if first_word(rest).is_some() {
        return Command::Bad;
    }
    given(purpose_of(name), number(place), number(count))
}

/// The number that a word is, as a place or a count.
fn number(word: &[u8]) -> Option<usize>
    ensures { result ≡ number_of word.now }
{
    number_of(word).map(|found| found as usize)
}

/// Whether the word is this one.
fn is_word(word: &[u8], name: &[u8]) -> bool
    ensures { result ≡ bytes_eq word.now name.now }
{
    word == name
}

/// A command that is one word.
fn alone(name: &[u8]) -> Command
    ensures { result ≡ alone name.now }
{
    if is_word(name, b"accept") {
        Command::Accept
    } else if is_word(name, b"report") {
        Command::Report
    } else if is_word(name, b"script") {
        Command::Script
    } else if is_word(name, b"rewrite") {
        Command::Rewrite
    } else {
        Command::Bad
    }
}

/// A command with a place.
fn placed(name: &[u8], place: Option<usize>) -> Command
    ensures { result ≡ placed name.now place }
{
    let Some(place) = place else {
        return Command::Bad;
    };
    if is_word(name, b"remove") {
        Command::Remove(place)
    } else if is_word(name, b"show") {
        Command::Show(place)
    } else {
        Command::Bad
    }
}

/// Reads the name of a command with a place and a count.
fn purpose_of(name: &[u8]) -> Option<Purpose>
    ensures { result ≡ purpose_of name.now }
{
    if is_word(name, b"insert") {
        Some(Purpose::Insert)
    } else if is_word(name, b"replace") {
        Some(Purpose::Replace)
    } else if is_word(name, b"expect") {
        Some(Purpose::Expect)
    } else {
        None
    }
}

/// A command that lines follow.
fn given(purpose: Option<Purpose>, place: Option<usize>, count: Option<usize>) -> Command
    ensures { result ≡ given purpose place count }
{
    let Some(purpose) = purpose else {
        return Command::Bad;
    };
    let Some(place) = place else {
        return Command::Bad;
    };
    let Some(count) = count else {
        return Command::Bad;
    };
    if count > MAX_GIVEN {
        return Command::Bad;
    }
    Command::Given(purpose, place, count)
}
