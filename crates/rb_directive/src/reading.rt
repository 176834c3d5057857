//! Reading the arguments, once and from left to right.
//!
//! Each argument is looked up in the table by its key or its position, and its value is added. Reading ends at the first fault.

ghost use Rattle.std.specs.Prelude.{◌≡◌, MatchOption, MatchResult, Some, None, Ok, Err};
ghost use Rattle.rb_script.specs.Tokens.{plain};
ghost use Rattle.rb_directive.specs.Arguments.{nothing, listed};
ghost use Rattle.rb_directive.specs.IdLists.{with_ids};
ghost use Rattle.rb_directive.specs.Names.{name_text};
ghost use Rattle.rb_directive.specs.Table.{option_of, word_of};
ghost use Rattle.rb_directive.specs.Reading.{argument_words, ids_kept, taken, with_option, with_word, with_argument, with_arguments};

use crate::argument::{Argument, Ids};
use crate::argument_ref::ArgumentRef;
use crate::arguments::Arguments;
use crate::table::{Row, option_of};
use rb_script::DirectiveRef;
use rb_vocab::{DirectiveError, ScriptWord};

// Adds the ids of the argument, if none of them is in the other list.
fn take_ids<'d>(
    given: &mut Arguments<'d>,
    which: Ids,
    other: Option<Ids>,
    said: &ArgumentRef<'d>,
) -> Option<()>
    ensures { MatchOption result (ids_kept which other given.old (with_ids (argument_words said.now) (Some (listed which given.old))) ≡ None) (λ _. ids_kept which other given.old (with_ids (argument_words said.now) (Some (listed which given.old))) ≡ Some given.new) }
{
    let ids = said.ids(given.listed(which))?;
    if given.excludes(other, &ids) {
        return None;
    }
    given.set_ids(which, ids);
    Some(())
}

// Adds the value of the argument, if it is allowed.
fn take<'d>(given: &mut Arguments<'d>, argument: Argument, said: &ArgumentRef<'d>) -> Option<()>
    ensures { MatchOption result (taken argument (argument_words said.now) given.old ≡ None) (λ _. taken argument (argument_words said.now) given.old ≡ Some given.new) }
{
    match argument {
        Argument::Number(which, low, high) => {
            given.set_number(which, said.number(low, high)?);
            Some(())
        }
        Argument::Bytes(which, low, high) => {
            given.set_bytes(which, said.bytes(low, high)?);
            Some(())
        }
        Argument::Level(which) => {
            given.set_level(which, said.level()?);
            Some(())
        }
        Argument::Flag(which) => {
            given.set_flag(which, said.flag()?);
            Some(())
        }
        Argument::Transition => {
            given.transition = Some(said.transition()?);
            Some(())
        }
        Argument::Types => {
            given.types = Some(said.types()?);
            Some(())
        }
        Argument::Ids(which, other) => take_ids(given, which, other, said),
    }
}

// Adds an option, if the directive has it.
fn add_option<'d>(
    row: &Row,
    said: &ArgumentRef<'d>,
    given: &mut Arguments<'d>,
) -> Result<(), DirectiveError<'d>>
    ensures { MatchResult result (λ _. with_option (option_of (name_text row.now.name) said.now.key) said.now given.old ≡ Ok given.new) (λ e. with_option (option_of (name_text row.now.name) said.now.key) said.now given.old ≡ Err e) }
{
    let key = said.key();
    let Some(argument) = option_of(row.name.text(), key) else {
        return Err(DirectiveError::UnsupportedOption(ScriptWord::new(key)));
    };
    if given.has(argument) || take(given, argument, said).is_none() {
        return Err(DirectiveError::BadArgument(ScriptWord::new(key)));
    }
    Ok(())
}

// Adds a word, if the directive has one at this position.
fn add_word<'d>(
    row: &Row,
    said: &ArgumentRef<'d>,
    given: &mut Arguments<'d>,
) -> Result<(), DirectiveError<'d>>
    ensures { MatchResult result (λ _. with_word (word_of row.now given.old.next) said.now given.old ≡ Ok given.new) (λ e. with_word (word_of row.now given.old.next) said.now given.old ≡ Err e) }
{
    let Some(argument) = row.word(given.next) else {
        return Err(DirectiveError::BadArgument(ScriptWord::new(said.key())));
    };
    given.next = given.next.after();
    if take(given, argument, said).is_none() {
        return Err(DirectiveError::BadArgument(ScriptWord::new(said.key())));
    }
    Ok(())
}

// Adds an argument.
fn add<'d>(
    row: &Row,
    said: &ArgumentRef<'d>,
    given: &mut Arguments<'d>,
) -> Result<(), DirectiveError<'d>>
    ensures { MatchResult result (λ _. with_argument row.now said.now given.old ≡ Ok given.new) (λ e. with_argument row.now said.now given.old ≡ Err e) }
{
    if said.has_equals() {
        add_option(row, said, given)
    } else {
        add_word(row, said, given)
    }
}

/// Reads the arguments, or reports the first fault.
#[tactic(auto, using(crate::proofs::ReadLaws::reading))]
pub(crate) fn read<'d>(
    row: &Row,
    directive: &'d DirectiveRef<'d>,
) -> Result<Arguments<'d>, DirectiveError<'d>>
    ensures { result ≡ with_arguments row.now (plain directive.now).args (Ok nothing) }
{
    let mut given = Arguments::nothing();
    for place in 0..directive.args() {
        add(row, &ArgumentRef::at(directive, place), &mut given)?;
    }
    Ok(given)
}
