//! What a refused argument probably meant, and which word of it is wrong.

ghost use Rattle.std.specs.Prelude.{◌≡◌, ◌<◌, length, map, option_map};
ghost use Rattle.rb_script.specs.Directive.{plain_argument};
ghost use Rattle.rb_script.specs.Tokens.{plain};
ghost use Rattle.rb_report.specs.Suggestions.{is_among, of_values, of_word, of_argument, of_arguments, wrong_in, wrong_part, wrong_value};

use crate::help::choices::{LEVELS, choices_of};
use crate::help::nearest::{Known, nearest_in};
use rb_script::DirectiveRef;

fn is_among(word: &[u8], words: &[Known]) -> bool
    ensures { result ≡ is_among word.now (map (λ c. c.now) words.now) }
{
    for candidate in words {
        if *candidate == word {
            return true;
        }
    }
    false
}

// Finds the choice nearest to the first value that isn't one.
fn of_values(directive: &DirectiveRef<'_>, argument: usize, choices: &[Known]) -> Option<Known>
    requires { argument < length (plain directive.now).args }
    ensures { option_map (λ w. w.now) result ≡ of_values (map (λ c. c.now) choices.now) (plain_argument (plain directive.now) argument).values }
{
    for i in 0..directive.values(argument) {
        let value = directive.value(argument, i);
        if !is_among(value, choices) {
            return nearest_in(value, choices);
        }
    }
    None
}

// Finds the level nearest to a word of the directive with this name, if that takes one.
fn of_word(name: &[u8], word: &[u8]) -> Option<Known>
    ensures { option_map (λ w. w.now) result ≡ of_word name.now word.now }
{
    if name == b"log-level".as_slice() {
        return nearest_in(word, &LEVELS);
    }
    None
}

fn of_argument(directive: &DirectiveRef<'_>, argument: usize) -> Option<Known>
    requires { argument < length (plain directive.now).args }
    ensures { option_map (λ w. w.now) result ≡ of_argument (plain directive.now).name (plain_argument (plain directive.now) argument) }
{
    let key = directive.key(argument);
    if directive.has_equals(argument) {
        return of_values(directive, argument, choices_of(key));
    }
    of_word(directive.name(), key)
}

// Finds the first value that is none of the choices.
fn wrong_value<'d>(directive: &'d DirectiveRef<'_>, argument: usize, choices: &[Known]) -> &'d [u8]
    requires { argument < length (plain directive.now).args }
    ensures { result.now ≡ wrong_value (map (λ c. c.now) choices.now) (plain_argument (plain directive.now) argument).values }
{
    for i in 0..directive.values(argument) {
        let value = directive.value(argument, i);
        if !is_among(value, choices) {
            return value;
        }
    }
    b""
}

fn wrong_part<'d>(directive: &'d DirectiveRef<'_>, argument: usize) -> &'d [u8]
    requires { argument < length (plain directive.now).args }
    ensures { result.now ≡ wrong_part (plain_argument (plain directive.now) argument) }
{
    let key = directive.key(argument);
    let choices = choices_of(key);
    if directive.has_equals(argument) && !choices.is_empty() {
        wrong_value(directive, argument, choices)
    } else {
        key
    }
}

/// Finds what is wrong in the first argument with this key: a value that is none of the choices, or the key.
pub(crate) fn wrong_in<'d>(directive: &'d DirectiveRef<'_>, key: &[u8]) -> &'d [u8]
    ensures { result.now ≡ wrong_in key.now (plain directive.now).args }
{
    for i in 0..directive.args() {
        if directive.key(i) == key {
            return wrong_part(directive, i);
        }
    }
    b""
}

/// Finds what the first argument with this key probably meant.
pub(crate) fn of_arguments(directive: &DirectiveRef<'_>, key: &[u8]) -> Option<Known>
    ensures { option_map (λ w. w.now) result ≡ of_arguments (plain directive.now).name key.now (plain directive.now).args }
{
    for i in 0..directive.args() {
        if directive.key(i) == key {
            return of_argument(directive, i);
        }
    }
    None
}
