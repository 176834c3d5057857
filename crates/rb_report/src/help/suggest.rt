//! What the writer of a refused directive probably meant.

ghost use Rattle.std.specs.Prelude.{◌≡◌, option_map};
ghost use Rattle.rb_script.specs.Tokens.{plain};
ghost use Rattle.rb_report.specs.Hints.{meant_or, plain_hint};
ghost use Rattle.rb_report.specs.Forms.{form_of_fault};
ghost use Rattle.rb_report.specs.Suggestions.{of_fault, suggested, suggested_word, wrong_by, wrong_word};

use crate::check::Hint;
use crate::help::argument::{of_arguments, wrong_in};
use crate::help::forms::{form_of_fault, missing};
use crate::help::nearest::{Known, nearest_name, nearest_option};
use rb_directive::request;
use rb_script::DirectiveRef;
use rb_vocab::DirectiveError;

fn of_fault(directive: &DirectiveRef<'_>, fault: &DirectiveError<'_>) -> Option<Known>
    ensures { option_map (λ w. w.now) result ≡ of_fault (plain directive.now) fault.now }
{
    match fault {
        DirectiveError::UnknownDirective(name) => nearest_name(name.bytes()),
        DirectiveError::UnsupportedOption(key) => nearest_option(key.bytes(), directive.name()),
        DirectiveError::BadArgument(key) => of_arguments(directive, key.bytes()),
        _ => None,
    }
}

/// Finds the word to put in place of the wrong one, if the directive is refused for a name, an option or a value, and one is near it.
#[tactic(auto, unfolding(crate::specs::Suggestions::suggested_word))]
pub fn suggested_word(directive: &DirectiveRef<'_>) -> Option<&'static [u8]>
    ensures { option_map (λ w. w.now) result ≡ suggested_word (plain directive.now) }
{
    match request(directive) {
        Ok(_) => None,
        Err(fault) => of_fault(directive, &fault),
    }
}

// Finds the word for which the directive is refused.
fn wrong_by<'d>(directive: &'d DirectiveRef<'_>, fault: &DirectiveError<'_>) -> &'d [u8]
    ensures { result.now ≡ wrong_by (plain directive.now) fault.now }
{
    match fault {
        DirectiveError::UnknownDirective(_) => directive.name(),
        DirectiveError::UnsupportedOption(key) | DirectiveError::BadArgument(key) => {
            wrong_in(directive, key.bytes())
        }
        _ => b"",
    }
}

/// Finds the word that [`suggested_word`] replaces.
#[tactic(auto, unfolding(crate::specs::Suggestions::wrong_word))]
pub fn wrong_word<'d>(directive: &'d DirectiveRef<'_>) -> &'d [u8]
    ensures { result.now ≡ wrong_word (plain directive.now) }
{
    match request(directive) {
        Ok(_) => b"",
        Err(fault) => wrong_by(directive, &fault),
    }
}

// Finds the near word, or how the directive is written.
fn word_or_form(directive: &DirectiveRef<'_>, fault: &DirectiveError<'_>) -> Hint<'static>
    ensures { plain_hint result ≡ meant_or (form_of_fault (plain directive.now) fault.now) (of_fault (plain directive.now) fault.now) }
{
    match of_fault(directive, fault) {
        Some(word) => Hint::Meant(word),
        None => form_of_fault(directive, fault),
    }
}

/// Says what the writer of a directive that answers an error probably meant: the near word; if none is near, how such a directive is written, or
/// what is missing.
#[tactic(auto, unfolding(crate::specs::Suggestions::suggested))]
pub fn suggested(directive: &DirectiveRef<'_>) -> Hint<'static>
    ensures { plain_hint result ≡ suggested (plain directive.now) }
{
    match request(directive) {
        Ok(_) => missing(directive),
        Err(fault) => word_or_form(directive, &fault),
    }
}
