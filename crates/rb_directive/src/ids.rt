//! The words and options of a directive that are ids of nodes, by the table.

ghost use Rattle.std.specs.Prelude.{◌≡◌, ◌+◌, ◌≤◌};
ghost use Rattle.rb_directive.specs.Ids.{is_id, has_ids, with_word, ids_of, id_words, takes_id};

use crate::argument::{Argument, Number};
use crate::limits::MAX_IDS;
use crate::table::{Row, option_of, row_of};

// Whether the number is an id.
fn is_id(number: Number) -> bool
    ensures { result ≡ is_id number }
{
    match number {
        Number::Id | Number::Peer | Number::From | Number::To => true,
        _ => false,
    }
}

// Whether the argument is one id or several.
fn has_ids(argument: Argument) -> bool
    ensures { result ≡ has_ids argument }
{
    match argument {
        Argument::Number(number, _, _) => is_id(number),
        Argument::Ids(_, _) => true,
        _ => false,
    }
}

// Counts the ids at the front: this word, and those after it.
fn with_word(word: Option<Argument>, behind: usize) -> usize
    requires { behind ≤ 1 }
    ensures exact { result ≡ with_word word behind }
    ensures within { result ≤ 1 + behind }
{
    match word {
        Some(argument) => { if has_ids(argument) { 1 + behind } else { 0 } }
        None => 0,
    }
}

// Counts the first words that are ids.
fn ids_of(row: &Row) -> usize
    ensures { result ≡ ids_of row.now }
{
    if row.takes_ids {
        return MAX_IDS;
    }
    with_word(row.first, with_word(row.second, 0))
}

/// Counts the first words of a directive that are ids. It is `MAX_IDS` if the directive takes any number of them.
#[tactic(auto, unfolding(crate::specs::Ids::id_words))]
pub fn id_words(name: &[u8]) -> usize
    ensures { result ≡ id_words name.now }
{
    match row_of(name) {
        Some(row) => ids_of(row),
        None => 0,
    }
}

/// Whether the directive has this option, and its values are ids.
#[tactic(auto, unfolding(crate::specs::Ids::takes_id))]
pub fn takes_id(name: &[u8], key: &[u8]) -> bool
    ensures { result ≡ takes_id name.now key.now }
{
    match option_of(name, key) {
        Some(option) => has_ids(option),
        None => false,
    }
}
