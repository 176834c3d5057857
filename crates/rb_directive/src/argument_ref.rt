//! An argument of a directive: its key and its words.

use crate::form::{flag_of, id_of, number_within};
use crate::id_list::IdList;
use crate::type_set::TypeSet;
use rb_script::DirectiveRef;
use rb_vocab::{Level, Transition, level_of, transition_of, type_of};
use std::marker::Model;

/// An argument of a directive. In contracts it is the plain argument.
#[derive(Drop)]
pub(crate) struct ArgumentRef<'d> {
    directive: &'d DirectiveRef<'d>,
    place: usize,
}

impl<'d> Model for ArgumentRef<'d> {
    ghost use Rattle.std.specs.Prelude.{◌<◌, length};
    ghost use Rattle.rb_script.specs.Directive.{PlainArgument, plain_argument};
    ghost use Rattle.rb_script.specs.Tokens.{plain};

    ghost Value = { PlainArgument };

    ghost view = { λ a. plain_argument (plain a.directive.now) a.place };

    ghost invariant = { λ a. a.place < length (plain a.directive.now).args };
}

impl<'d> ArgumentRef<'d> {
    ghost use Rattle.std.specs.Prelude.{◌≡◌, ◌<◌, length, Some, MatchOption, None, [], slice_index_or};
    ghost use Rattle.rb_script.specs.Directive.{plain_argument};
    ghost use Rattle.rb_script.specs.Tokens.{plain};
    ghost use Rattle.rb_directive.specs.IdLists.{with_ids};
    ghost use Rattle.rb_directive.specs.TypeSets.{with_types, no_types};
    ghost use Rattle.rb_directive.specs.Reading.{argument_words, only, number_value, bytes_value, level_value, flag_value, transition_value};

    /// The argument at a position of the directive, counted from 0.
    pub(crate) fn at(directive: &'d DirectiveRef<'d>, place: usize) -> ArgumentRef<'d>
        requires { place < length (plain directive.now).args }
        ensures { result ≡ plain_argument (plain directive.now) place }
    {
        ArgumentRef { directive, place }
    }

    /// The key of an option, or the word.
    pub(crate) fn key(&self) -> &'d [u8]
        ensures { result.now ≡ self.now.key }
    {
        self.directive.key(self.place)
    }

    /// Whether it is an option.
    pub(crate) fn has_equals(&self) -> bool
        ensures { result ≡ self.now.has_equals }
    {
        self.directive.has_equals(self.place)
    }

    /// The number of its words.
    pub(crate) fn len(&self) -> usize
        ensures { result ≡ length (argument_words self.now) }
    {
        if self.has_equals() {
            self.directive.values(self.place)
        } else {
            1
        }
    }

    /// Its word at a position, counted from 0.
    pub(crate) fn word(&self, at: usize) -> &'d [u8]
        requires { at < length (argument_words self.now) }
        ensures { result.now ≡ slice_index_or (argument_words self.now) at [] }
    {
        if self.has_equals() {
            self.directive.value(self.place, at)
        } else {
            self.key()
        }
    }

    /// Its word, if it has exactly one.
    pub(crate) fn only(&self) -> Option<&'d [u8]>
        ensures { MatchOption result (only (argument_words self.now) ≡ None) (λ w. only (argument_words self.now) ≡ Some w.now) }
    {
        if self.len() != 1 {
            return None;
        }
        Some(self.word(0))
    }

    /// Reads a number from `low` to `high`.
    pub(crate) fn number(&self, low: u64, high: u64) -> Option<u64>
        ensures { result ≡ number_value low high (argument_words self.now) }
    {
        number_within(self.only()?, low, high)
    }

    /// Reads from `low` to `high` bytes.
    pub(crate) fn bytes(&self, low: usize, high: usize) -> Option<&'d [u8]>
        ensures { MatchOption result (bytes_value low high (argument_words self.now) ≡ None) (λ w. bytes_value low high (argument_words self.now) ≡ Some w.now) }
    {
        let word = self.only()?;
        if low <= word.len() && word.len() <= high {
            return Some(word);
        }
        None
    }

    /// Reads a level.
    pub(crate) fn level(&self) -> Option<Level>
        ensures { result ≡ level_value (argument_words self.now) }
    {
        level_of(self.only()?)
    }

    /// Reads a flag.
    pub(crate) fn flag(&self) -> Option<bool>
        ensures { result ≡ flag_value (argument_words self.now) }
    {
        flag_of(self.only()?)
    }

    /// Reads a transition.
    pub(crate) fn transition(&self) -> Option<Transition>
        ensures { result ≡ transition_value (argument_words self.now) }
    {
        transition_of(self.only()?)
    }

    /// Reads message types.
    #[tactic(auto, using(crate::proofs::ReadLaws::naming))]
    pub(crate) fn types(&self) -> Option<TypeSet>
        ensures { result ≡ with_types (argument_words self.now) (Some no_types) }
    {
        let mut types = TypeSet::new();
        for at in 0..self.len() {
            types = types.with(type_of(self.word(at))?);
        }
        Some(types)
    }

    /// Reads ids, and appends them to those before.
    #[tactic(auto, using(crate::proofs::ReadLaws::listing))]
    pub(crate) fn ids(&self, before: IdList) -> Option<IdList>
        ensures { result ≡ with_ids (argument_words self.now) (Some before) }
    {
        let mut ids = before;
        for at in 0..self.len() {
            let id = id_of(self.word(at))?;
            if !ids.has_room() {
                return None;
            }
            ids.push(id);
        }
        Some(ids)
    }
}
