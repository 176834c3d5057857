//! The words of a configuration change, in the input of `propose-conf-change`.
//!
//! A word is a letter and an id, as in etcd raft's interaction tests: `v1` makes 1 a voter, `l1` a learner, `r1` removes
//! it, `u1` changes nothing. A change without words leaves a joint configuration.

ghost use Rattle.std.specs.Prelude.{◌≡◌, ◌≤◌, ◌<◌, ◌∷◌, [], length, MatchOption, Some, None, slice_index_or, IfSome};
ghost use Rattle.rb_script.specs.Tokens.{plain};
ghost use Rattle.rb_directive.specs.Changes.{kind_of, change_of, words_left, input_words, first_bad, is_one, fits, change_fault};

use crate::form::id_of;
use rb_script::DirectiveRef;
use rb_text::first_word;
use rb_vocab::{DirectiveError, ScriptWord, Transition, WordKind};
use std::marker::Model;

/// The input lines of a directive. In contracts it is the list of lines.
#[derive(Drop)]
pub struct Inputs<'d> {
    directive: &'d DirectiveRef<'d>,
}

impl<'d> Model for Inputs<'d> {
    ghost use Rattle.std.specs.Prelude.{List};
    ghost use Rattle.rb_script.specs.Lines.{Line};
    ghost use Rattle.rb_script.specs.Tokens.{plain};

    ghost Value = { List Line };

    ghost view = { λ i. (plain i.directive.now).inputs };
}

impl<'d> Inputs<'d> {
    /// The input lines of the directive.
    pub(crate) fn of(directive: &'d DirectiveRef<'d>) -> Inputs<'d>
        ensures { result ≡ (plain directive.now).inputs }
    {
        Inputs { directive }
    }

    /// The number of lines.
    pub fn len(&self) -> usize
        ensures { result ≡ length self.now }
    {
        self.directive.inputs()
    }

    /// The line at a position, counted from 0.
    pub fn line(&self, place: usize) -> &'d [u8]
        requires { place < length self.now }
        ensures { result.now ≡ slice_index_or self.now place [] }
    {
        self.directive.input(place)
    }

    /// Splits off the first word of `rest` and the lines from `from` on.
    #[tactic(auto, using(crate::proofs::ChangeLaws::next_line))]
    pub fn next_word(&self, from: usize, rest: &'d [u8]) -> Option<(&'d [u8], usize, &'d [u8])>
        requires { from ≤ length self.now }
        ensures word { MatchOption result (words_left self.now from rest.now ≡ []) (λ found. words_left self.now from rest.now ≡ found.0.now ∷ words_left self.now found.1 found.2.now) }
        ensures within { IfSome result (λ found. found.1 ≤ length self.now) }
    {
        let mut left = rest;
        for line in from..self.len() {
            if let Some((word, after)) = first_word(left) {
                return Some((word, line, after));
            }
            left = self.line(line);
        }
        match first_word(left) {
            Some((word, after)) => Some((word, self.len(), after)),
            None => None,
        }
    }

    // Finds the first word that isn't a change.
    #[tactic(auto, using(crate::proofs::ChangeLaws::all_words))]
    fn first_bad(&self) -> Option<&'d [u8]>
        ensures { MatchOption result (first_bad (input_words self.now) ≡ None) (λ w. first_bad (input_words self.now) ≡ Some w.now) }
    {
        let mut from: usize = 0;
        let mut rest: &'d [u8] = &[];
        while let Some((word, line, after)) = self.next_word(from, rest) {
            if change_of(word).is_none() {
                return Some(word);
            }
            from = line;
            rest = after;
        }
        None
    }

    // Whether there is exactly one word.
    #[tactic(auto, using(crate::proofs::ChangeLaws::all_words))]
    fn is_one(&self) -> bool
        ensures { result ≡ is_one (input_words self.now) }
    {
        match self.next_word(0, &[]) {
            Some((_, line, after)) => self.next_word(line, after).is_none(),
            None => false,
        }
    }
}

// The meaning of a change's letter.
fn kind_of(letter: u8) -> Option<WordKind>
    ensures { result ≡ kind_of letter }
{
    match letter {
        b'v' => Some(WordKind::Voter),
        b'l' => Some(WordKind::Learner),
        b'r' => Some(WordKind::Remove),
        b'u' => Some(WordKind::Update),
        _ => None,
    }
}

/// Reads a change: a letter and an id.
pub fn change_of(word: &[u8]) -> Option<rb_vocab::Word>
    ensures { result ≡ change_of word.now }
{
    let (letter, digits) = word.split_first()?;
    let kind = kind_of(*letter)?;
    let id = id_of(digits)?;
    Some(rb_vocab::Word {
        kind,
        id: u64::from(id),
    })
}

// Whether the number of words and the transition are allowed.
fn fits(first_version: bool, transition: Transition, inputs: &Inputs<'_>) -> bool
    ensures { result ≡ fits first_version transition (input_words inputs.now) }
{
    !first_version || (transition.is_auto() && inputs.is_one())
}

/// Finds the fault of the words: the first that isn't a change; or, for a change of the first version, several words or a
/// transition.
#[tactic(auto, unfolding(crate::specs::Changes::change_fault))]
pub(crate) fn change_fault<'d>(
    first_version: bool,
    transition: Transition,
    inputs: &Inputs<'d>,
) -> Option<DirectiveError<'d>>
    ensures { result ≡ change_fault first_version transition inputs.now }
{
    match inputs.first_bad() {
        Some(word) => Some(DirectiveError::BadChange(ScriptWord::new(word))),
        None => {
            if fits(first_version, transition, inputs) {
                None
            } else {
                Some(DirectiveError::FirstVersionTakesOne)
            }
        }
    }
}
