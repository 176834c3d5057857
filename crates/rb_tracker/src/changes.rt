//! Changes of a configuration.
//!
//! A *simple* change adds or removes at most one voter. Any majority of the old voters and any of the new ones share a voter, so the change
//! takes effect at once. For more voters, the cluster enters a *joint* configuration and later leaves it. There, the old voters, the
//! outgoing ones, decide together with the incoming ones (Ongaro's thesis, sections 4.1 and 4.3; etcd raft documentation, "Configuration
//! changes"). Each call returns a new configuration: a refused change keeps the old one.
ghost use Rattle.std.specs.Prelude.{◌≡◌, IfOk, OnOk};
ghost use Rattle.rb_tracker.specs.declared.changes.ChangeFault.TheVariants.{OutOfMemory};
ghost use Rattle.rb_tracker.specs.Changes.{with_voter, as_learner, with_learner, without_member, word_applied, words_applied, differing, checked_simple, simple, entering, checked_joint, enter_joint, left, leave_joint, is_explicit, changed, Gives};

use crate::config::Config;
use crate::id_set::IdSet;
use rb_vocab::{Transition, Word, WordKind};
use std::alloc::AllocError;

/// Why a change is refused: the first reason that holds, in the order of each call.
#[derive(Clone, Copy, PartialEq, Eq, Debug)]
pub enum ChangeFault {
    /// A joint configuration can't be entered from a joint one.
    AlreadyJoint,
    /// Only a joint configuration can be left.
    NotJoint,
    /// A joint configuration can't have a simple change.
    SimpleWhileJoint,
    /// A simple change may add or remove one voter.
    MoreThanOneVoter,
    /// There must be a voter.
    NoVoters,
    OutOfMemory,
}

impl From<AllocError> for ChangeFault {
    ghost from_gives = { λ _ fault. fault ≡ OutOfMemory };

    fn from(_error: AllocError) -> ChangeFault {
        ChangeFault::OutOfMemory
    }
}

// The number of ids that are in only one of two sets.
fn differing(a: &IdSet, b: &IdSet) -> usize
    ensures { result ≡ differing a.now b.now }
{
    let only_a = a.as_slice().iter().filter(|id| !b.contains(**id)).count();
    let only_b = b.as_slice().iter().filter(|id| !a.contains(**id)).count();
    only_a + only_b
}

fn is_explicit(transition: Transition) -> bool
    ensures { result ≡ is_explicit transition }
{
    match transition {
        Transition::Explicit => true,
        Transition::Auto | Transition::Implicit => false,
    }
}

impl Config {
    fn add_voter(&mut self, id: u64) -> Result<(), AllocError>
        ensures { OnOk result (self.new ≡ with_voter self.old id) }
    {
        self.incoming.insert(id)?;
        self.learners.remove(id);
        self.next.remove(id);
        Ok(())
    }

    fn make_learner(&mut self, id: u64) -> Result<(), AllocError>
        ensures { OnOk result (self.new ≡ as_learner self.old id) }
    {
        self.incoming.remove(id);
        self.next.remove(id);
        if self.outgoing.contains(id) {
            self.next.insert(id)
        } else {
            self.learners.insert(id)
        }
    }

    fn add_learner(&mut self, id: u64) -> Result<(), AllocError>
        ensures { OnOk result (self.new ≡ with_learner self.old id) }
    {
        if self.learners.contains(id) {
            return Ok(());
        }
        self.make_learner(id)
    }

    fn remove_member(&mut self, id: u64)
        ensures { self.new ≡ without_member self.old id }
    {
        self.incoming.remove(id);
        self.learners.remove(id);
        self.next.remove(id);
    }

    fn apply_word(&mut self, word: &Word) -> Result<(), AllocError>
        ensures { OnOk result (self.new ≡ word_applied word.now.kind self.old word.now.id) }
    {
        match word.kind {
            WordKind::Voter => self.add_voter(word.id),
            WordKind::Learner => self.add_learner(word.id),
            WordKind::Remove => {
                self.remove_member(word.id);
                Ok(())
            }
            WordKind::Update => Ok(()),
        }
    }

    // Applies the words, in order.
    fn apply_words(mut self, words: &[Word]) -> Result<Config, AllocError>
        ensures { IfOk result (λ config. config ≡ words_applied self words.now) }
    {
        for word in words {
            self.apply_word(word)?;
        }
        Ok(self)
    }

    fn checked_simple(&self, new: Config) -> Result<Config, ChangeFault>
        ensures { result ≡ checked_simple self.now new }
    {
        if new.incoming.is_empty() {
            return Err(ChangeFault::NoVoters);
        }
        if 1 < differing(&self.incoming, &new.incoming) {
            return Err(ChangeFault::MoreThanOneVoter);
        }
        Ok(new)
    }

    /// The configuration after a change of at most one voter, and of any learners. Its faults, in order: `SimpleWhileJoint`,
    /// `NoVoters`, `MoreThanOneVoter`; `OutOfMemory` may come in place of the last two.
    pub fn simple(&self, words: &[Word]) -> Result<Config, ChangeFault>
        ensures { Gives result (simple self.now words.now) }
    {
        if self.is_joint() {
            return Err(ChangeFault::SimpleWhileJoint);
        }
        let new = self.try_copy()?.apply_words(words)?;
        self.checked_simple(new)
    }

    // A copy whose outgoing voters are its incoming ones.
    fn entering(&self, auto: bool) -> Result<Config, AllocError>
        ensures { IfOk result (λ config. config ≡ entering self.now auto) }
    {
        let mut new = self.try_copy()?;
        new.outgoing = self.incoming.try_copy()?;
        new.auto = auto;
        Ok(new)
    }

    fn checked_joint(self) -> Result<Config, ChangeFault>
        ensures { result ≡ checked_joint self }
    {
        if self.outgoing.is_empty() || self.incoming.is_empty() {
            return Err(ChangeFault::NoVoters);
        }
        Ok(self)
    }

    /// The joint configuration of the present voters and of those after the words. With `auto`, a leader leaves it by itself. Its faults,
    /// in order: `AlreadyJoint`, `NoVoters`; `OutOfMemory` may replace the latter.
    pub fn enter_joint(&self, auto: bool, words: &[Word]) -> Result<Config, ChangeFault>
        ensures { Gives result (enter_joint self.now auto words.now) }
    {
        if self.is_joint() {
            return Err(ChangeFault::AlreadyJoint);
        }
        let new = self.entering(auto)?.apply_words(words)?;
        new.checked_joint()
    }

    fn left(&self) -> Result<Config, AllocError>
        ensures { IfOk result (λ config. config ≡ left self.now) }
    {
        let mut new = self.try_copy()?;
        new.learners.extend(self.next.as_slice())?;
        new.next.clear();
        new.outgoing.clear();
        new.auto = false;
        Ok(new)
    }

    /// The configuration in which only the incoming voters decide. Its faults: `NotJoint`, `OutOfMemory`.
    pub fn leave_joint(&self) -> Result<Config, ChangeFault>
        ensures { Gives result (leave_joint self.now) }
    {
        if !self.is_joint() {
            return Err(ChangeFault::NotJoint);
        }
        Ok(self.left()?)
    }

    /// The configuration after an entry's change. Without words, it leaves a joint configuration. One word is a simple change, unless the
    /// transition says otherwise. Several words enter a joint configuration; a leader leaves it by itself unless the transition is
    /// explicit.
    #[tactic(auto, unfolding(crate::specs::Changes::changed))]
    pub fn changed(&self, transition: Transition, words: &[Word]) -> Result<Config, ChangeFault>
        ensures { Gives result (changed self.now transition words.now) }
    {
        if words.is_empty() {
            return self.leave_joint();
        }
        if transition.is_auto() && words.len() == 1 {
            return self.simple(words);
        }
        self.enter_joint(!is_explicit(transition), words)
    }
}
