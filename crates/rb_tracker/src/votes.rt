//! Votes and their result.
//!
//! A candidate asks each voter once, and the first response of each counts. It wins when a quorum has granted, and loses when no quorum can
//! grant any more (Ongaro's thesis, section 3.4).
ghost use Rattle.std.specs.Prelude.{◌≡◌, ◌↔◌, IsTrue, IfOk, OnOk, not};
ghost use Rattle.rb_tracker.specs.Sets.{has};
ghost use Rattle.rb_tracker.specs.Quorum.{is_majority};
ghost use Rattle.rb_tracker.specs.Ballots.{no_votes, has_answered, answered, is_won, is_open, vote_result};

use crate::config::Config;
use crate::id_set::IdSet;
use std::alloc::{AllocError, Global};

/// The result of votes.
#[derive(Clone, Copy, PartialEq, Eq, Debug)]
pub enum VoteResult {
    /// A quorum granted.
    Won,
    /// No quorum can grant any more.
    Lost,
    /// Neither, so far.
    Pending,
}

/// Who granted a vote, and who refused.
#[derive(Clone, Drop)]
pub struct Votes {
    pub granted: IdSet,
    pub refused: IdSet,
}

// Whether a majority of the voters is in a set.
fn majority_granted(voters: &IdSet, set: &IdSet) -> bool
    ensures { result ≡ is_majority voters.now (λ id. has set.now id) }
{
    let voters = voters.as_slice();
    let count = voters.iter().filter(|id| set.contains(**id)).count();
    voters.is_empty() || voters.len() < 2 * count
}

// Whether a majority of the voters is not in a set.
fn majority_not_refused(voters: &IdSet, set: &IdSet) -> bool
    ensures { result ≡ is_majority voters.now (λ id. not (has set.now id)) }
{
    let voters = voters.as_slice();
    let rest = voters.iter().filter(|id| !set.contains(**id)).count();
    voters.is_empty() || voters.len() < 2 * rest
}

impl Votes {
    /// No votes.
    pub fn new(alloc: Global) -> Votes
        ensures { result ≡ no_votes }
    {
        Votes {
            granted: IdSet::new(alloc),
            refused: IdSet::new(alloc),
        }
    }

    /// Forgets all votes.
    pub fn clear(&mut self)
        ensures { self.new ≡ no_votes }
    {
        self.granted.clear();
        self.refused.clear();
    }

    /// Whether an id has answered.
    pub fn has_answered(&self, id: u64) -> bool
        ensures { result ≡ has_answered self.now id }
    {
        self.granted.contains(id) || self.refused.contains(id)
    }

    /// Counts an id's response. Only its first one counts.
    #[tactic(auto, unfolding(crate::specs::Ballots::answered))]
    pub fn answer(&mut self, id: u64, granted: bool) -> Result<(), AllocError>
        ensures { OnOk result (self.new ≡ answered self.old id granted) }
    {
        if self.has_answered(id) {
            return Ok(());
        }
        if granted {
            self.granted.insert(id)
        } else {
            self.refused.insert(id)
        }
    }

    fn is_won(&self, config: &Config) -> bool
        ensures { result ≡ is_won config.now self.now }
    {
        majority_granted(&config.incoming, &self.granted)
            && majority_granted(&config.outgoing, &self.granted)
    }

    fn is_open(&self, config: &Config) -> bool
        ensures { result ≡ is_open config.now self.now }
    {
        majority_not_refused(&config.incoming, &self.refused)
            && majority_not_refused(&config.outgoing, &self.refused)
    }

    /// The result of the votes. Takes no memory.
    #[tactic(auto, unfolding(crate::specs::Ballots::vote_result))]
    pub fn result(&self, config: &Config) -> VoteResult
        ensures { result ≡ vote_result config.now self.now }
    {
        if self.is_won(config) {
            VoteResult::Won
        } else if self.is_open(config) {
            VoteResult::Pending
        } else {
            VoteResult::Lost
        }
    }

    pub fn try_copy(&self) -> Result<Votes, AllocError>
        ensures { IfOk result (λ copy. copy ≡ self.now) }
    {
        self.clone()
    }

    /// Whether both are equal. Takes no memory.
    pub fn same(&self, other: &Votes) -> bool
        ensures { IsTrue result ↔ (self.now ≡ other.now) }
    {
        self.granted.same(&other.granted) && self.refused.same(&other.refused)
    }
}
