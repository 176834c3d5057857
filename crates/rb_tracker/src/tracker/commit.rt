//! The last index that a quorum holds.
//!
//! An entry is committed once a majority of the voters holds it; in a joint configuration, a majority of each set (Ongaro's thesis,
//! sections 3.5 and 4.3). The definition counts the voters that hold an index. The code sorts the voters' indexes and takes the one that
//! more than half of them reach.
ghost use Rattle.std.specs.Prelude.{◌≡◌, ◌<◌, length, IfOk};
ghost use Rattle.rb_tracker.specs.Commits.{match_of, commit_of, IsHeldByMajority};

use super::Tracker;
use crate::id_set::IdSet;
use smallvec::SmallVec;
use std::alloc::AllocError;

impl Tracker {
    /// The last index that an id is known to hold: 0 without a view.
    pub fn match_of(&self, id: u64) -> u64
        ensures { result ≡ match_of self.now.views id }
    {
        match self.views.get(&id) {
            Some(view) => view.matched(),
            None => 0,
        }
    }

    // The greatest index that a majority of the voters holds. Up to sixteen voters take no memory.
    fn held_by_majority(&self, voters: &IdSet) -> Result<u64, AllocError>
        requires { 0 < length voters.now }
        ensures { IfOk result (λ n. IsHeldByMajority self.now.views voters.now n) }
    {
        let mut matches: SmallVec<u64, 16> = SmallVec::new(*self.views.allocator());
        for id in voters.as_slice() {
            matches.push(self.match_of(*id))?;
        }
        matches.as_mut_slice().sort_unstable();
        Ok(matches.as_slice()[(matches.len() - 1) / 2])
    }

    /// The greatest index that a quorum holds: 0 where nobody votes.
    #[tactic(auto, using(crate::proofs::CommitLaws::commit_of_none, crate::proofs::CommitLaws::commit_of_incoming, crate::proofs::CommitLaws::commit_of_outgoing, crate::proofs::CommitLaws::commit_of_both))]
    pub fn committed(&self) -> Result<u64, AllocError>
        ensures { IfOk result (λ n. n ≡ commit_of self.now) }
    {
        let config = self.config();
        if config.incoming.is_empty() {
            if config.outgoing.is_empty() {
                return Ok(0);
            }
            return Ok(self.held_by_majority(&config.outgoing)?);
        }
        if config.outgoing.is_empty() {
            return Ok(self.held_by_majority(&config.incoming)?);
        }
        Ok(
            self.held_by_majority(&config.incoming)?
                .min(self.held_by_majority(&config.outgoing)?),
        )
    }
}
