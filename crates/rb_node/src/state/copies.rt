//! Copying and comparing states.

ghost use Rattle.std.specs.Prelude.{◌≡◌, ◌↔◌, IsTrue, IfOk};
ghost use Rattle.rb_node.specs.Comparing.{HaveSameRole, HaveSameIndexes, HaveSameCounters, HaveSameLengths, HaveSameNumbers, HaveSameLists};

use super::State;
use rb_raftlog::RaftLog;
use std::alloc::AllocError;

impl<L: RaftLog> State<L> {
    /// Copies the state. The cost is a few pointers, and for a leader a view of each member.
    pub fn try_copy(&self) -> Result<State<L>, AllocError>
        ensures { IfOk result (λ copy. copy ≡ self.now) }
    {
        Ok(State {
            id: self.id,
            term: self.term,
            vote: self.vote,
            lead: self.lead,
            role: self.role,
            log: self.log.try_copy()?,
            start: self.start.clone()?,
            commit: self.commit,
            applied: self.applied,
            content: self.content.try_copy()?,
            tracker: self.tracker.try_copy()?,
            votes: self.votes.try_copy()?,
            clock: self.clock,
            transferee: self.transferee,
            pending_change: self.pending_change,
            saved: self.saved,
            restored: self.restored,
            sent: self.sent.try_copy()?,
            waiting: self.waiting.try_copy()?,
            options: self.options,
            alloc: self.alloc,
        })
    }

    fn same_role(&self, other: &State<L>) -> bool
        ensures { IsTrue result ↔ HaveSameRole self.now other.now }
    {
        self.id == other.id
            && self.term == other.term
            && self.vote == other.vote
            && self.lead == other.lead
            && self.role == other.role
    }

    fn same_indexes(&self, other: &State<L>) -> bool
        ensures { IsTrue result ↔ HaveSameIndexes self.now other.now }
    {
        self.commit == other.commit
            && self.applied == other.applied
            && self.transferee == other.transferee
            && self.pending_change == other.pending_change
            && self.restored == other.restored
    }

    fn same_counters(&self, other: &State<L>) -> bool
        ensures { IsTrue result ↔ HaveSameCounters self.now other.now }
    {
        self.clock == other.clock && self.saved == other.saved && self.options == other.options
    }

    fn same_lengths(&self, other: &State<L>) -> bool
        ensures { IsTrue result ↔ HaveSameLengths self.now other.now }
    {
        self.sent.len() == other.sent.len()
            && self.waiting.len() == other.waiting.len()
            && self.content.len() == other.content.len()
            && self.log.last_index() == other.log.last_index()
            && self.content.sum() == other.content.sum()
    }

    /// Whether both states may be equal: their numbers, the lengths of their lists, and the sums of their contents are. The cost doesn't
    /// depend on those lengths, so compare many nodes by this first.
    pub(crate) fn may_equal(&self, other: &State<L>) -> bool
        ensures { IsTrue result ↔ HaveSameNumbers self.now other.now }
    {
        self.same_role(other)
            && self.same_indexes(other)
            && self.same_counters(other)
            && self.same_lengths(other)
    }

    fn same_lists(&self, other: &State<L>) -> bool
        ensures { IsTrue result ↔ HaveSameLists self.now other.now }
    {
        self.votes.same(&other.votes)
            && self.tracker.same(&other.tracker)
            && self.sent.same(&other.sent)
            && self.waiting.same(&other.waiting)
            && self.log.same(&other.log)
            && self.start.snapshot().same(other.start.snapshot())
            && self.content.same(&other.content)
    }

    /// Whether both states are equal. Compares numbers first, then lists. Takes no memory.
    pub fn same(&self, other: &State<L>) -> bool
        ensures { IsTrue result ↔ (self.now ≡ other.now) }
    {
        self.may_equal(other) && self.same_lists(other)
    }
}
