//! Whether a leader still hears from a quorum.
//!
//! A member is marked active when the leader hears from it. The leader regularly checks that a quorum is active. If not, it steps down;
//! otherwise it marks all others as inactive (Ongaro's thesis, section 6.2; etcd raft documentation, "CheckQuorum").
ghost use Rattle.std.specs.Prelude.{◌≡◌, ◌<◌, length};
ghost use Rattle.rb_tracker.specs.Quorum.{is_majority};
ghost use Rattle.rb_tracker.specs.Active.{is_active, quorum_active, with_active_at, inactive_at, others_marked_inactive};

use super::Tracker;
use crate::id_set::IdSet;

impl Tracker {
    /// Whether an id has an active view.
    pub fn is_active(&self, id: u64) -> bool
        ensures { result ≡ is_active self.now.views id }
    {
        match self.views.get(&id) {
            Some(view) => view.active(),
            None => false,
        }
    }

    // Whether a majority of the voters is active.
    fn majority_active(&self, voters: &IdSet) -> bool
        ensures { result ≡ is_majority voters.now (λ id. is_active self.now.views id) }
    {
        let voters = voters.as_slice();
        let count = voters.iter().filter(|id| self.is_active(**id)).count();
        voters.is_empty() || voters.len() < 2 * count
    }

    /// Whether a quorum is active. Takes no memory.
    #[tactic(auto, unfolding(crate::specs::Active::quorum_active))]
    pub fn quorum_active(&self) -> bool
        ensures { result ≡ quorum_active self.now }
    {
        let config = self.config();
        self.majority_active(&config.incoming) && self.majority_active(&config.outgoing)
    }

    /// Sets whether the view at a place is active. Takes no memory.
    #[tactic(auto, unfolding(crate::specs::Active::with_active_at))]
    pub fn set_active(&mut self, i: usize, active: bool)
        requires { i < length self.old.views }
        ensures marked { self.new ≡ with_active_at self.old i active }
        ensures within { length self.new.views ≡ length self.old.views }
    {
        self.view_mut(i).set_active(active);
    }

    // Marks the view at a place as inactive, unless it is the leader's own.
    #[tactic(auto, using(crate::proofs::ActiveLaws::view_of_entry))]
    fn mark_inactive_unless_own(&mut self, i: usize, own: u64)
        requires { i < length self.old.views }
        ensures { self.new ≡ record self.old { views = inactive_at self.old.views i own } }
    {
        if self.view(i).0 == own {
            return;
        }
        self.view_mut(i).set_active(false);
    }

    /// Marks all views as inactive, except the leader's own. Takes no memory.
    #[tactic(auto, unfolding(crate::specs::Active::others_marked_inactive))]
    pub fn mark_others_inactive(&mut self, own: u64)
        ensures { self.new ≡ others_marked_inactive self.old own }
    {
        for i in 0..self.len() {
            self.mark_inactive_unless_own(i, own);
        }
    }
}
