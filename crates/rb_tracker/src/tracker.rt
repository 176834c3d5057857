//! Trackers: a configuration, and a leader's views of its members.
//!
//! A leader keeps a view of each member, including itself. By the views it finds the index that a quorum holds (`committed`), and whether a
//! quorum is active (`quorum_active`). The views are in a map by ascending id. The place of a view is its position in that order.
ghost use Rattle.std.specs.Prelude.{◌≡◌, ◌<◌, ◌≤◌, ◌↔◌, ◌∷◌, [], ◌++◌, false, length, IsTrue, IfSome, IfOk, OnOk, None, Some, slice_get, nat_eq};
ghost use Rattle.std.specs.Borrow.{sem};
ghost use Rattle.std.specs.Map.{keys_of};
ghost use Rattle.indexmap.specs.IndexMap.{get};
ghost use Rattle.rb_tracker.specs.Sets.{rank};
ghost use Rattle.rb_tracker.specs.Ballots.{vote_result};
ghost use Rattle.rb_tracker.specs.Trackers.{no_views, cleared, configured, place, view_at, ids_of, has_view, with_new, removed};
ghost use Rattle.rb_tracker.specs.Lending.{LendsView};

mod active;
mod commit;

use crate::config::Config;
use crate::id_set::IdSet;
use crate::progress::Progress;
use crate::votes::{VoteResult, Votes};
use indexmap::IndexMap;
use std::alloc::{AllocError, Global};
use std::marker::Model;

/// A configuration, and the views, ascending by id.
#[derive(Clone)]
pub struct Tracker {
    config: Config,
    views: IndexMap<u64, Progress>,
}

// Written by hand, so that an owner drops one by a call, which is proved only here.
impl Drop for Tracker {
    fn drop(self) {
        let Tracker {
            config: _,
            views: _,
        } = self;
    }
}

impl Model for Tracker {
    ghost use Rattle.rb_tracker.specs.Trackers.{PlainTracker};

    ghost Value = { PlainTracker };

    ghost view = { λ tracker. record { config = tracker.config; views = tracker.views.entries } };
}

impl Tracker {
    /// A configuration, and no views.
    pub fn new(alloc: Global, config: Config) -> Tracker
        ensures { result ≡ no_views config }
    {
        Tracker {
            config,
            views: IndexMap::new(alloc),
        }
    }

    pub fn config(&self) -> &Config
        ensures { result.now ≡ self.now.config }
    {
        &self.config
    }

    /// Replaces the configuration. The views stay.
    pub fn set_config(&mut self, config: Config)
        ensures { self.new ≡ configured self.old config }
    {
        self.config = config;
    }

    /// The number of views.
    pub fn len(&self) -> usize
        ensures { result ≡ length self.now.views }
    {
        self.views.len()
    }

    /// The place of a member's view.
    pub fn place(&self, id: u64) -> Option<usize>
        ensures place { result ≡ place self.now.views id }
        ensures within { IfSome result (λ i. i < length self.now.views) }
    {
        self.views.get_index_of(&id)
    }

    /// Whether an id has a view.
    pub fn has_view(&self, id: u64) -> bool
        ensures { result ≡ has_view self.now.views id }
    {
        self.views.get(&id).is_some()
    }

    /// The id and the view at a place.
    pub fn view(&self, i: usize) -> (u64, &Progress)
        requires { i < length self.now.views }
        ensures { slice_get self.now.views i ≡ Some (result.0, result.1.now) }
    {
        let (id, view) = self.views.get_index(i).unwrap();
        (*id, view)
    }

    /// The view at a place.
    pub fn progress(&self, i: usize) -> &Progress
        requires { i < length self.now.views }
        ensures { view_at self.now.views i ≡ Some result.now }
    {
        self.views.get_index(i).unwrap().1
    }

    /// Lends the view at a place, for a change.
    pub fn view_mut(&mut self, i: usize) -> &mut Progress
        requires { i < length self.old.views }
        ensures value { view_at self.old.views i ≡ Some result.now }
        ensures* writes_back { sem 𝓛 (LendsView self.entry i result) }
    {
        &mut self.views[i]
    }

    /// The ids with a view, ascending.
    pub fn ids(&self) -> Result<IdSet, AllocError>
        ensures { IfOk result (λ ids. ids ≡ ids_of self.now.views) }
    {
        let mut ids = IdSet::new(*self.views.allocator());
        for i in 0..self.len() {
            ids.insert(self.view(i).0)?;
        }
        Ok(ids)
    }

    // The number of views with a lower id.
    fn rank(&self, id: u64) -> usize
        ensures rank { result ≡ rank (keys_of self.now.views) id }
        ensures within { result ≤ length self.now.views }
    {
        let len = self.len();
        let mut at = 0;
        while at < len {
            if self.view(at).0 >= id {
                return at;
            }
            at += 1;
        }
        at
    }

    /// Adds a view of an id that has none.
    #[tactic(auto, using(crate::proofs::ViewLaws::insert_new))]
    pub fn add(&mut self, id: u64, view: Progress) -> Result<(), AllocError>
        requires { has_view self.old.views id ≡ false }
        ensures { OnOk result (self.new ≡ with_new self.old id view) }
    {
        let place = self.rank(id);
        let last = self.views.len();
        self.views.insert(id, view)?;
        self.views.move_index(last, place);
        Ok(())
    }

    /// Removes the view of an id, if it has one.
    pub fn remove(&mut self, id: u64)
        ensures { self.new ≡ removed self.old id }
    {
        self.views.shift_remove(&id);
    }

    /// Removes all views.
    pub fn clear(&mut self)
        ensures { self.new ≡ cleared self.old }
    {
        self.views.clear();
    }

    /// The result of votes in the configuration. Takes no memory.
    pub fn vote_result(&self, votes: &Votes) -> VoteResult
        ensures { result ≡ vote_result self.now.config votes.now }
    {
        votes.result(self.config())
    }

    #[tactic(auto, using(std::proofs::lemmas::Map::Entries::entries_from_clone))]
    pub fn try_copy(&self) -> Result<Tracker, AllocError>
        ensures { IfOk result (λ copy. copy ≡ self.now) }
    {
        self.clone()
    }

    /// Whether both have equal configurations and views. Takes no memory.
    #[tactic(auto, using(crate::proofs::WindowLaws::take_more_some))]
    pub fn same(&self, other: &Tracker) -> bool
        ensures { IsTrue result ↔ (self.now ≡ other.now) }
    {
        if self.len() != other.len() || !self.config.same(&other.config) {
            return false;
        }
        for i in 0..self.len() {
            let (id, view) = self.view(i);
            let (other_id, other_view) = other.view(i);
            if id != other_id || !view.same(other_view) {
                return false;
            }
        }
        true
    }
}
