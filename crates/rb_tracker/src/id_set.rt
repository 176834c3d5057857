//! Sets of ids.
//!
//! Voters and learners are sets. The code keeps the ids as an ascending list, so equal sets are equal lists.
ghost use Rattle.std.specs.Prelude.{◌≡◌, ◌≤◌, ◌↔◌, ◌==◌, [], length, IsTrue, IfOk, OnOk, OnErr};
ghost use Rattle.rb_tracker.specs.Sets.{has, with_id, without, rank, union, set_of, IsAscending};

use rb_vocab::Shared;
use smallvec::SmallVec;
use std::alloc::{AllocError, Global};
use std::marker::Model;

/// A set of ids. Up to eight ids are stored in the value itself, and take no memory.
pub struct IdSet {
    ids: SmallVec<u64, 8>,
}

// Written by hand, so that an owner drops one by a call, which is proved only here.
impl Drop for IdSet {
    fn drop(self) {
        let IdSet { ids: _ } = self;
    }
}

impl Model for IdSet {
    ghost use Rattle.std.specs.Prelude.{List, ℕ};
    ghost use Rattle.rb_tracker.specs.Sets.{IsAscending};

    ghost Value = { List ℕ };

    ghost view = { λ set. set.ids.items };

    ghost invariant = { λ set. IsAscending set.ids.items };
}

impl IdSet {
    /// The empty set.
    pub fn new(alloc: Global) -> IdSet
        ensures { result ≡ [] }
    {
        IdSet {
            ids: SmallVec::new(alloc),
        }
    }

    /// The ids of a list, in whatever order it has them.
    pub fn of(alloc: Global, ids: &[u64]) -> Result<IdSet, AllocError>
        ensures { IfOk result (λ set. set ≡ set_of ids.now) }
    {
        let mut set = IdSet::new(alloc);
        set.extend(ids)?;
        Ok(set)
    }

    /// The ids, ascending.
    pub fn as_slice(&self) -> &[u64]
        ensures ids { result.now ≡ self.now }
        ensures ascending { IsAscending self.now }
    {
        self.ids.as_slice()
    }

    pub fn len(&self) -> usize
        ensures { result ≡ length self.now }
    {
        self.ids.len()
    }

    pub fn is_empty(&self) -> bool
        ensures { result ≡ (length self.now == 0) }
    {
        self.ids.is_empty()
    }

    pub fn contains(&self, id: u64) -> bool
        ensures { result ≡ has self.now id }
    {
        for x in self.ids.as_slice() {
            if *x == id {
                return true;
            }
        }
        false
    }

    /// Removes all ids.
    pub fn clear(&mut self)
        ensures { self.new ≡ [] }
    {
        self.ids.clear();
    }

    // The number of lower ids.
    fn rank(&self, id: u64) -> usize
        ensures rank { result ≡ rank self.now id }
        ensures within { result ≤ length self.now }
    {
        let mut at = 0;
        for x in self.ids.as_slice() {
            if *x >= id {
                return at;
            }
            at += 1;
        }
        at
    }

    /// Removes an id, if it is there.
    pub fn remove(&mut self, id: u64)
        ensures { self.new ≡ without self.old id }
    {
        self.ids.retain(|x| *x != id);
    }

    /// Inserts an id. If memory is refused, nothing changes.
    pub fn insert(&mut self, id: u64) -> Result<(), AllocError>
        ensures ok { OnOk result (self.new ≡ with_id self.old id) }
        ensures err { OnErr result (self.new ≡ self.old) }
    {
        if self.contains(id) {
            return Ok(());
        }
        let at = self.rank(id);
        self.ids.insert(at, id)?;
        Ok(())
    }

    /// Inserts the ids of a list.
    pub fn extend(&mut self, ids: &[u64]) -> Result<(), AllocError>
        ensures { OnOk result (self.new ≡ union self.old ids.now) }
    {
        for id in ids {
            self.insert(*id)?;
        }
        Ok(())
    }

    /// The ids, as a list that is shared and never changes.
    pub fn to_shared(&self) -> Result<Shared<u64>, AllocError>
        ensures { IfOk result (λ list. list ≡ self.now) }
    {
        Ok(Shared::new(Vec::from_slice(*self.ids.allocator(), self.ids.as_slice())?)?)
    }

    pub fn try_copy(&self) -> Result<IdSet, AllocError>
        ensures { IfOk result (λ copy. copy ≡ self.now) }
    {
        Ok(IdSet {
            ids: SmallVec::from_slice(*self.ids.allocator(), self.ids.as_slice())?,
        })
    }

    /// Whether both sets are equal. Takes no memory.
    pub fn same(&self, other: &IdSet) -> bool
        ensures { IsTrue result ↔ (self.now ≡ other.now) }
    {
        self.ids.as_slice() == other.ids.as_slice()
    }
}

impl Clone for IdSet {
    ghost is_clone = { λ set copy. copy ≡ set };

    fn clone(&self) -> Result<IdSet, AllocError> {
        self.try_copy()
    }
}
