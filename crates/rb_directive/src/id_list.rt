//! Ids in the order in which a directive names them, without allocation.

ghost use Rattle.std.specs.Prelude.{◌≡◌, ◌<◌, [], ◌∷◌, ◌++◌, length, nat_lt};
ghost use Rattle.rb_directive.specs.declared.limits.TheConstants.{MAX_IDS};
ghost use Rattle.rb_directive.specs.IdLists.{holds, share};

use crate::limits::MAX_IDS;
use std::marker::Model;

/// Ids in the order in which they are named, with repetitions. In contracts it is the list of ids.
#[derive(Drop)]
pub struct IdList {
    ids: [u8; MAX_IDS],
    len: usize,
}

impl Model for IdList {
    ghost use Rattle.std.specs.Prelude.{List, ℕ, ◌≤◌, take};
    ghost use Rattle.rb_directive.specs.declared.limits.TheConstants.{MAX_IDS};

    ghost Value = { List ℕ };

    ghost view = { λ l. take l.len l.ids };

    ghost invariant = { λ l. l.len ≤ MAX_IDS };
}

impl IdList {
    /// Makes an empty list.
    pub(crate) fn new() -> IdList
        ensures { result ≡ [] }
    {
        IdList {
            ids: [0; MAX_IDS],
            len: 0,
        }
    }

    /// Makes a list of one id.
    pub(crate) fn one(id: u8) -> IdList
        ensures { result ≡ id ∷ [] }
    {
        let mut ids = IdList::new();
        ids.push(id);
        ids
    }

    /// The ids.
    pub fn as_slice(&self) -> &[u8]
        ensures { result.now ≡ self.now }
    {
        &self.ids[..self.len]
    }

    /// Whether there is room for another id.
    pub(crate) fn has_room(&self) -> bool
        ensures { result ≡ nat_lt (length self.now) MAX_IDS }
    {
        self.len < MAX_IDS
    }

    /// Appends an id.
    pub(crate) fn push(&mut self, id: u8)
        requires { length self.old < MAX_IDS }
        ensures { self.new ≡ self.old ++ id ∷ [] }
    {
        self.ids[self.len] = id;
        self.len += 1;
    }

    /// Copies the list.
    pub(crate) fn copy(&self) -> IdList
        ensures { result ≡ self.now }
    {
        IdList {
            ids: self.ids,
            len: self.len,
        }
    }

    /// Whether the list contains the id.
    pub fn holds(&self, id: u64) -> bool
        ensures { result ≡ holds self.now id }
    {
        self.as_slice().iter().any(|other| u64::from(*other) == id)
    }

    /// Whether the lists have an id in common.
    pub(crate) fn shares(&self, other: &IdList) -> bool
        ensures { result ≡ share self.now other.now }
    {
        self.as_slice().iter().any(|id| other.holds(u64::from(*id)))
    }
}
