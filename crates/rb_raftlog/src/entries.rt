//! The entries in a message.
//!
//! A leader sends the same entries to many followers, and a session keeps hundreds of clusters with messages in flight. So a message has
//! one pointer to a list that never changes. Copies share the list, and it shares the pages of its log. No entries take no memory.

ghost use Rattle.std.specs.Prelude.{◌≡◌, ◌++◌, ◌-◌, ◌<◌, ◌≤◌, ◌↔◌, [], length, take, drop, slice_index_or, vec_len, IsTrue, IfOk};
ghost use Rattle.rb_raftlog.specs.Log.{last_of};
ghost use Rattle.rb_raftlog.specs.Equals.{same_lists, lists_per_entry};

use crate::entry::Entry;
use crate::entry_list::{EntryList, EntrySlice, append_from};
use crate::limits::MAX_INDEX;
use crate::pages::Pages;
use crate::pieces::Pieces;
use std::alloc::{AllocError, Global};
use std::marker::Model;
use std::rc::Rc;

/// Entries that are shared and never change. Contracts see the list of the entries.
pub struct Entries {
    // `None` if there are no entries.
    list: Option<Rc<Pages<Entry>>>,
}

// Written by hand, so that an owner drops one by a call, which is proved only here.
impl Drop for Entries {
    fn drop(self) {
        let Entries { list: _ } = self;
    }
}

impl Model for Entries {
    ghost use Rattle.std.specs.Prelude.{List};
    ghost use Rattle.rb_raftlog.specs.declared.entry.Entry.{Entry};
    ghost use Rattle.rb_raftlog.specs.Shares.{entries_behind};

    ghost Value = { List Entry };

    ghost view = { λ e. entries_behind e.list };
}

// A copy of the first n items.
#[tactic(auto, using(crate::proofs::SavedLaws::all_taken))]
fn first_of(list: &Pages<Entry>, n: usize) -> Result<Pages<Entry>, AllocError>
    requires { n ≤ length list.now }
    ensures { IfOk result (λ front. front ≡ take n list.now) }
{
    let mut front = list.try_copy()?;
    if n == front.len() {
        return Ok(front);
    }
    front.cut(n)?;
    Ok(front)
}

impl Entries {
    /// No entries. It takes no memory.
    pub fn empty() -> Entries
        ensures { result ≡ [] }
    {
        Entries { list: None }
    }

    /// The entries of a list in pages.
    pub(crate) fn of(list: Pages<Entry>) -> Result<Entries, AllocError>
        ensures { IfOk result (λ entries. entries ≡ list) }
    {
        if list.len() == 0 {
            return Ok(Entries::empty());
        }
        let alloc = list.allocator();
        Ok(Entries {
            list: Some(Rc::new(alloc, list)?),
        })
    }

    /// Copies of the entries from a place of a list on.
    pub(crate) fn copied(
        alloc: Global,
        entries: &[Entry],
        from: usize,
    ) -> Result<Entries, AllocError>
        requires from { from ≤ length entries.now }
        requires fits { length entries.now - from ≤ MAX_INDEX }
        ensures { IfOk result (λ shared. shared ≡ drop from entries.now) }
    {
        let mut list = Pages::new(alloc);
        append_from(&mut list, &EntrySlice { entries }, from)?;
        Entries::of(list)
    }

    /// These entries.
    pub fn from_vec(entries: Vec<Entry>) -> Result<Entries, AllocError>
        requires { vec_len entries ≤ MAX_INDEX }
        ensures { IfOk result (λ shared. shared ≡ entries.items) }
    {
        Entries::copied(*entries.allocator(), &entries, 0)
    }

    /// The number of entries.
    pub fn len(&self) -> usize
        ensures { result ≡ length self.now }
    {
        EntryList::len(self)
    }

    /// The entry at a place, counted from 0, without a search.
    pub fn entry(&self, k: usize) -> &Entry
        requires { k < length self.now }
        ensures { result.now ≡ slice_index_or self.now k result.now }
    {
        EntryList::entry(self, k)
    }

    /// Whether there are no entries.
    pub fn is_empty(&self) -> bool
        ensures { IsTrue result ↔ (self.now ≡ []) }
    {
        self.len() == 0
    }

    /// The term of the last entry, if there is one. Costs no search.
    pub fn last_term(&self) -> Option<u64>
        ensures { result ≡ last_of self.now }
    {
        let len = self.len();
        if len == 0 {
            return None;
        }
        Some(self.entry(len - 1).term)
    }

    /// The entries, in pieces.
    pub fn pieces(&self) -> Pieces<'_>
        ensures { result ≡ self.now }
    {
        match &self.list {
            None => Pieces::one(&[]),
            Some(list) => Pieces::of(list, 0),
        }
    }

    /// The first n of these entries, followed by others. The cost is at most a page, and the others. More entries than there are indexes are
    /// refused like a lack of memory.
    #[tactic(auto, using(crate::proofs::SavedLaws::all_taken))]
    pub(crate) fn followed_by(&self, n: usize, others: &Entries) -> Result<Entries, AllocError>
        requires { n ≤ length self.now }
        ensures { IfOk result (λ both. both ≡ take n self.now ++ others.now) }
    {
        let Some(list) = &self.list else {
            return others.try_copy();
        };
        if n.saturating_add(others.len()) as u64 > MAX_INDEX {
            return Err(AllocError);
        }
        let mut list = first_of(list, n)?;
        append_from(&mut list, others, 0)?;
        Entries::of(list)
    }

    /// Copies the entries, at one pointer.
    pub fn try_copy(&self) -> Result<Entries, AllocError>
        ensures { IfOk result (λ copy. copy ≡ self.now) }
    {
        match &self.list {
            None => Ok(Entries::empty()),
            Some(list) => Ok(Entries {
                list: Some(list.clone()?),
            }),
        }
    }

    /// Whether both have equal entries. Compares lengths first, and then entry by entry.
    pub fn same(&self, other: &Entries) -> bool
        ensures { IsTrue result ↔ (self.now ≡ other.now) }
    {
        let len = self.len();
        if len != other.len() {
            return false;
        }
        for k in 0..len {
            if !self.entry(k).same(other.entry(k)) {
                return false;
            }
        }
        true
    }
}

impl PartialEq for Entries {
    ghost eq = { same_lists };

    ghost laws = { lists_per_entry };

    fn eq(&self, other: &Entries) -> bool {
        self.same(other)
    }
}

impl Clone for Entries {
    ghost is_clone = { λ entries copy. copy ≡ entries };

    fn clone(&self) -> Result<Entries, AllocError> {
        self.try_copy()
    }
}

impl EntryList for Entries {
    ghost listed = { λ e. e };

    fn len(&self) -> usize {
        match &self.list {
            None => 0,
            Some(list) => list.len(),
        }
    }

    fn entry(&self, k: usize) -> &Entry {
        match &self.list {
            None => unreachable!(),
            Some(list) => list.item(k),
        }
    }
}
