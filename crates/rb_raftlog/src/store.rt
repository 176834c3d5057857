//! The storage of a log's entries.
//!
//! A log is a base and a list of entries after it. [`crate::Log`] handles indexes and terms; a store knows neither. It is a list with
//! places from 0, and its first entries are durable.

ghost use Rattle.std.specs.Prelude.{◌≡◌, ◌+◌, ◌-◌, ◌<◌, ◌≤◌, ◌∷◌, [], length, drop, slice_index_or, IfOk, OnOk};
ghost use Rattle.rb_raftlog.specs.Held.{StoreValue, nothing, cut, extended, all_durable, without};

use crate::entries::Entries;
use crate::entry::Entry;
use crate::entry_list::EntryList;
use crate::limits::MAX_INDEX;
use crate::pieces::Pieces;
use std::alloc::{AllocError, Global};

/// A list of entries, the first of which are durable.
pub trait Store: Drop {
    ghost held: { Self → StoreValue };

    /// No entries. It takes no memory.
    fn new(alloc: Global) -> Self
        ensures { held result ≡ nothing };

    /// The number of entries.
    fn len(&self) -> usize
        ensures value { result ≡ length (held self.now).entries }
        ensures sound { (held self.now).durable_len ≤ length (held self.now).entries };

    /// The number of durable entries.
    fn durable_len(&self) -> usize
        ensures value { result ≡ (held self.now).durable_len }
        ensures sound { (held self.now).durable_len ≤ length (held self.now).entries };

    /// The entry at a place, without a search.
    fn entry(&self, k: usize) -> &Entry
        requires { k < length (held self.now).entries }
        ensures { result.now ≡ slice_index_or (held self.now).entries k result.now };

    /// The entries from a place on.
    fn pieces(&self, from: usize) -> Pieces<'_>
        requires { from ≤ length (held self.now).entries }
        ensures { result ≡ drop from (held self.now).entries };

    /// The entries from a place on, as a message holds them.
    fn share(&self, from: usize) -> Result<Entries, AllocError>
        requires from { from ≤ length (held self.now).entries }
        requires fits { length (held self.now).entries ≤ MAX_INDEX }
        ensures { IfOk result (λ entries. entries ≡ drop from (held self.now).entries) };

    /// Keeps only the first n entries.
    fn cut(&mut self, n: usize) -> Result<(), AllocError>
        ensures ok { OnOk result (held self.new ≡ cut (held self.old) n) }
        ensures within { length (held self.new).entries ≤ length (held self.old).entries };

    /// Appends an entry.
    fn push(&mut self, entry: Entry) -> Result<(), AllocError>
        requires { length (held self.old).entries < MAX_INDEX }
        ensures ok { OnOk result (held self.new ≡ extended (held self.old) (entry ∷ [])) }
        ensures within { length (held self.new).entries ≤ length (held self.old).entries + 1 };

    /// Appends a copy of each entry from a place of the list on.
    fn extend<E: EntryList>(&mut self, entries: &E, from: usize) -> Result<(), AllocError>
        requires from { from ≤ length (E.listed entries.now) }
        requires fits { length (held self.old).entries + (length (E.listed entries.now) - from) ≤ MAX_INDEX }
        ensures ok { OnOk result (held self.new ≡ extended (held self.old) (drop from (E.listed entries.now))) }
        ensures within { length (held self.new).entries ≤ length (held self.old).entries + (length (E.listed entries.now) - from) };

    /// Marks all entries as durable.
    fn mark_all_durable(&mut self) -> Result<(), AllocError>
        ensures ok { OnOk result (held self.new ≡ all_durable (held self.old)) }
        ensures within { length (held self.new).entries ≤ length (held self.old).entries };

    /// Drops the first n entries.
    fn drop_front(&mut self, n: usize)
        requires { n ≤ (held self.old).durable_len }
        ensures { held self.new ≡ without (held self.old) n };

    /// Drops all entries.
    fn clear(&mut self)
        ensures { held self.new ≡ nothing };

    /// Copies the entries.
    fn try_copy(&self) -> Result<Self, AllocError>
        ensures { IfOk result (λ copy. held copy ≡ held self.now) };
}
