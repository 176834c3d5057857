//! Lists of entries, as one trait.
//!
//! A follower's log appends entries from a slice or from a message. Both lend each entry by its place.

ghost use Rattle.std.specs.Prelude.{◌≡◌, ◌+◌, ◌-◌, ◌<◌, ◌≤◌, ◌++◌, length, drop, slice_index_or, OnOk};

use crate::entry::Entry;
use crate::limits::MAX_INDEX;
use crate::pages::Pages;
use std::alloc::AllocError;

/// A list of entries.
pub trait EntryList {
    ghost use Rattle.std.specs.Prelude.{List};
    ghost use Rattle.rb_raftlog.specs.declared.entry.Entry.{Entry};

    ghost listed: { Self → List Entry };

    fn len(&self) -> usize
        ensures { result ≡ length (listed self.now) };

    /// The entry at a place, without a search.
    fn entry(&self, k: usize) -> &Entry
        requires { k < length (listed self.now) }
        ensures { result.now ≡ slice_index_or (listed self.now) k result.now };
}

/// A slice as a list of entries.
#[derive(Drop)]
pub(crate) struct EntrySlice<'a> {
    pub(crate) entries: &'a [Entry],
}

impl EntryList for EntrySlice<'_> {
    ghost listed = { λ s. s.entries.now };

    fn len(&self) -> usize {
        self.entries.len()
    }

    fn entry(&self, k: usize) -> &Entry {
        &self.entries[k]
    }
}

/// Appends a copy of each entry from a place on.
pub(crate) fn push_from<E: EntryList>(
    copies: &mut Vec<Entry>,
    entries: &E,
    from: usize,
) -> Result<(), AllocError>
    requires { from ≤ length (E.listed entries.now) }
    ensures ok { OnOk result (copies.new.items ≡ copies.old.items ++ drop from (E.listed entries.now)) }
    ensures kept { length copies.old.items ≤ length copies.new.items }
    ensures within { length copies.new.items ≤ length copies.old.items + (length (E.listed entries.now) - from) }
{
    for k in from..entries.len() {
        copies.push(entries.entry(k).try_copy()?)?;
    }
    Ok(())
}

/// Appends a copy of each entry from a place on to pages.
pub(crate) fn append_from<E: EntryList>(
    pages: &mut Pages<Entry>,
    entries: &E,
    from: usize,
) -> Result<(), AllocError>
    requires from { from ≤ length (E.listed entries.now) }
    requires fits { length pages.old + (length (E.listed entries.now) - from) ≤ MAX_INDEX }
    ensures ok { OnOk result (pages.new ≡ pages.old ++ drop from (E.listed entries.now)) }
    ensures kept { length pages.old ≤ length pages.new }
    ensures within { length pages.new ≤ length pages.old + (length (E.listed entries.now) - from) }
{
    for k in from..entries.len() {
        pages.push(entries.entry(k).try_copy()?)?;
    }
    Ok(())
}
