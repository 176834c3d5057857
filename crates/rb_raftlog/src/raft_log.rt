//! The trait of a log.
//!
//! Raft replicates a log (Ongaro's thesis, chapter 3). A node's log has entries at ascending indexes after a base; a snapshot replaces the
//! entries up to the base (chapter 5). A leader appends its own entries. A follower appends a leader's entries after an entry that both
//! have, and drops its own entries that conflict with them (section 3.5). Entries up to the durable index are in stable storage.
//!
//! Contracts see a log as one plain record: its base, the base's term, the list of entries, and the last durable index. In costs, n is the
//! number of entries and p the number of pages, about n / 64. A copy of an entry costs a pointer.

ghost use Rattle.std.specs.Prelude.{◌≡◌, ◌≢◌, ◌+◌, ◌-◌, ◌<◌, ◌≤◌, ◌↔◌, Ok, Err, length, IsTrue, IsOk, IfOk, IfErr, OnOk};
ghost use Rattle.rb_raftlog.specs.Log.{LogValue, IsLog, IsCompacted, fresh, first, last, last_term, is_up_to_date, term_at, entry_at, entries_from, entries_after, has_change, hint, appended, given_way, answer, own, not_durable, made_durable, restored, restarted};

use crate::entries::Entries;
use crate::entry::Entry;
use crate::limits::MAX_INDEX;
use crate::pieces::Pieces;
use crate::snapshot::Snapshot;
use std::alloc::{AllocError, Global};

/// Why a log has no entry at an index.
#[derive(Clone, Copy, PartialEq, Eq, Debug)]
pub enum LogFault {
    /// It is below the base, or for entries at the base.
    Compacted,
    /// It is past the last index, or for entries from an index on past the one after it.
    Unavailable,
}

/// Why a log can't be compacted.
#[derive(Clone, Copy, PartialEq, Eq, Debug)]
pub enum CompactFault {
    /// The index is at or below the base.
    AlreadyCompacted,
    /// The index is above what is applied.
    PastApplied,
    /// Memory was refused. This crate's logs never return it.
    OutOfMemory,
}

/// The result of appending after an entry.
#[derive(Clone, Copy, PartialEq, Eq, Debug)]
pub enum Appended {
    /// The log matches the leader's up to this index.
    Matched(u64),
    /// The log doesn't have the entry to append after; the leader may try at this index.
    Refused(u64),
    /// An entry that is committed would have to change, at this index.
    BelowCommit(u64),
}

/// A log: one list of entries on a base, and the last index that is durable.
pub trait RaftLog: Drop {
    ghost plain: { Self → LogValue };

    /// A log of this base, durable there, with no entries.
    fn fresh(alloc: Global, index: u64, term: u64) -> Result<Self, AllocError>
        requires { index ≤ MAX_INDEX }
        ensures { IfOk result (λ log. plain log ≡ fresh index term) };

    /// The index after the base. Costs no search.
    fn first_index(&self) -> u64
        ensures { result ≡ first (plain self.now) };

    /// The index of the last entry, or the base if there is none. Costs no search.
    fn last_index(&self) -> u64
        ensures value { result ≡ last (plain self.now) }
        ensures sound { IsLog (plain self.now) };

    /// The term of the entry at the base.
    fn base_term(&self) -> u64
        ensures { result ≡ (plain self.now).base_term };

    /// The last index that is durable.
    fn durable(&self) -> u64
        ensures { result ≡ (plain self.now).durable };

    /// The term at an index: the base's, or that of the entry there. It costs no search.
    fn term_at(&self, index: u64) -> Result<u64, LogFault>
        ensures { result ≡ term_at (plain self.now) index };

    /// The entry at an index. It costs no search and copies nothing, so going over the entries between two indexes costs what
    /// they are.
    fn entry_at(&self, index: u64) -> Result<&Entry, LogFault>
        ensures found { IfOk result (λ entry. entry_at (plain self.now) index ≡ Ok entry.now) }
        ensures none { IfErr result (λ fault. entry_at (plain self.now) index ≡ Err fault) };

    /// The term of the last entry, or the base's if there is none. It costs no search.
    fn last_term(&self) -> u64
        ensures { result ≡ last_term (plain self.now) };

    /// Whether a log that ends at this index with this term is at least as new as this one, so that its node may have this one's
    /// vote (Ongaro's thesis, section 3.6.1). It costs no search.
    fn is_up_to_date(&self, index: u64, term: u64) -> bool
        ensures { result ≡ is_up_to_date (plain self.now) index term };

    /// The entries from an index on, in pieces. It costs no search and copies nothing.
    fn entries(&self, from: u64) -> Result<Pieces<'_>, LogFault>
        ensures { result ≡ entries_from (plain self.now) from };

    /// The entries past an index, as a message holds them; all of them where the index is below the base. A plain log copies each of
    /// them; a split one copies a pointer for each page of them.
    fn entries_after(&self, index: u64) -> Result<Entries, AllocError>
        ensures value { IfOk result (λ entries. entries ≡ entries_after (plain self.now) index) }
        ensures within { IfOk result (λ entries. length entries ≤ MAX_INDEX - index) };

    /// Whether an entry past one index and up to another changes the configuration. The cost is the entries between them.
    fn has_change(&self, after: u64, upto: u64) -> bool
        ensures { result ≡ has_change (plain self.now) after upto };

    /// The greatest index from the base on, at most `index` and the last one, whose term is at most `term`; 0 if there is none.
    /// It goes down from `index` and costs what it goes past: terms need not ascend.
    fn hint(&self, index: u64, term: u64) -> u64
        ensures { result ≡ hint (plain self.now) index term };

    /// The entries that [`RaftLog::append_shared`] with the same arguments removes, in order. It costs nothing if the log ends at `prev` or
    /// before; otherwise what the append compares, and what `entries_after` costs for the removed entries.
    fn given_way(
        &self,
        prev: u64,
        prev_term: u64,
        entries: &Entries,
        commit: u64,
    ) -> Result<Entries, AllocError>
        requires { prev + length entries.now ≤ MAX_INDEX }
        ensures { IfOk result (λ gone. gone ≡ given_way (plain self.now) prev prev_term entries.now commit) };

    /// Appends the entries of a leader after index `prev`, if the log has this term there. The first entry that differs in term from the
    /// log's, or goes past its end, and all after it replace the log's entries there; dropped entries aren't durable any more. Nothing up
    /// to `commit` changes. The cost is the sent and the dropped entries, and at most a page; for a refusal, the entries that the hint goes
    /// past.
    fn append_after(
        &mut self,
        prev: u64,
        prev_term: u64,
        entries: &[Entry],
        commit: u64,
    ) -> Result<Appended, AllocError>
        requires { prev + length entries.now ≤ MAX_INDEX }
        ensures log { OnOk result (plain self.new ≡ appended (plain self.old) prev prev_term entries.now commit) }
        ensures answer { IfOk result (λ told. told ≡ answer (plain self.old) prev prev_term entries.now commit) };

    /// [`RaftLog::append_after`] of what a message holds.
    fn append_shared(
        &mut self,
        prev: u64,
        prev_term: u64,
        entries: &Entries,
        commit: u64,
    ) -> Result<Appended, AllocError>
        requires { prev + length entries.now ≤ MAX_INDEX }
        ensures log { OnOk result (plain self.new ≡ appended (plain self.old) prev prev_term entries.now commit) }
        ensures answer { IfOk result (λ told. told ≡ answer (plain self.old) prev prev_term entries.now commit) };

    /// Appends a leader's own entry. The cost is one entry, and in a split log with a shared last page at most a page more.
    fn push_own(&mut self, entry: Entry) -> Result<(), AllocError>
        requires { last (plain self.old) < MAX_INDEX }
        ensures { OnOk result (plain self.new ≡ own (plain self.old) entry) };

    /// The entries past the last durable one, in pieces. It costs no search and copies nothing.
    fn not_durable(&self) -> Pieces<'_>
        ensures { result ≡ not_durable (plain self.now) };

    /// Marks all entries as durable: what they replaced is gone.
    fn mark_durable(&mut self) -> Result<(), AllocError>
        ensures { OnOk result (plain self.new ≡ made_durable (plain self.old)) };

    /// Drops the entries up to `index`, which becomes the base. A split log drops the pages that end there and moves the list of the
    /// others; a plain one moves the entries that stay. Neither takes memory.
    fn compact(&mut self, index: u64, applied: u64) -> Result<(), CompactFault>
        requires { applied ≤ (plain self.old).durable }
        ensures value { IsCompacted (plain self.old) index applied result (plain self.new) }
        ensures memory { result ≢ Err CompactFault.OutOfMemory };

    /// Replaces all entries by a snapshot. Until the log is marked as durable, what was saved is kept, at what `entries_after` costs.
    fn restore(&mut self, snapshot: &Snapshot) -> Result<(), AllocError>
        requires { snapshot.now.index ≤ MAX_INDEX }
        ensures { OnOk result (plain self.new ≡ restored (plain self.old) snapshot.now) };

    /// Goes back to the saved entries, after the snapshot that was saved with them. The cost is the entries that come back. More of them than
    /// there are indexes after the snapshot are refused like a lack of memory.
    fn restart(&mut self, start: &Snapshot) -> Result<(), AllocError>
        requires { start.now.index ≤ MAX_INDEX }
        ensures { OnOk result (plain self.new ≡ restarted (plain self.old) start.now) };

    /// Copies the log. A plain log copies n entries; a split one copies p pointers to pages.
    fn try_copy(&self) -> Result<Self, AllocError>
        ensures { IfOk result (λ copy. plain copy ≡ plain self.now) };

    /// Whether both logs are equal. Compares base, length, durable index and last term first, and then entry by entry.
    fn same(&self, other: &Self) -> bool
        ensures { IsTrue result ↔ (plain self.now ≡ plain other.now) };
}

/// The entry at an index at which the log has one.
pub fn held_entry<L: RaftLog>(log: &L, index: u64) -> &Entry
    requires { IsOk (entry_at (L.plain log.now) index) }
    ensures { entry_at (L.plain log.now) index ≡ Ok result.now }
{
    match log.entry_at(index) {
        Ok(entry) => entry,
        Err(_) => unreachable!(),
    }
}
