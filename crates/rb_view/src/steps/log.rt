//! Rows for changed log entries.
//!
//! The entries that a node knew to be committed when it was written last stay, unless it restarts ([`committed_entries_stay`]). So a comparison
//! begins after them, and costs the entries that aren't committed, however long the log is.
//!
//! [`committed_entries_stay`]: crate::steps::committed_entries_stay

ghost use Rattle.std.specs.Prelude.{◌≡◌, ◌+◌, ◌-◌, ◌<◌, ◌≤◌, not, ◌∷◌, [], ◌++◌, OnOk, Some, codes, slice_get};
ghost use Rattle.rb_raftlog.specs.Log.{entries_after, last};
ghost use Rattle.rb_view.specs.ItemRows.{entry_row};
ghost use Rattle.rb_view.specs.Kept.{texts_of};
ghost use Rattle.rb_view.specs.Rows.{next_text};
ghost use Rattle.rb_view.specs.Logs.{entry_rows, is_same_to, log_changes_to, log_from, nearest, same_entry, same_up_to, stays_since};

use crate::rows::{Cell, keep_row};
use rb_raftlog::{Entry, RaftLog, held_entry};
use rb_script::Lines;
use std::alloc::AllocError;

fn is_other(entry: &Entry, other: &Entry) -> bool
    ensures { result ≡ not (same_entry entry.now other.now) }
{
    !entry.same(other)
}

/// The entry at an index that the log has.
fn entry_at<L: RaftLog>(log: &L, index: u64) -> &Entry
    requires above { (L.plain log.now).base < index }
    requires within { index ≤ last (L.plain log.now) }
    ensures { slice_get (L.plain log.now).entries (index - (L.plain log.now).base - 1) ≡ Some result.now }
{
    held_entry(log, index)
}

// The index, or the nearest one that the log has.
fn nearest<L: RaftLog>(log: &L, index: u64) -> u64
    ensures value { result ≡ nearest (L.plain log.now) index }
    ensures above { (L.plain log.now).base ≤ result }
    ensures within { result ≤ last (L.plain log.now) }
{
    let base = log.first_index() - 1;
    base.max(index.min(log.last_index()))
}

// Up to which index the entries past an index are those of before, where both logs may have entries past it.
fn stays_past<L: RaftLog>(old: &L, new: &L, from: u64) -> u64
    requires held { (L.plain old.now).base ≤ from }
    requires above { (L.plain new.now).base ≤ from }
    requires within { from ≤ last (L.plain new.now) }
    ensures value { result ≡ same_up_to (L.plain old.now) (L.plain new.now) from }
    ensures above { from ≤ result }
    ensures within { result ≤ last (L.plain new.now) }
{
    let last = new.last_index().min(old.last_index());
    for index in from..last {
        if is_other(entry_at(old, index + 1), entry_at(new, index + 1)) {
            return index;
        }
    }
    from.max(last)
}

// Up to which index the entries of a log are those of before, where those up to an index are known to be: they aren't compared.
fn stays<L: RaftLog>(old: &L, new: &L, known: u64) -> u64
    ensures value { result ≡ stays_since (L.plain old.now) (L.plain new.now) known }
    ensures above { (L.plain new.now).base ≤ result }
    ensures within { result ≤ last (L.plain new.now) }
{
    let from = nearest(new, known);
    if from < old.first_index() - 1 {
        return from;
    }
    stays_past(old, new, from)
}

// Whether nothing was dropped and nothing added.
fn is_same_log<L: RaftLog>(old: &L, new: &L, kept: u64) -> bool
    ensures { result ≡ is_same_to (L.plain old.now) (L.plain new.now) kept }
{
    old.first_index() == new.first_index()
        && old.base_term() == new.base_term()
        && kept == old.last_index()
        && kept == new.last_index()
}

/// Adds the rows of a log whose entries up to an index are those of before.
pub(crate) fn keep_log_from<L: RaftLog>(
    texts: &mut Lines,
    id: u64,
    log: &L,
    kept: u64,
) -> Result<(), AllocError>
    requires above { (L.plain log.now).base ≤ kept }
    requires within { kept ≤ last (L.plain log.now) }
    ensures { OnOk result (texts.new ≡ texts.old ++ texts_of (log_from id (L.plain log.now) kept)) }
{
    let cells = [
        Cell::Number(id),
        Cell::Number(log.base_term()),
        Cell::Number(log.first_index() - 1),
        Cell::Number(kept),
    ];
    keep_row(texts, b"log", &cells)?;
    keep_entries(texts, log, kept)
}

// Adds the rows of the entries past an index.
fn keep_entries<L: RaftLog>(texts: &mut Lines, log: &L, kept: u64) -> Result<(), AllocError>
    requires above { (L.plain log.now).base ≤ kept }
    requires within { kept ≤ last (L.plain log.now) }
    ensures { OnOk result (texts.new ≡ texts.old ++ texts_of (entry_rows (kept + 1) (entries_after (L.plain log.now) kept))) }
{
    let last = log.last_index();
    for index in kept + 1..last + 1 {
        keep_entry(texts, index, entry_at(log, index))?;
    }
    Ok(())
}

fn keep_entry(texts: &mut Lines, index: u64, entry: &Entry) -> Result<(), AllocError>
    ensures { OnOk result (texts.new ≡ texts.old ++ next_text (entry_row (codes "entry") index entry.now) ∷ []) }
{
    let cells = [
        Cell::Number(index),
        Cell::Number(entry.term),
        Cell::Body(&entry.body),
    ];
    keep_row(texts, b"entry", &cells)
}

/// Adds the rows of a log, where it is not as it was. The entries up to an index are known to be those of before.
pub(crate) fn keep_log<L: RaftLog>(
    texts: &mut Lines,
    id: u64,
    old: &L,
    new: &L,
    known: u64,
) -> Result<(), AllocError>
    ensures { OnOk result (texts.new ≡ texts.old ++ texts_of (log_changes_to id (L.plain old.now) (L.plain new.now) (stays_since (L.plain old.now) (L.plain new.now) known))) }
{
    let stays = stays(old, new, known);
    if is_same_log(old, new, stays) {
        return Ok(());
    }
    keep_log_from(texts, id, new, stays)
}
