//! Compacting a node's log.
//!
//! The log drops entries that are applied and durable (Ongaro's thesis, section 5.1). A restart begins at the log's base, so what these entries come
//! to is kept: their payloads join the content of the saved snapshot, and their changes its configuration.

ghost use Rattle.std.specs.Prelude.{◌≡◌, ◌+◌, ◌<◌, ◌≤◌, min, length, slice_get, Some, IfOk, OnOk};
ghost use Rattle.rb_raftlog.specs.declared.limits.TheConstants.{MAX_INDEX};
ghost use Rattle.rb_node.specs.Compacting.{content_after, config_with, config_after, entries_to, start_at, IsCompactedTo};

use crate::state::State;
use rb_message::Install;
use rb_raftlog::{Body, CompactFault, Content, Entry, RaftLog, Snapshot, held_entry};
use rb_tracker::{ChangeFault, Config};
use std::alloc::AllocError;

// Appends the payloads of the entries.
fn append_payloads(content: &mut Content, entries: &[Entry]) -> Result<(), AllocError>
    ensures { OnOk result (content.new ≡ content_after content.old entries.now) }
{
    for entry in entries {
        if let Body::Payload(bytes) = &entry.body {
            content.append(bytes.as_slice())?;
        }
    }
    Ok(())
}

// The configuration after an entry. A change that can't be made is left out.
fn config_with(config: Config, body: &Body) -> Result<Config, AllocError>
    ensures { IfOk result (λ c. c ≡ config_with config body.now) }
{
    let Body::Change { transition, words } = body else {
        return Ok(config);
    };
    match config.changed(*transition, words.as_slice()) {
        Ok(changed) => Ok(changed),
        Err(ChangeFault::OutOfMemory) => Err(AllocError),
        Err(_) => Ok(config),
    }
}

// The configuration after the entries.
fn config_after(first: &Config, entries: &[Entry]) -> Result<Config, AllocError>
    ensures { IfOk result (λ c. c ≡ config_after first.now entries.now) }
{
    let mut config = first.try_copy()?;
    for entry in entries {
        config = config_with(config, &entry.body)?;
    }
    Ok(config)
}

impl<L: RaftLog> State<L> {
    // The number of entries after the saved snapshot up to an index.
    #[tactic(auto, using(crate::proofs::Between::between_sizes))]
    fn len_to(&self, index: u64) -> usize
        ensures { result ≡ length (entries_to self.now index) }
    {
        let after = self.start.snapshot().index.max(self.log.first_index() - 1);
        index.min(self.log.last_index()).saturating_sub(after) as usize
    }

    // One of these entries.
    #[tactic(auto, using(crate::proofs::Between::between_sizes, crate::proofs::Between::between_found, crate::proofs::Between::between_is_found))]
    fn entry_to(&self, index: u64, k: usize) -> &Entry
        requires { k < length (entries_to self.now index) }
        ensures { slice_get (entries_to self.now index) k ≡ Some result.now }
    {
        let after = self.start.snapshot().index.max(self.log.first_index() - 1);
        held_entry(&self.log, after + 1 + k as u64)
    }

    // These entries, at a pointer each.
    #[tactic(auto, using(rb_tracker::proofs::WindowLaws::take_more_some))]
    fn entries_to(&self, index: u64) -> Result<Vec<Entry>, AllocError>
        ensures { IfOk result (λ entries. entries.items ≡ entries_to self.now index) }
    {
        let len = self.len_to(index);
        let mut entries = Vec::with_capacity(self.alloc, len)?;
        for k in 0..len {
            entries.push(self.entry_to(index, k).try_copy()?)?;
        }
        Ok(entries)
    }

    // The snapshot at an index up to which the log has all entries.
    fn start_at(&self, index: u64) -> Result<Install, AllocError>
        requires { index ≤ MAX_INDEX }
        ensures { IfOk result (λ start. start ≡ start_at self.now index) }
    {
        let start = self.start.snapshot();
        let entries = self.entries_to(index)?;
        let mut content = start.content.try_copy()?;
        append_payloads(&mut content, entries.as_slice())?;
        let first = Config::of_state(self.alloc, &start.config)?;
        let config = config_after(&first, entries.as_slice())?;
        Install::new(
            self.alloc,
            Snapshot {
                index,
                term: self.term_or_0(index),
                content,
                config: config.to_state()?,
            },
        )
    }

    // Drops the log's entries up to an index that is above the base, applied and durable.
    fn compact_within(&mut self, index: u64, applied: u64) -> Result<(), CompactFault>
        requires limit { applied ≡ min self.old.applied self.old.log.durable }
        requires within { index ≤ applied }
        requires above { self.old.log.base + 1 ≤ index }
        ensures { IsCompactedTo self.old index result self.new }
    {
        let Ok(start) = self.start_at(index) else {
            return Err(CompactFault::OutOfMemory);
        };
        self.log.compact(index, applied)?;
        self.start = start;
        Ok(())
    }

    /// Drops the log's entries up to an applied index.
    pub(crate) fn compact(&mut self, index: u64) -> Result<(), CompactFault>
        ensures { IsCompactedTo self.old index result self.new }
    {
        let applied = self.applied.min(self.log.durable());
        if index < self.log.first_index() || index > applied {
            return self.log.compact(index, applied);
        }
        self.compact_within(index, applied)
    }
}
