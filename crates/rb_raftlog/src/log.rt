//! A log over a store.
//!
//! A log handles indexes and terms, once for all stores: the entry at index i is at place i - base - 1 of the store.

ghost use Rattle.std.specs.Prelude.{◌≡◌, ◌+◌, ◌-◌, ◌<◌, ◌≤◌, length, take, drop, IsTrue, IfSome, IfOk, OnOk};
ghost use Rattle.std.specs.List.{list_any};
ghost use Rattle.rb_raftlog.specs.Bodies.{is_change};
ghost use Rattle.rb_raftlog.specs.Log.{LogValue, term_at, is_term, is_term_up_to, first_new, replaced, is_conflict, conflict, appended, answer, durable_from};

use crate::entries::Entries;
use crate::entry::Entry;
use crate::entry_list::{EntryList, EntrySlice};
use crate::limits::MAX_INDEX;
use crate::pieces::Pieces;
use crate::raft_log::{Appended, CompactFault, LogFault, RaftLog};
use crate::snapshot::Snapshot;
use crate::store::Store;
use std::alloc::{AllocError, Global};
use std::marker::Model;
use std::mem;

/// A log: a base, and the entries after it in a store. Contracts see the plain log.
#[derive(Drop)]
pub struct Log<S: Store> {
    base: u64,
    base_term: u64,
    store: S,
    // The durable entries that were replaced since the last save.
    overwritten: Entries,
}

impl<S: Store> Model for Log<S> {
    ghost use Rattle.std.specs.Prelude.{◌+◌, ◌≤◌, length};
    ghost use Rattle.rb_raftlog.specs.Log.{LogValue};
    ghost use Rattle.rb_raftlog.specs.Held.{log_of};
    ghost use Rattle.rb_raftlog.specs.declared.limits.TheConstants.{MAX_INDEX};

    ghost Value = { LogValue };

    ghost view = { λ log. log_of log.base log.base_term (S.held log.store) log.overwritten };

    ghost invariant = { λ log. log.base + length (S.held log.store).entries ≤ MAX_INDEX };
}

impl<S: Store> Log<S> {
    // Whether the log has this term at `index`.
    fn is_term(&self, index: u64, term: u64) -> bool
        ensures value { result ≡ is_term (term_at self.now index) term }
        ensures above { IsTrue result → self.now.base ≤ index }
    {
        match self.term_at(index) {
            Ok(held) => held == term && self.base <= index,
            Err(_) => false,
        }
    }

    // Whether there is a term at `index`, and it is at most `term`.
    fn is_term_up_to(&self, index: u64, term: u64) -> bool
        ensures { result ≡ is_term_up_to (term_at self.now index) term }
    {
        match self.term_at(index) {
            Ok(held) => held <= term,
            Err(_) => false,
        }
    }

    // The first index at which the entries, which go to index `from` and on, differ in term from the log's, or go past its end.
    fn first_new<E: EntryList>(&self, from: u64, entries: &E) -> Option<u64>
        requires { from + length (E.listed entries.now) ≤ MAX_INDEX + 1 }
        ensures value { result ≡ first_new self.now from (E.listed entries.now) }
        ensures within { IfSome result (λ index. (from ≤ index) × (index < from + length (E.listed entries.now))) }
    {
        for k in 0..entries.len() {
            let index = from + k as u64;
            if !self.is_term(index, entries.entry(k).term) {
                return Some(index);
            }
        }
        None
    }

    // Whether an entry of this term conflicts with a committed one: `index` is above the base, at most `commit`, and the log has another
    // term there.
    fn is_conflict(&self, index: u64, term: u64, commit: u64) -> bool
        ensures { result ≡ is_conflict self.now index term commit }
    {
        if self.base >= index || index > commit {
            return false;
        }
        match self.term_at(index) {
            Ok(held) => held != term,
            Err(_) => false,
        }
    }

    // The index of the first entry that conflicts with a committed one. The entries go to index `from` and on.
    fn conflict<E: EntryList>(&self, from: u64, entries: &E, commit: u64) -> Option<u64>
        requires { from + length (E.listed entries.now) ≤ MAX_INDEX + 1 }
        ensures { result ≡ conflict self.now from (E.listed entries.now) commit }
    {
        for k in 0..entries.len() {
            let index = from + k as u64;
            if self.is_conflict(index, entries.entry(k).term, commit) {
                return Some(index);
            }
        }
        None
    }

    // Whether one of the entries from place `low` up to place `high` changes the configuration.
    fn any_change(&self, low: usize, high: usize) -> bool
        requires { high ≤ length self.now.entries }
        ensures { result ≡ list_any (λ e. is_change e.body) (drop low (take high self.now.entries)) }
    {
        for k in low..high {
            if self.store.entry(k).body.is_change() {
                return true;
            }
        }
        false
    }
}

impl<S: Store> Log<S> {
    // The durable entries from place `n` on, and those that were replaced before. Takes memory only if there are any to keep.
    #[tactic(auto, using(crate::proofs::SavedLaws::none_durable, crate::proofs::SavedLaws::durable_rest))]
    fn durable_from(&self, n: usize) -> Result<Entries, AllocError>
        ensures { IfOk result (λ kept. kept ≡ durable_from self.now n) }
    {
        let durable_len = self.store.durable_len();
        if n >= durable_len {
            return self.overwritten.try_copy();
        }
        self.store
            .share(n)?
            .followed_by(durable_len - n, &self.overwritten)
    }

    // Replaces the log from `index` on by the entries, the first of which goes to prev + 1.
    fn replace<E: EntryList>(
        &mut self,
        prev: u64,
        entries: &E,
        index: u64,
    ) -> Result<(), AllocError>
        requires above { self.old.base ≤ prev }
        requires within { (prev + 1 ≤ index) × (index < prev + 1 + length (E.listed entries.now)) }
        requires fits { prev + length (E.listed entries.now) ≤ MAX_INDEX }
        ensures { OnOk result (self.new ≡ replaced self.old prev (E.listed entries.now) (Some index)) }
    {
        let kept = (index - 1 - self.base) as usize;
        let overwritten = self.durable_from(kept)?;
        self.store.cut(kept)?;
        self.overwritten = overwritten;
        self.store.extend(entries, (index - 1 - prev) as usize)
    }

    // Appends the entries of a leader, from any list.
    fn append<E: EntryList>(
        &mut self,
        prev: u64,
        prev_term: u64,
        entries: &E,
        commit: u64,
    ) -> Result<Appended, AllocError>
        requires { prev + length (E.listed entries.now) ≤ MAX_INDEX }
        ensures log { OnOk result (self.new ≡ appended self.old prev prev_term (E.listed entries.now) commit) }
        ensures answer { IfOk result (λ told. told ≡ answer self.old prev prev_term (E.listed entries.now) commit) }
    {
        if prev < commit {
            return Ok(match self.conflict(prev + 1, entries, commit) {
                Some(index) => Appended::BelowCommit(index),
                None => Appended::Matched(commit),
            });
        }
        if !self.is_term(prev, prev_term) {
            return Ok(Appended::Refused(self.hint(prev, prev_term)));
        }
        if let Some(index) = self.first_new(prev + 1, entries) {
            self.replace(prev, entries, index)?;
        }
        Ok(Appended::Matched(prev + entries.len() as u64))
    }
}

impl<S: Store> RaftLog for Log<S> {
    ghost plain = { λ log. log };

    fn fresh(alloc: Global, index: u64, term: u64) -> Result<Log<S>, AllocError> {
        Ok(Log {
            base: index,
            base_term: term,
            store: S::new(alloc),
            overwritten: Entries::empty(),
        })
    }

    fn first_index(&self) -> u64 {
        self.base + 1
    }

    fn last_index(&self) -> u64 {
        self.base + self.store.len() as u64
    }

    fn base_term(&self) -> u64 {
        self.base_term
    }

    fn durable(&self) -> u64 {
        self.base + self.store.durable_len() as u64
    }

    fn term_at(&self, index: u64) -> Result<u64, LogFault> {
        if index < self.base {
            return Err(LogFault::Compacted);
        }
        if index == self.base {
            return Ok(self.base_term);
        }
        let k = (index - self.base - 1) as usize;
        if k < self.store.len() {
            Ok(self.store.entry(k).term)
        } else {
            Err(LogFault::Unavailable)
        }
    }

    fn entry_at(&self, index: u64) -> Result<&Entry, LogFault> {
        if index <= self.base {
            return Err(LogFault::Compacted);
        }
        let k = (index - self.base - 1) as usize;
        if k < self.store.len() {
            Ok(self.store.entry(k))
        } else {
            Err(LogFault::Unavailable)
        }
    }

    fn last_term(&self) -> u64 {
        match self.term_at(self.last_index()) {
            Ok(term) => term,
            Err(_) => self.base_term,
        }
    }

    fn is_up_to_date(&self, index: u64, term: u64) -> bool {
        let last_term = self.last_term();
        last_term < term || (term == last_term && self.last_index() <= index)
    }

    fn entries(&self, from: u64) -> Result<Pieces<'_>, LogFault> {
        if from <= self.base {
            return Err(LogFault::Compacted);
        }
        if from > self.last_index() + 1 {
            return Err(LogFault::Unavailable);
        }
        Ok(self.store.pieces((from - 1 - self.base) as usize))
    }

    fn entries_after(&self, index: u64) -> Result<Entries, AllocError> {
        let after = index.saturating_sub(self.base) as usize;
        self.store.share(after.min(self.store.len()))
    }

    fn has_change(&self, after: u64, upto: u64) -> bool {
        let low = after.saturating_sub(self.base) as usize;
        let high = upto.saturating_sub(self.base) as usize;
        self.any_change(low, high.min(self.store.len()))
    }

    #[tactic(auto, using(crate::proofs::LogLaws::hint_from_step))]
    fn hint(&self, index: u64, term: u64) -> u64 {
        if index < self.base {
            return 0;
        }
        let mut at = index.min(self.last_index());
        while at > self.base {
            if self.is_term_up_to(at, term) {
                return at;
            }
            at -= 1;
        }
        if self.base_term <= term { self.base } else { 0 }
    }

    #[tactic(auto, using(crate::proofs::GoneLaws::none_past))]
    fn given_way(
        &self,
        prev: u64,
        prev_term: u64,
        entries: &Entries,
        commit: u64,
    ) -> Result<Entries, AllocError> {
        if self.last_index() <= prev || prev < commit || !self.is_term(prev, prev_term) {
            return Ok(Entries::empty());
        }
        match self.first_new(prev + 1, entries) {
            Some(index) => self.entries_after(index - 1),
            None => Ok(Entries::empty()),
        }
    }

    fn append_after(
        &mut self,
        prev: u64,
        prev_term: u64,
        entries: &[Entry],
        commit: u64,
    ) -> Result<Appended, AllocError> {
        self.append(prev, prev_term, &EntrySlice { entries }, commit)
    }

    fn append_shared(
        &mut self,
        prev: u64,
        prev_term: u64,
        entries: &Entries,
        commit: u64,
    ) -> Result<Appended, AllocError> {
        self.append(prev, prev_term, entries, commit)
    }

    fn push_own(&mut self, entry: Entry) -> Result<(), AllocError> {
        self.store.push(entry)
    }

    fn not_durable(&self) -> Pieces<'_> {
        self.store.pieces(self.store.durable_len())
    }

    fn mark_durable(&mut self) -> Result<(), AllocError> {
        self.overwritten = Entries::empty();
        self.store.mark_all_durable()
    }

    fn compact(&mut self, index: u64, applied: u64) -> Result<(), CompactFault> {
        if index <= self.base {
            return Err(CompactFault::AlreadyCompacted);
        }
        if index > applied {
            return Err(CompactFault::PastApplied);
        }
        if let Ok(term) = self.term_at(index) {
            self.store.drop_front((index - self.base) as usize);
            self.base = index;
            self.base_term = term;
        }
        Ok(())
    }

    fn restore(&mut self, snapshot: &Snapshot) -> Result<(), AllocError> {
        let saved = self.durable_from(0)?;
        self.overwritten = saved;
        self.store.clear();
        self.base = snapshot.index;
        self.base_term = snapshot.term;
        Ok(())
    }

    fn restart(&mut self, start: &Snapshot) -> Result<(), AllocError> {
        let durable_len = self.store.durable_len();
        let saved_len = durable_len.saturating_add(self.overwritten.len()) as u64;
        if start.index.saturating_add(saved_len) > MAX_INDEX {
            return Err(AllocError);
        }
        self.store.cut(durable_len)?;
        let overwritten = mem::replace(&mut self.overwritten, Entries::empty());
        self.base = start.index;
        self.base_term = start.term;
        self.store.extend(&overwritten, 0)?;
        self.store.mark_all_durable()
    }

    fn try_copy(&self) -> Result<Log<S>, AllocError> {
        Ok(Log {
            base: self.base,
            base_term: self.base_term,
            store: self.store.try_copy()?,
            overwritten: self.overwritten.try_copy()?,
        })
    }

    fn same(&self, other: &Log<S>) -> bool {
        if self.base != other.base
            || self.base_term != other.base_term
            || self.store.durable_len() != other.store.durable_len()
            || self.store.len() != other.store.len()
            || self.last_term() != other.last_term()
            || !self.overwritten.same(&other.overwritten)
        {
            return false;
        }
        for k in 0..self.store.len() {
            if !self.store.entry(k).same(other.store.entry(k)) {
                return false;
            }
        }
        true
    }
}
