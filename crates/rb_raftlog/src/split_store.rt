//! Entries in pages that copies share, and the number of durable ones.
//!
//! Entries that aren't durable are in the pages too. So a copy costs two pointers, even if a leader never saves what it appends. Marking
//! entries as durable only changes their number.

use crate::entries::Entries;
use crate::entry::Entry;
use crate::entry_list::{EntryList, append_from};
use crate::pages::Pages;
use crate::pieces::Pieces;
use crate::store::Store;
use std::alloc::{AllocError, Global};
use std::marker::Model;

/// Entries in pages, the first of which are durable.
#[derive(Drop)]
pub struct SplitStore {
    all: Pages<Entry>,
    durable_len: usize,
}

impl Model for SplitStore {
    ghost use Rattle.std.specs.Prelude.{◌≤◌, length};
    ghost use Rattle.rb_raftlog.specs.Held.{StoreValue};

    ghost Value = { StoreValue };

    ghost view = { λ s. record { entries = s.all; durable_len = s.durable_len } };

    ghost invariant = { λ s. s.durable_len ≤ length s.all };
}

impl Store for SplitStore {
    ghost held = { λ s. s };

    fn new(alloc: Global) -> SplitStore {
        SplitStore {
            all: Pages::new(alloc),
            durable_len: 0,
        }
    }

    fn len(&self) -> usize {
        self.all.len()
    }

    fn durable_len(&self) -> usize {
        self.durable_len
    }

    fn entry(&self, k: usize) -> &Entry {
        self.all.item(k)
    }

    fn pieces(&self, from: usize) -> Pieces<'_> {
        Pieces::of(&self.all, from)
    }

    fn share(&self, from: usize) -> Result<Entries, AllocError> {
        Entries::of(self.all.copy_from(from)?)
    }

    fn cut(&mut self, n: usize) -> Result<(), AllocError> {
        if n < self.all.len() {
            self.all.cut(n)?;
            self.durable_len = self.durable_len.min(n);
        }
        Ok(())
    }

    fn push(&mut self, entry: Entry) -> Result<(), AllocError> {
        self.all.push(entry)
    }

    fn extend<E: EntryList>(&mut self, entries: &E, from: usize) -> Result<(), AllocError> {
        append_from(&mut self.all, entries, from)
    }

    fn mark_all_durable(&mut self) -> Result<(), AllocError> {
        self.durable_len = self.all.len();
        Ok(())
    }

    fn drop_front(&mut self, n: usize) {
        self.all.drop_front(n);
        self.durable_len -= n;
    }

    fn clear(&mut self) {
        self.all.clear();
        self.durable_len = 0;
    }

    fn try_copy(&self) -> Result<SplitStore, AllocError> {
        let durable_len = self.durable_len;
        Ok(SplitStore {
            all: self.all.try_copy()?,
            durable_len,
        })
    }
}
