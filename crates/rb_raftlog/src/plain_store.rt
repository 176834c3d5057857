//! Entries as one list, and the number of durable ones.

ghost use Rattle.std.specs.Prelude.{◌≡◌, IfOk};

use crate::entries::Entries;
use crate::entry::Entry;
use crate::entry_list::{EntryList, push_from};
use crate::pieces::Pieces;
use crate::store::Store;
use std::alloc::{AllocError, Global};
use std::marker::Model;

/// Entries as one list.
#[derive(Drop)]
pub struct PlainStore {
    entries: Vec<Entry>,
    durable_len: usize,
}

impl Model for PlainStore {
    ghost use Rattle.std.specs.Prelude.{◌≤◌, length};
    ghost use Rattle.rb_raftlog.specs.Held.{StoreValue};

    ghost Value = { StoreValue };

    ghost view = { λ s. record { entries = s.entries.items; durable_len = s.durable_len } };

    ghost invariant = { λ s. s.durable_len ≤ length s.entries.items };
}

/// Copies of the entries.
fn copies_of(alloc: Global, entries: &[Entry]) -> Result<Vec<Entry>, AllocError>
    ensures { IfOk result (λ copies. copies.items ≡ entries.now) }
{
    Vec::from_clones(alloc, entries)
}

impl Store for PlainStore {
    ghost held = { λ s. s };

    fn new(alloc: Global) -> PlainStore {
        PlainStore {
            entries: Vec::new(alloc),
            durable_len: 0,
        }
    }

    fn len(&self) -> usize {
        self.entries.len()
    }

    fn durable_len(&self) -> usize {
        self.durable_len
    }

    fn entry(&self, k: usize) -> &Entry {
        &self.entries[k]
    }

    fn pieces(&self, from: usize) -> Pieces<'_> {
        Pieces::one(&self.entries[from..])
    }

    fn share(&self, from: usize) -> Result<Entries, AllocError> {
        Entries::copied(*self.entries.allocator(), &self.entries, from)
    }

    fn cut(&mut self, n: usize) -> Result<(), AllocError> {
        self.entries.truncate(n);
        self.durable_len = self.durable_len.min(n);
        Ok(())
    }

    fn push(&mut self, entry: Entry) -> Result<(), AllocError> {
        self.entries.push(entry)?;
        Ok(())
    }

    fn extend<E: EntryList>(&mut self, entries: &E, from: usize) -> Result<(), AllocError> {
        push_from(&mut self.entries, entries, from)
    }

    fn mark_all_durable(&mut self) -> Result<(), AllocError> {
        self.durable_len = self.entries.len();
        Ok(())
    }

    fn drop_front(&mut self, n: usize) {
        self.entries.rotate_left(n);
        let rest = self.entries.len() - n;
        self.entries.truncate(rest);
        self.durable_len -= n;
    }

    fn clear(&mut self) {
        self.entries.clear();
        self.durable_len = 0;
    }

    fn try_copy(&self) -> Result<PlainStore, AllocError> {
        let durable_len = self.durable_len;
        Ok(PlainStore {
            entries: copies_of(*self.entries.allocator(), &self.entries)?,
            durable_len,
        })
    }
}
