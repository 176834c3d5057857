//! Copies that can fail for lack of memory.
//!
//! Lists and pages are copied by pointers. A copy increments the count of a shared list, which can fail, so it returns a `Result`.

ghost use Rattle.std.specs.Prelude.{◌≡◌, ◌++◌, ◌+◌, ◌≤◌, length, IfOk, OnOk};

use crate::entry::Entry;
use rb_vocab::Shared;
use std::alloc::{AllocError, Global};

/// A value that can be copied.
pub trait TryCopy: Drop {
    /// Copies the value.
    fn try_copy(&self) -> Result<Self, AllocError>
        ensures { IfOk result (λ copy. copy ≡ self.now) };
}

impl TryCopy for Entry {
    fn try_copy(&self) -> Result<Entry, AllocError> {
        Entry::try_copy(self)
    }
}

impl<T: Drop> TryCopy for Shared<T> {
    fn try_copy(&self) -> Result<Shared<T>, AllocError> {
        Shared::try_copy(self)
    }
}

/// Appends a copy of each item.
pub fn push_copies<T: TryCopy>(copies: &mut Vec<T>, items: &[T]) -> Result<(), AllocError>
    ensures ok { OnOk result (copies.new.items ≡ copies.old.items ++ items.now) }
    ensures kept { length copies.old.items ≤ length copies.new.items }
    ensures within { length copies.new.items ≤ length copies.old.items + length items.now }
{
    for item in items {
        copies.push(item.try_copy()?)?;
    }
    Ok(())
}

/// Copies the items. If there are any, leaves room for one more, because callers often append an item, which would double the room.
pub fn copies_of<T: TryCopy>(alloc: Global, items: &[T]) -> Result<Vec<T>, AllocError>
    ensures { IfOk result (λ copies. copies.items ≡ items.now) }
{
    if items.is_empty() {
        return Ok(Vec::new(alloc));
    }
    let mut copies = Vec::with_capacity(alloc, items.len().saturating_add(1))?;
    push_copies(&mut copies, items)?;
    Ok(copies)
}
