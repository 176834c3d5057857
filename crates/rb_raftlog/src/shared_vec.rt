//! A vector that copies share.
//!
//! A copy costs one pointer. A shared vector never changes. To drop its first items, a copy skips them. To append an item, it makes a new
//! vector with pointers to the same items. A vector that isn't shared grows in place, and frees dropped items.

ghost use Rattle.std.specs.Prelude.{◌≡◌, ◌≤◌, ◌++◌, ◌∷◌, [], length, take, drop, IfOk, OnOk, OnErr};

use crate::try_copy::{TryCopy, copies_of};
use std::alloc::{AllocError, Global};
use std::marker::Model;
use std::rc::Rc;

/// A vector that copies share. Contracts see the items.
#[derive(Drop)]
pub(crate) struct SharedVec<T> {
    // The number of first items that are skipped.
    skip: usize,
    items: Rc<Vec<T>>,
}

impl<T> Model for SharedVec<T> {
    ghost use Rattle.std.specs.Prelude.{List, ◌≤◌, length, drop};

    ghost Value = { List T };

    ghost view = { λ s. drop s.skip s.items.value.items };

    ghost invariant = { λ s. s.skip ≤ length s.items.value.items };
}

/// Drops the first k items.
fn drop_items<T: TryCopy>(items: &mut Vec<T>, k: usize)
    requires { k ≤ length items.old.items }
    ensures { items.new.items ≡ drop k items.old.items }
{
    items.rotate_left(k);
    let rest = items.len() - k;
    items.truncate(rest);
}

impl<T: TryCopy> SharedVec<T> {
    /// A vector of these items.
    pub(crate) fn of(items: Vec<T>) -> Result<SharedVec<T>, AllocError>
        ensures { IfOk result (λ shared_vec. shared_vec ≡ items.items) }
    {
        let alloc = *items.allocator();
        Ok(SharedVec {
            skip: 0,
            items: Rc::new(alloc, items)?,
        })
    }

    /// The items.
    pub(crate) fn as_slice(&self) -> &[T]
        ensures { result.now ≡ self.now }
    {
        &self.items.as_slice()[self.skip..]
    }

    /// Appends an item. Copies that share the vector keep it as it was.
    pub(crate) fn push(&mut self, item: T) -> Result<(), AllocError>
        ensures ok { OnOk result (self.new ≡ self.old ++ item ∷ []) }
        ensures err { OnErr result (self.new ≡ self.old) }
    {
        if let Some(own) = Rc::get_mut(&mut self.items) {
            own.push(item)?;
            return Ok(());
        }
        let alloc = *self.items.allocator();
        let mut items = copies_of(alloc, self.as_slice())?;
        items.push(item)?;
        let shared_vec = SharedVec::of(items)?;
        *self = shared_vec;
        Ok(())
    }

    /// Keeps only the first k items.
    pub(crate) fn cut(&mut self, k: usize) -> Result<(), AllocError>
        requires { k ≤ length self.old }
        ensures ok { OnOk result (self.new ≡ take k self.old) }
        ensures err { OnErr result (self.new ≡ self.old) }
    {
        let alloc = *self.items.allocator();
        let items = copies_of(alloc, &self.as_slice()[..k])?;
        let shared_vec = SharedVec::of(items)?;
        *self = shared_vec;
        Ok(())
    }

    /// Drops the first k items. Takes no memory.
    pub(crate) fn drop_front(&mut self, k: usize)
        requires { k ≤ length self.old }
        ensures { self.new ≡ drop k self.old }
    {
        let left = self.as_slice().len() - k;
        let gone = self.items.len() - left;
        self.skip = gone;
        if let Some(own) = Rc::get_mut(&mut self.items) {
            drop_items(own, gone);
            self.skip = 0;
        }
    }

    /// Copies the vector, at one pointer.
    pub(crate) fn try_copy(&self) -> Result<SharedVec<T>, AllocError>
        ensures { IfOk result (λ copy. copy ≡ self.now) }
    {
        let skip = self.skip;
        Ok(SharedVec {
            skip,
            items: self.items.clone()?,
        })
    }
}
