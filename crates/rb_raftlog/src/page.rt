//! A page of items that copies share.
//!
//! A shared page never changes: to append, a copy makes a new page. A page that isn't shared grows in place.

use crate::limits::PAGE;
use crate::try_copy::{TryCopy, push_copies};
use std::alloc::{AllocError, Global};
use std::marker::Model;
use std::rc::Rc;

/// A page that copies share. It has at least one item and at most PAGE.
#[derive(Drop)]
pub(crate) struct Page<T> {
    items: Rc<Vec<T>>,
}

impl<T> Model for Page<T> {
    ghost use Rattle.std.specs.Prelude.{List, ◌<◌, ◌≤◌, length};
    ghost use Rattle.rb_raftlog.specs.declared.limits.TheConstants.{PAGE};

    ghost Value = { List T };

    ghost view = { λ p. p.items.value.items };

    ghost invariant = { λ p. (0 < length p.items.value.items) × (length p.items.value.items ≤ PAGE) };
}

impl<T: TryCopy> Page<T> {
    ghost use Rattle.std.specs.Prelude.{◌≡◌, ◌<◌, ◌≤◌, ◌++◌, ◌∷◌, [], length, IfOk, OnOk, OnErr};

    /// A page of copies of these items.
    pub(crate) fn of(alloc: Global, items: &[T]) -> Result<Page<T>, AllocError>
        requires some { 0 < length items.now }
        requires fits { length items.now ≤ PAGE }
        ensures { IfOk result (λ page. page ≡ items.now) }
    {
        let mut copies = Vec::with_capacity(alloc, items.len())?;
        push_copies(&mut copies, items)?;
        Ok(Page {
            items: Rc::new(alloc, copies)?,
        })
    }

    /// A page of copies of these items and one more at the end.
    pub(crate) fn with_last(alloc: Global, items: &[T], last: T) -> Result<Page<T>, AllocError>
        requires { length items.now < PAGE }
        ensures { IfOk result (λ page. page ≡ items.now ++ last ∷ []) }
    {
        let mut all = Vec::with_capacity(alloc, items.len() + 1)?;
        push_copies(&mut all, items)?;
        all.push(last)?;
        Ok(Page {
            items: Rc::new(alloc, all)?,
        })
    }

    /// Appends an item. Copies that share the page keep it as it was.
    pub(crate) fn push(&mut self, item: T) -> Result<(), AllocError>
        requires { length self.old < PAGE }
        ensures ok { OnOk result (self.new ≡ self.old ++ item ∷ []) }
        ensures err { OnErr result (self.new ≡ self.old) }
    {
        if let Some(own) = Rc::get_mut(&mut self.items) {
            own.push(item)?;
            return Ok(());
        }
        let alloc = *self.items.allocator();
        let page = Page::with_last(alloc, self.as_slice(), item)?;
        *self = page;
        Ok(())
    }

    /// The items.
    pub(crate) fn as_slice(&self) -> &[T]
        ensures value { result.now ≡ self.now }
        ensures some { 0 < length self.now }
        ensures fits { length self.now ≤ PAGE }
    {
        self.items.as_slice()
    }

    /// Copies the page, at one pointer.
    pub(crate) fn try_copy(&self) -> Result<Page<T>, AllocError>
        ensures { IfOk result (λ copy. copy ≡ self.now) }
    {
        Ok(Page {
            items: self.items.clone()?,
        })
    }
}

impl<T: TryCopy> TryCopy for Page<T> {
    // It costs one pointer.
    fn try_copy(&self) -> Result<Page<T>, AllocError> {
        Page::try_copy(self)
    }
}
