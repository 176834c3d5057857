//! A list of pages that copies share.
//!
//! Only the last page grows; if it is shared, a new page replaces it. So the last page is separate, and the others are in a shared vector.
//! A copy of the list costs two pointers, and an append only changes the last page until it is full.

ghost use Rattle.std.specs.Prelude.{◌≡◌, ◌+◌, ◌<◌, ◌≤◌, ◌++◌, ◌∷◌, [], length, take, drop, unwrap_or, option_to_list, slice_index_or, IfOk, OnOk, OnErr};
ghost use Rattle.rb_raftlog.specs.declared.limits.TheConstants.{PAGE};
ghost use Rattle.rb_raftlog.specs.Packed.{joined};

use crate::limits::PAGE;
use crate::page::Page;
use crate::shared_vec::SharedVec;
use crate::try_copy::TryCopy;
use std::alloc::{AllocError, Global};
use std::marker::Model;

/// Pages. Contracts see the list of them, each as the list of its items.
#[derive(Drop)]
pub(crate) struct PageList<T> {
    // All pages except the last, if there are any.
    shared_vec: Option<SharedVec<Page<T>>>,
    // The last page, if there is any.
    last: Option<Page<T>>,
}

impl<T> Model for PageList<T> {
    ghost use Rattle.std.specs.Prelude.{List, ◌<◌, ◌++◌, [], length, unwrap_or, option_to_list};

    ghost Value = { List (List T) };

    ghost view = { λ p. unwrap_or p.shared_vec [] ++ option_to_list p.last };

    ghost invariant = { λ p. 0 < length (unwrap_or p.shared_vec []) → 0 < length (option_to_list p.last) };
}

/// The pages before the last one.
fn full_pages<T: TryCopy>(shared_vec: &Option<SharedVec<Page<T>>>) -> &[Page<T>]
    ensures { result.now ≡ unwrap_or shared_vec.now [] }
{
    match shared_vec {
        None => &[],
        Some(shared_vec) => shared_vec.as_slice(),
    }
}

/// Appends a full page.
fn push_full_page<T: TryCopy>(
    shared_vec: &mut Option<SharedVec<Page<T>>>,
    alloc: Global,
    page: Page<T>,
) -> Result<(), AllocError>
    ensures ok { OnOk result (unwrap_or shared_vec.new [] ≡ unwrap_or shared_vec.old [] ++ page ∷ []) }
    ensures err { OnErr result (unwrap_or shared_vec.new [] ≡ unwrap_or shared_vec.old []) }
{
    if let Some(shared_vec) = shared_vec {
        return shared_vec.push(page);
    }
    let mut pages = Vec::new(alloc);
    pages.push(page)?;
    *shared_vec = Some(SharedVec::of(pages)?);
    Ok(())
}

/// Keeps the first k pages, or all if there are fewer.
fn truncate_pages<T: TryCopy>(
    shared_vec: &mut Option<SharedVec<Page<T>>>,
    k: usize,
) -> Result<(), AllocError>
    ensures ok { OnOk result (unwrap_or shared_vec.new [] ≡ take k (unwrap_or shared_vec.old [])) }
    ensures err { OnErr result (unwrap_or shared_vec.new [] ≡ unwrap_or shared_vec.old []) }
{
    if let Some(shared_vec) = shared_vec {
        if k < shared_vec.as_slice().len() {
            shared_vec.cut(k)?;
        }
    }
    Ok(())
}

/// Drops the first k pages, or all if there are fewer.
fn drop_first_pages<T: TryCopy>(shared_vec: &mut Option<SharedVec<Page<T>>>, k: usize)
    ensures { unwrap_or shared_vec.new [] ≡ drop k (unwrap_or shared_vec.old []) }
{
    if let Some(pages) = shared_vec {
        if k < pages.as_slice().len() {
            pages.drop_front(k);
            return;
        }
    }
    *shared_vec = None;
}

/// The items of a page, if there is one.
fn items_of<T: TryCopy>(page: &Option<Page<T>>) -> &[T]
    ensures { result.now ≡ joined (option_to_list page.now) }
{
    match page {
        None => &[],
        Some(page) => page.as_slice(),
    }
}

impl<T: TryCopy> PageList<T> {
    /// No pages.
    pub(crate) fn new() -> PageList<T>
        ensures { result ≡ [] }
    {
        PageList {
            shared_vec: None,
            last: None,
        }
    }

    /// The page at a place, without a search.
    pub(crate) fn page(&self, k: usize) -> &Page<T>
        requires { k < length self.now }
        ensures { result.now ≡ slice_index_or self.now k result.now }
    {
        let full = full_pages(&self.shared_vec);
        if k < full.len() {
            return &full[k];
        }
        match &self.last {
            None => unreachable!(),
            Some(page) => page,
        }
    }

    /// The pages after the first k, and the items of the last page.
    pub(crate) fn after(&self, k: usize) -> (&[Page<T>], &[T])
        requires { k ≤ length self.now }
        ensures { joined result.0.now ++ result.1.now ≡ joined (drop k self.now) }
    {
        let full = full_pages(&self.shared_vec);
        if k > full.len() {
            return (&[], &[]);
        }
        (&full[k..], items_of(&self.last))
    }

    /// Appends a page, which becomes the last one.
    pub(crate) fn push(&mut self, alloc: Global, page: Page<T>) -> Result<(), AllocError>
        ensures ok { OnOk result (self.new ≡ self.old ++ page ∷ []) }
        ensures err { OnErr result (self.new ≡ self.old) }
    {
        if let Some(last) = &self.last {
            let last = last.try_copy()?;
            push_full_page(&mut self.shared_vec, alloc, last)?;
        }
        self.last = Some(page);
        Ok(())
    }

    /// Appends an item to the last page.
    pub(crate) fn push_to_last(&mut self, k: usize, item: T) -> Result<(), AllocError>
        requires last { k + 1 ≡ length self.old }
        requires room { length (slice_index_or self.old k []) < PAGE }
        ensures ok { OnOk result (self.new ≡ take k self.old ++ (slice_index_or self.old k [] ++ item ∷ []) ∷ []) }
        ensures err { OnErr result (self.new ≡ self.old) }
    {
        match &mut self.last {
            None => unreachable!(),
            Some(page) => page.push(item),
        }
    }

    /// Keeps the first k pages, and appends one.
    pub(crate) fn truncate_and_push(&mut self, k: usize, page: Page<T>) -> Result<(), AllocError>
        requires { k < length self.old }
        ensures ok { OnOk result (self.new ≡ take k self.old ++ page ∷ []) }
        ensures err { OnErr result (self.new ≡ self.old) }
    {
        truncate_pages(&mut self.shared_vec, k)?;
        self.last = Some(page);
        Ok(())
    }

    /// Drops the first k pages. Takes no memory.
    pub(crate) fn drop_front(&mut self, k: usize)
        requires { k ≤ length self.old }
        ensures { self.new ≡ drop k self.old }
    {
        if k > full_pages(&self.shared_vec).len() {
            self.last = None;
        }
        drop_first_pages(&mut self.shared_vec, k);
    }

    /// Drops all pages.
    pub(crate) fn clear(&mut self)
        ensures { self.new ≡ [] }
    {
        self.shared_vec = None;
        self.last = None;
    }

    /// Copies the list, at two pointers at most.
    pub(crate) fn try_copy(&self) -> Result<PageList<T>, AllocError>
        ensures { IfOk result (λ copy. copy ≡ self.now) }
    {
        let shared_vec = match &self.shared_vec {
            None => None,
            Some(shared_vec) => Some(shared_vec.try_copy()?),
        };
        let last = match &self.last {
            None => None,
            Some(page) => Some(page.try_copy()?),
        };
        Ok(PageList { shared_vec, last })
    }
}
