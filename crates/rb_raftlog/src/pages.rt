//! A list in pages that copies share.
//!
//! All pages except the last are full, so a division finds the page of an item. Dropping from the front drops whole pages, and skips items
//! of the first one left. A shared page never changes. The last page grows in place if it isn't shared. Otherwise, and to cut the list, a
//! new page with pointers to the same items replaces it.
//!
//! So a copy costs two pointers. An append costs the item, or at most a page if the last page is shared, and once a page a pointer for each
//! page. A cut costs as much. Dropping takes no memory.

ghost use Rattle.std.specs.Prelude.{◌≡◌, ◌+◌, ◌<◌, ◌≤◌, ◌++◌, ◌∷◌, [], length, take, drop, IfOk, OnOk, OnErr};
ghost use Rattle.rb_raftlog.specs.Packed.{joined, IsPacked};

use crate::limits::{MAX_INDEX, PAGE};
use crate::page::Page;
use crate::page_list::PageList;
use crate::try_copy::TryCopy;
use std::alloc::{AllocError, Global};
use std::marker::Model;

/// Items in pages. The first page may begin with items that were dropped.
#[derive(Drop)]
pub struct Pages<T> {
    // The number of dropped items of the first page.
    skip: usize,
    // The number of items.
    len: usize,
    // All pages except the last are full.
    pages: PageList<T>,
    alloc: Global,
}

impl<T> Model for Pages<T> {
    ghost use Rattle.std.specs.Prelude.{◌≡◌, ◌+◌, ◌<◌, ◌≤◌, List, length, drop};
    ghost use Rattle.rb_raftlog.specs.declared.limits.TheConstants.{MAX_INDEX, PAGE};
    ghost use Rattle.rb_raftlog.specs.Packed.{joined, IsPacked};

    ghost Value = { List T };

    ghost view = { λ s. drop s.skip (joined s.pages) };

    ghost invariant = { λ s. IsPacked s.pages × (s.skip + s.len ≡ length (joined s.pages)) × (s.skip < PAGE) × (s.len ≤ MAX_INDEX) };
}

/// Keeps only the first `at` items of the pages. A new page replaces one that is cut.
fn cut_pages<T: TryCopy>(
    pages: &mut PageList<T>,
    alloc: Global,
    at: usize,
) -> Result<(), AllocError>
    requires packed { IsPacked pages.old }
    requires within { at < length (joined pages.old) }
    ensures ok { OnOk result (IsPacked pages.new × (joined pages.new ≡ take at (joined pages.old))) }
    ensures err { OnErr result (pages.new ≡ pages.old) }
{
    if at == 0 {
        pages.clear();
        return Ok(());
    }
    let k = (at - 1) / PAGE;
    let page = Page::of(alloc, &pages.page(k).as_slice()[..at - k * PAGE])?;
    pages.truncate_and_push(k, page)?;
    Ok(())
}

/// Appends an item to the last page, or in a new page if that is full or there is none.
fn push_item<T: TryCopy>(
    pages: &mut PageList<T>,
    alloc: Global,
    at: usize,
    item: T,
) -> Result<(), AllocError>
    requires packed { IsPacked pages.old }
    requires end { at ≡ length (joined pages.old) }
    ensures ok { OnOk result (IsPacked pages.new × (joined pages.new ≡ joined pages.old ++ item ∷ [])) }
    ensures err { OnErr result (pages.new ≡ pages.old) }
{
    if at % PAGE == 0 {
        let page = Page::with_last(alloc, &[], item)?;
        pages.push(alloc, page)?;
        return Ok(());
    }
    pages.push_to_last(at / PAGE, item)?;
    Ok(())
}

impl<T: TryCopy> Pages<T> {
    ghost use Rattle.std.specs.Prelude.{slice_index_or};

    /// No items. It takes no memory.
    pub fn new(alloc: Global) -> Pages<T>
        ensures { result ≡ [] }
    {
        Pages {
            skip: 0,
            len: 0,
            pages: PageList::new(),
            alloc,
        }
    }

    pub(crate) fn allocator(&self) -> Global {
        self.alloc
    }

    /// How many items there are.
    pub fn len(&self) -> usize
        ensures value { result ≡ length self.now }
        ensures fits { result ≤ MAX_INDEX }
    {
        self.len
    }

    /// The item at a place, without a search.
    pub fn item(&self, k: usize) -> &T
        requires { k < length self.now }
        ensures { result.now ≡ slice_index_or self.now k result.now }
    {
        let at = self.skip + k;
        &self.pages.page(at / PAGE).as_slice()[at % PAGE]
    }

    /// The items from a place on: the rest of its page, the pages between, and the items of the last page.
    pub(crate) fn from(&self, k: usize) -> (&[T], &[Page<T>], &[T])
        requires { k < length self.now }
        ensures { result.0.now ++ (joined result.1.now ++ result.2.now) ≡ drop k self.now }
    {
        let at = self.skip + k;
        let page = self.pages.page(at / PAGE).as_slice();
        let (pages, last) = self.pages.after(at / PAGE + 1);
        (&page[at % PAGE..], pages, last)
    }

    /// Keeps only the first n items.
    pub(crate) fn cut(&mut self, n: usize) -> Result<(), AllocError>
        requires { n < length self.old }
        ensures ok { OnOk result (self.new ≡ take n self.old) }
        ensures err { OnErr result (self.new ≡ self.old) }
    {
        cut_pages(&mut self.pages, self.alloc, self.skip + n)?;
        self.len = n;
        Ok(())
    }

    /// Appends an item.
    pub fn push(&mut self, item: T) -> Result<(), AllocError>
        requires { length self.old < MAX_INDEX }
        ensures ok { OnOk result (self.new ≡ self.old ++ item ∷ []) }
        ensures err { OnErr result (self.new ≡ self.old) }
    {
        push_item(&mut self.pages, self.alloc, self.skip + self.len, item)?;
        self.len += 1;
        Ok(())
    }

    /// Drops the first n items.
    pub(crate) fn drop_front(&mut self, n: usize)
        requires { n ≤ length self.old }
        ensures { self.new ≡ drop n self.old }
    {
        let at = self.skip + n;
        self.pages.drop_front(at / PAGE);
        self.skip = at % PAGE;
        self.len -= n;
    }

    pub(crate) fn clear(&mut self)
        ensures { self.new ≡ [] }
    {
        self.pages.clear();
        self.skip = 0;
        self.len = 0;
    }

    /// Copies the list, at two pointers.
    pub fn try_copy(&self) -> Result<Pages<T>, AllocError>
        ensures { IfOk result (λ copy. copy ≡ self.now) }
    {
        let (skip, len) = (self.skip, self.len);
        Ok(Pages {
            skip,
            len,
            pages: self.pages.try_copy()?,
            alloc: self.alloc,
        })
    }

    /// Copies the items from a place on.
    pub(crate) fn copy_from(&self, k: usize) -> Result<Pages<T>, AllocError>
        requires { k ≤ length self.now }
        ensures { IfOk result (λ copy. copy ≡ drop k self.now) }
    {
        let mut copy = self.try_copy()?;
        copy.drop_front(k);
        Ok(copy)
    }
}
