//! Immutable lists that copies share.
//!
//! A session holds hundreds of clusters, which have most of their data in common. So a payload or a list of ids is a list with a
//! reference count: a copy is another pointer to the same list.

ghost use Rattle.std.specs.Prelude.{◌≡◌, ◌↔◌, length, IsTrue, IfOk};
ghost use Rattle.std.specs.Bool.{Decides};
ghost use Rattle.std.specs.Cmp.Lexicographic.{pointwise, lists_per};

use std::alloc::AllocError;
use std::marker::Model;
use std::rc::RcSlice;

/// An immutable list, shared by its copies. In contracts it is the list.
pub struct Shared<T> {
    items: RcSlice<T>,
}

// Written by hand, so that dropping one is a call for the prover, and is proved only here.
impl<T: Drop> Drop for Shared<T> {
    fn drop(self) {
        let Shared { items: _ } = self;
    }
}

impl<T> Model for Shared<T> {
    ghost use Rattle.std.specs.Prelude.{List};
    ghost use Rattle.std.specs.Rc.{rc_slice_items};

    ghost Value = { List T };

    ghost view = { λ s. rc_slice_items s.items };
}

impl<T: Drop> Shared<T> {
    /// Moves the items into a shared list. Allocates once.
    pub fn new(items: Vec<T>) -> Result<Shared<T>, AllocError>
        ensures { IfOk result (λ s. s ≡ items.items) }
    {
        Ok(Shared {
            items: RcSlice::from_vec(items)?,
        })
    }

    /// The number of items.
    pub fn len(&self) -> usize
        ensures { result ≡ length self.now }
    {
        self.items.len()
    }

    /// The items.
    pub fn as_slice(&self) -> &[T]
        ensures { result.now ≡ self.now }
    {
        self.items.as_slice()
    }

    /// Copies the pointer.
    pub fn try_copy(&self) -> Result<Shared<T>, AllocError>
        ensures { IfOk result (λ copy. copy ≡ self.now) }
    {
        Ok(Shared {
            items: self.items.clone()?,
        })
    }

    /// Whether both lists are equal, where `==` of items is equality.
    pub fn same(&self, other: &Shared<T>) -> bool
    where
        T: PartialEq,
        requires { (x y : T) → Decides (T.eq x y) (x ≡ y) }
        ensures { IsTrue result ↔ (self.now ≡ other.now) }
    {
        self.as_slice() == other.as_slice()
    }
}

impl<T: PartialEq> PartialEq for Shared<T> {
    ghost eq = { pointwise T.eq };

    ghost laws = { lists_per T.laws };

    // Compares lengths first, then item by item.
    fn eq(&self, other: &Shared<T>) -> bool {
        self.items.as_slice() == other.items.as_slice()
    }
}

impl<T: Drop> Clone for Shared<T> {
    ghost is_clone = { λ list copy. copy ≡ list };

    fn clone(&self) -> Result<Shared<T>, AllocError> {
        self.try_copy()
    }
}
