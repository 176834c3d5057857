//! A chunk of a list. It never changes, so that lists can share it.

ghost use Rattle.std.specs.Prelude.{◌≡◌, length, IfOk};
ghost use Rattle.rb_script.specs.Shared.{values};

use std::alloc::{AllocError, Global};
use std::marker::Model;
use std::rc::Rc;

/// Consecutive items of a list. A copy is another pointer to them.
#[derive(Drop)]
pub(crate) struct Chunk<T> {
    shared: Rc<Vec<Rc<T>>>,
}

impl<T> Model for Chunk<T> {
    ghost use Rattle.std.specs.Prelude.{List};
    ghost use Rattle.rb_script.specs.Shared.{values};

    ghost Value = { List T };

    ghost view = { λ g. values g.shared.value.items };
}

impl<T: Drop> Chunk<T> {
    pub(crate) fn new(alloc: Global, items: Vec<Rc<T>>) -> Result<Chunk<T>, AllocError>
        ensures { IfOk result (λ g. g ≡ values items.items) }
    {
        Ok(Chunk {
            shared: Rc::new(alloc, items)?,
        })
    }

    pub(crate) fn len(&self) -> usize
        ensures { result ≡ length self.now }
    {
        self.shared.len()
    }

    pub(crate) fn as_slice(&self) -> &[Rc<T>]
        ensures { values result.now ≡ self.now }
    {
        self.shared.as_slice()
    }
}

// A clone is another pointer to the chunk.
impl<T: Drop> Clone for Chunk<T> {
    ghost use Rattle.std.specs.Prelude.{◌≡◌};

    ghost is_clone = { λ chunk clone. clone ≡ chunk };

    fn clone(&self) -> Result<Chunk<T>, AllocError> {
        Ok(Chunk {
            shared: self.shared.clone()?,
        })
    }
}
