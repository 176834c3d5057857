//! An argument of a directive.

use crate::span::Span;
use std::alloc::{AllocError, Global};
use std::default::MadeWith;

/// The positions of an argument's key and values.
pub(crate) struct ArgumentSpans {
    pub(crate) key: Span,
    pub(crate) has_equals: bool,
    pub(crate) values: Vec<Span>,
}

// Written by hand, so that dropping one is a call for the prover, and is proved only here.
impl Drop for ArgumentSpans {
    fn drop(self) {
        let ArgumentSpans {
            key: _,
            has_equals: _,
            values: _,
        } = self;
    }
}

// Fills the unused places of a short list of arguments.
impl MadeWith<Global> for ArgumentSpans {
    fn made_with(alloc: Global) -> ArgumentSpans {
        ArgumentSpans {
            key: Span {
                line: 0,
                start: 0,
                end: 0,
            },
            has_equals: false,
            values: Vec::new(alloc),
        }
    }
}

// Clones the values into new memory.
impl Clone for ArgumentSpans {
    ghost use Rattle.std.specs.Prelude.{◌≡◌};
    ghost use Rattle.rb_script.specs.Parsed.{spanned};

    ghost is_clone = { λ a b. spanned b ≡ spanned a };

    fn clone(&self) -> Result<ArgumentSpans, AllocError> {
        Ok(ArgumentSpans {
            key: self.key,
            has_equals: self.has_equals,
            values: Vec::from_slice(*self.values.allocator(), self.values.as_slice())?,
        })
    }
}
