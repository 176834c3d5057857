//! The outputs of directives.

use rb_script::{ChunkedList, Lines};
use std::alloc::{AllocError, Global};
use std::marker::Model;
use std::rc::Rc;

/// A list of outputs, built one by one.
#[derive(Drop)]
pub struct Outputs {
    pub(crate) alloc: Global,
    // shared with sessions
    pub(crate) shared: Vec<Rc<Lines>>,
}

impl Model for Outputs {
    ghost use Rattle.std.specs.Prelude.{List};
    ghost use Rattle.rb_script.specs.Lines.{Line};
    ghost use Rattle.rb_script.specs.Shared.{values};

    ghost Value = { List (List Line) };

    ghost view = { λ o. values o.shared.items };
}

impl Outputs {
    ghost use Rattle.std.specs.Prelude.{◌≡◌, ◌∷◌, [], ◌++◌, OnOk, IfOk};

    /// Makes an empty list.
    pub fn new(alloc: Global) -> Outputs
        ensures { result ≡ [] }
    {
        Outputs {
            alloc,
            shared: Vec::new(alloc),
        }
    }

    /// Appends an output.
    pub fn push(&mut self, output: Lines) -> Result<(), AllocError>
        ensures { OnOk result (self.new ≡ self.old ++ output ∷ []) }
    {
        self.shared.push(Rc::new(self.alloc, output)?)?;
        Ok(())
    }
    /// Makes a list in chunks.
    pub(crate) fn chunked(self) -> Result<ChunkedList<Lines>, AllocError>
        ensures { IfOk result (λ list. list ≡ self) }
    {
        ChunkedList::of(self.alloc, self.shared)
    }
}
