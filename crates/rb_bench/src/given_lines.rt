//! Lines that are given to a command.

use rb_script::{Lines, MAX_SCRIPT};
use std::alloc::Global;

/// The lines of a command, stored while they may be those of an edit and there is memory.
#[derive(Drop)]
pub(crate) struct GivenLines {
    pub(crate) lines: Lines,
    // how long the text of all of them is
    pub(crate) text_len: usize,
    // memory was refused
    pub(crate) has_no_memory: bool,
}

impl GivenLines {
    ghost use Rattle.std.specs.Prelude.{[], ◌∷◌, ◌++◌, List};
    ghost use Rattle.rb_script.specs.Lines.{Line};
    ghost use Rattle.rb_bench.specs.Hearing.{IsGiven};

    /// No lines. Takes no memory.
    pub(crate) fn new(alloc: Global) -> GivenLines
        ensures { IsGiven result [] }
    {
        GivenLines {
            lines: Lines::new(alloc),
            text_len: 0,
            has_no_memory: false,
        }
    }

    /// One more line.
    pub(crate) fn add(&mut self, line: &[u8])
        ensures { (ls : List Line) → IsGiven self.old ls → IsGiven self.new (ls ++ line.now ∷ []) }
    {
        self.text_len = self.text_len.saturating_add(line.len()).saturating_add(1);
        if self.text_len <= MAX_SCRIPT && !self.has_no_memory {
            self.has_no_memory = self.lines.push(line).is_err();
        }
    }
}
