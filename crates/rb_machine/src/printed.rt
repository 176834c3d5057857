//! The lines that a directive prints.

ghost use Rattle.std.specs.Prelude.{◌≡◌, [], IfOk};
ghost use Rattle.rb_machine.specs.Outcome.{or_ok};

use crate::observer::Observer;
use rb_node::Node;
use rb_raftlog::RaftLog;
use rb_script::Lines;
use rb_texts::{Item, put};
use rb_vocab::Level;
use std::alloc::{AllocError, Global};

/// The printed lines of a directive so far: those of the items that its level shows.
#[derive(Drop)]
pub struct PrintedLines {
    pub level: Level,
    pub lines: Lines,
}

impl PrintedLines {
    /// No lines.
    pub fn new(alloc: Global) -> PrintedLines
        ensures { result.lines ≡ [] }
    {
        PrintedLines {
            level: Level::Debug,
            lines: Lines::new(alloc),
        }
    }

    /// The lines, or `ok` if there is none.
    pub fn or_ok(self) -> Result<Lines, AllocError>
        ensures { IfOk result (λ lines. lines ≡ or_ok self.level self.lines) }
    {
        let mut printed = self;
        if printed.lines.is_empty() {
            put(&mut printed.lines, printed.level, &Item::NothingElse)?;
        }
        Ok(printed.lines)
    }
}

impl<L: RaftLog> Observer<L> for PrintedLines {
    ghost use Rattle.rb_machine.specs.declared.printed.PrintedLines.{PrintedLines};
    ghost use Rattle.rb_machine.specs.Observations.{passing};
    ghost use Rattle.rb_machine.specs.Printing.{at_level, with_item};

    ghost Meaning = { PrintedLines };

    ghost meaning = { λ p. p };

    ghost starting = { at_level };

    ghost taking = { with_item };

    ghost settling = { passing };

    fn start(&mut self, level: Level) {
        self.level = level;
    }

    fn observe(&mut self, item: &Item<'_>) -> Result<(), AllocError> {
        put(&mut self.lines, self.level, item)
    }

    fn settle(&mut self, _id: u64, _node: &Node<L>) -> Result<(), AllocError> {
        Ok(())
    }
}
