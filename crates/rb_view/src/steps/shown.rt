//! What a page shows of the machine.

ghost use Rattle.std.specs.Prelude.{◌≡◌, ◌+◌, ◌<◌, ◌≤◌, ◌^◌, IfOk, IfSome, OnOk};
ghost use Rattle.rb_script.specs.Reading.{directive_of};
ghost use Rattle.rb_machine.specs.Outcome.{outcome};
ghost use Rattle.rb_view.specs.PageRoom.{held};
ghost use Rattle.rb_view.specs.Steps.{done_texts};
ghost use Rattle.rb_view.specs.Values.{DoneShowsBytes};

use rb_cluster::Meter;
use rb_machine::Machine;
use rb_script::{Block, Lines};
use std::alloc::{AllocError, Global};

/// One run of a directive: the machine after it, what it printed, and the rows of what it did and of what changed, if a page has room for them.
#[derive(Drop)]
pub struct DirectiveRun<M> {
    pub machine: M,
    pub output: Lines,
    pub rows: Option<Lines>,
}

/// A machine that shows what a directive does, and what is after each event that didn't stand so before.
pub trait StepMachine: Machine {
    /// Runs a directive on a copy. What is shown of contents is bytes.
    fn run_on_copy(
        &self,
        alloc: Global,
        block: &Block,
        meter: &mut Meter,
    ) -> Result<DirectiveRun<Self>, AllocError>
        ensures machine { IfOk result (λ ran. Self.meaning ran.machine ≡ (outcome (Self.meaning self.now) (directive_of block.now)).cluster) }
        ensures output { IfOk result (λ ran. ran.output ≡ (outcome (Self.meaning self.now) (directive_of block.now)).output) }
        ensures rows { IfOk result (λ ran. ran.rows ≡ held (done_texts (Self.meaning self.now) (directive_of block.now))) }
        ensures bytes { IfOk result (λ ran. IfSome ran.rows (λ _. DoneShowsBytes (Self.meaning self.now) (directive_of block.now))) }
        ensures counted { meter.old < 2 ^ 63 → OnOk result (meter.new ≡ meter.old + 1) }
        ensures most { meter.old < 2 ^ 63 → meter.new ≤ meter.old + 1 };
}
