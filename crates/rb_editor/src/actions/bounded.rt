//! A cluster whose run has a bound, since an editor waits for it.
//!
//! The work of a run is counted and not timed: [`DIRECTIVE_WORK`] for each directive and [`ARGUMENT_WORK`] for each of its arguments, [`ITEM_WORK`] for
//! each item that its observer gets, such as a delivery, an event or a state, and one for each byte that is printed. So outputs have a bound too: four
//! times the longest script. A run that has met the bound is refused as for want of memory, also within a directive, and the meter says at how much work.

ghost use Rattle.std.specs.Prelude.{◌≡◌};
ghost use Rattle.rb_script.specs.Tokens.{plain};
ghost use Rattle.rb_editor.specs.Work.{begun};

use crate::actions::work_meter::{EnoughWork, WorkMeter};
use rb_cluster::Cluster;
use rb_machine::{Machine, Observer, PrintedLines};
use rb_node::Node;
use rb_raftlog::{RaftLog, SplitLog};
use rb_script::{DirectiveRef, Lines};
use rb_texts::{Item, Level};
use rb_view::look::Nodes;
use std::alloc::{AllocError, Global};

// The work of a directive, whatever happens in it.
const DIRECTIVE_WORK: u64 = 100;

// The work of an argument: for each a directive may look through all that is on its way.
const ARGUMENT_WORK: u64 = 200;

// The work of an item, but for its bytes.
const ITEM_WORK: u64 = 4;

/// A machine whose run may be refused since it has done as much work as it may.
pub(crate) trait Bounded: Machine {
    ghost use Rattle.std.specs.Prelude.{◌≡◌, Option};
    ghost use Rattle.rb_editor.specs.declared.actions.work_meter.EnoughWork.{EnoughWork};

    ghost refused_of: { Self.Meter → Option EnoughWork };

    /// The work at which the last directive on this meter was refused, if it was for that.
    fn refused_at(meter: &Self::Meter) -> Option<EnoughWork>
        ensures { result ≡ refused_of meter.now };
}

// The printed lines of a directive, and the work of the run with it.
#[derive(Drop)]
struct CountedLines {
    printed: PrintedLines,
    work: u64,
    bound: u64,
}

impl<L: RaftLog> Observer<L> for CountedLines {
    ghost use Rattle.rb_machine.specs.Observations.{passing};
    ghost use Rattle.rb_editor.specs.declared.actions.bounded.CountedLines.{CountedLines};
    ghost use Rattle.rb_editor.specs.Work.{at_level, with_item};

    ghost Meaning = { CountedLines };

    ghost meaning = { λ c. c };

    ghost starting = { at_level };

    ghost taking = { with_item };

    ghost settling = { passing };

    fn start(&mut self, level: Level) {
        Observer::<L>::start(&mut self.printed, level);
    }

    fn observe(&mut self, item: &Item<'_>) -> Result<(), AllocError> {
        if self.work >= self.bound {
            return Err(AllocError);
        }
        let before = self.printed.lines.text().len();
        Observer::<L>::observe(&mut self.printed, item)?;
        let printed = self.printed.lines.text().len() - before;
        self.work = self.work.saturating_add(ITEM_WORK + printed as u64);
        Ok(())
    }

    fn settle(&mut self, _id: u64, _node: &Node<L>) -> Result<(), AllocError> {
        Ok(())
    }
}

// The work of a run once a directive has begun.
fn begun(work: u64, directive: &DirectiveRef<'_>) -> u64
    ensures { result ≡ begun (plain directive.now) work }
{
    let looks = (directive.args() as u64).saturating_mul(ARGUMENT_WORK);
    work.saturating_add(DIRECTIVE_WORK).saturating_add(looks)
}

/// A cluster, and the work of the run up to it.
#[derive(Drop)]
pub(crate) struct BoundedCluster {
    alloc: Global,
    pub(crate) cluster: Cluster<SplitLog>,
    work: u64,
}

impl BoundedCluster {
    ghost use Rattle.std.specs.Prelude.{◌≡◌, IfOk, OnOk};
    ghost use Rattle.rb_script.specs.Tokens.{plain};
    ghost use Rattle.rb_machine.specs.Outcome.{execution, lines_at, shown_items};
    ghost use Rattle.rb_editor.specs.Work.{work_after};

    /// The cluster alone.
    pub(crate) fn into_cluster(self) -> Cluster<SplitLog>
        ensures { result ≡ self.cluster }
    {
        let BoundedCluster {
            alloc: _,
            cluster,
            work: _,
        } = self;
        cluster
    }

    // Runs a directive, and returns what it prints.
    fn printed(
        &mut self,
        directive: &DirectiveRef<'_>,
        meter: &mut WorkMeter,
    ) -> Result<Lines, AllocError>
        ensures cluster { OnOk result (self.new.cluster ≡ (execution self.old.cluster (plain directive.now)).cluster) }
        ensures output { IfOk result (λ lines. lines ≡ lines_at (execution self.old.cluster (plain directive.now)).level (shown_items (execution self.old.cluster (plain directive.now)))) }
        ensures work { OnOk result (self.new.work ≡ work_after (plain directive.now) (execution self.old.cluster (plain directive.now)) self.old.work) }
        ensures counted { meter.new.count ≡ meter.old.count }
    {
        let mut counted = CountedLines {
            printed: PrintedLines::new(self.alloc),
            work: begun(self.work, directive),
            bound: meter.bound(),
        };
        let ran = self.cluster.run_watched(directive, &mut counted);
        if ran.is_err() {
            meter.refuse(counted.work);
        }
        ran?;
        self.work = counted.work;
        counted.printed.or_ok()
    }
}

impl Machine for BoundedCluster {
    type Meter = WorkMeter;

    ghost meaning = { λ b. b.cluster };

    fn empty(alloc: Global) -> Result<BoundedCluster, AllocError> {
        Ok(BoundedCluster {
            alloc,
            cluster: Cluster::empty(alloc)?,
            work: 0,
        })
    }

    #[tactic(auto, unfolding(rb_machine::specs::Outcome::outcome))]
    fn run(
        self,
        directive: DirectiveRef<'_>,
        meter: &mut WorkMeter,
    ) -> Result<(BoundedCluster, Lines), AllocError> {
        meter.raise();
        let mut bounded = self;
        let output = bounded.printed(&directive, meter)?;
        Ok((bounded, output))
    }

    fn try_copy(&self) -> Result<BoundedCluster, AllocError> {
        Ok(BoundedCluster {
            alloc: self.alloc,
            cluster: self.cluster.try_copy()?,
            work: self.work,
        })
    }

    fn same(&self, other: &BoundedCluster) -> bool {
        self.cluster.same(&other.cluster)
    }
}

impl Bounded for BoundedCluster {
    ghost refused_of = { λ m. m.refused };

    fn refused_at(meter: &WorkMeter) -> Option<EnoughWork> {
        meter.refused()
    }
}

impl Nodes for BoundedCluster {
    fn count(&self) -> usize {
        self.cluster.nodes().len()
    }
}
