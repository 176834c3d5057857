//! Running one directive with its reasons.

ghost use Rattle.std.specs.Prelude.{◌≡◌, IfOk};
ghost use Rattle.rb_script.specs.Tokens.{plain};
ghost use Rattle.rb_machine.specs.Outcome.{execution, outcome};
ghost use Rattle.rb_script_report.specs.Whys.{reasons_of};

use crate::actions::bounded::BoundedCluster;
use rb_cluster::Cluster;
use rb_machine::Machine;
use rb_raftlog::RaftLog;
use rb_script::{DirectiveRef, Lines};
use rb_script_report::LineReasons;
use rb_view::look::Nodes;
use std::alloc::{AllocError, Global};

/// A machine that can say why it ignored or refused a message.
pub(crate) trait Explains: Nodes {
    /// Runs a directive, and gives the machine after it and the reason below each line of its output; an empty one is none.
    fn explain(
        self,
        alloc: Global,
        directive: &DirectiveRef<'_>,
    ) -> Result<(Self, Lines), AllocError>
        ensures machine { IfOk result (λ done. Self.meaning done.0 ≡ (outcome (Self.meaning self) (plain directive.now)).cluster) }
        ensures reasons { IfOk result (λ done. done.1 ≡ reasons_of (execution (Self.meaning self) (plain directive.now))) };
}

impl<L: RaftLog> Explains for Cluster<L> {
    #[tactic(auto, unfolding(rb_machine::specs::Outcome::outcome))]
    fn explain(
        self,
        alloc: Global,
        directive: &DirectiveRef<'_>,
    ) -> Result<(Cluster<L>, Lines), AllocError> {
        let mut machine = self;
        let mut reasons = LineReasons::new(alloc);
        machine.run_watched(directive, &mut reasons)?;
        Ok((machine, reasons.all()?))
    }
}

impl Explains for BoundedCluster {
    #[tactic(auto, unfolding(rb_machine::specs::Outcome::outcome))]
    fn explain(
        self,
        alloc: Global,
        directive: &DirectiveRef<'_>,
    ) -> Result<(BoundedCluster, Lines), AllocError> {
        let mut bounded = self;
        let mut reasons = LineReasons::new(alloc);
        bounded.cluster.run_watched(directive, &mut reasons)?;
        Ok((bounded, reasons.all()?))
    }
}
