//! What a runner observes of a directive.

ghost use Rattle.std.specs.Prelude.{◌≡◌, []};
ghost use Rattle.rb_bench.specs.Reasons.{begins};

use crate::progress::RunProgress;
use rb_machine::{Observer, PrintedLines};
use rb_node::Node;
use rb_raftlog::RaftLog;
use rb_script::DirectiveRef;
use rb_script_report::LineReasons;
use rb_texts::{Item, Level};
use std::alloc::{AllocError, Global};

/// Collects the printed lines of a directive, and the reasons below them if they are asked for. Reports the directive to a [`RunProgress`]
/// while it runs.
#[derive(Drop)]
pub(crate) struct DirectiveObserver<'a, 'd, P> {
    pub(crate) printed: PrintedLines,
    pub(crate) reasons: Option<LineReasons>,
    progress: &'a P,
    directive: &'a DirectiveRef<'d>,
}

// Begins to collect reasons if they are asked for.
fn begin_reasons(alloc: Global, explains: bool) -> Option<LineReasons>
    ensures { begins explains result }
{
    if explains {
        Some(LineReasons::new(alloc))
    } else {
        None
    }
}

impl<'a, 'd, P: RunProgress> DirectiveObserver<'a, 'd, P> {
    /// Has no lines. Reports that the directive begins.
    pub(crate) fn new(
        alloc: Global,
        progress: &'a P,
        directive: &'a DirectiveRef<'d>,
        explains: bool,
    ) -> DirectiveObserver<'a, 'd, P>
        ensures printed { result.printed.lines ≡ [] }
        ensures reasons { begins explains result.reasons }
    {
        progress.next();
        DirectiveObserver {
            printed: PrintedLines::new(alloc),
            reasons: begin_reasons(alloc, explains),
            progress,
            directive,
        }
    }
}

impl<'a, 'd, L: RaftLog, P: RunProgress> Observer<L> for DirectiveObserver<'a, 'd, P> {
    ghost use Rattle.std.specs.Prelude.{Option};
    ghost use Rattle.rb_machine.specs.declared.printed.PrintedLines.{PrintedLines};
    ghost use Rattle.rb_machine.specs.Observations.{passing};
    ghost use Rattle.rb_machine.specs.Printing.{at_level, with_item};
    ghost use Rattle.rb_script_report.specs.declared.reasons.LineReasons.{LineReasons};
    ghost use Rattle.rb_bench.specs.Reasons.{with_level, with_reason};

    ghost Meaning = { PrintedLines × Option LineReasons };

    ghost meaning = { λ o. (o.printed, o.reasons) };

    ghost starting = { λ m level. (at_level m.0 level, with_level m.1 level) };

    ghost taking = { λ m item. (with_item m.0 item, with_reason m.1 item) };

    ghost settling = { λ m id n. (passing m.0 id n, passing m.1 id n) };

    fn start(&mut self, level: Level) {
        Observer::<L>::start(&mut self.printed, level);
        if let Some(reasons) = &mut self.reasons {
            Observer::<L>::start(reasons, level);
        }
    }

    fn observe(&mut self, item: &Item<'_>) -> Result<(), AllocError> {
        self.progress.tell(self.directive);
        Observer::<L>::observe(&mut self.printed, item)?;
        match &mut self.reasons {
            Some(reasons) => Observer::<L>::observe(reasons, item),
            None => Ok(()),
        }
    }

    fn settle(&mut self, _id: u64, _node: &Node<L>) -> Result<(), AllocError> {
        Ok(())
    }
}
