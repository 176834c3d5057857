//! The results of the paths so far: their counts, and the list of the scripts that differ.

ghost use Rattle.std.specs.Prelude.{◌≡◌, ◌++◌, [], IfOk};
ghost use Rattle.rb_report.specs.Counts.{nothing, together};
ghost use Rattle.rb_check.specs.Results.{listed_if, listed_of, listing};

use crate::differing::Differing;
use crate::script_result::{PathResult, ScriptResult};
use rb_report::check::Totals;
use std::alloc::{AllocError, Global};

/// The results of the paths so far.
#[derive(Drop)]
pub(crate) struct Results {
    alloc: Global,
    pub(crate) counts: Totals,
    pub(crate) differing: Vec<Differing>,
}

impl Results {
    /// There are no paths yet.
    pub(crate) fn new(alloc: Global) -> Results
        ensures counts { result.counts ≡ nothing }
        ensures listed { result.differing.items ≡ [] }
    {
        Results {
            alloc,
            counts: Totals::new(),
            differing: Vec::new(alloc),
        }
    }

    /// Adds the path to the list, if it is a script that differs.
    ///
    /// # Errors
    ///
    /// If memory was refused.
    pub(crate) fn list(&mut self, path: &str, found: PathResult) -> Result<(), AllocError>
        ensures counts { self.new.counts ≡ self.old.counts }
        ensures listed { IfOk result (λ _. listing self.new.differing.items ≡ listing self.old.differing.items ++ listed_of path.now found) }
    {
        match found {
            PathResult::Ran(ran) => self.list_script(path, ran),
            PathResult::Refused(_) | PathResult::Failed(_) => Ok(()),
        }
    }

    // Adds the script that ran, if an output of it differs.
    fn list_script(&mut self, path: &str, ran: ScriptResult) -> Result<(), AllocError>
        ensures counts { self.new.counts ≡ self.old.counts }
        ensures listed { IfOk result (λ _. listing self.new.differing.items ≡ listing self.old.differing.items ++ listed_if path.now ran ran.first) }
    {
        let Some(line) = ran.first else {
            return Ok(());
        };
        self.differing.push(Differing {
            path: String::from_str(self.alloc, path)?,
            directives: ran.directives,
            mismatches: ran.left,
            line,
        })?;
        Ok(())
    }
}

/// The sum of both.
pub(crate) fn together(one: Totals, other: Totals) -> Totals
    ensures { result ≡ together one other }
{
    Totals {
        scripts: one.scripts.saturating_add(other.scripts),
        directives: one.directives.saturating_add(other.directives),
        mismatches: one.mismatches.saturating_add(other.mismatches),
        accepted: one.accepted.saturating_add(other.accepted),
        errors: one.errors.saturating_add(other.errors),
        warnings: one.warnings.saturating_add(other.warnings),
        refused: one.refused.saturating_add(other.refused),
        failed: one.failed.saturating_add(other.failed),
        without_memory: one.without_memory.saturating_add(other.without_memory),
    }
}
