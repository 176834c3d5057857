//! How many nodes there are after a script.

ghost use Rattle.std.specs.Prelude.{◌≡◌, ◌≤◌, ◌^◌, IfOk, length};
ghost use Rattle.rb_script.specs.declared.limits.TheConstants.{MAX_DIRECTIVES};
ghost use Rattle.rb_replay.specs.Run.{state};
ghost use Rattle.rb_view.specs.Looks.{nodes_after};

use crate::look::looking::{machine_at, run_between};
use crate::look::nodes::Nodes;
use rb_machine::{Count, Machine};
use rb_replay::Session;
use rb_script::Script;
use std::alloc::{AllocError, Global};

// Runs a script from the last checkpoint of a session at which both have had the same directives.
fn machine_over<M: Machine>(
    session: &Session<M>,
    script: &Script,
    meter: &mut M::Meter,
) -> Result<M, AllocError>
    requires few { length script.now.blocks ≤ MAX_DIRECTIVES }
    requires meter { M.Meter.count_of meter.old ≤ 2 ^ 62 }
    ensures { IfOk result (λ m. M.meaning m ≡ state script.now (length script.now.blocks)) }
{
    let front = session.common_front(script);
    let (from, machine) = session.last_checkpoint(front)?;
    run_between(machine, script, from, script.len(), meter)
}

/// Counts the nodes after a script. With a session, only what its last checkpoint in the common front of directives doesn't have is run.
pub fn nodes_after<M: Nodes>(
    alloc: Global,
    kept: Option<&Session<M>>,
    script: &Script,
    meter: &mut M::Meter,
) -> Result<usize, AllocError>
    requires few { length script.now.blocks ≤ MAX_DIRECTIVES }
    requires meter { M.Meter.count_of meter.old ≤ 2 ^ 62 }
    ensures { IfOk result (λ n. n ≡ nodes_after script.now) }
{
    let machine: M = match kept {
        Some(session) => machine_over(session, script, meter)?,
        None => machine_at(alloc, script, script.len(), meter)?,
    };
    Ok(machine.count())
}
