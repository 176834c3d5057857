//! The trace of a script.

ghost use Rattle.std.specs.Prelude.{◌≡◌, ◌+◌, ◌<◌, ◌∷◌, ◌≤◌, ◌^◌, IfOk, OnOk, fold, length};
ghost use Rattle.rb_script.specs.declared.limits.TheConstants.{MAX_DIRECTIVES};
ghost use Rattle.rb_script.specs.Reading.{directive_of};
ghost use Rattle.rb_machine.specs.Cluster.{empty};
ghost use Rattle.rb_machine.specs.Outcome.{execution, shown_items, outcome};
ghost use Rattle.rb_replay.specs.Run.{outputs};
ghost use Rattle.rb_view.specs.Traces.{objects, trace_lines, with_item};

use crate::rows::keep_texts;
use crate::trace::objects::first_object;
use crate::trace::tracer::Tracer;
use rb_cluster::{Cluster, Meter};
use rb_machine::{Both, Machine, PrintedLines};
use rb_raftlog::RaftLog;
use rb_replay::{Outputs, Session, block_at};
use rb_script::{Block, Lines, Script};
use rb_script_report::number_at;
use std::alloc::{AllocError, Global};

/// The format of the objects.
pub const FORMAT: u64 = 1;

// One run of a directive: the cluster after it, what it printed, and the trace so far.
#[derive(Drop)]
struct TracedRun<L: RaftLog> {
    machine: Cluster<L>,
    output: Lines,
    tracer: Tracer,
}

// Runs a directive, with two observers: of its lines, and of its objects.
#[tactic(auto, unfolding(rb_machine::specs::Outcome::outcome))]
fn run<L: RaftLog>(
    alloc: Global,
    cluster: Cluster<L>,
    tracer: Tracer,
    block: &Block,
    meter: &mut Meter,
) -> Result<TracedRun<L>, AllocError>
    ensures machine { IfOk result (λ ran. ran.machine ≡ (outcome cluster (directive_of block.now)).cluster) }
    ensures output { IfOk result (λ ran. ran.output ≡ (outcome cluster (directive_of block.now)).output) }
    ensures tracer { IfOk result (λ ran. ran.tracer ≡ fold with_item tracer (shown_items (execution cluster (directive_of block.now)))) }
    ensures counted { meter.old < 2 ^ 63 → OnOk result (meter.new ≡ meter.old + 1) }
    ensures most { meter.old < 2 ^ 63 → meter.new ≤ meter.old + 1 }
{
    let mut machine = cluster;
    let mut both = Both {
        first: PrintedLines::new(alloc),
        second: tracer,
    };
    machine.run_counted(&block.directive(), &mut both, meter)?;
    let Both { first, second } = both;
    Ok(TracedRun {
        machine,
        output: first.or_ok()?,
        tracer: second,
    })
}

// Runs the directives, each once. What they printed is given back, and what happened.
fn trace_directives<L: RaftLog>(
    alloc: Global,
    script: &Script,
    heads: &[usize],
    meter: &mut Meter,
) -> Result<(Outputs, Lines), AllocError>
    requires few { length script.now.blocks ≤ MAX_DIRECTIVES }
    requires count { length heads.now ≡ length script.now.blocks }
    ensures outputs { IfOk result (λ ran. ran.0 ≡ outputs script.now) }
    ensures objects { IfOk result (λ ran. ran.1 ≡ objects heads.now script.now) }
    ensures counted { meter.old ≤ 2 ^ 62 → OnOk result (meter.new ≡ meter.old + length script.now.blocks) }
    ensures most { meter.old ≤ 2 ^ 62 → meter.new ≤ meter.old + length script.now.blocks }
{
    let mut printed = Outputs::new(alloc);
    let mut machine: Cluster<L> = Machine::empty(alloc)?;
    let mut tracer = Tracer::new(alloc);
    for i in 0..script.len() {
        tracer.begin(i as u64 + 1, number_at(heads, i) as u64);
        let ran = run(alloc, machine, tracer, block_at(script, i), meter)?;
        printed.push(ran.output)?;
        machine = ran.machine;
        tracer = ran.tracer;
    }
    Ok((printed, tracer.lines))
}

// A line, and others below it.
fn below(alloc: Global, first: &[u8], rest: &Lines) -> Result<Lines, AllocError>
    ensures { IfOk result (λ all. all ≡ first.now ∷ rest.now) }
{
    let mut all = Lines::new(alloc);
    all.push(first)?;
    keep_texts(&mut all, rest)?;
    Ok(all)
}

/// Runs a script, each directive once, and gives a session on it and its trace: these are the lines on which its heads begin.
pub fn trace_of<L: RaftLog>(
    alloc: Global,
    name: &[u8],
    script: Script,
    heads: &[usize],
    meter: &mut Meter,
) -> Result<(Session<Cluster<L>>, Lines), AllocError>
    requires few { length script.blocks ≤ MAX_DIRECTIVES }
    requires count { length heads.now ≡ length script.blocks }
    ensures script { IfOk result (λ ran. ran.0.script ≡ script) }
    ensures lines { IfOk result (λ ran. ran.1 ≡ trace_lines name.now heads.now script) }
    // Each directive is run once; if memory is refused, none is run twice.
    ensures counted { meter.old ≤ 2 ^ 62 → OnOk result (meter.new ≡ meter.old + length script.blocks) }
    ensures most { meter.old ≤ 2 ^ 62 → meter.new ≤ meter.old + length script.blocks }
{
    let (printed, objects) = trace_directives::<L>(alloc, &script, heads, meter)?;
    let first = first_object(alloc, FORMAT, name)?;
    let lines = below(alloc, first.as_slice(), &objects)?;
    let session = Session::from_outputs(alloc, script, printed)?;
    Ok((session, lines))
}
