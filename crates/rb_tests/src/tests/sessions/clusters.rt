//! Clusters that differ in one thing alone, and a cluster's comparison where memory is refused.

use crate::tests::is_in_row;
use rb_cluster::{Cluster, Meter};
use rb_machine::Machine;
use rb_raftlog::{PlainLog, SplitLog};
use rb_script::{Block, Script};
use std::alloc::Global;
use std::process::Abort;

/// Two scripts, a directive a line.
type Pair = (&'static [u8], &'static [u8]);

/// The clusters after these differ in one pending message, in its receiver, in the level, in one member's mark.
static DIFFERENT: [Pair; 4] = [
    (
        b"add-nodes 3 voters=(1,2,3) index=10
campaign 1
process-ready 1
",
        b"add-nodes 3 voters=(1,2,3) index=10
campaign 1
process-ready 1
deliver-msgs drop=(3)
",
    ),
    (
        b"add-nodes 3 voters=(1,2,3) index=10
send-snapshot 1 2
",
        b"add-nodes 3 voters=(1,2,3) index=10
send-snapshot 1 3
",
    ),
    (
        b"add-nodes 3 voters=(1,2,3) index=10
",
        b"add-nodes 3 voters=(1,2,3) index=10
log-level info
",
    ),
    (
        b"add-nodes 3 voters=(1,2,3) index=10 checkquorum=true
campaign 1
stabilize
tick-election 1
process-ready 1
deliver-msgs 2 3
process-ready 2
deliver-msgs 1
process-ready 3
deliver-msgs 1
",
        b"add-nodes 3 voters=(1,2,3) index=10 checkquorum=true
campaign 1
stabilize
tick-election 1
process-ready 1
deliver-msgs 2 3
process-ready 2
deliver-msgs 1
process-ready 3
deliver-msgs drop=(1)
",
    ),
];

/// Two ways to the same cluster each: what differs above is the same again.
static SAME: [Pair; 2] = [
    (
        b"add-nodes 3 voters=(1,2,3) index=10
campaign 1
process-ready 1
deliver-msgs drop=(2,3)
",
        b"add-nodes 3 voters=(1,2,3) index=10
campaign 1
process-ready 1
deliver-msgs drop=(3)
deliver-msgs drop=(2)
",
    ),
    (
        b"add-nodes 3 voters=(1,2,3) index=10
",
        b"log-level info
add-nodes 3 voters=(1,2,3) index=10
log-level debug
",
    ),
];

/// The script of these directives.
fn text_of(alloc: Global, lines: &[u8]) -> Option<Vec<u8>> {
    let mut text = Vec::new(alloc);
    for line in lines.split_inclusive(|b| *b == b'\n') {
        text.extend_from_slice(line).ok()?;
        text.extend_from_slice(b"----\n\n").ok()?;
    }
    Some(text)
}

fn script_of(alloc: Global, lines: &[u8]) -> Option<Script> {
    let text = text_of(alloc, lines)?;
    Script::read(alloc, text.as_slice()).ok()
}

fn run_block<M: Machine<Meter = Meter>>(machine: M, block: &Block) -> Option<M> {
    match machine.run(block.directive(), &mut Meter::new()) {
        Ok((next, output)) => {
            drop(output);
            Some(next)
        }
        Err(_) => None,
    }
}

fn run_at<M: Machine<Meter = Meter>>(machine: M, script: &Script, place: usize) -> Option<M> {
    match script.block(place) {
        Some(block) => run_block(machine, block),
        None => Some(machine),
    }
}

fn run_script<M: Machine<Meter = Meter>>(alloc: Global, script: &Script) -> Option<M> {
    let mut machine = M::empty(alloc).ok()?;
    for k in 0..script.len() {
        machine = run_at(machine, script, k.saturating_add(1))?;
    }
    Some(machine)
}

/// The cluster after these directives. Nothing if memory was refused.
fn after<M: Machine<Meter = Meter>>(alloc: Global, lines: &[u8]) -> Option<M> {
    let script = script_of(alloc, lines)?;
    let machine = run_script(alloc, &script);
    drop(script);
    machine
}

fn is_its_copy<M: Machine<Meter = Meter>>(machine: &M) -> Option<bool> {
    let copy = machine.try_copy().ok()?;
    let so = machine.same(&copy) && copy.same(machine);
    drop(copy);
    Some(so)
}

/// Whether the cluster is the same as that after these directives, or isn't, both ways round, and that one is its own copy.
fn is_as<M: Machine<Meter = Meter>>(
    alloc: Global,
    machine: &M,
    lines: &[u8],
    same: bool,
) -> Option<bool> {
    let other: M = after(alloc, lines)?;
    let so = machine.same(&other) == same && other.same(machine) == same;
    let is_copy = is_its_copy(&other);
    drop(other);
    Some(so && is_copy?)
}

fn are_as<M: Machine<Meter = Meter>>(alloc: Global, pair: Pair, same: bool) -> Option<bool> {
    let machine: M = after(alloc, pair.0)?;
    let so = is_as(alloc, &machine, pair.1, same);
    drop(machine);
    so
}

fn all_are<M: Machine<Meter = Meter>>(rt: &impl Abort, alloc: Global) {
    for (k, pair) in DIFFERENT.iter().enumerate() {
        let so = are_as::<M>(alloc, *pair, false) == Some(true);
        is_in_row(rt, so, "they differ", k);
    }
    for (k, pair) in SAME.iter().enumerate() {
        let so = are_as::<M>(alloc, *pair, true) == Some(true);
        is_in_row(rt, so, "they are the same", k);
    }
}

#[test]
fn clusters_of_split_logs(rt: HostRuntime) {
    all_are::<Cluster<SplitLog>>(&rt, rt.alloc());
}

#[test]
fn clusters_of_plain_logs(rt: HostRuntime) {
    all_are::<Cluster<PlainLog>>(&rt, rt.alloc());
}

// To compare takes no memory, so the answer is right whatever is refused.
#[test]
fn clusters_under_refusals(rt: HostRuntime) {
    for (k, pair) in DIFFERENT.iter().enumerate() {
        let so = are_as::<Cluster<SplitLog>>(rt.alloc(), *pair, false) != Some(false);
        is_in_row(&rt, so, "they differ", k);
    }
}
