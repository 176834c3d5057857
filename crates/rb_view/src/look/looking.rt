//! Shows the state at a place of a script.

ghost use Rattle.std.specs.Prelude.{◌≡◌, ◌+◌, ◌-◌, ◌*◌, ◌<◌, ◌≤◌, ◌++◌, ◌^◌, ℕ, [], length, min, codes, decimal, IfOk, OnOk};
ghost use Rattle.rb_script.specs.declared.limits.TheConstants.{MAX_DIRECTIVES};
ghost use Rattle.rb_replay.specs.Points.{last_up_to};
ghost use Rattle.rb_replay.specs.Run.{state};
ghost use Rattle.rb_view.specs.Looks.{answer_in, asked, question, of_node, of_nodes, section, looked_in, looked, all_dropped};

use crate::look::answer::{answer, question};
use crate::look::nodes::Nodes;
use crate::look::section::add_section;
use itoa::Buffer;
use rb_machine::{Count, Machine};
use rb_replay::Session;
use rb_script::{Lines, Script};
use std::alloc::{AllocError, Global};

/// The most nodes of a cluster.
const MOST_NODES: usize = 32;

// Drops all messages in flight, and so prints them.
const ALL_DROPPED: &[u8] =
    b"deliver-msgs drop=(1,2,3,4,5,6,7,8,9,10,11,12,13,14,15,16,17,18,19,20,21,22,23,24,25,26,27,28,29,30,31,32)";

/// Runs the directives of a script from one place to another, on the machine at the first.
pub(crate) fn run_between<M: Machine>(
    machine: M,
    script: &Script,
    from: usize,
    place: usize,
    meter: &mut M::Meter,
) -> Result<M, AllocError>
    requires here { M.meaning machine ≡ state script.now from }
    requires forward { from ≤ place }
    requires there { place ≤ length script.now.blocks }
    requires few { place ≤ MAX_DIRECTIVES }
    requires meter { M.Meter.count_of meter.old ≤ 2 ^ 62 }
    ensures machine { IfOk result (λ m. M.meaning m ≡ state script.now place) }
    ensures counted { M.Meter.count_of meter.new ≤ M.Meter.count_of meter.old + place }
{
    let mut machine = machine;
    for i in from..place {
        let block = script.block(i + 1).unwrap();
        let (next, _lines) = machine.run(block.directive(), meter)?;
        machine = next;
    }
    Ok(machine)
}

/// Runs the first directives of a script, up to a place.
pub(crate) fn machine_at<M: Machine>(
    alloc: Global,
    script: &Script,
    place: usize,
    meter: &mut M::Meter,
) -> Result<M, AllocError>
    requires there { place ≤ length script.now.blocks }
    requires few { place ≤ MAX_DIRECTIVES }
    requires meter { M.Meter.count_of meter.old ≤ 2 ^ 62 }
    ensures machine { IfOk result (λ m. M.meaning m ≡ state script.now place) }
    ensures counted { M.Meter.count_of meter.new ≤ M.Meter.count_of meter.old + place }
{
    run_between(M::empty(alloc)?, script, 0, place, meter)
}

/// Gives the machine at a place of a session's script. It runs from the last checkpoint.
pub fn machine_in_session<M: Machine>(
    session: &Session<M>,
    place: usize,
    meter: &mut M::Meter,
) -> Result<M, AllocError>
    requires there { place ≤ length session.now.script.blocks }
    requires few { place ≤ MAX_DIRECTIVES }
    requires meter { M.Meter.count_of meter.old ≤ 2 ^ 62 }
    ensures machine { IfOk result (λ m. M.meaning m ≡ state session.now.script place) }
    ensures counted { M.Meter.count_of meter.new ≤ M.Meter.count_of meter.old + place }
    // No directive up to the last checkpoint is run.
    ensures near { M.Meter.count_of meter.new ≤ M.Meter.count_of meter.old + (place - last_up_to place session.now.points) }
{
    let (from, mut machine) = session.last_checkpoint(place)?;
    for i in from..place {
        let block = session.block(i + 1).unwrap();
        let (next, _lines) = machine.run(block.directive(), meter)?;
        machine = next;
    }
    Ok(machine)
}

// What a directive of this text would print.
fn ask<M: Machine>(
    alloc: Global,
    machine: &M,
    meter: &mut M::Meter,
    head: &[u8],
) -> Result<Lines, AllocError>
    requires { M.Meter.count_of meter.old < 2 ^ 63 }
    ensures answer { IfOk result (λ lines. lines ≡ answer_in (M.meaning machine.now) (question head.now)) }
    ensures counted { M.Meter.count_of meter.new ≤ M.Meter.count_of meter.old + 1 }
{
    let text = question(alloc, head)?;
    answer(alloc, machine, &text, meter)
}

// Adds the answer to a directive, below the directive's text.
fn add_answer<M: Machine>(
    alloc: Global,
    machine: &M,
    meter: &mut M::Meter,
    lines: &mut Lines,
    head: &[u8],
) -> Result<(), AllocError>
    requires { M.Meter.count_of meter.old < 2 ^ 63 }
    ensures added { OnOk result (lines.new ≡ lines.old ++ asked (M.meaning machine.now) head.now) }
    ensures counted { M.Meter.count_of meter.new ≤ M.Meter.count_of meter.old + 1 }
{
    let answer = ask(alloc, machine, meter, head)?;
    add_section(lines, head, &answer, b"")
}

// Adds the messages in flight: the answer to a directive that drops them all, each line without the word `drop`.
fn add_in_flight<M: Machine>(
    alloc: Global,
    machine: &M,
    meter: &mut M::Meter,
    lines: &mut Lines,
) -> Result<(), AllocError>
    requires { M.Meter.count_of meter.old < 2 ^ 63 }
    ensures { OnOk result (lines.new ≡ lines.old ++ section (M.meaning machine.now) (codes "on their way") all_dropped (codes "drop ")) }
{
    let answer = ask(alloc, machine, meter, ALL_DROPPED)?;
    add_section(lines, b"on their way", &answer, b"drop ")
}

// A directive's text: the word and an id.
fn head_of(alloc: Global, word: &[u8], id: u64) -> Result<Vec<u8>, AllocError>
    ensures { IfOk result (λ text. text.items ≡ word.now ++ decimal id) }
{
    let mut text = Vec::new(alloc);
    text.extend_from_slice(word)?;
    let mut digits = Buffer::new();
    text.extend_from_slice(digits.format(id).as_bytes())?;
    Ok(text)
}

// Adds a node's log, and its view of others.
fn add_node<M: Machine>(
    alloc: Global,
    machine: &M,
    meter: &mut M::Meter,
    lines: &mut Lines,
    id: u64,
) -> Result<(), AllocError>
    requires { M.Meter.count_of meter.old + 2 < 2 ^ 63 }
    ensures added { OnOk result (lines.new ≡ lines.old ++ of_node (M.meaning machine.now) id) }
    ensures counted { M.Meter.count_of meter.new ≤ M.Meter.count_of meter.old + 2 }
{
    let log = head_of(alloc, b"raft-log ", id)?;
    add_answer(alloc, machine, meter, lines, &log)?;
    let status = head_of(alloc, b"status ", id)?;
    add_answer(alloc, machine, meter, lines, &status)
}

fn add_nodes<M: Machine>(
    alloc: Global,
    machine: &M,
    meter: &mut M::Meter,
    lines: &mut Lines,
    count: usize,
) -> Result<(), AllocError>
    requires few { count ≤ MOST_NODES }
    requires meter { M.Meter.count_of meter.old + 2 * count < 2 ^ 63 }
    ensures added { OnOk result (lines.new ≡ lines.old ++ of_nodes (M.meaning machine.now) 1 count) }
    ensures counted { M.Meter.count_of meter.new ≤ M.Meter.count_of meter.old + 2 * count }
{
    for i in 0..count {
        add_node(alloc, machine, meter, lines, i as u64 + 1)?;
    }
    Ok(())
}

/// Shows a machine: the state of each node, its log, what it knows of the others, and the messages in flight.
pub fn look_in<M: Nodes>(
    alloc: Global,
    machine: &M,
    meter: &mut M::Meter,
) -> Result<Lines, AllocError>
    requires { M.Meter.count_of meter.old ≤ 2 ^ 62 + 2 ^ 32 }
    ensures { IfOk result (λ lines. lines ≡ looked_in (M.meaning machine.now)) }
{
    let mut lines = Lines::new(alloc);
    add_answer(alloc, machine, meter, &mut lines, b"raft-state")?;
    let count = machine.count().min(MOST_NODES);
    add_nodes(alloc, machine, meter, &mut lines, count)?;
    add_in_flight(alloc, machine, meter, &mut lines)?;
    Ok(lines)
}

/// Shows the machine after the first directives of a script, as [`look_in`] does. The meter rises by the directives that are run for it.
#[tactic(auto, unfolding(crate::specs::Looks::looked))]
pub fn look<M: Nodes>(
    alloc: Global,
    script: &Script,
    place: usize,
    meter: &mut M::Meter,
) -> Result<Lines, AllocError>
    requires there { place ≤ length script.now.blocks }
    requires few { place ≤ MAX_DIRECTIVES }
    requires meter { M.Meter.count_of meter.old ≤ 2 ^ 62 }
    ensures { IfOk result (λ lines. lines ≡ looked script.now place) }
{
    let machine: M = machine_at(alloc, script, place, meter)?;
    look_in(alloc, &machine, meter)
}
