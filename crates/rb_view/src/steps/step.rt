//! One directive of a run.

ghost use Rattle.std.specs.Prelude.{◌≡◌, ◌+◌, ◌++◌, ◌<◌, ◌≤◌, ◌^◌, IfOk, IfSome, MatchOption, OnOk, false, true};
ghost use Rattle.rb_script.specs.Reading.{directive_of};
ghost use Rattle.rb_view.specs.Kept.{texts_of};
ghost use Rattle.rb_view.specs.PageRoom.{has_room, held, held_with};
ghost use Rattle.rb_machine.specs.Outcome.{execution, outcome};
ghost use Rattle.rb_view.specs.Committed.{AreKept, keeps_commits};
ghost use Rattle.rb_view.specs.States.{state_rows};
ghost use Rattle.rb_script_report.specs.Checked.{meant_by};
ghost use Rattle.rb_view.specs.Meant.{IsOfBytes, hint_rows};
ghost use Rattle.rb_view.specs.Steps.{done_texts, left_next, script_rows, step, step_texts};
ghost use Rattle.rb_view.specs.Values.{BlockShowsBytes, ShowBytes};
ghost use Rattle.rb_view.specs.Watching.{observed_texts, shows_bytes, written_last};

use crate::rows::keep_texts;
use crate::steps::committed::keeps_commits;
use crate::steps::meant::keep_hint;
use crate::steps::node::keep_states;
use crate::steps::room::{has_room, held};
use crate::steps::rows::EventRows;
use crate::steps::script::keep_script;
use crate::steps::shown::{DirectiveRun, StepMachine};
use crate::steps::written::WrittenNode;
use rb_cluster::{Cluster, Meter};
use rb_machine::{Both, Machine, PrintedLines};
use rb_raftlog::RaftLog;
use rb_report::check::Table;
use rb_script::{Block, Lines};
use rb_script_report::hint_of;
use std::alloc::{AllocError, Global};

/// A directive of a script, and the line of its head.
#[derive(Clone, Copy)]
pub(crate) struct StepPlace<'a> {
    pub(crate) block: &'a Block,
    pub(crate) line: usize,
}

// A directive that ran: the cluster after it, what it printed, the rows of its events, if a page has room for them, the nodes as they were written
// last, and whether what they knew to be committed stays.
#[derive(Drop)]
struct WatchedRun<L: RaftLog> {
    cluster: Cluster<L>,
    output: Lines,
    texts: Option<Lines>,
    nodes: Vec<WrittenNode<L>>,
    keeps: bool,
}

// Runs a directive on a copy, with two observers: of its lines, and of its rows.
#[tactic(auto, unfolding(rb_machine::specs::Outcome::outcome))]
fn run<L: RaftLog>(
    alloc: Global,
    cluster: &Cluster<L>,
    block: &Block,
    meter: &mut Meter,
) -> Result<WatchedRun<L>, AllocError>
    ensures cluster { IfOk result (λ ran. ran.cluster ≡ (outcome cluster.now (directive_of block.now)).cluster) }
    ensures output { IfOk result (λ ran. ran.output ≡ (outcome cluster.now (directive_of block.now)).output) }
    ensures texts { IfOk result (λ ran. ran.texts ≡ held (observed_texts cluster.now.nodes (execution cluster.now (directive_of block.now)).observed)) }
    ensures nodes { IfOk result (λ ran. ran.nodes.items ≡ written_last cluster.now.nodes (execution cluster.now (directive_of block.now)).observed) }
    ensures keeps { IfOk result (λ ran. ran.keeps ≡ keeps_commits cluster.now.nodes (directive_of block.now)) }
    ensures bytes { IfOk result (λ ran. shows_bytes (execution cluster.now (directive_of block.now)).observed ≡ true) }
    ensures counted { meter.old < 2 ^ 63 → OnOk result (meter.new ≡ meter.old + 1) }
    ensures most { meter.old < 2 ^ 63 → meter.new ≤ meter.old + 1 }
{
    let mut after = Machine::try_copy(cluster)?;
    let printed = PrintedLines::new(alloc);
    let keeps = keeps_commits(cluster, block);
    let rows = EventRows::new(alloc, cluster, keeps)?;
    let mut both = Both {
        first: printed,
        second: rows,
    };
    after.run_counted(&block.directive(), &mut both, meter)?;
    let Both { first, second } = both;
    let output = first.or_ok()?;
    let (texts, nodes) = second.into_parts();
    Ok(WatchedRun {
        cluster: after,
        output,
        texts,
        nodes,
        keeps,
    })
}

// Adds what is in a cluster that wasn't written.
fn keep_changes<L: RaftLog>(
    alloc: Global,
    texts: &mut Lines,
    written: &[WrittenNode<L>],
    after: &Cluster<L>,
    keeps: bool,
) -> Result<(), AllocError>
    requires { keeps ≡ true → AreKept written.now after.now.nodes }
    ensures texts { OnOk result (texts.new ≡ texts.old ++ texts_of (state_rows written.now after.now.nodes)) }
    ensures bytes { OnOk result (ShowBytes after.now.nodes) }
{
    keep_states(alloc, texts, written, after.nodes(), keeps)?;
    Ok(())
}

// The rows with what is in a cluster that wasn't written, as long as there is room.
fn with_changes<L: RaftLog>(
    alloc: Global,
    texts: Option<Lines>,
    written: &[WrittenNode<L>],
    after: &Cluster<L>,
    keeps: bool,
) -> Result<Option<Lines>, AllocError>
    requires { keeps ≡ true → AreKept written.now after.now.nodes }
    ensures texts { IfOk result (λ rows. rows ≡ held_with texts (texts_of (state_rows written.now after.now.nodes))) }
    ensures bytes { IfOk result (λ rows. IfSome rows (λ _. ShowBytes after.now.nodes)) }
{
    let Some(texts) = texts else {
        return Ok(None);
    };
    let mut rows = texts;
    keep_changes(alloc, &mut rows, written, after, keeps)?;
    Ok(held(rows))
}

impl<L: RaftLog> StepMachine for Cluster<L> {
    fn run_on_copy(
        &self,
        alloc: Global,
        block: &Block,
        meter: &mut Meter,
    ) -> Result<DirectiveRun<Cluster<L>>, AllocError> {
        let ran = run(alloc, self, block, meter)?;
        let WatchedRun {
            cluster,
            output,
            texts,
            nodes,
            keeps,
        } = ran;
        let rows = with_changes(alloc, texts, &nodes, &cluster, keeps)?;
        Ok(DirectiveRun {
            machine: cluster,
            output,
            rows,
        })
    }
}

/// A directive that ran: the machine after it, and what it printed.
#[derive(Drop)]
pub(crate) struct StepRun<M> {
    pub(crate) machine: M,
    pub(crate) output: Lines,
}

// Adds the rows of a directive that ran. Says whether a page has room for all.
fn keep_ran(
    alloc: Global,
    texts: &mut Lines,
    table: &mut Table,
    place: StepPlace<'_>,
    output: &Lines,
    rows: &Lines,
) -> Result<bool, AllocError>
    ensures room { IfOk result (λ room. room ≡ has_room texts.new) }
    ensures texts { OnOk result (texts.new ≡ ((texts.old ++ texts_of (script_rows table.old.left place.entry.line place.entry.block.now.expected output.now)) ++ rows.now) ++ texts_of (hint_rows (meant_by place.entry.block.now output.now))) }
    ensures left { OnOk result (table.new.left ≡ left_next table.old.left place.entry.block.now.expected output.now) }
    ensures bytes { OnOk result (IsOfBytes (meant_by place.entry.block.now output.now)) }
{
    keep_script(
        alloc,
        texts,
        table,
        place.line,
        place.block.expected(),
        output,
    )?;
    keep_texts(texts, rows)?;
    keep_hint(texts, hint_of(place.block, output))?;
    Ok(has_room(texts))
}

/// Runs a directive on a copy, and adds its rows; none if a page has no room for them.
pub(crate) fn keep_step<M: StepMachine>(
    alloc: Global,
    texts: &mut Lines,
    table: &mut Table,
    machine: &M,
    place: StepPlace<'_>,
    meter: &mut Meter,
) -> Result<Option<StepRun<M>>, AllocError>
    ensures room { IfOk result (λ run. MatchOption run (has_room (texts.old ++ step_texts (step table.old.left place.entry.line (M.meaning machine.now) place.entry.block.now)) ≡ false) (λ _. has_room texts.new ≡ true)) }
    ensures texts { IfOk result (λ run. IfSome run (λ _. texts.new ≡ texts.old ++ step_texts (step table.old.left place.entry.line (M.meaning machine.now) place.entry.block.now))) }
    ensures left { IfOk result (λ run. IfSome run (λ _. table.new.left ≡ left_next table.old.left place.entry.block.now.expected (outcome (M.meaning machine.now) (directive_of place.entry.block.now)).output)) }
    ensures machine { IfOk result (λ run. IfSome run (λ r. M.meaning r.machine ≡ (outcome (M.meaning machine.now) (directive_of place.entry.block.now)).cluster)) }
    ensures output { IfOk result (λ run. IfSome run (λ r. r.output ≡ (outcome (M.meaning machine.now) (directive_of place.entry.block.now)).output)) }
    ensures bytes { IfOk result (λ run. IfSome run (λ _. BlockShowsBytes (M.meaning machine.now) place.entry.block.now)) }
    ensures counted { meter.old < 2 ^ 63 → OnOk result (meter.new ≡ meter.old + 1) }
    ensures most { meter.old < 2 ^ 63 → meter.new ≤ meter.old + 1 }
{
    let ran = machine.run_on_copy(alloc, place.block, meter)?;
    let DirectiveRun {
        machine,
        output,
        rows,
    } = ran;
    let Some(rows) = rows else {
        return Ok(None);
    };
    let fits = keep_ran(alloc, texts, table, place, &output, &rows)?;
    if !fits {
        return Ok(None);
    }
    Ok(Some(StepRun { machine, output }))
}
