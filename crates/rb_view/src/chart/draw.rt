//! The picture of a run.

ghost use Rattle.std.specs.Prelude.{◌≡◌, ◌+◌, ◌<◌, ◌≤◌, ◌^◌, ◌++◌, ◌∷◌, [], Err, IfOk, IfSome, MatchOption, OnOk, false, fold, length, true};
ghost use Rattle.std.specs.List.{list_all};
ghost use Rattle.rb_script.specs.declared.limits.TheConstants.{MAX_DIRECTIVES};
ghost use Rattle.rb_script.specs.Reading.{directive_of};
ghost use Rattle.rb_machine.specs.Cluster.{empty};
ghost use Rattle.rb_machine.specs.Outcome.{execution, outcome};
ghost use Rattle.rb_replay.specs.Run.{outputs};
ghost use Rattle.rb_view.specs.Drawn.{arrows_of, drawn_arrows, fits, has_room, shown, view_of, views_from, without_places};
ghost use Rattle.rb_view.specs.Titles.{is_printable, title_text};

use crate::chart::builder::ChartBuilder;
use crate::chart::chart::Chart;
use crate::chart::choice::mail_choice;
use crate::chart::part::ChartPart;
use crate::chart::title::title_of;
use rb_cluster::{Cluster, Meter};
use rb_machine::{Both, Machine, PrintedLines};
use rb_raftlog::RaftLog;
use rb_replay::{Outputs, block_at};
use rb_script::{Block, Lines, Script};
use rb_script_report::number_at;
use std::alloc::{AllocError, Global};
use std::mem;

/// The most items of a picture, with the messages that come in: about as many as a browser opens.
pub const MAX_EVENTS: u64 = 500_000;

/// Why there is no picture.
#[derive(Clone, Copy, PartialEq, Eq, Debug)]
pub enum ChartFault {
    /// There are more items than fit into a picture.
    TooLarge,
    OutOfMemory,
}

/// A script, the bytes that it was read from, and the lines on which its heads begin.
#[derive(Clone, Copy)]
pub struct ChartScript<'a> {
    pub bytes: &'a [u8],
    pub script: &'a Script,
    pub heads: &'a [usize],
}

/// A picture, and what the directives of its script printed.
#[derive(Drop)]
pub struct DrawnRun {
    pub chart: Chart,
    pub printed: Outputs,
}

// Runs a directive with an observer, and returns what it printed.
#[tactic(auto, unfolding(rb_machine::specs::Outcome::outcome))]
fn run<L: RaftLog>(
    alloc: Global,
    cluster: &mut Cluster<L>,
    block: &Block,
    both: &mut Both<PrintedLines, ChartBuilder<'_>>,
    meter: &mut Meter,
) -> Result<Lines, AllocError>
    requires { both.old.first.lines ≡ [] }
    ensures cluster { OnOk result (cluster.new ≡ (outcome cluster.old (directive_of block.now)).cluster) }
    ensures output { IfOk result (λ output. output ≡ (outcome cluster.old (directive_of block.now)).output) }
    ensures shown { OnOk result (view_of both.new.second ≡ shown (view_of both.old.second) (execution cluster.old (directive_of block.now))) }
    ensures left { OnOk result (both.new.first.lines ≡ []) }
    ensures counted { meter.old < 2 ^ 63 → OnOk result (meter.new ≡ meter.old + 1) }
    ensures most { meter.old < 2 ^ 63 → meter.new ≤ meter.old + 1 }
{
    cluster.run_counted(&block.directive(), both, meter)?;
    let printed = mem::replace(&mut both.first, PrintedLines::new(alloc));
    let output = printed.or_ok()?;
    Ok(output)
}

// Runs the directives, each once, and draws them, as long as all items fit. Keeps what they printed.
fn draw_directives<L: RaftLog>(
    alloc: Global,
    both: &mut Both<PrintedLines, ChartBuilder<'_>>,
    script: &Script,
    heads: &[usize],
    part: ChartPart,
    meter: &mut Meter,
) -> Result<Option<Outputs>, AllocError>
    requires few { length script.now.blocks ≤ MAX_DIRECTIVES }
    requires count { length heads.now ≡ length script.now.blocks }
    requires none { both.old.first.lines ≡ [] }
    ensures room { IfOk result (λ drawn. let fits = has_room (views_from part (view_of both.old.second) empty heads.now script.now.blocks) in MatchOption drawn (fits ≡ false) (λ _. fits ≡ true)) }
    ensures drawn { IfOk result (λ drawn. IfSome drawn (λ _. view_of both.new.second ≡ views_from part (view_of both.old.second) empty heads.now script.now.blocks)) }
    ensures outputs { IfOk result (λ drawn. IfSome drawn (λ printed. printed ≡ outputs script.now)) }
    ensures counted { meter.old ≤ 2 ^ 62 → IfOk result (λ drawn. IfSome drawn (λ _. meter.new ≡ meter.old + length script.now.blocks)) }
    ensures most { meter.old ≤ 2 ^ 62 → meter.new ≤ meter.old + length script.now.blocks }
{
    let mut printed = Outputs::new(alloc);
    let mut cluster = Cluster::<L>::empty(alloc)?;
    for i in 0..script.len() {
        if !both.second.has_room() {
            return Ok(None);
        }
        let block = block_at(script, i);
        let line = number_at(heads, i) as u64;
        let choice = mail_choice(&block.directive());
        both.second
            .enter(part.phase_at(line), choice, line, cluster.nodes())?;
        let output = run(alloc, &mut cluster, block, both, meter)?;
        both.second.see(cluster.nodes())?;
        printed.push(output)?;
    }
    if both.second.has_room() {
        Ok(Some(printed))
    } else {
        Ok(None)
    }
}

/// Runs a script, each directive once, and draws its picture, or that of a part of it: this is its name. Where things are is not stated:
/// docs/FORMATS.md has it.
///
/// # Errors
///
/// `TooLarge` if the directives of the part show more than [`MAX_EVENTS`] items, and `OutOfMemory`.
pub fn chart_of<L: RaftLog>(
    alloc: Global,
    name: &[u8],
    source: ChartScript<'_>,
    part: ChartPart,
    meter: &mut Meter,
) -> Result<DrawnRun, ChartFault>
    requires few { length source.script.now.blocks ≤ MAX_DIRECTIVES }
    requires count { length source.heads.now ≡ length source.script.now.blocks }
    // There is a picture only if it has room, and too little room is the reason only if there is too little.
    ensures room { IfOk result (λ _. fits part source.entry.heads.now source.entry.script.now ≡ true) }
    ensures large { result ≡ Err ChartFault.TooLarge → fits part source.entry.heads.now source.entry.script.now ≡ false }
    // A name of printable ASCII is the title, with the lines.
    ensures title { IfOk result (λ drawn. list_all is_printable name.now ≡ true → drawn.chart.title ≡ title_text name.now part.from part.until) }
    // Each message has its arrow.
    ensures arrows { IfOk result (λ drawn. without_places drawn.chart.arrows ≡ drawn_arrows part source.entry.heads.now source.entry.script.now) }
    ensures outputs { IfOk result (λ drawn. drawn.printed ≡ outputs source.entry.script.now) }
    // Each directive is run once; without room or memory, none is run twice.
    ensures counted { meter.old ≤ 2 ^ 62 → OnOk result (meter.new ≡ meter.old + length source.entry.script.now.blocks) }
    ensures most { meter.old ≤ 2 ^ 62 → meter.new ≤ meter.old + length source.entry.script.now.blocks }
{
    let mut both = Both {
        first: PrintedLines::new(alloc),
        second: ChartBuilder::new(alloc, source.bytes, MAX_EVENTS + 1),
    };
    let ChartScript { script, heads, .. } = source;
    let Ok(drawn) = draw_directives::<L>(alloc, &mut both, script, heads, part, meter) else {
        return Err(ChartFault::OutOfMemory);
    };
    let Some(printed) = drawn else {
        return Err(ChartFault::TooLarge);
    };
    let Both { first: _, second } = both;
    match chart_with(alloc, name, part, second) {
        Ok(chart) => Ok(DrawnRun { chart, printed }),
        Err(_) => Err(ChartFault::OutOfMemory),
    }
}

// The picture that is drawn so, with its title.
fn chart_with(
    alloc: Global,
    name: &[u8],
    part: ChartPart,
    builder: ChartBuilder<'_>,
) -> Result<Chart, AllocError>
    ensures title { IfOk result (λ chart. list_all is_printable name.now ≡ true → chart.title ≡ title_text name.now part.from part.until) }
    ensures arrows { IfOk result (λ chart. without_places chart.arrows ≡ arrows_of (view_of builder.entry)) }
{
    let title = title_of(alloc, name, part)?;
    builder.finish(alloc, title)
}
