//! The rows of some directives of a session's script, as a page has them.
//!
//! A page's rows of a directive depend on the cluster before it, which a session's last checkpoint gives, and on one thing more: the mismatches before
//! it take cells off those that are left to compare its own ([`Table`]). These are counted anew, from the session's outputs, without comparing.

ghost use Rattle.std.specs.Prelude.{◌≡◌, ◌+◌, ◌-◌, ◌≤◌, ◌^◌, ◌∷◌, ◌++◌, [], IfOk, IfSome, OnOk, false, length, true};
ghost use Rattle.std.specs.List.{flat_map};
ghost use Rattle.rb_script.specs.declared.limits.TheConstants.{MAX_DIRECTIVES};
ghost use Rattle.rb_replay.specs.Run.{state};
ghost use Rattle.rb_view.specs.Kept.{texts_of};
ghost use Rattle.rb_view.specs.PageRoom.{has_room, held};
ghost use Rattle.rb_view.specs.SomeSteps.{cells_row, left_at, left_in, some_steps, some_texts, texts_after};
ghost use Rattle.rb_view.specs.Steps.{left_next, step_texts};

use crate::rows::{Cell, keep_row};
use crate::steps::cells::cells_left;
use crate::steps::room::held;
use crate::steps::script::is_same;
use crate::steps::shown::StepMachine;
use crate::steps::step::{StepPlace, StepRun, keep_step};
use crate::steps::steps::{keep_end, keep_warnings};
use rb_cluster::Meter;
use rb_machine::Machine;
use rb_replay::Session;
use rb_report::check::{MAX_SCRIPT_CELLS, Table};
use rb_script::Lines;
use rb_script_report::{Warning, number_at};
use std::alloc::{AllocError, Global};

/// Some directives of a script.
#[derive(Clone, Copy)]
pub struct SomeDirectives<'a> {
    /// The lines of the heads of all directives of the script.
    pub heads: &'a [usize],
    /// All its warnings.
    pub warnings: &'a [Warning],
    /// How many directives are before them.
    pub from: usize,
    /// How many are before those after them.
    pub to: usize,
}

// How many cells are left after one output.
fn left_next(left: usize, expected: &Lines, output: &Lines) -> usize
    ensures { result ≡ left_next left expected.now output.now }
{
    if is_same(expected, output) {
        return left;
    }
    cells_left(left, expected, output)
}

// How many cells are left after the first directives of a session's script.
fn left_at<M: Machine>(session: &Session<M>, place: usize) -> usize
    requires { place ≤ length session.now.script.blocks }
    ensures { result ≡ left_at session.now.script place }
{
    let mut left = MAX_SCRIPT_CELLS;
    for i in 0..place {
        let block = session.block_at(i);
        left = left_next(left, block.expected(), session.output_at(i));
    }
    left
}

// Runs directives, each once, from the machine before them, and adds their rows. Says whether a page has room for them. If it hasn't, no other is run.
fn keep_some<N: Machine, M: StepMachine>(
    alloc: Global,
    texts: &mut Lines,
    session: &Session<N>,
    some: SomeDirectives<'_>,
    machine: M,
    meter: &mut Meter,
) -> Result<bool, AllocError>
    requires count { length some.heads.now ≡ length session.now.script.blocks }
    requires order { some.from ≤ some.to }
    requires there { some.to ≤ length session.now.script.blocks }
    requires few { length session.now.script.blocks ≤ MAX_DIRECTIVES }
    requires here { M.meaning machine ≡ state session.now.script some.from }
    ensures texts { IfOk result (λ fits. fits ≡ true → texts.new ≡ texts.old ++ flat_map step_texts (some_steps some.entry.heads.now session.now.script some.entry.from (some.entry.to - some.entry.from))) }
    ensures full { IfOk result (λ fits. fits ≡ false → has_room (texts.old ++ flat_map step_texts (some_steps some.entry.heads.now session.now.script some.entry.from (some.entry.to - some.entry.from))) ≡ false) }
    ensures counted { meter.old ≤ 2 ^ 62 → IfOk result (λ fits. fits ≡ true → meter.new ≡ meter.old + (some.entry.to - some.entry.from)) }
    ensures most { meter.old ≤ 2 ^ 62 → meter.new ≤ meter.old + (some.entry.to - some.entry.from) }
{
    let mut table = Table::new(alloc)?;
    table.left = left_at(session, some.from);
    let mut machine = machine;
    for i in some.from..some.to {
        let block = session.block_at(i);
        let line = number_at(some.heads, i);
        let place = StepPlace { block, line };
        let Some(ran) = keep_step(alloc, texts, &mut table, &machine, place, meter)? else {
            return Ok(false);
        };
        let StepRun {
            machine: next,
            output: _,
        } = ran;
        machine = next;
    }
    Ok(true)
}

// Adds how many cells are left.
fn keep_cells(texts: &mut Lines, left: usize) -> Result<(), AllocError>
    ensures { OnOk result (texts.new ≡ texts.old ++ texts_of (cells_row left ∷ [])) }
{
    keep_row(texts, b"cells", &[Cell::Number(left as u64)])
}

// Adds what follows the directives, where so many cells are left after all of them.
fn keep_after<M: Machine>(
    texts: &mut Lines,
    session: &Session<M>,
    left: usize,
    warnings: &[Warning],
) -> Result<(), AllocError>
    requires { left ≡ left_in session.now.script }
    ensures { OnOk result (texts.new ≡ texts.old ++ texts_after warnings.now session.now.script) }
{
    keep_cells(texts, left)?;
    keep_warnings(texts, warnings)?;
    keep_end(texts, session)
}

/// Gives the rows that a page of a session's script has of some directives, from the machine before them
/// ([`machine_in_session`](crate::look::machine_in_session)), and what follows the directives, each as a text. None only if a page has no room for
/// them.
pub fn rows_of_some<N: Machine, M: StepMachine>(
    alloc: Global,
    session: &Session<N>,
    some: SomeDirectives<'_>,
    machine: M,
    meter: &mut Meter,
) -> Result<Option<Lines>, AllocError>
    requires count { length some.heads.now ≡ length session.now.script.blocks }
    requires order { some.from ≤ some.to }
    requires there { some.to ≤ length session.now.script.blocks }
    requires here { M.meaning machine ≡ state session.now.script some.from }
    ensures rows { IfOk result (λ rows. rows ≡ held (some_texts some.entry.heads.now some.entry.warnings.now some.entry.from (some.entry.to - some.entry.from) session.now.script)) }
    // Each of them is run once, and no other directive is.
    ensures counted { meter.old ≤ 2 ^ 62 → IfOk result (λ rows. IfSome rows (λ _. meter.new ≡ meter.old + (some.entry.to - some.entry.from))) }
    ensures most { meter.old ≤ 2 ^ 62 → meter.new ≤ meter.old + (some.entry.to - some.entry.from) }
{
    let left = left_at(session, session.len());
    let mut texts = Lines::new(alloc);
    let fits = keep_some(alloc, &mut texts, session, some, machine, meter)?;
    if !fits {
        return Ok(None);
    }
    keep_after(&mut texts, session, left, some.warnings)?;
    Ok(held(texts))
}
