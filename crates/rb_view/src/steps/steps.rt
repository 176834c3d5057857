//! All directives of a run.

ghost use Rattle.std.specs.Prelude.{◌≡◌, ◌+◌, ◌<◌, ◌≤◌, ◌^◌, ◌∷◌, [], ◌++◌, IfNone, IfOk, IfSome, MatchOption, OnOk, Some, false, length, map, slice_get, true};
ghost use Rattle.std.specs.List.{flat_map};
ghost use Rattle.rb_script.specs.declared.limits.TheConstants.{MAX_DIRECTIVES};
ghost use Rattle.rb_script.specs.Lines.{lines};
ghost use Rattle.rb_machine.specs.Cluster.{empty};
ghost use Rattle.rb_view.specs.Kept.{texts_of};
ghost use Rattle.rb_view.specs.PageRoom.{has_room};
ghost use Rattle.rb_view.specs.Rows.{next_text};
ghost use Rattle.rb_replay.specs.Run.{outputs};
ghost use Rattle.rb_view.specs.Steps.{end_row, source_row, step_texts, steps, steps_texts, warning_row};
ghost use Rattle.rb_view.specs.Values.{GoOnShowingBytes};
ghost use Rattle.rb_script_report.specs.Doubts.{all_warnings};

use crate::rows::{Cell, keep_row};
use crate::steps::room::has_room;
use crate::steps::shown::StepMachine;
use crate::steps::step::{StepPlace, keep_step};
use rb_cluster::Meter;
use rb_machine::Machine;
use rb_replay::{Outputs, Session, block_at};
use rb_report::check::{Table, warning_sentence};
use rb_script::{Lines, Script, ScriptWithLines};
use rb_script_report::{Layout, Warning, number_at, warnings};
use std::alloc::{AllocError, Global};

// Runs the directives, each once, and adds their rows. What they printed is given back; nothing once a page has no room for their rows, and then no
// other is run.
fn keep_directives<M: StepMachine>(
    alloc: Global,
    texts: &mut Lines,
    script: &Script,
    heads: &[usize],
    meter: &mut Meter,
) -> Result<Option<Outputs>, AllocError>
    requires few { length script.now.blocks ≤ MAX_DIRECTIVES }
    requires count { length heads.now ≡ length script.now.blocks }
    ensures room { IfOk result (λ ran. IfNone ran (has_room (texts.old ++ flat_map step_texts (steps heads.now script.now)) ≡ false)) }
    ensures texts { IfOk result (λ ran. IfSome ran (λ _. texts.new ≡ texts.old ++ flat_map step_texts (steps heads.now script.now))) }
    ensures outputs { IfOk result (λ ran. IfSome ran (λ printed. printed ≡ outputs script.now)) }
    ensures bytes { IfOk result (λ ran. IfSome ran (λ _. GoOnShowingBytes empty script.now.blocks)) }
    ensures counted { meter.old ≤ 2 ^ 62 → IfOk result (λ ran. IfSome ran (λ _. meter.new ≡ meter.old + length script.now.blocks)) }
    ensures most { meter.old ≤ 2 ^ 62 → meter.new ≤ meter.old + length script.now.blocks }
{
    let mut printed = Outputs::new(alloc);
    let mut machine = M::empty(alloc)?;
    let mut table = Table::new(alloc)?;
    for i in 0..script.len() {
        let block = block_at(script, i);
        let line = number_at(heads, i);
        let place = StepPlace { block, line };
        let Some(ran) = keep_step(alloc, texts, &mut table, &machine, place, meter)? else {
            return Ok(None);
        };
        printed.push(ran.output)?;
        machine = ran.machine;
    }
    Ok(Some(printed))
}

// The warning at an index, which counts from 0.
fn warning_at(found: &[Warning], index: usize) -> &Warning
    requires { index < length found.now }
    ensures { slice_get found.now index ≡ Some result.now }
{
    &found[index]
}

// Adds a line that is probably a mistake.
fn keep_warning(texts: &mut Lines, warning: &Warning) -> Result<(), AllocError>
    ensures { OnOk result (texts.new ≡ texts.old ++ next_text (warning_row warning.now) ∷ []) }
{
    let cells = [
        Cell::Number(warning.line as u64),
        Cell::Text(warning_sentence(warning.doubt)),
    ];
    keep_row(texts, b"warning", &cells)
}

/// Adds the lines that are probably a mistake.
pub(crate) fn keep_warnings(texts: &mut Lines, found: &[Warning]) -> Result<(), AllocError>
    ensures { OnOk result (texts.new ≡ texts.old ++ texts_of (map warning_row found.now)) }
{
    for i in 0..found.len() {
        keep_warning(texts, warning_at(found, i))?;
    }
    Ok(())
}

/// Adds how many directives and mismatches there are.
pub(crate) fn keep_end<M: Machine>(
    texts: &mut Lines,
    session: &Session<M>,
) -> Result<(), AllocError>
    ensures { OnOk result (texts.new ≡ texts.old ++ texts_of (end_row session.now.script ∷ [])) }
{
    let cells = [
        Cell::Number(session.len() as u64),
        Cell::Number(session.mismatches().len() as u64),
    ];
    keep_row(texts, b"end", &cells)?;
    Ok(())
}

// Adds the bytes of a script.
fn keep_source(texts: &mut Lines, bytes: &[u8]) -> Result<(), AllocError>
    ensures { OnOk result (texts.new ≡ texts.old ++ texts_of (source_row bytes.now ∷ [])) }
{
    keep_row(texts, b"text", &[Cell::Text(bytes)])
}

// Adds what is after the directives: the lines that are probably a mistake, and how many directives and mismatches there are.
fn keep_rest<M: Machine>(
    alloc: Global,
    texts: &mut Lines,
    session: &Session<M>,
    layout: &Layout,
) -> Result<(), AllocError>
    requires count { length layout.now.heads.items ≡ length session.now.script.blocks }
    ensures { OnOk result (texts.new ≡ texts.old ++ (texts_of (map warning_row (all_warnings layout.now.text layout.now.heads.items session.now.script.blocks (outputs session.now.script))) ++ texts_of (end_row session.now.script ∷ []))) }
{
    let found = warnings(alloc, session, layout)?;
    keep_warnings(texts, found.as_slice())?;
    keep_end(texts, session)
}

/// Runs a script that was read from these bytes, each directive once, and gives a session on it and the rows after the first, each as a text; none
/// only if a page has no room for them. After each directive what is shown of a node's content is bytes.
pub fn steps_of<M: StepMachine>(
    alloc: Global,
    read: ScriptWithLines,
    bytes: &[u8],
    meter: &mut Meter,
) -> Result<Option<(Session<M>, Lines)>, AllocError>
    requires few { length read.script.blocks ≤ MAX_DIRECTIVES }
    requires count { length read.heads.items ≡ length read.script.blocks }
    requires lines { read.lines ≡ lines bytes.now }
    ensures room { IfOk result (λ ran. let room = has_room (steps_texts bytes.now read.heads.items read.script) in MatchOption ran (room ≡ false) (λ _. room ≡ true)) }
    ensures script { IfOk result (λ ran. IfSome ran (λ r. r.0.script ≡ read.script)) }
    ensures texts { IfOk result (λ ran. IfSome ran (λ r. r.1 ≡ steps_texts bytes.now read.heads.items read.script)) }
    ensures bytes { IfOk result (λ ran. IfSome ran (λ _. GoOnShowingBytes empty read.script.blocks)) }
    // Each directive is run once; without room or memory, none is run twice.
    ensures counted { meter.old ≤ 2 ^ 62 → IfOk result (λ ran. IfSome ran (λ _. meter.new ≡ meter.old + length read.script.blocks)) }
    ensures most { meter.old ≤ 2 ^ 62 → meter.new ≤ meter.old + length read.script.blocks }
{
    let ScriptWithLines {
        script,
        lines: text,
        heads,
    } = read;
    let layout = Layout { text, heads };
    let mut texts = Lines::new(alloc);
    keep_source(&mut texts, bytes)?;
    let heads = layout.heads.as_slice();
    let ran = keep_directives::<M>(alloc, &mut texts, &script, heads, meter)?;
    let Some(printed) = ran else {
        return Ok(None);
    };
    let session = Session::from_outputs(alloc, script, printed)?;
    keep_rest(alloc, &mut texts, &session, &layout)?;
    if !has_room(&texts) {
        return Ok(None);
    }
    Ok(Some((session, texts)))
}
