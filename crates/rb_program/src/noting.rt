//! Notes on a script that was written with its outputs: probable mistakes, and new errors.

ghost use Rattle.std.specs.Prelude.{◌≡◌, IfSome, IsOk};
ghost use Rattle.rb_script.specs.Writes.{Writes};
ghost use Rattle.rb_replay.specs.Run.{outputs};
ghost use Rattle.rb_script_report.specs.Layouts.{IsLayout};
ghost use Rattle.rb_program.specs.Notes.{error_noted, errors_noted, notes_shown, warnings_noted};

use rb_bench::ScriptRun;
use rb_check::shown_of_script;
use rb_machine::Machine;
use rb_replay::Session;
use rb_report::check::{FileLine, put_note, put_warning};
use rb_report::help::suggested;
use rb_script::{Block, Lines, Sink, Through, WriteFault};
use rb_script_report::{
    Layout, Warning, block_at, first_line, is_unexpected, number_at, output_at, warnings,
};
use std::alloc::Global;

/// The notes on the script of the bytes, which ran, as a terminal gets them; none, if memory was refused.
pub(crate) fn notes_of(alloc: Global, path: &[u8], bytes: &[u8], run: &ScriptRun) -> Option<Vec<u8>>
    requires { IsLayout bytes.now run.now.session.script run.now.layout }
    ensures { IfSome result (λ notes. notes.items ≡ notes_shown path.now run.now.layout run.now.session.script) }
{
    let Ok(doubts) = warnings(alloc, &run.session, &run.layout) else {
        return None;
    };
    let mut sink = Through(Vec::new(alloc));
    let is_whole = put_warnings(&mut sink, path, &doubts).is_ok()
        && put_errors(&mut sink, path, bytes, &run.session, &run.layout).is_ok();
    if !is_whole {
        return None;
    }
    shown_of_script(alloc, &run.layout.text, &sink.0).ok()
}

// Writes the lines that look like a slip.
fn put_warnings<S: Sink>(sink: &mut S, path: &[u8], doubts: &[Warning]) -> Result<(), WriteFault>
    ensures wrote { Writes result (S.held sink.old) (S.held sink.new) (warnings_noted path.now doubts.now) }
    ensures all { S.takes_all sink.old → IsOk result × S.takes_all sink.new }
{
    for warning in doubts {
        put_warning(sink, path, warning.line, warning.doubt)?;
    }
    Ok(())
}

// Writes the outputs that are new errors, of the script that these bytes are.
fn put_errors<M: Machine, S: Sink>(
    sink: &mut S,
    path: &[u8],
    _bytes: &[u8],
    session: &Session<M>,
    layout: &Layout,
) -> Result<(), WriteFault>
    requires { IsLayout _bytes.now session.now.script layout.now }
    ensures wrote { Writes result (S.held sink.old) (S.held sink.new) (errors_noted layout.now.text path.now layout.now.heads.items session.now.script.blocks (outputs session.now.script)) }
    ensures all { S.takes_all sink.old → IsOk result × S.takes_all sink.new }
{
    let heads = layout.heads.as_slice();
    for i in 0..session.len() {
        let line = number_at(heads, i);
        let block = block_at(session, i);
        let output = output_at(session, i);
        put_error(sink, &layout.text, FileLine { path, line }, block, output)?;
    }
    Ok(())
}

// Writes the output of a directive, if it is a new error.
fn put_error<S: Sink>(
    sink: &mut S,
    text: &Lines,
    place: FileLine<'_>,
    block: &Block,
    output: &Lines,
) -> Result<(), WriteFault>
    ensures wrote { Writes result (S.held sink.old) (S.held sink.new) (error_noted text.now place.entry.path.now place.entry.line block.now output.now) }
    ensures all { S.takes_all sink.old → IsOk result × S.takes_all sink.new }
{
    if !is_unexpected(text, place.line, output) {
        return Ok(());
    }
    put_note(
        sink,
        place,
        &block.directive(),
        first_line(output),
        suggested(&block.directive()),
    )
}
