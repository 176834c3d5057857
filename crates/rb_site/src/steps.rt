//! Running a script for its page.

ghost use Rattle.std.specs.Prelude.{◌≡◌, IfOk};
ghost use Rattle.rb_script.specs.HeadLines.{AreHeadLines};
ghost use Rattle.rb_script.specs.Lines.{lines};
ghost use Rattle.rb_script.specs.Reads.{Reads};
ghost use Rattle.rb_replay.specs.Report.{mismatches};
ghost use Rattle.rb_site.specs.Shown.{AreRowsOf, Differs, has_some};

use rb_book::BookFault;
use rb_cluster::{Cluster, Meter};
use rb_machine::Machine;
use rb_raftlog::SplitLog;
use rb_replay::Session;
use rb_script::{Lines, ScriptFault, ScriptWithLines};
use rb_view::steps::{StepMachine, steps_of};
use std::alloc::Global;

/// The rows of a script's page, and whether an output is not the expected one.
#[derive(Drop)]
pub(crate) struct ScriptRows {
    pub(crate) rows: Lines,
    pub(crate) differs: bool,
}

/// Reads the script of the bytes.
pub(crate) fn read(alloc: Global, bytes: &[u8]) -> Result<ScriptWithLines, BookFault>
    ensures read { IfOk result (λ read. Reads bytes.now read.script) }
    ensures lines { IfOk result (λ read. read.lines ≡ lines bytes.now) }
    ensures heads { IfOk result (λ read. AreHeadLines 1 (lines bytes.now) read.script.blocks read.heads.items) }
{
    match ScriptWithLines::read(alloc, bytes) {
        Ok(read) => Ok(read),
        Err(ScriptFault::OutOfMemory) => Err(BookFault::OutOfMemory),
        Err(fault) => Err(BookFault::NoScript(fault)),
    }
}

/// Runs the script of the bytes.
pub(crate) fn rows_of(alloc: Global, bytes: &[u8]) -> Result<ScriptRows, BookFault>
    ensures rows { IfOk result (λ ran. AreRowsOf bytes.now ran.rows) }
    ensures differs { IfOk result (λ ran. Differs bytes.now ran.differs) }
{
    let read = read(alloc, bytes)?;
    let (session, rows) = ran::<Cluster<SplitLog>>(alloc, read, bytes)?;
    Ok(ScriptRows {
        rows,
        differs: differs(&session),
    })
}

// Runs a script, which was read from the bytes, each directive once, and gives a session on it and its rows.
fn ran<M: StepMachine>(
    alloc: Global,
    read: ScriptWithLines,
    bytes: &[u8],
) -> Result<(Session<M>, Lines), BookFault>
    requires reads { Reads bytes.now read.script }
    requires lines { read.lines ≡ lines bytes.now }
    requires heads { AreHeadLines 1 (lines bytes.now) read.script.blocks read.heads.items }
    ensures script { IfOk result (λ ran. Reads bytes.now ran.0.script) }
    ensures rows { IfOk result (λ ran. AreRowsOf bytes.now ran.1) }
{
    match steps_of(alloc, read, bytes, &mut Meter::new())? {
        Some(ran) => Ok(ran),
        None => Err(BookFault::PageTooLarge),
    }
}

fn differs<M: Machine>(session: &Session<M>) -> bool
    ensures { result ≡ has_some (mismatches session.now.script) }
{
    !session.mismatches().is_empty()
}
