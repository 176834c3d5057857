//! The picture of the script that some bytes are.

ghost use Rattle.std.specs.Prelude.{◌≡◌, ◌≤◌, IfOk, MatchOption, length};
ghost use Rattle.rb_script.specs.declared.limits.TheConstants.{MAX_DIRECTIVES};
ghost use Rattle.rb_script.specs.HeadLines.{AreHeadLines};
ghost use Rattle.rb_script.specs.Lines.{lines};
ghost use Rattle.rb_script.specs.Reads.{Reads};
ghost use Rattle.rb_replay.specs.Report.{mismatches};
ghost use Rattle.rb_replay.specs.Run.{outputs};
ghost use Rattle.rb_bench.specs.Runs.{status_of};
ghost use Rattle.rb_program.specs.Drawn.{HasNoRoomFor, IsPicture, IsPictureOf, IsTooLarge};

use crate::script_steps::status;
use rb_cluster::{Cluster, Meter};
use rb_raftlog::SplitLog;
use rb_replay::{Outputs, Session};
use rb_report::check::Status;
use rb_script::{Script, ScriptWithLines};
use rb_view::chart::{Chart, ChartFault, ChartPart, ChartScript, DrawnRun, chart_of};
use std::alloc::{AllocError, Global};

/// A picture, and the status that a report of its script would have.
#[derive(Drop)]
pub(crate) struct ScriptChart {
    pub(crate) chart: Chart,
    pub(crate) status: Status,
}

// The status of a script whose directives printed this.
fn status_after(alloc: Global, script: Script, printed: Outputs) -> Result<Status, AllocError>
    requires few { length script.blocks ≤ MAX_DIRECTIVES }
    requires printed { printed ≡ outputs script }
    ensures { IfOk result (λ status. status ≡ status_of (mismatches script)) }
{
    let session = Session::<Cluster<SplitLog>>::from_outputs(alloc, script, printed)?;
    Ok(status(&session))
}

// The picture of the script, or of a part of it; none only if it has too little room.
fn drawn(
    alloc: Global,
    name: &[u8],
    source: ChartScript<'_>,
    part: ChartPart,
) -> Result<Option<DrawnRun>, AllocError>
    requires reads { Reads source.bytes.now source.script.now }
    requires heads { AreHeadLines 1 (lines source.bytes.now) source.script.now.blocks source.heads.now }
    ensures { IfOk result (λ picture. MatchOption picture (HasNoRoomFor source.entry.bytes.now part source.entry.script.now) (λ run. IsPictureOf source.entry.bytes.now part source.entry.script.now run.chart × (run.printed ≡ outputs source.entry.script.now))) }
{
    match chart_of::<SplitLog>(alloc, name, source, part, &mut Meter::new()) {
        Ok(run) => Ok(Some(run)),
        Err(ChartFault::TooLarge) => Ok(None),
        Err(ChartFault::OutOfMemory) => Err(AllocError),
    }
}

/// Runs the script, which the bytes are, each directive once, and gives its picture, or that of a part of it; none only if it has too little room.
pub(crate) fn picture_of(
    alloc: Global,
    name: &[u8],
    bytes: &[u8],
    read: ScriptWithLines,
    part: ChartPart,
) -> Result<Option<ScriptChart>, AllocError>
    requires reads { Reads bytes.now read.script }
    requires heads { AreHeadLines 1 (lines bytes.now) read.script.blocks read.heads.items }
    ensures { IfOk result (λ picture. MatchOption picture (IsTooLarge bytes.now part) (λ p. IsPicture bytes.now part p.chart p.status)) }
{
    let ScriptWithLines {
        script,
        lines: _,
        heads,
    } = read;
    let source = ChartScript {
        bytes,
        script: &script,
        heads: heads.as_slice(),
    };
    let Some(run) = drawn(alloc, name, source, part)? else {
        return Ok(None);
    };
    let DrawnRun { chart, printed } = run;
    let status = status_after(alloc, script, printed)?;
    Ok(Some(ScriptChart { chart, status }))
}
