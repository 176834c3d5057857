//! `raftbench look FILE:LINE`: the cluster after a directive.

ghost use Rattle.std.specs.Prelude.{◌≡◌, ◌≤◌, IfErr, IfOk, IsOk, MatchOption, OnOk, [], length};
ghost use Rattle.rb_script.specs.declared.limits.TheConstants.{MAX_DIRECTIVES};
ghost use Rattle.rb_script.specs.HeadLines.{AreHeadLines};
ghost use Rattle.rb_script.specs.Tokens.{plain};
ghost use Rattle.rb_script.specs.Writes.{Writes};
ghost use Rattle.rb_report.specs.Heads.{head_text};
ghost use Rattle.rb_report.specs.Headings.{directive_text};
ghost use Rattle.rb_bench.specs.Handed.{IsHandedOn};
ghost use Rattle.rb_check.specs.Place.{ArePartedAt};
ghost use Rattle.rb_check.specs.Visible.{showing_of_lines};
ghost use Rattle.rb_program.specs.Choices.{IsMisplaced};
ghost use Rattle.rb_program.specs.Looks.{IsLookAt, IsLooked, IsOfSystem, IsSeenAt};

use crate::directives::{handed_on, status_of};
use crate::program_error::ProgramError;
use crate::reading::read_script;
use crate::running::script;
use crate::target::path_and_line;
use crate::usage_error::UsageError;
use rb_bench::Outlet;
use rb_check::{VisibleSink, place_at};
use rb_cluster::{Cluster, Meter};
use rb_raftlog::SplitLog;
use rb_report::check::{FileLine, Hint, Status, put_directive};
use rb_script::{DirectiveRef, Lines, ScriptWithLines, Through, WriteFault};
use rb_text::FailFast;
use rb_view::look::look;
use std::alloc::{AllocError, Global};
use std::io;
use std::io::BufWriter;
use std::rt::Files;

/// What is seen at a line of a script.
#[derive(Drop)]
pub(crate) struct LookedAt {
    /// Which directive it is.
    pub(crate) place: usize,
    /// The line of its head.
    pub(crate) head: usize,
    /// The cluster after it.
    pub(crate) lines: Lines,
}

/// Shows the cluster after the last directive whose head begins at or above the line.
pub(crate) fn look_at<R: Files + Print + AllocGlobal>(
    rt: &R,
    word: &str,
) -> Result<Status, ProgramError>
    ensures { IsLookAt R.File R.File.remaining word.now result }
{
    let Some((path, line)) = path_and_line(word) else {
        return Err(no_place(rt.alloc(), word));
    };
    let bytes = script(rt, path)?;
    let at = FileLine {
        path: path.as_bytes(),
        line,
    };
    let text = bytes.as_slice();
    show(rt, word, at, text)
}

fn no_place(alloc: Global, word: &str) -> ProgramError
    ensures { IsMisplaced word.now result }
{
    match String::from_str(alloc, word) {
        Ok(text) => ProgramError::OwnUsage(UsageError::Place(text)),
        Err(_) => ProgramError::OutOfMemory,
    }
}

// Shows the cluster after the last directive at the line, or above it, of the script that the bytes are.
fn show<R: Print + AllocGlobal>(
    rt: &R,
    word: &str,
    at: FileLine<'_>,
    bytes: &[u8],
) -> Result<Status, ProgramError>
    ensures { IsLooked bytes.now at.entry.line word.now result }
{
    let read = read_script(rt.alloc(), bytes)?;
    let found = seen(rt.alloc(), &read, at.line)?;
    match found {
        Some(seen) => put(rt, at.path, &read, &seen),
        None => Err(no_place(rt.alloc(), word)),
    }
}

// Looks at the cluster after the last directive at the line or above it.
fn seen(alloc: Global, read: &ScriptWithLines, line: usize) -> Result<Option<LookedAt>, AllocError>
    requires few { length read.now.script.blocks ≤ MAX_DIRECTIVES }
    requires heads { AreHeadLines 1 read.now.lines read.now.script.blocks read.now.heads.items }
    ensures { IfOk result (λ found. MatchOption found (ArePartedAt read.now.heads.items line 0) (λ seen. IsSeenAt read.now.heads.items read.now.script line seen × (seen.place ≤ length read.now.script.blocks))) }
{
    let heads = read.heads.as_slice();
    let Some((place, head)) = place_at(heads, line) else {
        return Ok(None);
    };
    let mut meter = Meter::new();
    let lines = look::<Cluster<SplitLog>>(alloc, &read.script, place, &mut meter)?;
    Ok(Some(LookedAt { place, head, lines }))
}

// Writes what is seen. Bytes that act in a terminal go out by their numbers.
fn put<R: Print + AllocGlobal>(
    rt: &R,
    path: &[u8],
    read: &ScriptWithLines,
    seen: &LookedAt,
) -> Result<Status, ProgramError>
    requires from_1 { 1 ≤ seen.now.place }
    requires there { seen.now.place ≤ length read.now.script.blocks }
    ensures matched { IfOk result (λ status. status ≡ Status.Matched) }
    ensures failed { IfErr result (λ refusal. IsOfSystem refusal) }
{
    let block = read.script.block(seen.place).unwrap();
    let sink = Through(BufWriter::new(rt.alloc(), FailFast(Through(io::writer(rt))))?);
    let mut screen = screen_for(sink, read);
    let at = head_at(path, seen);
    status_of(put_seen(&mut screen, at, &block.directive(), &seen.lines))
}

// The place of the directive's head.
fn head_at<'a>(path: &'a [u8], seen: &LookedAt) -> FileLine<'a>
    ensures { (result.path.now ≡ path.now) × (result.line ≡ seen.now.head) }
{
    FileLine {
        path,
        line: seen.head,
    }
}

// A screen for the script: if a byte of it acts in a terminal, bytes are shown by their numbers.
fn screen_for<S>(sink: S, read: &ScriptWithLines) -> VisibleSink<S>
    ensures { result.showing ≡ showing_of_lines read.now.lines }
{
    VisibleSink::of_script(sink, &read.lines)
}

// Writes the lines under the directive's head.
fn put_seen<W: Outlet>(
    writer: &mut W,
    at: FileLine<'_>,
    directive: &DirectiveRef<'_>,
    lines: &Lines,
) -> Result<(), WriteFault>
    ensures wrote { Writes result (W.held writer.old) (W.held writer.new) (directive_text at.entry.path.now at.entry.line (head_text (plain directive.now)) lines.now []) }
    ensures handed { OnOk result (IsHandedOn (W.handed writer.new) (W.held writer.new)) }
    ensures all { W.takes_all writer.old → IsOk result × W.takes_all writer.new }
{
    let written = put_directive(writer, at, directive, lines, Hint::Unknown);
    handed_on(writer, written)
}
