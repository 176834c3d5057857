//! `raftbench chart FILE [--from LINE] [--until LINE]`: the picture of a script.

ghost use Rattle.std.specs.Prelude.{◌≡◌, IfErr, IfOk, Some, option_map};
ghost use Rattle.rb_program.specs.Choices.{IsWrongFrom, IsWrongUntil, line_asked};
ghost use Rattle.rb_program.specs.Done.{IsCharted};
ghost use Rattle.rb_program.specs.Scripts.{sources_of};

use crate::document::{DocumentKind, unless_refused, write_document};
use crate::program_error::ProgramError;
use crate::usage_error::{UsageError, misused};
use rb_report::check::Status;
use rb_text::number_of;
use rb_view::chart::ChartPart;
use std::alloc::Global;
use std::rt::Files;

/// Writes the picture of the script in the file, or on standard input, or of its directives from a line on and up to a line.
pub(crate) fn chart<R: Files + Input + Print + AllocGlobal>(
    rt: &R,
    file: &str,
    from: Option<&str>,
    until: Option<&str>,
) -> Result<Status, ProgramError>
    ensures { IsCharted (sources_of R.Reader R.File R.Reader.remaining R.File.remaining) file.now (option_map (λ word. word.now) from.entry) (option_map (λ word. word.now) until.entry) result }
{
    let first = first_line(rt.alloc(), from)?;
    let last = last_line(rt.alloc(), until)?;
    let part = ChartPart {
        from: first,
        until: last,
    };
    let drawn = write_document(rt, file, DocumentKind::Chart(part));
    unless_refused(drawn, ProgramError::ChartTooLarge)
}

// The line after `--from`, if it is given.
fn first_line(alloc: Global, from: Option<&str>) -> Result<Option<u64>, ProgramError>
    ensures asked { IfOk result (λ line. line_asked (option_map (λ word. word.now) from.entry) ≡ Some line) }
    ensures wrong { IfErr result (λ refusal. IsWrongFrom (option_map (λ word. word.now) from.entry) refusal) }
{
    let Some(word) = from else {
        return Ok(None);
    };
    match number_of(word.as_bytes()) {
        Some(line) => Ok(Some(line)),
        None => Err(match misused(alloc, from) {
            Some(text) => ProgramError::OwnUsage(UsageError::From(text)),
            None => ProgramError::OutOfMemory,
        }),
    }
}

// The line after `--until`, if it is given.
fn last_line(alloc: Global, until: Option<&str>) -> Result<Option<u64>, ProgramError>
    ensures asked { IfOk result (λ line. line_asked (option_map (λ word. word.now) until.entry) ≡ Some line) }
    ensures wrong { IfErr result (λ refusal. IsWrongUntil (option_map (λ word. word.now) until.entry) refusal) }
{
    let Some(word) = until else {
        return Ok(None);
    };
    match number_of(word.as_bytes()) {
        Some(line) => Ok(Some(line)),
        None => Err(match misused(alloc, until) {
            Some(text) => ProgramError::OwnUsage(UsageError::Until(text)),
            None => ProgramError::OutOfMemory,
        }),
    }
}
