//! `raftbench page|trace FILE`, and the picture of `raftbench chart`: a document of a script, under the script's name.

ghost use Rattle.std.specs.Prelude.{◌≡◌, true};
ghost use Rattle.rb_program.specs.Choices.{shown_name};
ghost use Rattle.rb_program.specs.Documents.{DocumentsOver};
ghost use Rattle.rb_program.specs.Done.{IsDocumented, IsPaged, unless_refused};
ghost use Rattle.rb_program.specs.Scripts.{sources_of};

use crate::chart_over::chart_over;
use crate::job::{Job, run_job};
use crate::page_over::page_over;
use crate::program_error::ProgramError;
use crate::trace_over::trace_over;
use rb_bench::{BenchFault, Outlet};
use rb_report::check::Status;
use rb_text::Source;
use rb_view::chart::ChartPart;
use rb_view::frame::{back, front};
use rb_view::steps::Frame;
use std::alloc::Global;
use std::path::Path;
use std::rt::Files;

/// What a document of a script shows.
#[derive(Clone, Copy)]
pub(crate) enum DocumentKind {
    Page,
    Trace,
    /// The picture of a part of it.
    Chart(ChartPart),
}

/// Writes the page of the script in the file, or on standard input.
pub(crate) fn page<R: Files + Input + Print + AllocGlobal>(
    rt: &R,
    file: &str,
) -> Result<Status, ProgramError>
    ensures { IsPaged (sources_of R.Reader R.File R.Reader.remaining R.File.remaining) file.now result }
{
    let page = write_document(rt, file, DocumentKind::Page);
    unless_refused(page, ProgramError::PageTooLarge)
}

/// Returns the refusal if the document has too little room, and the result as it is if not.
pub(crate) fn unless_refused(
    ended: Result<Status, ProgramError>,
    refusal: ProgramError,
) -> Result<Status, ProgramError>
    ensures { result ≡ unless_refused refusal ended }
{
    match ended {
        Ok(Status::Refused) => Err(refusal),
        ended => ended,
    }
}

/// Writes a document of the script in the file, or on standard input.
pub(crate) fn write_document<R: Files + Input + Print + AllocGlobal>(
    rt: &R,
    file: &str,
    kind: DocumentKind,
) -> Result<Status, ProgramError>
    ensures { IsDocumented (sources_of R.Reader R.File R.Reader.remaining R.File.remaining) file.now kind result }
{
    let text = name_of(file);
    let name = text.as_bytes();
    run_job(rt, file, &Documenting { name, kind })
}

// A document of a script, under this name.
#[derive(Drop)]
struct Documenting<'a> {
    name: &'a [u8],
    kind: DocumentKind,
}

impl<'a> Job for Documenting<'a> {
    ghost is_right = { λ _. true };

    ghost answers = { λ job all left result old new. DocumentsOver job.kind job.name.now all left result old new };

    fn run<S: Source, W: Outlet>(
        &self,
        alloc: Global,
        source: &mut S,
        writer: &mut W,
    ) -> Result<Status, BenchFault> {
        match self.kind {
            DocumentKind::Page => {
                let (front, back) = (front(), back());
                let frame = Frame {
                    front: &front,
                    back: &back,
                };
                page_over(alloc, source, writer, frame, self.name)
            }
            DocumentKind::Trace => trace_over(alloc, source, writer, self.name),
            DocumentKind::Chart(part) => chart_over(alloc, source, writer, self.name, part),
        }
    }
}

/// The name of a script in a document: the last part of its path.
pub(crate) fn name_of(file: &str) -> &str
    ensures { result.now ≡ shown_name file.now }
{
    if file == "-" {
        return "standard input";
    }
    match Path::new(file).file_name() {
        Some(name) => name,
        None => file,
    }
}
