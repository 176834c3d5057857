//! `raftbench directives`: the list of directives, or one of them.

ghost use Rattle.std.specs.Prelude.{◌≡◌, ◌≢◌, Err, IfErr, IfOk, IsOk, Ok, OnOk, Some, option_map};
ghost use Rattle.std.specs.Io.KnownBytes.{Keeps};
ghost use Rattle.rb_report.specs.Manual.{page_in, pages};
ghost use Rattle.rb_report.specs.Nearest.{names_of, nearest};
ghost use Rattle.rb_script.specs.Writes.{Writes};
ghost use Rattle.rb_bench.specs.Handed.{IsHandedOn};
ghost use Rattle.rb_program.specs.Choices.{IsMeant, IsUnknown};
ghost use Rattle.rb_program.specs.Manuals.{AnswersName, ShowsDirectives, shown_pages};
ghost use Rattle.rb_program.specs.Refusals.{of_writing};

use crate::program_error::ProgramError;
use crate::usage_error::UsageError;
use rb_bench::Outlet;
use rb_report::check::Status;
use rb_report::help::{nearest_name, page_of, put_manual};
use rb_script::{Through, WriteFault};
use rb_text::FailFast;
use std::alloc::Global;
use std::io::BufWriter;
use std::{io, str};

/// Shows the directive of this name, or an overview of all.
///
/// # Errors
///
/// Why it was not done: no directive has the name, it could not be written, or memory was refused.
pub fn show_directives<R: Print + AllocGlobal>(
    rt: &R,
    name: Option<&str>,
) -> Result<Status, ProgramError>
    ensures { ShowsDirectives (option_map (λ name. name.now) name.entry) result }
{
    let alloc = rt.alloc();
    let mut writer = Through(BufWriter::new(alloc, FailFast(Through(io::writer(rt))))?);
    write_directives(alloc, &mut writer, name)
}

// Writes the page of the directive with this name, or the overview.
fn write_directives<W: Outlet>(
    alloc: Global,
    writer: &mut W,
    name: Option<&str>,
) -> Result<Status, ProgramError>
    ensures answered { AnswersName (option_map (λ name. name.now) name.entry) result (W.held writer.old) (W.held writer.new) }
    ensures handed { OnOk result (IsHandedOn (W.handed writer.new) (W.held writer.new)) }
    ensures io { W.takes_all writer.old → result ≢ Err ProgramError.Io }
{
    let page = match name {
        Some(name) => Some(page_named(alloc, name)?),
        None => None,
    };
    status_of(put_pages(writer, page))
}

// Writes the page, or the overview if there is none.
fn put_pages<W: Outlet>(writer: &mut W, page: Option<&[u8]>) -> Result<(), WriteFault>
    ensures wrote { Writes result (W.held writer.old) (W.held writer.new) (shown_pages (option_map (λ page. page.now) page.entry)) }
    ensures handed { OnOk result (IsHandedOn (W.handed writer.new) (W.held writer.new)) }
    ensures all { W.takes_all writer.old → IsOk result × W.takes_all writer.new }
{
    let written = match page {
        Some(page) => writer.put(page),
        None => put_manual(writer),
    };
    handed_on(writer, written)
}

// The page of the directive with this name.
fn page_named(alloc: Global, name: &str) -> Result<&'static [u8], ProgramError>
    ensures found { IfOk result (λ page. page_in pages name.now ≡ Some page.now) }
    ensures unknown { IfErr result (λ refusal. IsUnknown name.now refusal) }
{
    if let Some(page) = page_of(name.as_bytes()) {
        return Ok(page);
    }
    let unknown = String::from_str(alloc, name)?;
    Err(ProgramError::OwnUsage(UsageError::Directive(unknown, name_near(name))))
}

// The name of a directive that is near this one.
fn name_near(name: &str) -> Option<&'static str>
    ensures { IsMeant (nearest name.now (names_of pages)) (option_map (λ near. near.now) result) }
{
    match nearest_name(name.as_bytes()) {
        Some(near) => match str::from_utf8(near) {
            Ok(near) => Some(near),
            Err(_) => None,
        },
        None => None,
    }
}

/// The status after writing, or after writing failed.
pub(crate) fn status_of(written: Result<(), WriteFault>) -> Result<Status, ProgramError>
    ensures { result ≡ of_writing written }
{
    match written {
        Ok(()) => Ok(Status::Matched),
        Err(_) => Err(ProgramError::Io),
    }
}

/// Flushes what was written. If writing failed, that is the result, and nothing is flushed.
pub(crate) fn handed_on<W: Outlet>(
    writer: &mut W,
    written: Result<(), WriteFault>,
) -> Result<(), WriteFault>
    ensures failed { IfErr written (λ fault. result ≡ Err fault) }
    ensures kept { Keeps (W.held writer.old) (W.held writer.new) }
    ensures handed { OnOk result (IsHandedOn (W.handed writer.new) (W.held writer.new)) }
    ensures all { W.takes_all writer.old → IsOk written → IsOk result × W.takes_all writer.new }
{
    match written {
        Ok(()) => writer.flush(),
        Err(fault) => Err(fault),
    }
}
