//! `raftbench page FOLDER --out SITE` and `raftbench check --pages SITE FOLDER`: pages of the scripts of a folder.

use rb_args::{CheckChoice, CommandChoice};
use rb_book::BookFault;
use rb_files::PathError;
use rb_program::{ProgramError, UsageError};
use rb_report::check::Status;
use rb_site::{SiteFault, SiteRequest, write_site};
use std::alloc::Global;
use std::convert::AsStr;
use std::rt::Files;
use std::{io, str};

/// Writes the pages of a folder, with a contents page.
pub(crate) fn write_pages<R: Files + AllocGlobal>(
    rt: &R,
    choice: &CommandChoice,
) -> Result<Status, ProgramError> {
    let (Some(path), Some(site)) = (choice.file.as_deref(), choice.out.as_deref()) else {
        return Err(ProgramError::Usage(UsageError::NoFile));
    };
    let request = SiteRequest {
        paths: &[path],
        site,
        only_differing: false,
    };
    written(rt, request)
}

/// After a check: writes the pages of the scripts that differ, if they are asked for. The status stays the check's.
pub(crate) fn with_pages<R: Files + AllocGlobal>(
    rt: &R,
    choice: &CheckChoice,
    ended: Result<Status, ProgramError>,
) -> Result<Status, ProgramError> {
    let status = ended?;
    if let Some(site) = choice.pages.as_deref() {
        let request = SiteRequest {
            paths: choice.paths.as_slice(),
            site,
            only_differing: true,
        };
        written(rt, request)?;
    }
    Ok(status)
}

fn written<R: Files + AllocGlobal, S: AsStr>(
    rt: &R,
    request: SiteRequest<'_, S>,
) -> Result<Status, ProgramError> {
    match write_site(rt, request) {
        Ok(status) => Ok(status),
        Err(fault) => Err(error_of(rt.alloc(), fault)),
    }
}

// The program's error for a fault of a site.
fn error_of(alloc: Global, fault: SiteFault) -> ProgramError {
    match fault {
        SiteFault::Lost(path, error) => error_of_path(alloc, path.as_slice(), error),
        SiteFault::Book(BookFault::NoScript(fault)) => ProgramError::Script(fault),
        SiteFault::Book(BookFault::PageTooLarge) => ProgramError::PageTooLarge,
        SiteFault::Book(BookFault::PictureTooLarge) => ProgramError::ChartTooLarge,
        SiteFault::Book(BookFault::Unwritten(path, error)) => ProgramError::Unopened(path, error),
        SiteFault::Book(BookFault::OutOfMemory) => ProgramError::OutOfMemory,
    }
}

// A path that could not be read, with the system's error.
fn error_of_path(alloc: Global, path: &[u8], error: PathError) -> ProgramError {
    let cause = match error.cause {
        Some(cause) => cause,
        None => io::Error::other("not a script or a folder"),
    };
    match str::from_utf8(path) {
        Ok(path) => match String::from_str(alloc, path) {
            Ok(path) => ProgramError::Unopened(path, cause),
            Err(_) => ProgramError::OutOfMemory,
        },
        Err(_) => ProgramError::Io,
    }
}
