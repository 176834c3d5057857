//! Writing a site.

ghost use Rattle.std.specs.Prelude.{◌≡◌, IfOk, List};
ghost use Rattle.rb_book.specs.declared.chapter.Chapter.{Chapter};
ghost use Rattle.rb_site.specs.Shown.{differs, has_differing, status_of};

use crate::chapters::add_chapters;
use crate::fault::{SiteFault, lost};
use crate::folder::SiteFolder;
use crate::ran_scripts::RanScripts;
use rb_book::{Assets, BookFault, Chapter, write_book};
use rb_files::{Found, PathError, find};
use rb_report::check::Status;
use rb_view::frame::{back, front};
use std::convert::AsStr;
use std::path::Path;
use std::rt::Files;
use std::{fs, io};

/// A site that is asked for.
#[derive(Clone, Copy)]
pub struct SiteRequest<'a, S> {
    /// The folders whose scripts are shown, and scripts.
    pub paths: &'a [S],
    /// The folder that is made for the site.
    pub site: &'a str,
    /// Whether only scripts that differ are shown.
    pub only_differing: bool,
}

/// Writes the site that is asked for, into a folder that isn't there yet. Returns `Mismatched` if a script differs, and `Matched` if none does.
///
/// # Errors
///
/// Why it was not written. What was written before is left.
pub fn write_site<R: Files + AllocGlobal, S: AsStr>(
    rt: &R,
    request: SiteRequest<'_, S>,
) -> Result<Status, SiteFault>
    ensures { IfOk result (λ status. (chapters : List Chapter) × (status ≡ status_of chapters)) }
{
    let mut chapters = Vec::new(rt.alloc());
    for path in request.paths {
        let path = path.as_str();
        let found = found(rt, path, request.only_differing)?;
        let root = root_of(path, request.paths.len());
        add_chapters(
            rt,
            &mut chapters,
            root,
            &found.scripts,
            request.only_differing,
        )?;
    }
    let title = match request.paths {
        [path] => title_of(path.as_str()),
        _ => title_of(request.site),
    };
    write_chapters(rt, request.site, title, chapters.as_slice())?;
    Ok(status(chapters.as_slice()))
}

// What is left out of the places of the scripts of a path: the path, or, where there are several, the folder that it is in.
fn root_of(path: &str, paths: usize) -> &str {
    let whole = Path::new(path);
    match whole.parent() {
        Some(folder) if paths > 1 && whole.file_name().is_some() => folder.as_str(),
        _ => path,
    }
}

// The scripts of a path: at least one, unless only those that differ are asked for. Then a path that fails is left out, too.
fn found<R: Files + AllocGlobal>(
    rt: &R,
    path: &str,
    only_differing: bool,
) -> Result<Found, SiteFault> {
    let mut found = find(rt, &[path], &[]);
    if found.is_cut {
        return Err(SiteFault::Book(BookFault::OutOfMemory));
    }
    if only_differing {
        return Ok(found);
    }
    if let Some(lost) = found.lost.pop() {
        return Err(SiteFault::Lost(lost.path, lost.error));
    }
    if found.scripts.is_empty() {
        let error = PathError::of_reading(io::Error::other("there is no script"));
        return Err(lost(rt.alloc(), path, error));
    }
    Ok(found)
}

// Makes the folder of a site, and writes its files.
fn write_chapters<R: Files + AllocGlobal>(
    rt: &R,
    site: &str,
    title: &str,
    chapters: &[Chapter],
) -> Result<(), SiteFault> {
    make_folder(rt, site)?;
    let mut folder = SiteFolder { rt, path: site };
    let (front, back) = (front(), back());
    // The first part and the last one are elements.
    let assets = Assets {
        style: &front[1..front.len() - 1],
        code: &back[1..back.len() - 1],
    };
    write_book(
        rt.alloc(),
        &mut folder,
        &RanScripts,
        title.as_bytes(),
        chapters,
        assets,
    )?;
    Ok(())
}

fn make_folder<R: Files + AllocGlobal>(rt: &R, path: &str) -> Result<(), SiteFault> {
    match fs::create_dir(rt, path) {
        Ok(()) => Ok(()),
        Err(error) => {
            let path = String::from_str(rt.alloc(), path)?;
            Err(SiteFault::Book(BookFault::Unwritten(path, error)))
        }
    }
}

// What the site of a path is called: the path's last name.
fn title_of(path: &str) -> &str {
    Path::new(path).file_name().unwrap_or(path)
}

fn status(chapters: &[Chapter]) -> Status
    ensures { result ≡ status_of chapters.now }
{
    if has_differing(chapters) {
        Status::Mismatched
    } else {
        Status::Matched
    }
}

// Whether an output of a chapter is not the expected one.
fn has_differing(chapters: &[Chapter]) -> bool
    ensures { result ≡ has_differing chapters.now }
{
    chapters.iter().any(|chapter| differs(chapter))
}

fn differs(chapter: &Chapter) -> bool
    ensures { result ≡ differs chapter.now }
{
    chapter.differs
}
