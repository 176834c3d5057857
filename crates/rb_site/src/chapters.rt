//! The chapters of a site: scripts, read and run.

ghost use Rattle.std.specs.Prelude.{◌≡◌, ◌++◌, ◌∷◌, [], IfOk, IfSome, OnOk};
ghost use Rattle.rb_site.specs.Shown.{IsRunOf};

use crate::fault::{SiteFault, lost};
use crate::steps::rows_of;
use rb_book::{BookFault, Chapter, title_of};
use rb_files::{PathError, opened};
use rb_script::MAX_SCRIPT;
use rb_text::{ReadFault, ReadSource, read_up_to};
use std::alloc::AllocError;
use std::io;
use std::path::Path;
use std::rt::Files;

/// Adds the chapters of these scripts, whose places are below the root; if only those that differ are asked for, not the others, nor those that
/// can't be shown.
pub(crate) fn add_chapters<R: Files + AllocGlobal>(
    rt: &R,
    chapters: &mut Vec<Chapter>,
    root: &str,
    scripts: &[String],
    only_differing: bool,
) -> Result<(), SiteFault> {
    for path in scripts {
        if let Some(chapter) = chapter(rt, root, path.as_str(), only_differing)? {
            add_chapter(chapters, chapter)?;
        }
    }
    Ok(())
}

fn add_chapter(chapters: &mut Vec<Chapter>, chapter: Chapter) -> Result<(), AllocError>
    ensures { OnOk result (chapters.new.items ≡ chapters.old.items ++ chapter ∷ []) }
{
    Ok(chapters.push(chapter)?)
}

// The chapter of a script, if it is asked for.
fn chapter<R: Files + AllocGlobal>(
    rt: &R,
    root: &str,
    path: &str,
    only_differing: bool,
) -> Result<Option<Chapter>, SiteFault>
    ensures { IfOk result (λ chapter. IfSome chapter IsRunOf) }
{
    let alloc = rt.alloc();
    let script = read(rt, path)?;
    let ran = match rows_of(alloc, script.as_slice()) {
        Ok(ran) => ran,
        Err(BookFault::NoScript(_) | BookFault::PageTooLarge) if only_differing => return Ok(None),
        Err(fault) => return Err(SiteFault::Book(fault)),
    };
    if only_differing && !ran.differs {
        return Ok(None);
    }
    let title = Vec::from_slice(alloc, title_of(script.as_slice()))?;
    Ok(Some(Chapter {
        place: String::from_str(alloc, place_of(root, path))?,
        title,
        script,
        differs: ran.differs,
    }))
}

// The bytes of a script.
fn read<R: Files + AllocGlobal>(rt: &R, path: &str) -> Result<Vec<u8>, SiteFault> {
    let file = match opened(rt, path) {
        Ok((file, _)) => file,
        Err(error) => return Err(lost(rt.alloc(), path, error)),
    };
    match read_up_to(rt.alloc(), &mut ReadSource(file), MAX_SCRIPT + 1) {
        Ok(bytes) => Ok(bytes),
        Err(ReadFault::OutOfMemory) => Err(SiteFault::Book(BookFault::OutOfMemory)),
        Err(ReadFault::Io) => {
            let error = PathError::of_reading(io::Error::other("reading it failed"));
            Err(lost(rt.alloc(), path, error))
        }
    }
}

// Where the page of a script is in the site: its path below the root, or its name if it is the root itself.
fn place_of<'a>(root: &str, path: &'a str) -> &'a str {
    let whole = Path::new(path);
    let place = match whole.strip_prefix(root) {
        Ok(below) if !below.as_str().is_empty() => below.as_str(),
        _ => match whole.file_name() {
            Some(name) => name,
            None => path,
        },
    };
    match place.strip_suffix(".txt") {
        Some(place) => place,
        None => place,
    }
}
