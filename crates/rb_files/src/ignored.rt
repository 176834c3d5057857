//! The file in a folder that names paths to ignore.

ghost use Rattle.std.specs.Prelude.{◌≡◌, ◌↔◌, ◌≤◌, false, true, Err, IfErr, IfOk, IsOk, None, Ok, map, option_map, string_bytes, string_len};
ghost use Rattle.std.specs.Io.BufRead.{strip_last};
ghost use Rattle.std.specs.Str.Lines.{lines};
ghost use Rattle.rb_files.specs.Ignored.{ignored_by, named_by, slash};
ghost use Rattle.rb_files.specs.PathErrors.{IsOfReading, is_missing};

use crate::opening::opened;
use crate::path_error::PathError;
use rb_report::check::Failure;
use std::alloc::{AllocError, Global};
use std::io::{ErrorKind, Read};
use std::path::Path;
use std::rt::Files;
use std::{fs, io};

/// Its name.
pub(crate) const IGNORED: &str = ".raftbenchignore";

/// How many bytes it may have.
pub const MAX_IGNORED: u64 = 1_048_576;

/// The text of the folder's ignore file; none, if there is none or it can't be seen.
pub(crate) fn ignored_in<R: Files + AllocGlobal>(
    rt: &R,
    folder: &str,
) -> Result<Option<String>, PathError>
    ensures { IfErr result IsOfReading }
{
    let path = Path::new(folder).join(rt.alloc(), IGNORED)?;
    // A folder that may not be entered hides its contents: each script in it is reported by itself.
    if fs::symlink_metadata(rt, path.as_str()).is_err_and(is_unseen) {
        return Ok(None);
    }
    text_of(rt, path.as_str())
}

fn is_unseen(error: io::Error) -> bool {
    error.kind() == ErrorKind::PermissionDenied
}

fn text_of<R: Files + AllocGlobal>(rt: &R, path: &str) -> Result<Option<String>, PathError>
    ensures { IfErr result IsOfReading }
{
    let (file, metadata) = match opened(rt, path) {
        Ok(opened) => opened,
        Err(error) => return unless_missing(error),
    };
    Ok(Some(read_within(rt.alloc(), file, metadata.len())?))
}

// Reads a file to its end. One that is too long is read no further, whatever length it is said to have.
fn read_within<F: Read + Drop>(alloc: Global, file: F, len: u64) -> Result<String, PathError>
    ensures limit { IfOk result (λ text. string_len text ≤ MAX_IGNORED) }
    ensures why { IfErr result IsOfReading }
{
    within_limit(len)?;
    match io::read_to_string(alloc, file.take(MAX_IGNORED + 1)) {
        Ok(text) => kept_within(text),
        Err(error) => Err(PathError::of_reading(error)),
    }
}

fn kept_within(text: String) -> Result<String, PathError>
    ensures limit { IfOk result (λ kept. (kept ≡ text) × (string_len kept ≤ MAX_IGNORED)) }
    ensures why { IfErr result IsOfReading }
{
    within_limit(text.len() as u64)?;
    Ok(text)
}

// Takes a missing file as none: a folder may have no list of ignored paths.
fn unless_missing(error: PathError) -> Result<Option<String>, PathError>
    ensures missing { is_missing error ≡ true → result ≡ Ok None }
    ensures failed { is_missing error ≡ false → result ≡ Err error }
{
    if error.failure == Failure::NotFound {
        return Ok(None);
    }
    Err(error)
}

// Whether it may have that many bytes.
fn within_limit(len: u64) -> Result<(), PathError>
    ensures limit { IsOk result ↔ len ≤ MAX_IGNORED }
    ensures why { IfErr result IsOfReading }
{
    if len <= MAX_IGNORED {
        return Ok(());
    }
    Err(PathError::of_reading(io::Error::other("it has more than 1,048,576 bytes")))
}

/// The paths that the text of the folder's file names.
pub(crate) fn ignored_by(alloc: Global, folder: &str, text: &str) -> Result<Vec<String>, AllocError>
    ensures { IfOk result (λ paths. map string_bytes paths.items ≡ ignored_by folder.now text.now) }
{
    let lines = lines_of(alloc, text)?;
    let mut paths = Vec::new(alloc);
    for line in &lines {
        if let Some(name) = named_by(line) {
            paths.push(Path::new(folder).join(alloc, name)?.into_string())?;
        }
    }
    Ok(paths)
}

fn lines_of(alloc: Global, text: &str) -> Result<Vec<&str>, AllocError>
    ensures { IfOk result (λ all. map (λ line. line.now) all.items ≡ lines text.now) }
{
    text.lines().collect(alloc)
}

// The path that a line names; an empty line and a comment name nothing.
fn named_by(line: &str) -> Option<&str>
    ensures { option_map (λ name. name.now) result ≡ named_by line.now }
{
    let name = without_slash(line.trim());
    if name.is_empty() || name.starts_with('#') {
        return None;
    }
    Some(name)
}

// A folder's name may end in a slash.
fn without_slash(name: &str) -> &str
    ensures { result.now ≡ strip_last slash name.now }
{
    match name.strip_suffix('/') {
        Some(front) => front,
        None => name,
    }
}
