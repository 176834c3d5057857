//! The file or folder at a path, after following its links.
//!
//! A script is known by the folder that it is in and its name there, and a folder by its number in the file system: so each is found
//! once, whatever paths and links lead to it. Two names of one file by hard links are two scripts, since each may be given a text of its own.

ghost use Rattle.std.specs.Prelude.{◌≡◌, ◌≢◌, ◌+◌, ℕ, IfErr, IfOk, IfSome, IsSome, List, Ok, Some, string_bytes};
ghost use Rattle.std.specs.Path.{path_join};
ghost use Rattle.rb_report.specs.declared.check.failure.Failure.TheVariants as failures;
ghost use Rattle.rb_report.specs.declared.check.failure.Failure.TheVariants.{LinkLoop};
ghost use Rattle.rb_files.specs.declared.kind.Kind.{Kind};
ghost use Rattle.rb_files.specs.Entries.{IsFileNamed, IsLinked, LeadsBy, LeadsTo, file_of, special};
ghost use Rattle.rb_files.specs.Names.{folder_id, folder_of, name_of};
ghost use Rattle.rb_files.specs.PathErrors.{IsOfReading, without_cause};

use crate::file_look::FileLook;
use crate::kind::Kind;
use crate::path_error::PathError;
use rb_report::check::Failure;
use std::alloc::{AllocError, Global};
use std::fs;
use std::fs::Metadata;
use std::path::Path;
use std::rt::Files;

/// How many links in a row are followed; the system follows as many (path_resolution of Linux).
pub(crate) const MOST_LINKS: usize = 40;

/// A folder, by its identity.
#[derive(Clone, Copy, PartialEq, Eq, PartialOrd, Ord)]
pub(crate) struct FolderId {
    device: u64,
    number: u64,
}

impl FolderId {
    fn of(look: &FileLook) -> FolderId
        ensures { result ≡ folder_id look.now }
    {
        FolderId {
            device: look.device,
            number: look.number,
        }
    }
}

/// A file: its folder, and its name there.
#[derive(PartialEq, Eq, PartialOrd, Ord, Drop)]
pub struct FileId {
    folder: FolderId,
    name: String,
}

/// What is at a path.
#[derive(Drop)]
pub(crate) enum PathEntry {
    Folder(FolderId),
    File(FileId),
    /// A device, a pipe, a socket: why it is no script.
    Other(Failure),
}

/// What is at the path, after following its links.
pub(crate) fn entry_at<R: Files + AllocGlobal>(rt: &R, path: &str) -> Result<PathEntry, PathError>
    ensures { IfErr result IsOfReading }
{
    if let Some(failure) = special_at(rt, path) {
        return Ok(PathEntry::Other(failure));
    }
    let target = followed(rt, path)?;
    let metadata = looked_at(rt, target.as_str())?;
    entry_of(
        rt,
        target.as_str(),
        Kind::of(&metadata),
        &FileLook::of(&metadata),
    )
}

// What a look shows at a path that is no link.
fn entry_of<R: Files + AllocGlobal>(
    rt: &R,
    target: &str,
    kind: Kind,
    look: &FileLook,
) -> Result<PathEntry, PathError>
    ensures folder { kind ≡ Kind.Folder → result ≡ Ok (PathEntry.Folder (folder_id look.now)) }
    ensures file { kind ≡ Kind.File → IfOk result (IsFileNamed (name_of target.now)) }
    ensures other { (kind ≡ Kind.Folder → ⊥) → (kind ≡ Kind.File → ⊥) → result ≡ Ok (PathEntry.Other failures.NoFile) }
    ensures why { IfErr result IsOfReading }
{
    match kind {
        Kind::Folder => Ok(PathEntry::Folder(FolderId::of(look))),
        Kind::File => Ok(PathEntry::File(file_id(rt, target)?)),
        _ => Ok(PathEntry::Other(Failure::NoFile)),
    }
}

// Why what the system follows the path to is no script, if its kind alone says so. The link of a process's own pipe, to which /dev/stdin leads,
// names nothing that could be followed by its text.
fn special_at<R: Files>(rt: &R, path: &str) -> Option<Failure>
    ensures { IfSome result (λ failure. (kind : Kind) × (special kind ≡ Some failure)) }
{
    match fs::metadata(rt, path) {
        Ok(metadata) => Kind::of(&metadata).special(),
        Err(_) => None,
    }
}

fn file_id<R: Files + AllocGlobal>(rt: &R, target: &str) -> Result<FileId, PathError>
    ensures name { IfOk result (λ id. string_bytes id.name ≡ name_of target.now) }
    ensures why { IfErr result IsOfReading }
{
    let folder = looked_at(rt, folder_of(target))?;
    let folder = FolderId::of(&FileLook::of(&folder));
    let name = String::from_str(rt.alloc(), name_of(target))?;
    Ok(FileId { folder, name })
}

// The system's answer for the path itself, even if it is a link.
fn looked_at<R: Files>(rt: &R, path: &str) -> Result<Metadata, PathError>
    ensures why { IfErr result IsOfReading }
    ensures said { IfErr result (λ error. IsSome error.cause) }
{
    match fs::symlink_metadata(rt, path) {
        Ok(metadata) => Ok(metadata),
        Err(error) => Err(PathError::of_reading(error)),
    }
}

/// The path that the links at the end of this one lead to.
pub(crate) fn followed<R: Files + AllocGlobal>(rt: &R, path: &str) -> Result<String, PathError>
    ensures links { IfOk result (λ target. LeadsTo MOST_LINKS path.now (string_bytes target)) }
    // What the system didn't call a loop is one only if more links follow one another.
    ensures loops { IfErr result (λ error. error ≡ without_cause LinkLoop → (target : List ℕ) × LeadsBy (MOST_LINKS + 1) path.now target) }
    ensures why { IfErr result IsOfReading }
{
    let mut target = String::from_str(rt.alloc(), path)?;
    for links in 0..MOST_LINKS + 1 {
        if !looked_at(rt, target.as_str())?.is_symlink() {
            return Ok(target);
        }
        target = next_link(rt, target.as_str())?;
    }
    Err(PathError::alone(Failure::LinkLoop))
}

fn next_link<R: Files + AllocGlobal>(rt: &R, link: &str) -> Result<String, PathError>
    ensures link { IfOk result (λ target. IsLinked link.now (string_bytes target)) }
    ensures why { IfErr result IsOfReading }
    ensures other { IfErr result (λ error. error ≢ without_cause LinkLoop) }
{
    match fs::read_link(rt, link) {
        Ok(target) => Ok(linked(rt.alloc(), link, target.as_str())?),
        Err(error) => Err(PathError::of_reading(error)),
    }
}

// The path that a link leads to: one that doesn't begin at the root begins at the link's folder.
fn linked(alloc: Global, link: &str, target: &str) -> Result<String, AllocError>
    ensures { IfOk result (λ path. string_bytes path ≡ path_join (folder_of link.now) target.now) }
{
    Ok(
        Path::new(folder_of(link))
            .join(alloc, target)?
            .into_string(),
    )
}

/// The folder that the path's last name is in.
pub(crate) fn folder_of(path: &str) -> &str
    ensures { result.now ≡ folder_of path.now }
{
    match Path::new(path).parent() {
        Some(folder) if !folder.as_str().is_empty() => folder.as_str(),
        _ => ".",
    }
}

/// The file at the path, as [`find`](crate::find) tells scripts apart; none if something else is there.
///
/// # Errors
///
/// If the path couldn't be looked at.
pub fn file_at<R: Files + AllocGlobal>(rt: &R, path: &str) -> Result<Option<FileId>, PathError>
    ensures { IfErr result IsOfReading }
{
    Ok(file_of(entry_at(rt, path)?))
}

fn file_of(entry: PathEntry) -> Option<FileId>
    ensures { result ≡ file_of entry }
{
    match entry {
        PathEntry::File(file) => Some(file),
        PathEntry::Folder(_) | PathEntry::Other(_) => None,
    }
}

// The last name of a path, or all of it if it has none.
fn name_of(path: &str) -> &str
    ensures { result.now ≡ name_of path.now }
{
    match Path::new(path).file_name() {
        Some(name) => name,
        None => path,
    }
}
