//! The place of a real file.

ghost use Rattle.std.specs.Prelude.{◌≡◌, ◌↔◌, Err, None, Some, IfErr, IfOk, IfSome, IsOk, IsSome, MatchResult, OnOk, false, option_and_then, option_map, string_bytes, true};
ghost use Rattle.std.specs.Io.KnownBytes.{Appends};
ghost use Rattle.std.specs.Fs.{metadata_len, metadata_mode, new_options, permissions_mode, with_create_new, with_write};
ghost use Rattle.std.specs.Path.{path_join};
ghost use Rattle.rb_files.specs.Names.{folder_of, new_name, owner_to_give};
ghost use Rattle.rb_files.specs.PathErrors.{IsOfReading, of_writing};
ghost use Rattle.rb_files.specs.Places.{Removes, Turns, created, renamed};

use crate::entry::{folder_of, followed};
use crate::file_look::FileLook;
use crate::file_place::FilePlace;
use crate::path_error::PathError;
use std::alloc::{AllocError, Global};
use std::fs::{Metadata, OpenFile, OpenOptions, Permissions};
use std::io::{ErrorKind, Write};
use std::os::unix::fs::{MetadataExt, OpenOptionsExt, PermissionsExt, chown};
use std::path::Path;
use std::rt::Files;
use std::{fs, io};

// How many names are tried for a new file. Those that are taken belong to other programs, or to a run that was killed.
pub(crate) const MOST_NAMES: usize = 1_000;

/// A script's file, and the new file next to it.
#[derive(Drop)]
pub struct AtomicReplace<'a, R: Files> {
    rt: &'a R,
    // where the script's file is, all links followed
    target: String,
    // its metadata when it was read
    seen: Metadata,
    // what of it tells whether the file has changed, when it was read and when it was last looked at
    read: FileLook,
    last: Option<FileLook>,
    new: Option<NewFile<R::File>>,
}

// A file that is open, its path, and what it was given.
#[derive(Drop)]
struct NewFile<F: Drop> {
    path: String,
    file: F,
    // the mode that it was given last, once it has its owner
    mode: Option<u32>,
    // all of its bytes were stored
    is_stored: bool,
}

// The user and the group to whom a file belongs.
#[derive(Clone, Copy)]
struct Owner {
    user: u32,
    group: u32,
}

impl Owner {
    // The standard library gives no numbers to compare these with.
    fn of(metadata: &Metadata) -> Owner {
        Owner {
            user: metadata.uid(),
            group: metadata.gid(),
        }
    }

    // The owner that a file has to be given, if it has another one.
    fn to_give(self, wanted: Owner) -> Option<Owner>
        ensures { result ≡ owner_to_give self wanted }
    {
        if self.user == wanted.user && self.group == wanted.group {
            None
        } else {
            Some(wanted)
        }
    }
}

impl<'a, R: Files + AllocGlobal> AtomicReplace<'a, R> {
    /// The place of the file at the path, its links followed, which was `seen` when it was read.
    pub fn new(rt: &'a R, path: &str, seen: Metadata) -> Result<AtomicReplace<'a, R>, PathError>
        // There is no new file yet, and no look; the file counts as unchanged if it is as it was seen.
        ensures { MatchResult result (λ place. (place.new ≡ None) × (place.last ≡ None) × (place.seen ≡ seen) × (place.read.len ≡ metadata_len seen)) IsOfReading }
    {
        let target = followed(rt, path)?;
        Ok(AtomicReplace {
            rt,
            target,
            read: FileLook::of(&seen),
            seen,
            last: None,
            new: None,
        })
    }

    /// The new file's path, if there is one.
    pub fn left(&self) -> Option<&str>
        ensures { option_map (λ path. path.now) result ≡ option_map (λ new. string_bytes new.path) self.now.new }
    {
        match &self.new {
            Some(new) => Some(new.path.as_str()),
            None => None,
        }
    }

    // A file that nobody else has, in the folder of the script's file. Its name begins with a dot and doesn't end in `.txt`.
    fn new_file(&self) -> io::Result<NewFile<R::File>> {
        for number in 0..MOST_NAMES {
            let path = self.new_path(number)?;
            let opened = new_file_options().mode(0o600).open(self.rt, path.as_str());
            match opened {
                Ok(file) => return Ok(NewFile::new(path, file)),
                Err(error) if error.kind() == ErrorKind::AlreadyExists => {}
                Err(error) => return Err(error),
            }
        }
        Err(io::Error::other(
            "its folder has all of .raftbench-0.new to .raftbench-999.new; remove them",
        ))
    }

    fn new_path(&self, number: usize) -> io::Result<String>
        ensures { IfOk result (λ path. string_bytes path ≡ path_join (folder_of (string_bytes self.now.target)) (new_name number)) }
    {
        Ok(new_path_beside(self.rt.alloc(), self.target.as_str(), number)?)
    }

    // A file that may not be written isn't replaced, even if its folder would allow it.
    fn check_rights(&self) -> io::Result<()> {
        write_options().open(self.rt, self.target.as_str())?;
        Ok(())
    }
}

// The path of the new file with a number, in the folder of a file.
fn new_path_beside(alloc: Global, target: &str, number: usize) -> Result<String, AllocError>
    ensures { IfOk result (λ path. string_bytes path ≡ path_join (folder_of target.now) (new_name number)) }
{
    let name = format!(in alloc; ".raftbench-{number}.new")?;
    Ok(
        Path::new(folder_of(target))
            .join(alloc, name)?
            .into_string(),
    )
}

// To write into a file that is there.
fn write_options() -> OpenOptions
    ensures { result ≡ with_write new_options true }
{
    let mut options = OpenOptions::new();
    options.write(true);
    options
}

// To write into a file that nobody else has: it is an error if there is one.
fn new_file_options() -> OpenOptions
    ensures { result ≡ with_create_new (with_write new_options true) true }
{
    let mut options = write_options();
    options.create_new(true);
    options
}

// Fails if a file has changed.
fn unchanged(now: &FileLook, seen: &FileLook) -> Result<(), PathError>
    ensures { IsOk result ↔ now.now ≡ seen.now }
{
    if now.is_same(seen) {
        Ok(())
    } else {
        let error = io::Error::other("the file has changed since it was read");
        Err(PathError::of_writing(error))
    }
}

impl<F: Write + OpenFile + Drop> NewFile<F> {
    // It was given nothing yet.
    fn new(path: String, file: F) -> NewFile<F>
        ensures { result ≡ record { path = path; file = file; mode = None; is_stored = false } }
    {
        NewFile {
            path,
            file,
            mode: None,
            is_stored: false,
        }
    }

    // Appends the text, which is not stored then.
    fn put(&mut self, text: &[u8]) -> io::Result<()>
        ensures bytes { OnOk result (Appends (F.contents self.old.file) (F.contents self.new.file) text.now) }
        ensures left { self.new.is_stored ≡ false }
    {
        self.is_stored = false;
        self.file.write_all(text)
    }

    // The owner first, since a change of it may take rights away. Who may not give a file away keeps it.
    fn settle<R: Files>(&mut self, rt: &R, seen: &Metadata) -> io::Result<()>
        ensures settled { IfOk result (λ _. (self.new.mode ≡ Some (metadata_mode seen.now)) × (self.new.is_stored ≡ true)) }
        ensures file { self.new.file ≡ self.old.file }
    {
        let now = self.file.metadata()?;
        if let Some(owner) = Owner::of(&now).to_give(Owner::of(seen)) {
            let _ = self.give_owner(rt, owner);
        }
        self.give_rights(seen.permissions())?;
        self.store()
    }

    fn give_owner<R: Files>(&mut self, rt: &R, owner: Owner) -> io::Result<()>
        ensures { self.new ≡ record self.old { mode = None } }
    {
        self.mode = None;
        chown(rt, self.path.as_str(), Some(owner.user), Some(owner.group))
    }

    fn give_rights(&mut self, permissions: Permissions) -> io::Result<()>
        ensures given { IfOk result (λ _. self.new ≡ record self.old { mode = Some (permissions_mode permissions) }) }
        ensures failed { IfErr result (λ _. self.new ≡ self.old) }
    {
        let mode = permissions.mode();
        self.file.set_permissions(permissions)?;
        self.mode = Some(mode);
        Ok(())
    }

    fn store(&mut self) -> io::Result<()>
        ensures stored { IfOk result (λ _. self.new ≡ record self.old { is_stored = true }) }
        ensures failed { IfErr result (λ _. self.new ≡ self.old) }
    {
        self.file.sync_all()?;
        self.is_stored = true;
        Ok(())
    }
}

// There is no new file any more, unless the call failed that renamed or removed it.
fn without<F: Drop>(file: &mut Option<NewFile<F>>, outcome: io::Result<()>) -> Result<(), PathError>
    ensures { MatchResult outcome (λ _. IsOk result × (file.new ≡ None)) (λ error. (result ≡ Err (of_writing error)) × (file.new ≡ file.old)) }
{
    if outcome.is_ok() {
        *file = None;
    }
    answered(outcome)
}

fn missing() -> io::Error {
    io::Error::from(ErrorKind::NotFound)
}

fn answered(outcome: io::Result<()>) -> Result<(), PathError>
    ensures { MatchResult outcome (λ _. IsOk result) (λ error. result ≡ Err (of_writing error)) }
{
    match outcome {
        Ok(()) => Ok(()),
        Err(error) => Err(PathError::of_writing(error)),
    }
}

// The contents of the system's folders are not known, so these calls say nothing but what the last look showed, and what was written.
impl<'a, R: Files + AllocGlobal> FilePlace for AtomicReplace<'a, R> {
    ghost stands = { λ _. None };

    ghost contents = { λ place. option_and_then (λ new. R.File.contents new.file) place.new };

    ghost is_unchanged = { λ place. place.last ≡ Some place.read };

    ghost is_settled = { λ place. IfSome place.new (λ new. (new.mode ≡ Some (metadata_mode place.seen)) × (new.is_stored ≡ true)) };

    fn create(&mut self) -> Result<(), PathError>
        ensures told { Turns created result None None }
        // It is made only if there is a new file.
        ensures made { IfOk result (λ _. IsSome self.exit.now.new) }
    {
        answered(self.check_rights())?;
        match self.new_file() {
            Ok(new) => {
                self.new = Some(new);
                Ok(())
            }
            Err(error) => Err(PathError::of_writing(error)),
        }
    }

    fn put(&mut self, text: &[u8]) -> Result<(), PathError> {
        match &mut self.new {
            Some(new) => answered(new.put(text)),
            None => answered(Err(missing())),
        }
    }

    fn settle(&mut self) -> Result<(), PathError> {
        match &mut self.new {
            Some(new) => answered(new.settle(self.rt, &self.seen)),
            None => answered(Err(missing())),
        }
    }

    fn look(&mut self) -> Result<(), PathError> {
        match fs::symlink_metadata(self.rt, self.target.as_str()) {
            Ok(metadata) => {
                let now = FileLook::of(&metadata);
                self.last = Some(now);
                unchanged(&now, &self.read)
            }
            Err(error) => Err(PathError::of_writing(error)),
        }
    }

    fn rename(&mut self) -> Result<(), PathError>
        ensures told { Turns renamed result None None }
        // What is renamed was there, and the system said that it went.
        ensures moved { IfOk result (λ _. IsSome self.entry.now.new × (self.exit.now.new ≡ None)) }
        ensures kept { IfErr result (λ _. self.exit.now.new ≡ self.entry.now.new) }
    {
        let outcome = match &self.new {
            Some(new) => fs::rename(self.rt, new.path.as_str(), self.target.as_str()),
            None => Err(missing()),
        };
        without(&mut self.new, outcome)
    }

    fn remove(&mut self) -> Result<(), PathError>
        ensures told { Removes result None None }
        ensures gone { IfOk result (λ _. IsSome self.entry.now.new × (self.exit.now.new ≡ None)) }
        ensures kept { IfErr result (λ _. self.exit.now.new ≡ self.entry.now.new) }
    {
        let outcome = match &self.new {
            Some(new) => fs::remove_file(self.rt, new.path.as_str()),
            None => Err(missing()),
        };
        without(&mut self.new, outcome)
    }
}
