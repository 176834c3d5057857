//! Finding the scripts of some paths.
//!
//! A path is a script, or a folder, whose names that end in `.txt` are scripts, with those of its folders: in the order of the names, where a
//! folder's scripts are in its name's place. Each script and each folder is looked at once, so that loops of links end.
//! What a folder's file `.raftbenchignore` names, a path a line, isn't looked at, unless it is itself one of the paths.

ghost use Rattle.std.specs.Prelude.{◌≡◌, ◌<◌, ◌++◌, ◌∷◌, [], ⊤, false, true, IfErr, IfOk, Ok, Err, Some, length, map, slice_get, string_bytes};
ghost use Rattle.std.specs.BTreeSet.{IsUnchanged, contains, insert_key};
ghost use Rattle.rb_report.specs.declared.check.failure.Failure.TheVariants as failures;
ghost use Rattle.rb_files.specs.Finds.{AreTold, Heeds, IsFound, IsKept, Loses, Misses, Waits, WaitsFor, ignore_file, is_ignored, unless_ignored, waiting_of};
ghost use Rattle.rb_files.specs.Ignored.{ignored_by, slash};
ghost use Rattle.rb_files.specs.Names.{AreInOrder, is_script_name};
ghost use Rattle.rb_files.specs.PathErrors.{IsOfReading, without_cause};
ghost use Rattle.rb_files.specs.Walks.{EndsWith, Enters, Follows, IsBegun, IsWalk, Lists, LooksAt, Takes, Visits, asked};

use crate::entry::{FileId, FolderId, PathEntry};
use crate::filter::is_kept;
use crate::ignored::{IGNORED, ignored_by};
use crate::listing::Listing;
use crate::path_error::PathError;
use crate::tree::{SystemTree, Tree};
use rb_report::check::Failure;
use std::alloc::{AllocError, Global};
use std::collections::BTreeSet;
use std::convert::AsStr;
use std::path::Path;
use std::rt::Files;

/// A path that failed.
#[derive(Drop)]
pub struct FailedPath {
    /// The path; its last name may not be UTF-8.
    pub path: Vec<u8>,
    /// Why.
    pub error: PathError,
}

/// The scripts that were found.
#[derive(Drop)]
pub struct Found {
    /// The paths of the scripts, in their order.
    pub scripts: Vec<String>,
    /// The paths that failed.
    pub lost: Vec<FailedPath>,
    /// Whether memory ran out before all was looked at.
    pub is_cut: bool,
}

/// The scripts of the paths; of them those whose paths have each of the words in them, and none that is after a `!`.
pub fn find<R: Files + AllocGlobal, S: AsStr>(rt: &R, paths: &[S], words: &[String]) -> Found
    // Each word holds of each path, and each loss is what the system said.
    ensures kept { IsFound words.now result }
    // Unless memory runs out, it is what a walk from these paths finds. What the system's folders hold is not known; their names come in order.
    ensures walked { result.is_cut ≡ false → IsWalk (λ _ _. ⊤) (λ _ _. ⊤) (λ _ said. IfOk said (λ listing. AreInOrder listing.names.items)) ⟦<FileId as Ord>⟧.cmp ⟦<FolderId as Ord>⟧.cmp words.now (map S.text paths.now) result }
{
    find_in(&SystemTree(rt), paths, words)
}

// The scripts of a tree.
#[tactic(auto, using(crate::proofs::FindLaws::nothing_told))]
fn find_in<T: Tree, S: AsStr>(tree: &T, paths: &[S], words: &[String]) -> Found
    ensures kept { IsFound words.now result }
    ensures walked { result.is_cut ≡ false → IsWalk (T.entries tree.now) (T.ignores tree.now) (T.listings tree.now) ⟦<FileId as Ord>⟧.cmp ⟦<FolderId as Ord>⟧.cmp words.now (map S.text paths.now) result }
{
    let mut search = Search::new(tree.alloc());
    match search.visit_all(tree, paths, words) {
        Ok(()) => search.found,
        Err(AllocError) => {
            search.found.is_cut = true;
            search.found
        }
    }
}

// A path that is still to be looked at.
#[derive(Drop)]
struct Waiting {
    path: String,
    // A path of the command line is a script whatever its name is; of a folder's names those are that end in `.txt`.
    is_script: bool,
    // It was a folder when its name was listed.
    is_folder: bool,
}

#[derive(Drop)]
struct Search {
    // the next is the last
    waiting: Vec<Waiting>,
    folders: BTreeSet<FolderId>,
    files: BTreeSet<FileId>,
    // the paths that ignore files name
    ignored: Vec<String>,
    found: Found,
}

impl Search {
    fn new(alloc: Global) -> Search
        ensures begun { IsBegun [] result }
        ensures lost { result.found.lost.items ≡ [] }
    {
        Search {
            waiting: Vec::new(alloc),
            folders: BTreeSet::new(alloc),
            files: BTreeSet::new(alloc),
            ignored: Vec::new(alloc),
            found: Found {
                scripts: Vec::new(alloc),
                lost: Vec::new(alloc),
                is_cut: false,
            },
        }
    }

    // Finds the scripts of the paths.
    fn visit_all<T: Tree, S: AsStr>(
        &mut self,
        tree: &T,
        paths: &[S],
        words: &[String],
    ) -> Result<(), AllocError>
        requires found { IsFound words.now self.old.found }
        requires begun { IsBegun [] self.old }
        ensures found { IsFound words.now self.new.found }
        ensures walked { IfOk result (λ _. IsWalk (T.entries tree.now) (T.ignores tree.now) (T.listings tree.now) ⟦<FileId as Ord>⟧.cmp ⟦<FolderId as Ord>⟧.cmp words.now (map S.text paths.now) self.new.found) }
    {
        self.let_paths_wait(tree.alloc(), paths)?;
        self.walk(tree, words)
    }

    // Lets the paths of the command line wait, the first of them to be the next. A file there is a script, whatever its name is.
    fn let_paths_wait<S: AsStr>(&mut self, alloc: Global, paths: &[S]) -> Result<(), AllocError>
        ensures found { self.new.found ≡ self.old.found }
        ensures waits { IfOk result (λ _. WaitsFor (asked (map S.text paths.now)) self.old self.new) }
    {
        let mut left = paths.len();
        while left > 0 {
            left -= 1;
            self.let_path_wait(alloc, path_at(paths, left))?;
        }
        Ok(())
    }

    // Lets a path of the command line wait.
    fn let_path_wait(&mut self, alloc: Global, path: &str) -> Result<(), AllocError>
        ensures found { self.new.found ≡ self.old.found }
        ensures waits { IfOk result (λ _. WaitsFor ((path.now, true) ∷ []) self.old self.new) }
    {
        let path = String::from_str(alloc, path)?;
        Ok(
            self.waiting.push(Waiting {
                path,
                is_script: true,
                is_folder: false,
            })?,
        )
    }

    // Looks at what waits, until nothing does.
    fn walk<T: Tree>(&mut self, tree: &T, words: &[String]) -> Result<(), AllocError>
        requires { IsFound words.now self.old.found }
        ensures found { IsFound words.now self.new.found }
        ensures walked { IfOk result (λ _. EndsWith (T.entries tree.now) (T.ignores tree.now) (T.listings tree.now) ⟦<FileId as Ord>⟧.cmp ⟦<FolderId as Ord>⟧.cmp words.now self.old self.new.found) }
    {
        for _ in 0..u64::MAX {
            let Some(next) = self.waiting.pop() else {
                return Ok(());
            };
            self.look_at(tree, next, words)?;
        }
        // No memory holds as many paths.
        Err(AllocError)
    }

    #[tactic(auto, using(crate::proofs::FindLaws::still_found))]
    fn look_at<T: Tree>(
        &mut self,
        tree: &T,
        next: Waiting,
        words: &[String],
    ) -> Result<(), AllocError>
        requires { IsFound words.now self.old.found }
        ensures found { IsFound words.now self.new.found }
        ensures looked { IfOk result (λ _. LooksAt (T.entries tree.now) (T.ignores tree.now) (T.listings tree.now) ⟦<FileId as Ord>⟧.cmp ⟦<FolderId as Ord>⟧.cmp words.now next self.old self.new) }
    {
        match tree.entry_at(next.path.as_str()) {
            Ok(entry) => self.look_in(tree, next, entry, words),
            Err(error) => self.miss(next, error),
        }
    }

    // Of what is at the path.
    #[tactic(auto, using(crate::proofs::FindLaws::still_found))]
    fn look_in<T: Tree>(
        &mut self,
        tree: &T,
        next: Waiting,
        entry: PathEntry,
        words: &[String],
    ) -> Result<(), AllocError>
        requires { IsFound words.now self.old.found }
        ensures found { IsFound words.now self.new.found }
        ensures follows { IfOk result (λ _. Follows (T.entries tree.now) (T.ignores tree.now) (T.listings tree.now) ⟦<FileId as Ord>⟧.cmp ⟦<FolderId as Ord>⟧.cmp words.now next (Ok entry) self.old self.new) }
    {
        match entry {
            PathEntry::Folder(id) => self.enter(tree, next.path.as_str(), id),
            PathEntry::File(id) => self.offer(next, id, words),
            PathEntry::Other(failure) => self.refuse(next, failure),
        }
    }

    // A file is a script if it is named, or its name in a folder ends in `.txt`.
    fn offer(&mut self, next: Waiting, id: FileId, words: &[String]) -> Result<(), AllocError>
        requires { IsFound words.now self.old.found }
        ensures found { IsFound words.now self.new.found }
        ensures taken { next.is_script ≡ true → IfOk result (λ _. Takes ⟦<FileId as Ord>⟧.cmp words.now next.path id self.old self.new) }
        ensures passed { next.is_script ≡ false → self.new ≡ self.old }
    {
        if next.is_script {
            self.take(next.path, id, words)
        } else {
            Ok(())
        }
    }

    // A device, a pipe or a socket is lost where a script is asked for.
    fn refuse(&mut self, next: Waiting, failure: Failure) -> Result<(), AllocError>
        ensures scripts { self.new.found.scripts ≡ self.old.found.scripts }
        ensures told { AreTold self.old.found.lost.items → AreTold self.new.found.lost.items }
        ensures lost { next.is_script ≡ true → IfOk result (λ _. Loses (string_bytes next.path) (without_cause failure) self.old self.new) }
        ensures passed { next.is_script ≡ false → self.new ≡ self.old }
    {
        if next.is_script {
            self.lose(next.path, PathError::alone(failure))
        } else {
            Ok(())
        }
    }

    // A path that has vanished, was not a folder and wouldn't be a script, is not a failure.
    fn miss(&mut self, next: Waiting, error: PathError) -> Result<(), AllocError>
        ensures scripts { self.new.found.scripts ≡ self.old.found.scripts }
        ensures told { AreTold self.old.found.lost.items → IsOfReading error → AreTold self.new.found.lost.items }
        ensures missed { IfOk result (λ _. Misses next error self.old self.new) }
    {
        if !next.is_script && !next.is_folder && error.failure == Failure::NotFound {
            return Ok(());
        }
        self.lose(next.path, error)
    }

    #[tactic(auto, using(crate::proofs::FindLaws::one_more_told))]
    fn lose(&mut self, path: String, error: PathError) -> Result<(), AllocError>
        ensures scripts { self.new.found.scripts ≡ self.old.found.scripts }
        ensures told { AreTold self.old.found.lost.items → IsOfReading error → AreTold self.new.found.lost.items }
        ensures lost { IfOk result (λ _. Loses (string_bytes path) error self.old self.new) }
    {
        let path = path.into_bytes();
        Ok(self.found.lost.push(FailedPath { path, error })?)
    }

    // Finds a script, if each of the words lets its path be kept and no path led to its file before.
    fn take(&mut self, path: String, id: FileId, words: &[String]) -> Result<(), AllocError>
        requires { IsFound words.now self.old.found }
        ensures found { IsFound words.now self.new.found }
        ensures filtered { (IsKept words.now (string_bytes path) → ⊥) → self.new ≡ self.old }
        ensures known { IsKept words.now (string_bytes path) → contains ⟦<FileId as Ord>⟧.cmp self.old.files id ≡ true
            → IfOk result (λ _. (self.new ≡ record self.old { files = self.new.files }) × IsUnchanged self.old.files self.new.files) }
        ensures added { IsKept words.now (string_bytes path) → contains ⟦<FileId as Ord>⟧.cmp self.old.files id ≡ false
            → IfOk result (λ _. (self.new ≡ record self.old { files = self.new.files; found = record self.old.found { scripts = self.new.found.scripts } })
            × (self.new.found.scripts.items ≡ self.old.found.scripts.items ++ path ∷ [])
            × (self.new.files.keys ≡ insert_key ⟦<FileId as Ord>⟧.cmp self.old.files.keys id)) }
    {
        if !is_kept(path.as_str(), words) {
            return Ok(());
        }
        if !self.files.insert(id)? {
            return Ok(());
        }
        Ok(self.found.scripts.push(path)?)
    }

    // Visits a folder, unless it was visited before.
    fn enter<T: Tree>(&mut self, tree: &T, folder: &str, id: FolderId) -> Result<(), AllocError>
        ensures scripts { self.new.found.scripts ≡ self.old.found.scripts }
        ensures told { AreTold self.old.found.lost.items → AreTold self.new.found.lost.items }
        ensures entered { IfOk result (λ _. Enters (T.ignores tree.now) (T.listings tree.now) ⟦<FolderId as Ord>⟧.cmp folder.now id self.old self.new) }
    {
        if !self.folders.insert(id)? {
            return Ok(());
        }
        self.visit(tree, folder)
    }

    // Visits a folder: what it ignores is known before its names wait.
    fn visit<T: Tree>(&mut self, tree: &T, folder: &str) -> Result<(), AllocError>
        ensures scripts { self.new.found.scripts ≡ self.old.found.scripts }
        ensures told { AreTold self.old.found.lost.items → AreTold self.new.found.lost.items }
        ensures visited { IfOk result (λ _. Visits (T.ignores tree.now) (T.listings tree.now) folder.now self.old self.new) }
    {
        let ignored = tree.ignored_in(folder);
        if !self.heed_ignored(tree.alloc(), folder, ignored)? {
            return Ok(());
        }
        self.list(tree, folder)
    }

    // Lets a folder's names wait, the first of them to be the next.
    fn list<T: Tree>(&mut self, tree: &T, folder: &str) -> Result<(), AllocError>
        ensures scripts { self.new.found.scripts ≡ self.old.found.scripts }
        ensures told { AreTold self.old.found.lost.items → AreTold self.new.found.lost.items }
        ensures listed { IfOk result (λ _. Lists (T.listings tree.now) folder.now self.old self.new) }
    {
        match tree.listed(folder) {
            Ok(listing) => self.wait_for(tree, folder, listing),
            Err(error) => self.lose_folder(tree.alloc(), folder, error),
        }
    }

    fn lose_folder(
        &mut self,
        alloc: Global,
        folder: &str,
        error: PathError,
    ) -> Result<(), AllocError>
        ensures scripts { self.new.found.scripts ≡ self.old.found.scripts }
        ensures told { AreTold self.old.found.lost.items → IsOfReading error → AreTold self.new.found.lost.items }
        ensures lost { IfOk result (λ _. Loses folder.now error self.old self.new) }
    {
        self.lose(String::from_str(alloc, folder)?, error)
    }

    // Records the paths that a folder's ignore file names, if there is one. Returns whether the folder is visited: not if that file can't be read.
    fn heed_ignored(
        &mut self,
        alloc: Global,
        folder: &str,
        ignored: Result<Option<String>, PathError>,
    ) -> Result<bool, AllocError>
        ensures scripts { self.new.found.scripts ≡ self.old.found.scripts }
        ensures told { AreTold self.old.found.lost.items → IfErr ignored IsOfReading → AreTold self.new.found.lost.items }
        ensures heeded { IfOk result (λ visits. Heeds folder.now ignored visits self.old self.new) }
    {
        match ignored {
            Ok(Some(text)) => {
                self.ignore(alloc, folder, text.as_str())?;
                Ok(true)
            }
            Ok(None) => Ok(true),
            Err(error) => {
                self.lose(ignored_path(alloc, folder)?, error)?;
                Ok(false)
            }
        }
    }

    // Records the paths that a folder's ignore file names.
    fn ignore(&mut self, alloc: Global, folder: &str, text: &str) -> Result<(), AllocError>
        ensures same { self.new ≡ record self.old { ignored = self.new.ignored } }
        ensures ignored { IfOk result (λ _. map string_bytes self.new.ignored.items
            ≡ map string_bytes self.old.ignored.items ++ ignored_by folder.now text.now) }
    {
        let mut paths = ignored_by(alloc, folder, text)?;
        self.ignored.append(&mut paths)
    }

    // Whether a folder's file names the path.
    fn is_ignored(&self, path: &str) -> bool
        ensures { result ≡ is_ignored self.now.ignored.items path.now }
    {
        for ignored in &self.ignored {
            if ignored.as_str() == path {
                return true;
            }
        }
        false
    }

    fn wait_for<T: Tree>(
        &mut self,
        tree: &T,
        folder: &str,
        listing: Listing,
    ) -> Result<(), AllocError>
        ensures scripts { self.new.found.scripts ≡ self.old.found.scripts }
        ensures told { AreTold self.old.found.lost.items → AreTold self.new.found.lost.items }
        // A name that is no text is lost.
        ensures waits { IfOk result (λ _. Waits folder.now listing self.old self.new) }
    {
        for name in &listing.strange {
            self.report_undecodable_name(tree.alloc(), folder, name.as_slice())?;
        }
        self.let_names_wait(tree, folder, listing.names.as_slice())
    }

    // Lets a folder's names wait, the first of them to be the next.
    fn let_names_wait<T: Tree>(
        &mut self,
        tree: &T,
        folder: &str,
        names: &[String],
    ) -> Result<(), AllocError>
        ensures found { self.new.found ≡ self.old.found }
        ensures waits { IfOk result (λ _. WaitsFor (waiting_of self.old.ignored.items folder.now names.now) self.old self.new) }
    {
        let mut left = names.len();
        while left > 0 {
            left -= 1;
            self.let_name_wait(tree, folder, name_at(names, left))?;
        }
        Ok(())
    }

    // Lets a name of a folder wait.
    fn let_name_wait<T: Tree>(
        &mut self,
        tree: &T,
        folder: &str,
        name: &String,
    ) -> Result<(), AllocError>
        ensures found { self.new.found ≡ self.old.found }
        ensures waits { IfOk result (λ _. WaitsFor (waiting_of self.old.ignored.items folder.now (name.now ∷ [])) self.old self.new) }
    {
        let path = Path::new(folder)
            .join(tree.alloc(), name.as_str())?
            .into_string();
        self.let_wait(tree, path, is_script_name(name.as_str()))
    }

    // Lets a path of a folder wait, unless a folder's file names it.
    fn let_wait<T: Tree>(
        &mut self,
        tree: &T,
        path: String,
        is_script: bool,
    ) -> Result<(), AllocError>
        ensures found { self.new.found ≡ self.old.found }
        ensures waits { IfOk result (λ _. WaitsFor (unless_ignored self.old.ignored.items (string_bytes path) is_script) self.old self.new) }
    {
        if self.is_ignored(path.as_str()) {
            return Ok(());
        }
        let is_folder = !is_script && tree.is_folder_now(path.as_str());
        Ok(
            self.waiting.push(Waiting {
                path,
                is_script,
                is_folder,
            })?,
        )
    }

    // A name that is no text can be opened by nobody here, be it a script's or a folder's.
    #[tactic(auto, using(crate::proofs::FindLaws::one_more_told))]
    fn report_undecodable_name(
        &mut self,
        alloc: Global,
        folder: &str,
        name: &[u8],
    ) -> Result<(), AllocError>
        ensures scripts { self.new.found.scripts ≡ self.old.found.scripts }
        ensures told { AreTold self.old.found.lost.items → AreTold self.new.found.lost.items }
        ensures lost { IfOk result (λ _. Loses (folder.now ++ slash ∷ name.now) (without_cause failures.NotRead) self.old self.new) }
    {
        let mut path = Vec::from_slice(alloc, folder.as_bytes())?;
        path.push(b'/')?;
        path.extend_from_slice(name)?;
        let error = PathError::alone(Failure::NotRead);
        Ok(self.found.lost.push(FailedPath { path, error })?)
    }
}

// The path of a folder's ignore file.
fn ignored_path(alloc: Global, folder: &str) -> Result<String, AllocError>
    ensures { IfOk result (λ path. string_bytes path ≡ ignore_file folder.now) }
{
    Ok(Path::new(folder).join(alloc, IGNORED)?.into_string())
}

fn path_at<S: AsStr>(paths: &[S], index: usize) -> &str
    requires { index < length paths.now }
    ensures { slice_get (map S.text paths.now) index ≡ Some result.now }
{
    paths[index].as_str()
}

fn name_at(names: &[String], index: usize) -> &String
    requires { index < length names.now }
    ensures { slice_get names.now index ≡ Some result.now }
{
    &names[index]
}

// Whether a file of this name in a folder is a script.
fn is_script_name(name: &str) -> bool
    ensures { result ≡ is_script_name name.now }
{
    let bytes = name.as_bytes();
    &bytes[bytes.len().saturating_sub(4)..] == b".txt".as_slice()
}
