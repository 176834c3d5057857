//! The names in a folder.

ghost use Rattle.std.specs.Prelude.{◌≡◌, ◌↔◌, ◌++◌, ◌∷◌, [], ℕ, List, false, IfErr, IfOk, IfSome, Ok, map, string_bytes};
ghost use Rattle.std.specs.Io.KnownBytes.{IsAtEnd};
ghost use Rattle.rb_files.specs.Ignored.{slash};
ghost use Rattle.rb_files.specs.Names.{AreInOrder, HasName, IsAdded, IsListing, is_hidden, parts_of, strange_bytes, strange_names, text_names};
ghost use Rattle.rb_files.specs.PathErrors.{IsOfReading};

use crate::path_error::PathError;
use rb_report::check::Failure;
use std::alloc::{AllocError, Global};
use std::io::Read;
use std::rt::Files;
use std::str;

// How many bytes of names one call may give. A name of Linux has up to 255.
const CHUNK: usize = 16_384;

/// The names in a folder that don't begin with a dot.
#[derive(Drop)]
pub(crate) struct Listing {
    /// Those that are text, in the order of their bytes, each once.
    pub(crate) names: Vec<String>,
    /// Those that are no UTF-8, so that no path can have them.
    pub(crate) strange: Vec<Vec<u8>>,
}

/// The names in the folder.
pub(crate) fn listed<R: Files + AllocGlobal>(rt: &R, folder: &str) -> Result<Listing, PathError>
    ensures order { IfOk result (λ listing. AreInOrder listing.names.items) }
    ensures why { IfErr result IsOfReading }
{
    let alloc = rt.alloc();
    let path = with_slash(alloc, folder)?;
    match rt.open_dir(path.as_str()) {
        Ok(mut folder) => read_listing(alloc, &mut folder),
        Err(error) => Err(PathError::of_reading(error)),
    }
}

// The folder's path, which ends in a slash.
fn with_slash(alloc: Global, folder: &str) -> Result<String, AllocError>
    ensures { IfOk result (λ path. string_bytes path ≡ folder.now ++ slash ∷ []) }
{
    let mut path = String::from_str(alloc, folder)?;
    path.push('/')?;
    Ok(path)
}

// Reads the names of a folder to the last, and sorts them.
fn read_listing<D: Read>(alloc: Global, folder: &mut D) -> Result<Listing, PathError>
    ensures all { IfOk result (λ listing. IfSome (D.remaining folder.old) (λ bytes. IsListing (parts_of bytes) listing)) }
    ensures order { IfOk result (λ listing. AreInOrder listing.names.items) }
    ensures why { IfErr result IsOfReading }
{
    let bytes = read_all(alloc, folder)?;
    Ok(listing_of(alloc, bytes.as_slice())?)
}

// The listing of a folder that gave these bytes.
fn listing_of(alloc: Global, bytes: &[u8]) -> Result<Listing, AllocError>
    ensures { IfOk result (IsListing (parts_of bytes.now)) }
{
    let parts = parts_of(alloc, bytes)?;
    let mut listing = gathered(alloc, parts.as_slice())?;
    put_in_order(&mut listing.names);
    Ok(listing)
}

// The names, cut at the NULs.
fn parts_of(alloc: Global, bytes: &[u8]) -> Result<Vec<&[u8]>, AllocError>
    ensures { IfOk result (λ parts. map (λ part. part.now) parts.items ≡ parts_of bytes.now) }
{
    bytes.split(|byte| *byte == 0).collect(alloc)
}

// The names that aren't hidden, as they came.
fn gathered(alloc: Global, parts: &[&[u8]]) -> Result<Listing, AllocError>
    ensures names { IfOk result (λ listing. map string_bytes listing.names.items ≡ text_names (map (λ part. part.now) parts.now)) }
    ensures strange { IfOk result (λ listing. strange_bytes listing.strange.items ≡ strange_names (map (λ part. part.now) parts.now)) }
{
    let mut listing = Listing {
        names: Vec::new(alloc),
        strange: Vec::new(alloc),
    };
    for part in parts {
        listing.add(alloc, part)?;
    }
    Ok(listing)
}

// Sorts the names by their bytes, and removes those that are there twice.
fn put_in_order(names: &mut Vec<String>)
    ensures order { AreInOrder names.new.items }
    ensures same { (name : List ℕ) → HasName names.old.items name ↔ HasName names.new.items name }
{
    names.sort_unstable();
    names.dedup();
}

impl Listing {
    // Adds a name that isn't hidden. The empty name comes after the last one.
    fn add(&mut self, alloc: Global, name: &[u8]) -> Result<(), AllocError>
        ensures names { IfOk result (λ _. map string_bytes self.new.names.items ≡ map string_bytes self.old.names.items ++ text_names (name.now ∷ [])) }
        ensures strange { IfOk result (λ _. strange_bytes self.new.strange.items ≡ strange_bytes self.old.strange.items ++ strange_names (name.now ∷ [])) }
    {
        if is_hidden(name) {
            return Ok(());
        }
        match str::from_utf8(name) {
            Ok(text) => self.names.push(String::from_str(alloc, text)?)?,
            Err(_) => self.strange.push(Vec::from_slice(alloc, name)?)?,
        }
        Ok(())
    }
}

fn is_hidden(name: &[u8]) -> bool
    ensures { result ≡ is_hidden name.now }
{
    match name {
        [first, ..] => *first == b'.',
        [] => true,
    }
}

// Reads all names of a folder.
fn read_all<D: Read>(alloc: Global, folder: &mut D) -> Result<Vec<u8>, PathError>
    ensures all { IfOk result (λ bytes. IfSome (D.remaining folder.old) (λ all. bytes.items ≡ all)) }
    ensures why { IfErr result IsOfReading }
{
    let mut bytes = Vec::new(alloc);
    for _ in 0..u64::MAX {
        if !read_names(folder, &mut bytes)? {
            return Ok(bytes);
        }
    }
    Err(PathError::alone(Failure::NotRead))
}

// Adds the names of one call; returns whether there were some.
fn read_names<D: Read>(folder: &mut D, bytes: &mut Vec<u8>) -> Result<bool, PathError>
    ensures given { IfOk result (λ _. IsAdded (D.remaining folder.old) (D.remaining folder.new) bytes.old.items bytes.new.items) }
    ensures end { result ≡ Ok false → IsAtEnd (D.remaining folder.new) }
    ensures why { IfErr result IsOfReading }
{
    let mut chunk = [0u8; CHUNK];
    match folder.read(&mut chunk) {
        Ok(0) => Ok(false),
        Ok(n) => {
            bytes.extend_from_slice(&chunk[..n])?;
            Ok(true)
        }
        Err(error) => Err(PathError::of_reading(error)),
    }
}
