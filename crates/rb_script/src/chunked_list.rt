//! Lists in chunks, which copies share.
//!
//! An edit makes a new list and leaves the old one unchanged, since memory may run out. It allocates one chunk, the pointers to the other
//! chunks, and the index at which each begins. A flat list would have to be copied whole. A script's blocks and outputs are such lists.
//!
//! The chunk of an item is found by binary search. In a list that was never spliced, its number follows from the item's index.

ghost use Rattle.std.specs.Prelude.{◌≡◌, ◌+◌, ◌/◌, ◌<◌, ◌≤◌, ◌^◌, ◌∷◌, ◌++◌, [], length, take, drop, IfOk, OnOk};
ghost use Rattle.rb_script.specs.declared.chunked_list.TheConstants.{CHUNK_LEN};
ghost use Rattle.rb_script.specs.Shared.{values};
ghost use Rattle.rb_script.specs.Chunks.{flattened, before, AreStarts, IsInChunks, index_of, IsPlace};

use crate::chunk::Chunk;
use crate::chunk_position::ChunkPosition;
use std::alloc::{AllocError, Global};
use std::marker::Model;
use std::rc::Rc;

/// The length of the chunks of a new list, except the last.
const CHUNK_LEN: usize = 128;

/// The most items of a chunk.
const MAX_CHUNK_LEN: usize = 256;

/// A list in chunks. Copies share the chunks that are equal. In contracts it is the list.
pub struct ChunkedList<T> {
    len: usize,
    // the index of each chunk's first item
    starts: Vec<usize>,
    chunks: Vec<Chunk<T>>,
}

// Written by hand, so that dropping one is a call for the prover, and is proved only here.
impl<T: Drop> Drop for ChunkedList<T> {
    fn drop(self) {
        let ChunkedList {
            len: _,
            starts: _,
            chunks: _,
        } = self;
    }
}

impl<T> Model for ChunkedList<T> {
    ghost use Rattle.std.specs.Prelude.{List};
    ghost use Rattle.rb_script.specs.Chunks.{flattened, IsChunked};

    ghost Value = { List T };

    ghost view = { λ b. flattened b.chunks.items };

    ghost invariant = { λ b. IsChunked b.starts.items b.chunks.items b.len };
}

/// Appends pointers to these items.
fn share<T: Drop>(into: &mut Vec<Rc<T>>, items: &[Rc<T>]) -> Result<(), AllocError>
    ensures { OnOk result (values into.new.items ≡ values into.old.items ++ values items.now) }
{
    into.extend_with_clones(items)
}

/// Copies the pointers to these items.
fn pointers_to<T: Drop>(alloc: Global, items: &[Rc<T>]) -> Result<Vec<Rc<T>>, AllocError>
    ensures { IfOk result (λ v. values v.items ≡ values items.now) }
{
    let mut made = Vec::with_capacity(alloc, items.len())?;
    share(&mut made, items)?;
    Ok(made)
}

/// Concatenates the items before, the new ones, and the rest.
fn spliced<T: Drop>(
    alloc: Global,
    front: &[Rc<T>],
    new: &[Rc<T>],
    rest: &[Rc<T>],
) -> Result<Vec<Rc<T>>, AllocError>
    ensures { IfOk result (λ v. values v.items ≡ values front.now ++ (values new.now ++ values rest.now)) }
{
    let mut made = Vec::with_capacity(alloc, front.len() + new.len() + rest.len())?;
    share(&mut made, front)?;
    share(&mut made, new)?;
    share(&mut made, rest)?;
    Ok(made)
}

/// Appends pointers to these chunks.
fn push_shared_chunks<T: Drop>(
    into: &mut Vec<Chunk<T>>,
    chunks: &[Chunk<T>],
) -> Result<(), AllocError>
    ensures { OnOk result (into.new.items ≡ into.old.items ++ chunks.now) }
{
    into.extend_with_clones(chunks)
}

/// Appends a chunk of these items.
fn push_chunk<T: Drop>(
    alloc: Global,
    chunks: &mut Vec<Chunk<T>>,
    items: Vec<Rc<T>>,
) -> Result<(), AllocError>
    ensures { OnOk result (chunks.new.items ≡ chunks.old.items ++ values items.items ∷ []) }
{
    chunks.push(Chunk::new(alloc, items)?)?;
    Ok(())
}

/// Appends these items as one chunk, or as several if they are too many.
fn push_chunks<T: Drop>(
    alloc: Global,
    chunks: &mut Vec<Chunk<T>>,
    items: Vec<Rc<T>>,
) -> Result<(), AllocError>
    ensures { OnOk result (flattened chunks.new.items ≡ flattened chunks.old.items ++ values items.items) }
{
    if items.is_empty() {
        return Ok(());
    }
    if items.len() <= MAX_CHUNK_LEN {
        return push_chunk(alloc, chunks, items);
    }
    chunks.append(&mut in_chunks(alloc, items)?)
}

/// Splits the items into chunks. The last one is made first, so that no pointer is moved twice.
fn in_chunks<T: Drop>(alloc: Global, mut items: Vec<Rc<T>>) -> Result<Vec<Chunk<T>>, AllocError>
    ensures { IfOk result (λ chunks. flattened chunks.items ≡ values items.items) }
{
    let mut chunks = Vec::new(alloc);
    while !items.is_empty() {
        let last = items.split_off((items.len() - 1) / CHUNK_LEN * CHUNK_LEN)?;
        push_chunk(alloc, &mut chunks, last)?;
    }
    chunks.reverse();
    Ok(chunks)
}

/// Concatenates the chunks before, chunks of these items, and the other chunks.
fn with_chunks<T: Drop>(
    alloc: Global,
    front: &[Chunk<T>],
    middle: Vec<Rc<T>>,
    rest: &[Chunk<T>],
) -> Result<Vec<Chunk<T>>, AllocError>
    ensures { IfOk result (λ made. flattened made.items ≡ flattened front.now ++ (values middle.items ++ flattened rest.now)) }
{
    let mut made = Vec::with_capacity(alloc, front.len() + rest.len() + 2)?;
    push_shared_chunks(&mut made, front)?;
    push_chunks(alloc, &mut made, middle)?;
    push_shared_chunks(&mut made, rest)?;
    Ok(made)
}

/// Replaces the items between two positions.
fn with_between<T: Drop>(
    alloc: Global,
    chunks: &[Chunk<T>],
    from: ChunkPosition,
    new: &[Rc<T>],
    to: ChunkPosition,
) -> Result<Vec<Chunk<T>>, AllocError>
    requires from { IsPlace chunks.now from }
    requires to { IsPlace chunks.now to }
    ensures { IfOk result (λ made. flattened made.items ≡ take (index_of chunks.now from) (flattened chunks.now) ++ (values new.now ++ drop (index_of chunks.now to) (flattened chunks.now))) }
{
    let front = &chunks[from.chunk].as_slice()[..from.within];
    let rest = &chunks[to.chunk].as_slice()[to.within..];
    let middle = spliced(alloc, front, new, rest)?;
    with_chunks(
        alloc,
        &chunks[..from.chunk],
        middle,
        &chunks[to.chunk + 1..],
    )
}

/// The first chunk to search from: the one that the item would be in if the list was never spliced, or the first one.
fn first_chunk<T: Drop>(chunks: &[Chunk<T>], starts: &[usize], at: usize) -> usize
    requires starts { AreStarts starts.now chunks.now (length chunks.now) }
    requires within { at < length (flattened chunks.now) }
    ensures guess { result ≤ at / CHUNK_LEN }
    ensures within { result < length chunks.now }
    ensures from { before chunks.now result ≤ at }
{
    let guess = at / CHUNK_LEN;
    if guess < chunks.len() && starts[guess] <= at {
        guess
    } else {
        0
    }
}

/// The range of chunks to search for an item. In a list that was never spliced, it is one chunk.
fn around<T: Drop>(chunks: &[Chunk<T>], starts: &[usize], at: usize) -> (usize, usize)
    requires starts { AreStarts starts.now chunks.now (length chunks.now) }
    requires within { at < length (flattened chunks.now) }
    ensures { IsInChunks chunks.now at result.0 result.1 }
{
    let low = first_chunk(chunks, starts, at);
    let next = at / CHUNK_LEN + 1;
    if next < chunks.len() && at < starts[next] {
        return (low, next);
    }
    (low, chunks.len())
}

/// Finds the chunk of an item.
fn chunk_of<T: Drop>(chunks: &[Chunk<T>], starts: &[usize], at: usize) -> usize
    requires starts { AreStarts starts.now chunks.now (length chunks.now) }
    requires within { at < length (flattened chunks.now) }
    ensures { IsInChunks chunks.now at result (result + 1) }
{
    let (mut low, mut high) = around(chunks, starts, at);
    while high - low > 1 {
        let middle = low + (high - low) / 2;
        if starts[middle] <= at {
            low = middle;
        } else {
            high = middle;
        }
    }
    low
}

/// Finds the position before an item, or after the last. It is in the chunk of the item before it.
fn position_of<T: Drop>(chunks: &[Chunk<T>], starts: &[usize], at: usize) -> ChunkPosition
    requires starts { AreStarts starts.now chunks.now (length chunks.now) }
    requires some { 0 < length chunks.now }
    requires within { at ≤ length (flattened chunks.now) }
    ensures place { IsPlace chunks.now result }
    ensures at { index_of chunks.now result ≡ at }
{
    if at == 0 {
        return ChunkPosition {
            chunk: 0,
            within: 0,
        };
    }
    let chunk = chunk_of(chunks, starts, at - 1);
    ChunkPosition {
        chunk,
        within: at - starts[chunk],
    }
}

impl<T: Drop> ChunkedList<T> {
    ghost use Rattle.std.specs.Prelude.{◌≡◌, ◌==◌, ◌<◌, ◌≤◌, ◌++◌, Some, length, take, drop, slice_get, option_copied, IfOk};
    ghost use Rattle.rb_script.specs.Shared.{values};
    ghost use Rattle.rb_script.specs.Chunks.{flattened};

    /// Makes a list of these chunks. Its length fits in a `usize`.
    fn new(alloc: Global, chunks: Vec<Chunk<T>>) -> Result<ChunkedList<T>, AllocError>
        ensures { IfOk result (λ b. b ≡ flattened chunks.items) }
    {
        let mut starts = Vec::with_capacity(alloc, chunks.len())?;
        let mut len: usize = 0;
        for chunk in &chunks {
            starts.push(len)?;
            let Some(next) = len.checked_add(chunk.len()) else {
                return Err(AllocError);
            };
            len = next;
        }
        Ok(ChunkedList {
            len,
            starts,
            chunks,
        })
    }

    /// Makes a list of these items.
    pub fn of(alloc: Global, items: Vec<Rc<T>>) -> Result<ChunkedList<T>, AllocError>
        ensures { IfOk result (λ b. b ≡ values items.items) }
    {
        ChunkedList::new(alloc, in_chunks(alloc, items)?)
    }

    /// The number of items.
    pub fn len(&self) -> usize
        ensures { result ≡ length self.now }
    {
        self.len
    }

    /// Whether there are no items.
    pub fn is_empty(&self) -> bool
        ensures { result ≡ (length self.now == 0) }
    {
        self.len == 0
    }

    /// The item at an index, counted from 0.
    pub fn at(&self, index: usize) -> &Rc<T>
        requires { index < length self.now }
        ensures { slice_get self.now index ≡ Some result.now.value }
    {
        let chunk = chunk_of(&self.chunks, &self.starts, index);
        let within = index - self.starts[chunk];
        &self.chunks[chunk].as_slice()[within]
    }

    /// The item at an index, if there is one.
    pub fn get(&self, index: usize) -> Option<&T>
        ensures { option_copied result ≡ slice_get self.now index }
    {
        if index < self.len {
            Some(&**self.at(index))
        } else {
            None
        }
    }

    /// Makes a list with the items from `from` to `to` replaced. The two lists share the chunks that are equal.
    pub fn splice(
        &self,
        alloc: Global,
        from: usize,
        new: &[Rc<T>],
        to: usize,
    ) -> Result<ChunkedList<T>, AllocError>
        requires from { from ≤ length self.now }
        requires to { to ≤ length self.now }
        ensures { IfOk result (λ b. b ≡ take from self.now ++ (values new.now ++ drop to self.now)) }
    {
        ChunkedList::new(alloc, self.chunks_with(alloc, from, new, to)?)
    }

    // The chunks of that list.
    fn chunks_with(
        &self,
        alloc: Global,
        from: usize,
        new: &[Rc<T>],
        to: usize,
    ) -> Result<Vec<Chunk<T>>, AllocError>
        requires from { from ≤ length self.now }
        requires to { to ≤ length self.now }
        ensures { IfOk result (λ chunks. flattened chunks.items ≡ take from self.now ++ (values new.now ++ drop to self.now)) }
    {
        if self.chunks.is_empty() {
            return in_chunks(alloc, pointers_to(alloc, new)?);
        }
        let front = position_of(&self.chunks, &self.starts, from);
        let rest = position_of(&self.chunks, &self.starts, to);
        with_between(alloc, &self.chunks, front, new, rest)
    }
}
