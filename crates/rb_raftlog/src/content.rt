//! The content of a node: the applied payloads, joined.
//!
//! The state machine of this bench joins payloads in order (a replicated state machine as in Ongaro's thesis, chapter 2). So a content only
//! grows, and a session keeps hundreds of contents with the same beginning.
//!
//! A content is a list of pieces of PIECE bytes, which never change and which copies share, and a rest after them. The pieces are in pages,
//! so a copy costs a few pointers and the rest. Equal contents are cut at the same places. The rest always has the last bytes that are
//! shown, as one slice.
//!
//! A content keeps a sum of all bytes, which usually tells apart contents of one length.

ghost use Rattle.std.specs.Prelude.{◌≡◌, ◌+◌, ◌<◌, ◌≤◌, ◌++◌, ◌↔◌, [], length, take, nat_eq, IsTrue, IfOk, OnOk, OnErr};
ghost use Rattle.std.specs.Cmp.{nat_eq_equiv, partial_equiv_from_equiv};
ghost use Rattle.std.specs.Cmp.Lexicographic.{pointwise, lists_equiv};
ghost use Rattle.rb_raftlog.specs.Content.{content_end, content_sum, sum_with, sum_from};
ghost use Rattle.rb_raftlog.specs.Cut.{IsCut};
ghost use Rattle.rb_raftlog.specs.Packed.{joined};

use crate::limits::{END, FACTOR, MAX_INDEX, PIECE};
use crate::pages::Pages;
use rb_vocab::Shared;
use std::alloc::{AllocError, Global};
use std::marker::Model;

/// Bytes that grow at their end. Contracts see the list of the bytes.
#[derive(Drop)]
pub struct Content {
    // Each has PIECE bytes.
    pieces: Pages<Shared<u8>>,
    // Fewer than PIECE + END bytes, and at least END if there are pieces.
    rest: Vec<u8>,
    // The sum of all bytes.
    sum: u64,
}

impl Model for Content {
    ghost use Rattle.std.specs.Prelude.{◌≡◌, List, ℕ, ◌++◌};
    ghost use Rattle.rb_raftlog.specs.Packed.{joined};
    ghost use Rattle.rb_raftlog.specs.Content.{content_sum};
    ghost use Rattle.rb_raftlog.specs.Cut.{IsCut};

    ghost Value = { List ℕ };

    ghost view = { λ c. joined c.pieces ++ c.rest.items };

    ghost invariant = { λ c. IsCut c.pieces c.rest.items × (c.sum ≡ content_sum (joined c.pieces ++ c.rest.items)) };
}

/// A list of a part of the bytes.
fn piece_of(alloc: Global, bytes: &[u8]) -> Result<Shared<u8>, AllocError>
    ensures { IfOk result (λ piece. piece ≡ bytes.now) }
{
    Shared::new(Vec::from_slice(alloc, bytes)?)
}

/// The two as one list.
fn joined_bytes(alloc: Global, front: &[u8], back: &[u8]) -> Result<Vec<u8>, AllocError>
    ensures { IfOk result (λ bytes. bytes.items ≡ front.now ++ back.now) }
{
    let mut bytes = Vec::from_slice(alloc, front)?;
    bytes.extend_from_slice(back)?;
    Ok(bytes)
}

/// Whether both are equal.
fn same_bytes(bytes: &[u8], others: &[u8]) -> bool
    ensures { IsTrue result ↔ (bytes.now ≡ others.now) }
{
    bytes == others
}

/// Adds a byte to a sum.
#[tactic(auto, unfolding(crate::specs::Content::sum_with))]
fn sum_with(sum: u64, byte: u8) -> u64
    ensures { result ≡ sum_with sum byte }
{
    sum.wrapping_mul(FACTOR).wrapping_add(u64::from(byte))
}

/// Adds bytes to a sum.
fn sum_from(sum: u64, bytes: &[u8]) -> u64
    ensures { result ≡ sum_from sum bytes.now }
{
    let mut so_far = sum;
    for byte in bytes {
        so_far = sum_with(so_far, *byte);
    }
    so_far
}

/// Appends the bytes, which fill a piece, and moves that piece to the pieces.
fn split_off_piece(
    pieces: &mut Pages<Shared<u8>>,
    rest: &mut Vec<u8>,
    bytes: &[u8],
) -> Result<(), AllocError>
    requires cut { IsCut pieces.old rest.old.items }
    requires full { length rest.old.items + length bytes.now ≡ PIECE + END }
    ensures cut { IsCut pieces.new rest.new.items }
    ensures ok { OnOk result (joined pieces.new ++ rest.new.items ≡ (joined pieces.old ++ rest.old.items) ++ bytes.now) }
    ensures err { OnErr result (joined pieces.new ++ rest.new.items ≡ joined pieces.old ++ rest.old.items) }
{
    if pieces.len() as u64 >= MAX_INDEX {
        return Err(AllocError);
    }
    let alloc = pieces.allocator();
    let whole = joined_bytes(alloc, rest, bytes)?;
    let (front, back) = whole.as_slice().split_at(PIECE);
    let piece = piece_of(alloc, front)?;
    let left = Vec::from_slice(alloc, back)?;
    pieces.push(piece)?;
    *rest = left;
    Ok(())
}

/// Appends the bytes. If they fill a piece, moves it to the pieces.
fn grow(pieces: &mut Pages<Shared<u8>>, rest: &mut Vec<u8>, bytes: &[u8]) -> Result<(), AllocError>
    requires cut { IsCut pieces.old rest.old.items }
    requires fits { length rest.old.items + length bytes.now ≤ PIECE + END }
    ensures cut { IsCut pieces.new rest.new.items }
    ensures ok { OnOk result (joined pieces.new ++ rest.new.items ≡ (joined pieces.old ++ rest.old.items) ++ bytes.now) }
    ensures err { OnErr result (joined pieces.new ++ rest.new.items ≡ joined pieces.old ++ rest.old.items) }
{
    if rest.len() + bytes.len() < PIECE + END {
        rest.extend_from_slice(bytes)?;
        return Ok(());
    }
    split_off_piece(pieces, rest, bytes)
}

/// Whether both lists of pieces are equal.
fn same_pieces(pieces: &Pages<Shared<u8>>, others: &Pages<Shared<u8>>) -> bool
    ensures { IsTrue result ↔ (pieces.now ≡ others.now) }
{
    if pieces.len() != others.len() {
        return false;
    }
    for k in 0..pieces.len() {
        if !pieces.item(k).same(others.item(k)) {
            return false;
        }
    }
    true
}

impl Content {
    /// No bytes. It takes no memory.
    pub fn new(alloc: Global) -> Content
        ensures { result ≡ [] }
    {
        Content {
            pieces: Pages::new(alloc),
            rest: Vec::new(alloc),
            sum: 0,
        }
    }

    /// A content of these bytes, which are copied.
    pub fn from_slice(alloc: Global, bytes: &[u8]) -> Result<Content, AllocError>
        ensures { IfOk result (λ content. content ≡ bytes.now) }
    {
        let mut content = Content::new(alloc);
        content.append(bytes)?;
        Ok(content)
    }

    /// The number of bytes, without going over them.
    pub fn len(&self) -> usize
        ensures { result ≡ length self.now }
    {
        self.pieces.len() * PIECE + self.rest.len()
    }

    /// The last 32 bytes, or all if there are fewer, without a copy.
    pub fn end(&self) -> &[u8]
        ensures { result.now ≡ content_end self.now }
    {
        &self.rest[self.rest.len().saturating_sub(END)..]
    }

    // Appends the first bytes, up to the end of a piece, and returns their number.
    fn append_some(&mut self, bytes: &[u8]) -> Result<usize, AllocError>
        requires { 0 < length bytes.now }
        ensures { IfOk result (λ n. (0 < n) × (n ≤ length bytes.now) × (self.new ≡ self.old ++ take n bytes.now)) }
    {
        let n = bytes.len().min(PIECE + END - self.rest.len());
        let first = &bytes[..n];
        grow(&mut self.pieces, &mut self.rest, first)?;
        self.sum = sum_from(self.sum, first);
        Ok(n)
    }

    /// Appends the bytes. The cost is that of copying them once or twice, and at times a page of pointers. A content of more than
    /// 2,000,000,000 pieces is refused like a lack of memory.
    pub fn append(&mut self, bytes: &[u8]) -> Result<(), AllocError>
        ensures { OnOk result (self.new ≡ self.old ++ bytes.now) }
    {
        let mut done = 0;
        while done < bytes.len() {
            done += self.append_some(&bytes[done..])?;
        }
        Ok(())
    }

    /// Copies the content: pointers to its pages and pieces, and a copy of the rest.
    pub fn try_copy(&self) -> Result<Content, AllocError>
        ensures { IfOk result (λ copy. copy ≡ self.now) }
    {
        Ok(Content {
            pieces: self.pieces.try_copy()?,
            rest: Vec::from_slice(*self.rest.allocator(), &self.rest)?,
            sum: self.sum,
        })
    }

    /// A sum of the bytes, without going over them. Different contents usually have different sums.
    pub fn sum(&self) -> u64
        ensures { result ≡ content_sum self.now }
    {
        self.sum
    }

    // Whether both have equal bytes. Compares their ends first.
    fn has_same_bytes(&self, other: &Content) -> bool
        ensures { IsTrue result ↔ (self.now ≡ other.now) }
    {
        same_bytes(&self.rest, &other.rest) && same_pieces(&self.pieces, &other.pieces)
    }

    /// Whether both have equal bytes. Compares sums first, then ends.
    pub fn same(&self, other: &Content) -> bool
        ensures { IsTrue result ↔ (self.now ≡ other.now) }
    {
        self.sum() == other.sum() && self.has_same_bytes(other)
    }
}

impl PartialEq for Content {
    ghost eq = { pointwise nat_eq };

    ghost laws = { partial_equiv_from_equiv (lists_equiv nat_eq_equiv) };

    #[tactic(auto, using(crate::proofs::EqualLaws::bytes_answer))]
    fn eq(&self, other: &Content) -> bool {
        self.same(other)
    }
}

impl Clone for Content {
    ghost is_clone = { λ content copy. copy ≡ content };

    fn clone(&self) -> Result<Content, AllocError> {
        self.try_copy()
    }
}
