//! Words that are made of pieces, and the part of an item's line after a mark.

use rb_script::Lines;
use rb_text::{Piece, add_pieces};
use rb_texts::{Item, put};
use rb_vocab::Level;
use std::alloc::{AllocError, Global};

/// The pieces.
pub(crate) fn sentence(alloc: Global, pieces: &[Piece<'_>]) -> Result<Vec<u8>, AllocError> {
    let mut text = Vec::new(alloc);
    add_pieces(&mut text, pieces)?;
    Ok(text)
}

/// A name and two numbers, with the texts before and between them.
pub(crate) fn with_two<'a>(
    alloc: Global,
    name: &'a [u8],
    before: &'a [u8],
    first: u64,
    between: &'a [u8],
    second: u64,
) -> Result<Vec<u8>, AllocError> {
    let pieces = [
        Piece::Bytes(name),
        Piece::Bytes(before),
        Piece::Number(first),
        Piece::Bytes(between),
        Piece::Number(second),
    ];
    sentence(alloc, &pieces)
}

/// A name and a number, with the text before it.
pub(crate) fn with_one<'a>(
    alloc: Global,
    name: &'a [u8],
    before: &'a [u8],
    n: u64,
) -> Result<Vec<u8>, AllocError> {
    sentence(
        alloc,
        &[Piece::Bytes(name), Piece::Bytes(before), Piece::Number(n)],
    )
}

// Whether the bytes of a text from an index on begin with these.
fn begins_at(text: &[u8], at: usize, mark: &[u8]) -> bool {
    match text.get(at..) {
        Some(rest) => rest.starts_with(mark),
        None => false,
    }
}

// The rest of a text after the first mark; nothing if it has none.
fn behind<'a>(text: &'a [u8], mark: &[u8]) -> &'a [u8] {
    for at in 0..text.len() {
        if begins_at(text, at, mark) {
            return text.get(at.saturating_add(mark.len())..).unwrap_or(&[]);
        }
    }
    &[]
}

/// The line of an item, as a directive prints it.
pub(crate) fn line_of(alloc: Global, item: &Item<'_>) -> Result<Vec<u8>, AllocError> {
    let mut lines = Lines::new(alloc);
    put(&mut lines, Level::Debug, item)?;
    if lines.is_empty() {
        return Ok(Vec::new(alloc));
    }
    Vec::from_slice(alloc, lines.line(0))
}

/// The pieces, and the rest of an item's line after a mark.
pub(crate) fn with_line(
    alloc: Global,
    pieces: &[Piece<'_>],
    item: &Item<'_>,
    mark: &[u8],
) -> Result<Vec<u8>, AllocError> {
    let mut text = sentence(alloc, pieces)?;
    let line = line_of(alloc, item)?;
    text.extend_from_slice(behind(line.as_slice(), mark))?;
    Ok(text)
}
