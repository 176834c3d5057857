//! The pieces of a line.

ghost use Rattle.std.specs.Prelude.{◌≡◌, ◌<◌, ◌≤◌, ◌++◌, [], ◌∷◌, ℕ, true, false, if◌then◌else◌, length, OnOk, take, slice_index_or, decimal};
ghost use Rattle.std.specs.List.{flat_map};
ghost use Rattle.rb_texts.specs.Quoted.{is_plain, begins_numbered, numbered, escaped, hex_digit, quoted};
ghost use Rattle.rb_texts.specs.Configs.{ids_text};
ghost use Rattle.rb_texts.specs.Entries.{place_text};
ghost use Rattle.rb_texts.specs.Pieces.{piece_text, pieces_text};

use itoa::Buffer;
use rb_script::LineText;
use std::alloc::AllocError;

/// A piece of a line.
#[derive(Clone, Copy)]
pub(crate) enum LinePiece<'a> {
    /// The bytes as they are.
    Bytes(&'a [u8]),
    /// A number in decimal digits.
    Number(u64),
    /// Bytes, and a number after them.
    Field(&'a [u8], u64),
    /// A term and an index, with a slash between them.
    Place(u64, u64),
    /// The bytes in double quotes.
    Quoted(&'a [u8]),
    /// Ids with a comma between each two.
    Ids(&'a [u64]),
}

/// The text if it is shown, or an empty one.
pub(crate) fn shown_if<'a>(shown: bool, text: &'a [u8]) -> &'a [u8]
    ensures { result.now ≡ (if shown then text.now else []) }
{
    if shown { text } else { b"" }
}

/// Adds the bytes to the line.
#[inline(always)]
pub(crate) fn add_bytes(line: &mut LineText, bytes: &[u8]) -> Result<(), AllocError>
    ensures { OnOk result (line.new ≡ line.old ++ bytes.now) }
{
    line.extend_from_slice(bytes)
}

#[inline(always)]
fn add_byte(line: &mut LineText, byte: u8) -> Result<(), AllocError>
    ensures { OnOk result (line.new ≡ line.old ++ byte ∷ []) }
{
    line.push(byte)?;
    Ok(())
}

/// Adds the pieces to the line.
pub(crate) fn add_pieces(line: &mut LineText, pieces: &[LinePiece<'_>]) -> Result<(), AllocError>
    ensures { OnOk result (line.new ≡ line.old ++ pieces_text pieces.now) }
{
    for piece in pieces {
        add_piece(line, *piece)?;
    }
    Ok(())
}

fn add_piece(line: &mut LineText, piece: LinePiece<'_>) -> Result<(), AllocError>
    ensures { OnOk result (line.new ≡ line.old ++ piece_text piece.entry) }
{
    match piece {
        LinePiece::Bytes(bytes) => add_bytes(line, bytes),
        LinePiece::Number(n) => add_number(line, n),
        LinePiece::Field(name, n) => add_field(line, name, n),
        LinePiece::Place(term, index) => add_place(line, term, index),
        LinePiece::Quoted(bytes) => add_quoted(line, bytes),
        LinePiece::Ids(ids) => add_ids(line, ids),
    }
}

/// Adds a number in decimal digits.
pub(crate) fn add_number(line: &mut LineText, n: u64) -> Result<(), AllocError>
    ensures { OnOk result (line.new ≡ line.old ++ decimal n) }
{
    if n < 10 {
        return add_byte(line, b'0' + n as u8);
    }
    if n < 100 {
        return add_two_digits(line, n);
    }
    add_digits(line, n)
}

fn add_two_digits(line: &mut LineText, n: u64) -> Result<(), AllocError>
    requires least { 10 ≤ n }
    requires most { n < 100 }
    ensures { OnOk result (line.new ≡ line.old ++ decimal n) }
{
    add_bytes(line, &[b'0' + (n / 10) as u8, b'0' + (n % 10) as u8])
}

// A function of its own, since it clears its buffer when it begins, and short numbers need none.
#[inline(never)]
fn add_digits(line: &mut LineText, n: u64) -> Result<(), AllocError>
    ensures { OnOk result (line.new ≡ line.old ++ decimal n) }
{
    let mut digits = Buffer::new();
    add_bytes(line, digits.format(n).as_bytes())
}

/// Adds bytes, and a number after them.
#[inline(always)]
pub(crate) fn add_field(line: &mut LineText, name: &[u8], n: u64) -> Result<(), AllocError>
    ensures { OnOk result (line.new ≡ line.old ++ (name.now ++ decimal n)) }
{
    add_bytes(line, name)?;
    add_number(line, n)
}

/// Adds a number, and bytes after it.
#[inline(always)]
pub(crate) fn add_numbered(line: &mut LineText, n: u64, bytes: &[u8]) -> Result<(), AllocError>
    ensures { OnOk result (line.new ≡ line.old ++ (decimal n ++ bytes.now)) }
{
    add_number(line, n)?;
    add_bytes(line, bytes)
}

/// Adds a term and an index, with a slash between them.
pub(crate) fn add_place(line: &mut LineText, term: u64, index: u64) -> Result<(), AllocError>
    ensures { OnOk result (line.new ≡ line.old ++ place_text term index) }
{
    add_number(line, term)?;
    add_byte(line, b'/')?;
    add_number(line, index)
}

fn add_ids(line: &mut LineText, ids: &[u64]) -> Result<(), AllocError>
    ensures { OnOk result (line.new ≡ line.old ++ ids_text ids.now) }
{
    let Some((first, rest)) = ids.split_first() else {
        return Ok(());
    };
    add_number(line, *first)?;
    for id in rest {
        add_byte(line, b',')?;
        add_number(line, *id)?;
    }
    Ok(())
}

// Whether the byte is written unescaped between quotes.
fn is_plain(b: u8) -> bool
    ensures { result ≡ is_plain b }
{
    b' ' <= b && b <= b'~' && b != b'"' && b != b'\\'
}

fn hex_digit(n: u8) -> u8
    requires { n < 16 }
    ensures { result ≡ hex_digit n }
{
    if n < 10 { n + b'0' } else { n - 10 + b'a' }
}

// Counts the unescaped bytes at the front.
fn plain_len(bytes: &[u8]) -> usize
    ensures within { result ≤ length bytes.now }
    ensures plain { flat_map escaped (take result bytes.now) ≡ take result bytes.now }
    ensures next { (d : ℕ) → result < length bytes.now → is_plain (slice_index_or bytes.now result d) ≡ false }
{
    for (i, b) in bytes.iter().enumerate() {
        if !is_plain(*b) {
            return i;
        }
    }
    bytes.len()
}

// Splits off the unescaped bytes at the front.
fn split_plain(bytes: &[u8]) -> (&[u8], &[u8])
    ensures whole { bytes.now ≡ result.0.now ++ result.1.now }
    ensures plain { flat_map escaped result.0.now ≡ result.0.now }
    ensures next { begins_numbered result.1.now ≡ true }
{
    bytes.split_at(plain_len(bytes))
}

// The byte by its number.
fn numbered(b: u8) -> [u8; 4]
    ensures { result ≡ numbered b }
{
    [b'\\', b'x', hex_digit(b / 16), hex_digit(b % 16)]
}

/// Adds the bytes in double quotes. Unescaped bytes are added at once, each other byte by its number.
pub(crate) fn add_quoted(line: &mut LineText, bytes: &[u8]) -> Result<(), AllocError>
    ensures { OnOk result (line.new ≡ line.old ++ quoted bytes.now) }
{
    add_bytes(line, b"\"")?;
    let (front, mut rest) = split_plain(bytes);
    add_bytes(line, front)?;
    while let Some((b, after)) = rest.split_first() {
        add_bytes(line, &numbered(*b))?;
        let (plain, other) = split_plain(after);
        add_bytes(line, plain)?;
        rest = other;
    }
    add_bytes(line, b"\"")
}
