//! Foreign texts in a form that people can read.

ghost use Rattle.std.specs.Prelude.{◌≡◌, IfOk, true};
ghost use Rattle.std.specs.List.{list_all};
ghost use Rattle.rb_view.specs.Titles.{is_printable};

use std::alloc::{AllocError, Global};

fn is_printable(b: u8) -> bool
    ensures { result ≡ is_printable b }
{
    b' ' <= b && b <= b'~'
}

// Whether all are printable ASCII, as most texts are.
fn are_printable(bytes: &[u8]) -> bool
    ensures { result ≡ list_all is_printable bytes.now }
{
    bytes.iter().all(|b| is_printable(*b))
}

// A character that can't be seen, or turns the text around. (The Unicode Standard, chapter 23: controls, marks of direction and
// joiners, and U+FFFE and U+FFFF, which no text of XML has.)
fn is_unseen(c: char) -> bool {
    matches!(
        c,
        '\0'..='\x1f'
            | '\x7f'..='\u{9f}'
            | '\u{ad}'
            | '\u{61c}'
            | '\u{200b}'..='\u{200f}'
            | '\u{2028}'..='\u{202e}'
            | '\u{2060}'..='\u{2069}'
            | '\u{feff}'
            | '\u{fffe}'
            | '\u{ffff}'
    )
}

fn add_char(shown: &mut String, c: char) -> Result<(), AllocError> {
    if is_unseen(c) {
        let code = c as u32;
        write!(shown, "\\u{:04x}", code)
    } else {
        shown.push(c)
    }
}

fn shown_text(alloc: Global, text: &str) -> Result<String, AllocError> {
    let mut shown = String::new(alloc);
    for c in text.chars() {
        add_char(&mut shown, c)?;
    }
    Ok(shown)
}

fn add_byte(shown: &mut String, b: u8) -> Result<(), AllocError> {
    if b < 128 {
        add_char(shown, char::from(b))
    } else {
        write!(shown, "\\x{:02x}", b)
    }
}

// Bytes past ASCII by their numbers.
fn shown_bytes(alloc: Global, bytes: &[u8]) -> Result<String, AllocError> {
    let mut shown = String::new(alloc);
    for b in bytes {
        add_byte(&mut shown, *b)?;
    }
    Ok(shown)
}

// Texts that aren't printable ASCII.
fn shown_anyhow(alloc: Global, bytes: &[u8]) -> Result<Vec<u8>, AllocError> {
    let shown = match str::from_utf8(bytes) {
        Ok(text) => shown_text(alloc, text)?,
        Err(_) => shown_bytes(alloc, bytes)?,
    };
    Vec::from_slice(alloc, shown.as_bytes())
}

/// The bytes in readable form: UTF-8 if they are, else each byte past ASCII by its number; also characters that can't be seen.
pub(crate) fn shown(alloc: Global, bytes: &[u8]) -> Result<Vec<u8>, AllocError>
    ensures { IfOk result (λ text. list_all is_printable bytes.now ≡ true → text.items ≡ bytes.now) }
{
    if are_printable(bytes) {
        return Vec::from_slice(alloc, bytes);
    }
    shown_anyhow(alloc, bytes)
}
