//! The width of texts. The reader's font isn't known: widths are those of DejaVu Sans, the widest of the usual fonts, in bold.

use memchr::memchr;

// The narrow letters, and the wide ones, to which all past ASCII belong.
const NARROW: &[u8] = b" !'(),./:;I[]fijlrt|";

const BROAD: &[u8] = b"#%&+<=>@ABCDEFGHJKLMNOPQRSTUVWXYZmw~";

// The width of these, and of the others.
const NARROW_WIDTH: u64 = 6;

const BROAD_WIDTH: u64 = 12;

const WIDTH: u64 = 8;

// Whether a byte continues a character.
fn goes_on(b: u8) -> bool {
    0x80 <= b && b < 0xc0
}

// How many columns a character takes that begins with this byte: two from U+3000 on, with the letters of some scripts, and pictures.
fn columns_of(b: u8) -> usize {
    if goes_on(b) {
        0
    } else if b < 0xe3 {
        1
    } else {
        2
    }
}

// How many pixels it takes at most.
fn pixels_of(b: u8) -> u64 {
    if goes_on(b) {
        0
    } else if memchr(b, NARROW).is_some() {
        NARROW_WIDTH
    } else if 0xc0 <= b || memchr(b, BROAD).is_some() {
        BROAD_WIDTH
    } else {
        WIDTH
    }
}

/// How many pixels a text takes at most.
pub(crate) fn width_of(text: &[u8]) -> u64 {
    let mut width = 0u64;
    for b in text {
        width = width.saturating_add(pixels_of(*b));
    }
    width
}

/// The beginning of a text of more than `most` columns that leaves room for one; `None` where there aren't more.
pub(crate) fn cut(text: &[u8], most: usize) -> Option<&[u8]> {
    let mut columns = 0usize;
    let mut end = 0usize;
    for (i, b) in text.iter().enumerate() {
        columns = columns.saturating_add(columns_of(*b));
        if most < columns {
            return text.get(..end);
        }
        if columns < most {
            end = i.saturating_add(1);
        }
    }
    None
}
