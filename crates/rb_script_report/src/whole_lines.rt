//! Lines with their ends. Nothing is copied here.

ghost use Rattle.std.specs.Prelude.{◌≡◌, ◌≢◌, ◌<◌, ◌≤◌, ℕ, length, slice_index, take, IfSome, IfNone};
ghost use Rattle.rb_script_report.specs.WholeLines.{whole_lines, after_line, after_lines, is_ended, last_end, unended};

use rb_script::without_returns;

// Finds the first LF.
fn line_feed(bytes: &[u8]) -> Option<usize>
    ensures none { IfNone result ((k : ℕ) → k < length bytes.now → slice_index bytes.now k ≢ 10) }
    ensures found { IfSome result (λ end. (end < length bytes.now) × (slice_index bytes.now end ≡ 10)) }
    ensures first { IfSome result (λ end. (k : ℕ) → k < end → slice_index bytes.now k ≢ 10) }
{
    bytes.iter().position(|b| *b == b'\n')
}

// The bytes after the first line.
fn after_line(bytes: &[u8]) -> &[u8]
    ensures value { result.now ≡ after_line bytes.now }
    ensures shorter { length result.now ≤ length bytes.now }
{
    match line_feed(bytes) {
        Some(end) => &bytes[end + 1..],
        None => &[],
    }
}

/// The bytes after the first n lines.
pub(crate) fn after_lines(bytes: &[u8], count: usize) -> &[u8]
    ensures value { result.now ≡ after_lines count bytes.now }
    ensures shorter { length result.now ≤ length bytes.now }
{
    let mut rest = bytes;
    let mut left = count;
    while left > 0 {
        rest = after_line(rest);
        left -= 1;
    }
    rest
}

/// The first n lines, and the bytes after them.
pub(crate) fn split_lines(bytes: &[u8], count: usize) -> (&[u8], &[u8])
    ensures first { result.0.now ≡ whole_lines count bytes.now }
    ensures rest { result.1.now ≡ after_lines count bytes.now }
{
    let rest = after_lines(bytes, count);
    (&bytes[..bytes.len() - rest.len()], rest)
}

/// Whether the last line has an end.
pub(crate) fn is_ended(bytes: &[u8]) -> bool
    ensures { result ≡ is_ended bytes.now }
{
    match bytes.split_last() {
        Some((last, _)) => *last == b'\n',
        None => false,
    }
}

/// The end of the last line that has one.
pub(crate) fn last_end(bytes: &[u8]) -> &[u8]
    ensures { result.now ≡ last_end bytes.now }
{
    let mut front = bytes;
    while let Some((last, shorter)) = front.split_last() {
        if *last == b'\n' {
            return &front[without_returns(shorter).len()..];
        }
        front = shorter;
    }
    b"\n"
}

/// The bytes without the end of the last line.
pub(crate) fn unended(bytes: &[u8]) -> &[u8]
    ensures value { result.now ≡ unended bytes.now }
    ensures front { result.now ≡ take (length result.now) bytes.now }
{
    match bytes.split_last() {
        Some((last, front)) if *last == b'\n' => without_returns(front),
        _ => bytes,
    }
}
