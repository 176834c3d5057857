//! The lines above a place of a text, and the head up to it.

ghost use Rattle.std.specs.Prelude.{◌≡◌, ◌<◌, ◌≤◌, ◌+◌, ◌-◌, ◌^◌, [], IfOk, OnOk, length, option_map};
ghost use Rattle.rb_script.specs.Joined.{body};
ghost use Rattle.rb_editor.specs.declared.offers.part.Part.TheVariants.{Lead};
ghost use Rattle.rb_editor.specs.Above.{begun_lines, behind_lines, head_in, kept, line_above, line_begin, more_begun};

use crate::offers::part::Part;
use rb_script::{Lines, is_space};
use std::alloc::{AllocError, Global};

/// Finds where the line of a place begins.
pub(crate) fn line_begin(at: usize, text: &[u8]) -> usize
    requires { at ≤ length text.now }
    ensures value { result ≡ line_begin at text.now }
    ensures before { result ≤ at }
{
    let mut start = at;
    while start > 0 && text[start - 1] != b'\n' {
        start -= 1;
    }
    start
}

/// Finds where the line begins that is this many lines above the line of a place.
pub(crate) fn line_above(lines: usize, at: usize, text: &[u8]) -> usize
    requires { at ≤ length text.now }
    ensures value { result ≡ line_above lines at text.now }
    ensures before { result ≤ at }
{
    let mut place = at;
    for _ in 0..lines {
        place = line_begin(place, text).saturating_sub(1);
    }
    line_begin(place, text)
}

// Cuts the last byte that is no blank off a line, and what follows it.
fn body(line: &[u8]) -> &[u8]
    ensures { result.now ≡ body line.now }
{
    let mut front = line;
    while let Some((last, shorter)) = front.split_last() {
        front = shorter;
        if !is_space(*last) {
            break;
        }
    }
    front
}

/// Keeps what is known of a head after a line, which a line of this part follows.
pub(crate) fn keep(head: &mut Vec<u8>, part: Part, line: &[u8]) -> Result<(), AllocError>
    ensures { OnOk result (head.new.items ≡ kept part line.now head.old.items) }
{
    match part {
        Part::Head => {
            head.extend_from_slice(body(line))?;
            head.push(b' ')?;
        }
        _ => head.clear(),
    }
    Ok(())
}

/// Finds what the line below these is, and the head that it continues.
pub(crate) fn behind_lines(alloc: Global, lines: &Lines) -> Result<(Part, Vec<u8>), AllocError>
    ensures { IfOk result (λ found. (found.0, found.1.items) ≡ behind_lines Lead [] lines.now) }
{
    let mut part = Part::Lead;
    let mut head = Vec::new(alloc);
    for i in 0..lines.len() {
        let line = lines.line(i);
        part = part.next(line);
        keep(&mut head, part, line)?;
    }
    Ok((part, head))
}

// Counts one line more of a block that isn't finished.
fn more_begun(part: Part, count: usize) -> usize
    requires { count < 2 ^ 64 - 1 }
    ensures value { result ≡ more_begun part count }
    ensures most { result ≤ count + 1 }
{
    match part {
        Part::Lead => 0,
        _ => count + 1,
    }
}

/// Counts the last of these lines that are of a block that isn't finished.
pub(crate) fn begun_lines(lines: &Lines) -> usize
    ensures value { result ≡ begun_lines Lead 0 lines.now }
    ensures most { result ≤ length lines.now }
{
    let mut part = Part::Lead;
    let mut count = 0;
    for i in 0..lines.len() {
        part = part.next(lines.line(i));
        count = more_begun(part, count);
    }
    count
}

/// Gives the head up to a place, if the line of this part, which begins so, is one of it.
pub(crate) fn head_in(
    part: Part,
    head: Vec<u8>,
    front: &[u8],
) -> Result<Option<Vec<u8>>, AllocError>
    ensures { IfOk result (λ found. option_map (λ h. h.items) found ≡ head_in (part, head.items) front.now) }
{
    if !part.goes_on(front) {
        return Ok(None);
    }
    let mut head = head;
    head.extend_from_slice(front)?;
    Ok(Some(head))
}
