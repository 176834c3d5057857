//! Where an output first differs from the expectation.

ghost use Rattle.std.specs.Prelude.{◌≡◌, ◌≤◌, ◌++◌, IsTrue, OnOk, length, slice_get};
ghost use Rattle.std.specs.Str.{bytes_eq};
ghost use Rattle.rb_editor.specs.Findings.{common_front, marked_at, marked_line, opening};

use crate::offers::{BlockLines, begins_rule};
use rb_script::Lines;
use std::alloc::AllocError;

// Compares two lines.
fn is_same_line(one: &[u8], other: &[u8]) -> bool
    ensures { result ≡ bytes_eq one.now other.now }
{
    one == other
}

/// Counts the lines that both share at the beginning.
pub(crate) fn common_front(expected: &Lines, output: &Lines) -> usize
    ensures { result ≡ common_front expected.now output.now }
{
    let count = expected.len().min(output.len());
    for i in 0..count {
        if !is_same_line(expected.line(i), output.line(i)) {
            return i;
        }
    }
    count
}

// Adds a mark and the line at an index, if there is one.
fn add_marked(out: &mut Vec<u8>, mark: &[u8], lines: &Lines, index: usize) -> Result<(), AllocError>
    ensures { OnOk result (out.new.items ≡ out.old.items ++ marked_line mark.now (slice_get lines.now index)) }
{
    if index >= lines.len() {
        return Ok(());
    }
    out.extend_from_slice(mark)?;
    out.extend_from_slice(lines.line(index))?;
    out.extend_from_slice(b"\n")
}

/// Adds the first lines that differ, after this many equal ones. If no line is equal, adds nothing: the diff then begins with them.
pub(crate) fn add_opening(
    out: &mut Vec<u8>,
    front: usize,
    expected: &Lines,
    output: &Lines,
) -> Result<(), AllocError>
    ensures { OnOk result (out.new.items ≡ out.old.items ++ opening front expected.now output.now) }
{
    if front == 0 {
        return Ok(());
    }
    add_marked(out, b"- ", expected, front)?;
    add_marked(out, b"+ ", output, front)?;
    out.extend_from_slice(b"\n")
}

/// Finds the line of a block, counted from 1, on which a mismatch is marked: the first expected line that differs, or else the last line of the
/// expectation.
pub(crate) fn marked_at(text: &Lines, lines: BlockLines, expected: &Lines, output: &Lines) -> usize
    ensures { result ≡ marked_at text.now lines expected.now output.now }
{
    let front = common_front(expected, output);
    let behind = expected.len().saturating_sub(front).saturating_sub(1);
    let marks = if begins_rule(text, lines.below) { 2 } else { 0 };
    lines.end.saturating_sub(behind).saturating_sub(marks)
}
