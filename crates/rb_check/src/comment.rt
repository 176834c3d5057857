//! The comment above a directive.

ghost use Rattle.std.specs.Prelude.{◌≡◌, ◌≤◌, drop, length, take, IsOk};
ghost use Rattle.std.specs.List.{flat_map};
ghost use Rattle.rb_script.specs.Writes.{Writes};
ghost use Rattle.rb_check.specs.Reviews.{above_comment, comment_text, with_end};

use rb_script::{Lines, Sink, WriteFault, is_comment};
use rb_text::put_pieces;

// How many of the first lines are above the comments at their end.
fn above_comment(text: &Lines, count: usize) -> usize
    requires { count ≤ length text.now }
    ensures same { result ≡ above_comment text.now count }
    ensures within { result ≤ count }
{
    let mut above = count;
    while above > 0 {
        if !is_comment(text.line(above - 1)) {
            return above;
        }
        above -= 1;
    }
    0
}

/// Writes the comments that are directly above the head that begins on the line.
pub(crate) fn put_comment<S: Sink>(
    sink: &mut S,
    text: &Lines,
    head: usize,
) -> Result<(), WriteFault>
    ensures wrote { Writes result (S.held sink.old) (S.held sink.new) (comment_text text.now head) }
    ensures all { S.takes_all sink.old → IsOk result × S.takes_all sink.new }
{
    let count = head.saturating_sub(1).min(text.len());
    let from = above_comment(text, count);
    put_lines(sink, text, from, count)
}

// Writes the lines between these indices.
fn put_lines<S: Sink>(sink: &mut S, text: &Lines, from: usize, to: usize) -> Result<(), WriteFault>
    requires order { from ≤ to }
    requires within { to ≤ length text.now }
    ensures wrote { Writes result (S.held sink.old) (S.held sink.new) (flat_map with_end (drop from (take to text.now))) }
    ensures all { S.takes_all sink.old → IsOk result × S.takes_all sink.new }
{
    for i in from..to {
        put_with_end(sink, text.line(i))?;
    }
    Ok(())
}

fn put_with_end<S: Sink>(sink: &mut S, line: &[u8]) -> Result<(), WriteFault>
    ensures wrote { Writes result (S.held sink.old) (S.held sink.new) (with_end line.now) }
    ensures all { S.takes_all sink.old → IsOk result × S.takes_all sink.new }
{
    put_pieces(sink, &[line, b"\n"])
}
