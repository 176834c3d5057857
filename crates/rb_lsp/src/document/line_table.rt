//! Where the lines of a script begin.

ghost use Rattle.std.specs.Prelude.{◌≡◌, ◌≤◌, if◌then◌else◌, length, IsTrue};
ghost use Rattle.rb_lsp.specs.Tables.{HasNoReturn, feed_count, feed_start};

use crate::document::MAX_TEXT;
use crate::document::position::{Encoding, Position, line_behind, line_first, position_on};
use memchr::{memchr, memrchr};
use std::alloc::{AllocError, Global};

/// Where each line of a script begins, as an editor's position. A script's lines end at LF; an editor's also at CR and CR LF.
#[derive(Drop)]
pub struct LineTable {
    // If a text has no CR, its lines are those of an editor, and this is their number. Otherwise it is 0.
    plain: usize,
    // If a text has a CR: where each line begins.
    starts: Vec<Position>,
    // Where the text ends.
    end: Position,
}

// Whether the text has no carriage return.
fn has_no_return(text: &[u8]) -> bool
    ensures { IsTrue result → HasNoReturn text.now }
{
    memchr(b'\r', text).is_none()
}

fn one_if(is_so: bool) -> usize
    ensures value { result ≡ (if is_so then 1 else 0) }
    ensures most { result ≤ 1 }
{
    if is_so { 1 } else { 0 }
}

// How many line feeds the text has.
fn feed_count(text: &[u8]) -> usize
    ensures value { result ≡ feed_count text.now }
    ensures within { result ≤ length text.now }
{
    let mut count = 0;
    for b in text {
        count += one_if(*b == b'\n');
    }
    count
}

// Where the last line of the text begins.
fn last_start(text: &[u8]) -> usize
    ensures value { result ≡ feed_start (feed_count text.now) text.now }
    ensures few { feed_count text.now ≤ result }
    ensures within { result ≤ length text.now }
{
    match memrchr(b'\n', text) {
        Some(end) => end + 1,
        None => 0,
    }
}

impl LineTable {
    ghost use Rattle.std.specs.Prelude.{◌≡◌, ◌≤◌, length, IfOk};
    ghost use Rattle.rb_lsp.specs.declared.document.limits.TheConstants.{MAX_TEXT};
    ghost use Rattle.rb_lsp.specs.Tables.{HasNoReturn, IsTable, start_of};
    ghost use Rattle.rb_lsp.specs.declared.document.position.Encoding.{Encoding};
    ghost use Rattle.std.specs.Prelude.{List, ℕ};

    /// The lines of this text.
    pub fn new(alloc: Global, encoding: Encoding, text: &[u8]) -> Result<LineTable, AllocError>
        requires { length text.now ≤ MAX_TEXT }
        ensures { IfOk result (λ table. IsTable encoding text.now table) }
    {
        if has_no_return(text) {
            return Ok(LineTable::of_feeds(alloc, encoding, text));
        }
        LineTable::of_all(alloc, encoding, text)
    }

    // If a text has no CR, a line has the same number for an editor as for a script. This takes no memory.
    fn of_feeds(alloc: Global, encoding: Encoding, text: &[u8]) -> LineTable
        requires bounded { length text.now ≤ MAX_TEXT }
        requires plain { HasNoReturn text.now }
        ensures { IsTable encoding text.now result }
    {
        let feeds = feed_count(text);
        let first = line_first(feeds as u64);
        let end = position_on(encoding, first, last_start(text), text.len(), text);
        LineTable {
            plain: feeds + 1,
            starts: Vec::new(alloc),
            end,
        }
    }

    // For any text.
    fn of_all(alloc: Global, encoding: Encoding, text: &[u8]) -> Result<LineTable, AllocError>
        requires { length text.now ≤ MAX_TEXT }
        ensures { IfOk result (λ table. IsTable encoding text.now table) }
    {
        let mut starts = Vec::new(alloc);
        starts.push(line_first(0))?;
        let mut line = 0;
        let mut at = 0;
        while let Some(next) = line_behind(text, at) {
            line += 1;
            at = next;
            if text[at - 1] == b'\n' {
                starts.push(line_first(line))?;
            }
        }
        let end = position_on(encoding, line_first(line), at, text.len(), text);
        Ok(LineTable {
            plain: 0,
            starts,
            end,
        })
    }

    /// Where line `n` begins, counted from 0; the text's end if there are fewer lines.
    pub fn start_of(&self, n: usize) -> Position
        ensures { (encoding : Encoding) (text : List ℕ) → IsTable encoding text self.now → result ≡ start_of encoding n text }
    {
        if n < self.plain {
            return line_first(n as u64);
        }
        match self.starts.get(n) {
            Some(start) => *start,
            None => self.end,
        }
    }
}
