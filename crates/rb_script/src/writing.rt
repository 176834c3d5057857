//! Writing the canonical text.

ghost use Rattle.std.specs.Prelude.{◌≡◌, IsOk, length};
ghost use Rattle.rb_script.specs.Lines.{text_of};
ghost use Rattle.rb_script.specs.Script.{shown, opening, closing, block_text, needs_double, expecting};
ghost use Rattle.rb_script.specs.Reading.{capped};
ghost use Rattle.rb_script.specs.Writes.{Writes};

use crate::block::Block;
use crate::chunked_list::ChunkedList;
use crate::lines::Lines;
use crate::marks::{RULE_LINE, is_blank, is_rule};
use crate::script::Script;
use crate::sink::{Sink, Through, WriteFault};
use std::alloc::{AllocError, Global};

/// The separator, and the line `----` that opens the double form.
const RULE_PAIR: &[u8] = b"----\n----\n";

/// The two lines `----` that close the double form, and the empty line after an expectation.
const CLOSING: &[u8] = b"----\n----\n\n";

/// The length of the lines `----` that only the double form has.
const DOUBLE_LEN: usize = RULE_LINE.len() + RULE_PAIR.len();

/// Whether expected lines need the double form: a line is blank or `----`.
pub fn needs_double(expected: &Lines) -> bool
    ensures { result ≡ needs_double expected.now }
{
    for i in 0..expected.len() {
        let line = expected.line(i);
        if is_blank(line) || is_rule(line) {
            return true;
        }
    }
    false
}

/// The length of the expected lines' text, with the lines `----` of the double form.
pub(crate) fn shown_len(expected: &Lines) -> usize
    ensures { result ≡ capped (length (text_of (shown expected.now))) }
{
    form_len(expected, needs_double(expected))
}

/// Does the same if the form is already known.
pub(crate) fn form_len(expected: &Lines, is_double: bool) -> usize
    requires { is_double ≡ needs_double expected.now }
    ensures { result ≡ capped (length (text_of (shown expected.now))) }
{
    let marks = if is_double { DOUBLE_LEN } else { 0 };
    expected.text().len().saturating_add(marks)
}

// The lines between the input and the expected lines.
fn opening(is_double: bool) -> &'static [u8]
    ensures { result.now ≡ text_of (opening is_double) }
{
    if is_double { RULE_PAIR } else { RULE_LINE }
}

// The lines after the expected lines.
fn closing(is_double: bool) -> &'static [u8]
    ensures { result.now ≡ text_of (closing is_double) }
{
    if is_double { CLOSING } else { b"\n" }
}

// Writes a block with other expected lines.
fn put_block<S: Sink>(sink: &mut S, block: &Block, expected: &Lines) -> Result<(), WriteFault>
    ensures wrote { Writes result (S.held sink.old) (S.held sink.new) (block_text (expecting block.now expected.now)) }
    ensures all { S.takes_all sink.old → IsOk result × S.takes_all sink.new }
{
    let is_double = needs_double(expected);
    sink.put(block.front().text())?;
    sink.put(opening(is_double))?;
    sink.put(expected.text())?;
    sink.put(closing(is_double))
}

impl Script {
    ghost use Rattle.std.specs.Prelude.{◌≡◌, IsOk, IfOk, length};
    ghost use Rattle.rb_script.specs.Script.{text, with_outputs};
    ghost use Rattle.rb_script.specs.Writes.{Writes};

    /// Writes the canonical text. Allocates nothing. After a failure a beginning of the text is written.
    pub fn write_to<S: Sink>(&self, sink: &mut S) -> Result<(), WriteFault>
        ensures wrote { Writes result (S.held sink.old) (S.held sink.new) (text self.now) }
        ensures all { S.takes_all sink.old → IsOk result × S.takes_all sink.new }
    {
        for i in 0..self.blocks.len() {
            let block = self.blocks.at(i);
            put_block(sink, block, block.expected())?;
        }
        sink.put(self.tail.text())
    }

    /// The canonical text, as a list of bytes.
    pub fn canonical_text(&self, alloc: Global) -> Result<Vec<u8>, AllocError>
        ensures { IfOk result (λ made. made.items ≡ text self.now) }
    {
        let mut sink = Through(Vec::new(alloc));
        match self.write_to(&mut sink) {
            Ok(()) => Ok(sink.0),
            // A list in memory refuses nothing else.
            Err(_) => Err(AllocError),
        }
    }

    /// Writes the canonical text with outputs instead of expectations, one for each block. Allocates nothing. After a failure a
    /// beginning of the text is written.
    pub fn write_with<S: Sink>(
        &self,
        outputs: &ChunkedList<Lines>,
        sink: &mut S,
    ) -> Result<(), WriteFault>
        requires { length outputs.now ≡ length self.now.blocks }
        ensures wrote { Writes result (S.held sink.old) (S.held sink.new) (text (with_outputs self.now outputs.now)) }
        ensures all { S.takes_all sink.old → IsOk result × S.takes_all sink.new }
    {
        for i in 0..self.blocks.len() {
            let block = self.blocks.at(i);
            let output = outputs.at(i);
            put_block(sink, block, output)?;
        }
        sink.put(self.tail.text())
    }
}
