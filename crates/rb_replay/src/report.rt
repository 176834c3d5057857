//! The texts of a session.

ghost use Rattle.std.specs.Prelude.{◌≡◌, ◌++◌, ◌≤◌, ◌∷◌, [], IsOk, codes, length};
ghost use Rattle.rb_script.specs.Lines.{text_of, line_text};
ghost use Rattle.rb_script.specs.Writes.{Writes};
ghost use Rattle.rb_replay.specs.Report.{marked, mismatch_line, total_line};

use crate::blocks::block_at;
use crate::session::Session;
use rb_machine::Machine;
use rb_script::{Lines, Sink, WriteFault};
use rb_text::{Piece, put_pieces};

/// Writes each line after a mark.
fn put_marked<'p, S: Sink>(sink: &mut S, mark: &'p [u8], lines: &'p Lines) -> Result<(), WriteFault>
    ensures wrote { Writes result (S.held sink.old) (S.held sink.new) (text_of (marked mark.now lines.now)) }
    ensures all { S.takes_all sink.old → IsOk result × S.takes_all sink.new }
{
    for i in 0..lines.len() {
        let line: [&[u8]; 3] = [mark, lines.line(i), b"\n"];
        put_pieces(sink, &line)?;
    }
    Ok(())
}

/// Writes the place of a mismatch.
fn put_place<S: Sink>(sink: &mut S, place: usize) -> Result<(), WriteFault>
    ensures wrote { Writes result (S.held sink.old) (S.held sink.new) (line_text (mismatch_line place)) }
    ensures all { S.takes_all sink.old → IsOk result × S.takes_all sink.new }
{
    let line = [
        Piece::Bytes(b"mismatch "),
        Piece::Number(place as u64),
        Piece::Bytes(b"\n"),
    ];
    put_pieces(sink, &line)
}

/// Writes a mismatch: its place, the expected lines, and the output.
fn put_mismatch<S: Sink>(
    sink: &mut S,
    place: usize,
    expected: &Lines,
    output: &Lines,
) -> Result<(), WriteFault>
    ensures wrote { Writes result (S.held sink.old) (S.held sink.new) (text_of (mismatch_line place ∷ (marked (codes "- ") expected.now ++ marked (codes "+ ") output.now))) }
    ensures all { S.takes_all sink.old → IsOk result × S.takes_all sink.new }
{
    put_place(sink, place)?;
    put_marked(sink, b"- ", expected)?;
    put_marked(sink, b"+ ", output)
}

/// Writes the numbers of directives and mismatches.
fn put_total<S: Sink>(sink: &mut S, directives: usize, mismatches: usize) -> Result<(), WriteFault>
    ensures wrote { Writes result (S.held sink.old) (S.held sink.new) (line_text (total_line directives mismatches)) }
    ensures all { S.takes_all sink.old → IsOk result × S.takes_all sink.new }
{
    put_pieces(
        sink,
        &[
            Piece::Number(directives as u64),
            Piece::Bytes(b" directives, "),
            Piece::Number(mismatches as u64),
            Piece::Bytes(b" mismatches\n"),
        ],
    )
}

impl<M: Machine> Session<M> {
    ghost use Rattle.std.specs.Prelude.{◌≡◌, ◌≤◌, IsOk, length};
    ghost use Rattle.rb_script.specs.Lines.{text_of};
    ghost use Rattle.rb_script.specs.Script.{text};
    ghost use Rattle.rb_script.specs.Writes.{Writes};
    ghost use Rattle.rb_replay.specs.Run.{outputs};
    ghost use Rattle.rb_replay.specs.Report.{report, rewritten, mismatch_lines};
    ghost use Rattle.rb_replay.specs.Holding.{Holding};

    /// Writes each mismatch, and the numbers of directives and mismatches. Allocates nothing. After a failure a beginning of the text is
    /// written.
    pub fn write_report<S: Sink>(&self, sink: &mut S) -> Result<(), WriteFault>
        ensures wrote { Writes result (S.held sink.old) (S.held sink.new) (report self.now.script) }
        ensures all { S.takes_all sink.old → IsOk result × S.takes_all sink.new }
    {
        for place in &self.mismatches {
            self.put_mismatch_at(sink, *place)?;
        }
        put_total(sink, self.script.len(), self.mismatches.len())
    }

    /// Writes the script. Allocates nothing. After a failure a beginning of the text is written.
    pub fn write_script<S: Sink>(&self, sink: &mut S) -> Result<(), WriteFault>
        ensures wrote { Writes result (S.held sink.old) (S.held sink.new) (text self.now.script) }
        ensures all { S.takes_all sink.old → IsOk result × S.takes_all sink.new }
    {
        self.script.write_to(sink)
    }

    /// Writes the script with its outputs as expectations. Allocates nothing. After a failure a beginning of the text is written.
    pub fn write_rewritten<S: Sink>(&self, sink: &mut S) -> Result<(), WriteFault>
        ensures wrote { Writes result (S.held sink.old) (S.held sink.new) (rewritten self.now.script) }
        ensures all { S.takes_all sink.old → IsOk result × S.takes_all sink.new }
    {
        self.script.write_with(&self.outputs, sink)
    }

    /// Writes the mismatch at a place.
    fn put_mismatch_at<S: Sink>(&self, sink: &mut S, place: usize) -> Result<(), WriteFault>
        requires first { 1 ≤ place }
        requires within { place ≤ length self.now.script.blocks }
        ensures wrote { Writes result (S.held sink.old) (S.held sink.new) (text_of (mismatch_lines self.now.script place)) }
        ensures all { S.takes_all sink.old → IsOk result × S.takes_all sink.new }
    {
        let block = block_at(&self.script, place - 1);
        put_mismatch(sink, place, block.expected(), self.outputs.at(place - 1))
    }
}
