//! The place of a directive.

ghost use Rattle.std.specs.Prelude.{IsOk};
ghost use Rattle.rb_script.specs.Tokens.{plain};
ghost use Rattle.rb_script.specs.Writes.{Writes};
ghost use Rattle.rb_report.specs.Heads.{head_text};
ghost use Rattle.rb_report.specs.Headings.{heading_text};

use crate::check::head::put_head;
use crate::check::piece::{ReportPiece, put_pieces};
use rb_script::{DirectiveRef, Sink, WriteFault};

/// A line of a file.
#[derive(Clone, Copy, Debug)]
pub struct FileLine<'a> {
    /// The file.
    pub path: &'a [u8],
    /// The line, which counts from 1.
    pub line: usize,
}

/// Writes the place of a directive, and its head.
pub(crate) fn put_heading<'a, S: Sink>(
    sink: &mut S,
    place: FileLine<'a>,
    directive: &DirectiveRef<'a>,
) -> Result<(), WriteFault>
    ensures wrote { Writes result (S.held sink.old) (S.held sink.new) (heading_text place.entry.path.now place.entry.line (head_text (plain directive.now))) }
    ensures all { S.takes_all sink.old → IsOk result × S.takes_all sink.new }
{
    put_pieces(
        sink,
        &[
            ReportPiece::Name(place.path),
            ReportPiece::Bytes(b":"),
            ReportPiece::Number(place.line as u64),
            ReportPiece::Bytes(b": "),
        ],
    )?;
    put_head(sink, directive)
}
