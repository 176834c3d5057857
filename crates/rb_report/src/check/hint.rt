//! What was probably meant.

ghost use Rattle.std.specs.Prelude.{IsOk};
ghost use Rattle.rb_script.specs.Writes.{Writes};
ghost use Rattle.rb_report.specs.Hints.{hint_text, plain_hint, question, sentence_line};

use crate::check::piece::{ReportPiece, put_pieces};
use rb_script::{Sink, WriteFault};

/// What the writer of a directive probably meant.
#[derive(Clone, Copy)]
pub enum Hint<'a> {
    /// Nothing is known.
    Unknown,
    /// This word, or a directive of this form: `did you mean ".."?`
    Meant(&'a [u8]),
    /// What is missing, in a sentence.
    Sentence(&'a [u8]),
}

fn put_question<S: Sink>(sink: &mut S, word: &[u8]) -> Result<(), WriteFault>
    ensures wrote { Writes result (S.held sink.old) (S.held sink.new) (question word.now) }
    ensures all { S.takes_all sink.old → IsOk result × S.takes_all sink.new }
{
    put_pieces(
        sink,
        &[
            ReportPiece::Bytes(b"did you mean \""),
            ReportPiece::Bytes(word),
            ReportPiece::Bytes(b"\"?\n"),
        ],
    )
}

fn put_sentence<S: Sink>(sink: &mut S, text: &[u8]) -> Result<(), WriteFault>
    ensures wrote { Writes result (S.held sink.old) (S.held sink.new) (sentence_line text.now) }
    ensures all { S.takes_all sink.old → IsOk result × S.takes_all sink.new }
{
    put_pieces(sink, &[ReportPiece::Bytes(text), ReportPiece::Bytes(b"\n")])
}

/// Writes a hint on a line of its own.
pub(crate) fn put_hint<S: Sink>(sink: &mut S, hint: Hint<'_>) -> Result<(), WriteFault>
    ensures wrote { Writes result (S.held sink.old) (S.held sink.new) (hint_text (plain_hint hint.entry)) }
    ensures all { S.takes_all sink.old → IsOk result × S.takes_all sink.new }
{
    match hint {
        Hint::Unknown => Ok(()),
        Hint::Meant(word) => put_question(sink, word),
        Hint::Sentence(text) => put_sentence(sink, text),
    }
}
