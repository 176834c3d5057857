//! The cells of a row.

ghost use Rattle.std.specs.Prelude.{◌≡◌, ◌++◌, [], if◌then◌else◌, IsOk, codes};
ghost use Rattle.std.specs.List.{flat_map};
ghost use Rattle.rb_script.specs.Writes.{Writes};
ghost use Rattle.rb_texts.specs.Configs.{config_text};
ghost use Rattle.rb_texts.specs.Entries.{body_text, change_word, transition_text};
ghost use Rattle.rb_texts.specs.Errors.{word_text};
ghost use Rattle.rb_texts.specs.Quoted.{quoted};
ghost use Rattle.rb_view.specs.Rows.{cell_text, plain_cell, text};
ghost use Rattle.rb_view.specs.Spans.{spans_text};

use crate::rows::number::put_number;
use crate::rows::plain::put_in_page;
use crate::rows::span::{TextSpan, put_parts};
use rb_raftlog::Body;
use rb_script::{Sink, WriteFault};
use rb_text::WrittenPiece;
use rb_texts::transition_name;
use rb_tracker::Config;
use rb_vocab::{Transition, Word};

// How many bytes of a word an error shows.
const WORD_SHOWN: usize = 64;

/// A cell of a row.
#[derive(Clone, Copy)]
pub enum Cell<'a> {
    /// A number.
    Number(u64),
    /// Bytes: each is one character of the text that is read back, whatever they mean together.
    Text(&'a [u8]),
    /// The text of an entry's content.
    Body(&'a Body),
    /// The text of a configuration.
    Config(&'a Config),
    /// A text, and the first bytes of a word in quotes.
    Quoting(&'a [u8], &'a [u8]),
    /// A text, and a number after it.
    Counting(&'a [u8], u64),
}

// A cell, with the comma before it.
impl WrittenPiece for Cell<'_> {
    ghost text = { λ c. cell_text (plain_cell c) };

    fn put<S: Sink>(&self, sink: &mut S) -> Result<(), WriteFault> {
        match *self {
            Cell::Number(n) => put_number(sink, n),
            Cell::Text(bytes) => put_bytes(sink, bytes),
            Cell::Body(body) => put_body(sink, body),
            Cell::Config(config) => put_config(sink, config),
            Cell::Quoting(front, word) => put_quoting(sink, front, word),
            Cell::Counting(front, n) => put_text(
                sink,
                &[TextSpan::Bytes(front), TextSpan::Number(n)],
            ),
        }
    }
}

// Writes a cell of these bytes.
fn put_bytes<S: Sink>(sink: &mut S, bytes: &[u8]) -> Result<(), WriteFault>
    ensures wrote { Writes result (S.held sink.old) (S.held sink.new) (cell_text (text bytes.now)) }
    ensures all { S.takes_all sink.old → IsOk result × S.takes_all sink.new }
{
    sink.put(b",\"")?;
    put_in_page(sink, bytes)?;
    sink.put(b"\"")
}

// Writes a cell whose text these parts make.
fn put_text<S: Sink>(sink: &mut S, spans: &[TextSpan<'_>]) -> Result<(), WriteFault>
    ensures wrote { Writes result (S.held sink.old) (S.held sink.new) (cell_text (text (spans_text spans.now))) }
    ensures all { S.takes_all sink.old → IsOk result × S.takes_all sink.new }
{
    sink.put(b",\"")?;
    put_parts(sink, spans)?;
    sink.put(b"\"")
}

fn put_quoting<'a, S: Sink>(sink: &mut S, front: &'a [u8], word: &'a [u8]) -> Result<(), WriteFault>
    ensures wrote { Writes result (S.held sink.old) (S.held sink.new) (cell_text (text (front.now ++ word_text word.now))) }
    ensures all { S.takes_all sink.old → IsOk result × S.takes_all sink.new }
{
    let shown = &word[..word.len().min(WORD_SHOWN)];
    put_text(
        sink,
        &[
            TextSpan::Bytes(front),
            TextSpan::Bytes(b"\""),
            TextSpan::Inside(shown),
            TextSpan::Bytes(b"\""),
        ],
    )
}

#[tactic(auto, unfolding(rb_texts::specs::Entries::body_text))]
fn put_body<S: Sink>(sink: &mut S, body: &Body) -> Result<(), WriteFault>
    ensures wrote { Writes result (S.held sink.old) (S.held sink.new) (cell_text (text (body_text body.now))) }
    ensures all { S.takes_all sink.old → IsOk result × S.takes_all sink.new }
{
    match body {
        Body::Payload(bytes) => put_payload(sink, bytes.as_slice()),
        Body::Change { transition, words } => put_change(sink, *transition, words.as_slice()),
    }
}

#[tactic(auto, unfolding(rb_texts::specs::Quoted::quoted))]
fn put_payload<S: Sink>(sink: &mut S, bytes: &[u8]) -> Result<(), WriteFault>
    ensures wrote { Writes result (S.held sink.old) (S.held sink.new) (cell_text (text (quoted bytes.now))) }
    ensures all { S.takes_all sink.old → IsOk result × S.takes_all sink.new }
{
    put_text(
        sink,
        &[
            TextSpan::Bytes(b"\""),
            TextSpan::Inside(bytes),
            TextSpan::Bytes(b"\""),
        ],
    )
}

fn put_change<S: Sink>(
    sink: &mut S,
    transition: Transition,
    words: &[Word],
) -> Result<(), WriteFault>
    ensures wrote { Writes result (S.held sink.old) (S.held sink.new) (cell_text (text (codes "change " ++ transition_text transition ++ flat_map change_word words.now))) }
    ensures all { S.takes_all sink.old → IsOk result × S.takes_all sink.new }
{
    put_text(
        sink,
        &[
            TextSpan::Bytes(b"change "),
            TextSpan::Bytes(transition_name(transition)),
            TextSpan::Words(words),
        ],
    )
}

// The mark of a joint configuration that is left by itself.
fn auto_name(auto: bool) -> &'static [u8]
    ensures { result.now ≡ (if auto then codes " auto" else []) }
{
    if auto { b" auto" } else { b"" }
}

#[tactic(auto, unfolding(rb_texts::specs::Configs::config_text))]
fn put_config<S: Sink>(sink: &mut S, config: &Config) -> Result<(), WriteFault>
    ensures wrote { Writes result (S.held sink.old) (S.held sink.new) (cell_text (text (config_text config.now))) }
    ensures all { S.takes_all sink.old → IsOk result × S.takes_all sink.new }
{
    put_text(
        sink,
        &[
            TextSpan::Bytes(b"voters=("),
            TextSpan::Ids(config.incoming.as_slice()),
            TextSpan::Bytes(b")"),
            TextSpan::Part(b" outgoing=(", config.outgoing.as_slice()),
            TextSpan::Part(b" learners=(", config.learners.as_slice()),
            TextSpan::Part(b" next=(", config.next.as_slice()),
            TextSpan::Bytes(auto_name(config.auto)),
        ],
    )
}
