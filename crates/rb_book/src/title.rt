//! The title of a script: the first sentence of its first line, if that is a comment.

ghost use Rattle.std.specs.Prelude.{◌≡◌, [], codes, length, take, drop};
ghost use Rattle.memchr.specs.Find.{FindsNeedle, IsFirstByte, is_byte};
ghost use Rattle.rb_book.specs.Titles.{IsFirstLine, IsFirstSentence, IsTitle, after_sign};

use memchr::{memchr, memmem};

/// The title of a script; empty, if its first line is not a comment.
pub fn title_of(script: &[u8]) -> &[u8]
    ensures { IsTitle script.now result.now }
{
    first_sentence(after_sign(first_line(script)))
}

// The first line, without its end.
fn first_line(text: &[u8]) -> &[u8]
    ensures { IsFirstLine text.now result.now }
{
    match memchr(b'\n', text) {
        Some(end) => &text[..end],
        None => text,
    }
}

// The text of a comment; empty, if the line is not one.
fn after_sign(line: &[u8]) -> &[u8]
    ensures { result.now ≡ after_sign line.now }
{
    match line {
        [b'#', b' ', ..] => &line[2..],
        _ => &[],
    }
}

// The first sentence, with its full stop; all of the text, if no blank is after a full stop.
fn first_sentence(text: &[u8]) -> &[u8]
    ensures { IsFirstSentence text.now result.now }
{
    match memmem::find(text, b". ") {
        Some(end) => &text[..end + 1],
        None => text,
    }
}
