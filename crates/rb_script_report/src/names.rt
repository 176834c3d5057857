//! Lines that begin with the name of a directive.

ghost use Rattle.std.specs.Prelude.{◌≡◌};
ghost use Rattle.rb_script_report.specs.Doubts.{begins_with_name, first_of};
ghost use Rattle.rb_text.specs.Words.{words};

use rb_directive::is_name;
use rb_text::first_word;

fn word_of(line: &[u8]) -> &[u8]
    ensures { result.now ≡ first_of (words line.now) }
{
    match first_word(line) {
        Some((word, _)) => word,
        None => b"",
    }
}

/// Whether the line's first word is the name of a directive.
pub fn begins_with_name(line: &[u8]) -> bool
    ensures { result ≡ begins_with_name line.now }
{
    is_name(word_of(line))
}
