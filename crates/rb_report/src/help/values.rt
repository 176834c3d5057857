//! Lines of help: what an option takes, and what a value means.

ghost use Rattle.std.specs.Prelude.{◌≡◌, map};
ghost use Rattle.rb_report.specs.HelpLines.{line_among, option_line, option_lines, value_line, value_lines};

use crate::help::nearest::Known;
use crate::help::options::OPTION_LINES;
use rb_vocab::type_of;

/// What each value means of an option that takes some values alone, except of types of messages.
#[rattlefmt::skip]
const VALUE_LINES: [(&[u8], &[u8]); 11] = [
    (b"debug", b"shows every line"),
    (b"info", b"hides events below INFO"),
    (b"warn", b"hides events below WARN"),
    (b"error", b"hides events below ERROR"),
    (b"fatal", b"hides all events"),
    (b"none", b"hides every line that doesn't begin with error:"),
    (b"true", b"sets the option"),
    (b"false", b"leaves the option unset, which is the default"),
    (b"auto", b"one word is a single step; several go through a joint configuration that the leader leaves automatically"),
    (b"explicit", b"goes through a joint configuration that a further change has to leave"),
    (b"implicit", b"goes through a joint configuration that the leader leaves automatically"),
];

/// Finds the line on a word; an empty one if there is none.
pub(crate) fn line_among(word: &[u8], rows: &[(Known, Known)]) -> Known
    ensures { result.now ≡ line_among word.now (map (λ r. (r.0.now, r.1.now)) rows.now) }
{
    for row in rows {
        if row.0 == word {
            return row.1;
        }
    }
    b""
}

/// Finds the line of help on the option with this key.
#[tactic(auto, unfolding(crate::specs::HelpLines::option_lines, crate::specs::HelpLines::option_line))]
pub fn option_line(key: &[u8]) -> Known
    ensures { result.now ≡ option_line key.now }
{
    line_among(key, &OPTION_LINES)
}

/// Finds the line of help on a value.
#[tactic(auto, unfolding(crate::specs::HelpLines::value_lines, crate::specs::HelpLines::value_line))]
pub fn value_line(value: &[u8]) -> Known
    ensures { result.now ≡ value_line value.now }
{
    match type_of(value) {
        Some(message_type) => message_type.meaning(),
        None => line_among(value, &VALUE_LINES),
    }
}
