//! Escaping bytes for a string of JSON.

ghost use Rattle.std.specs.Prelude.{◌≡◌, ◌<◌};
ghost use Rattle.rb_text.specs.Json.{byte_text, hex_digit, is_plain, numbered};

use crate::escape::Escape;
use rb_script::{Sink, WriteFault};

/// The bytes of a JSON string that are written unescaped. Others are written as `\u00NN`.
#[derive(Clone, Copy)]
pub enum Json {
    /// All but control characters, `"` and backslashes. Bytes above ASCII are left as UTF-8.
    Utf8,
    /// Of these only ASCII. A byte above it is the character with its number, as in ISO 8859-1.
    Ascii,
    /// Of these only printable ASCII without `<`, `>` and `&`, so that a page can contain the text.
    Page,
}

// Whether the byte is written unescaped.
fn is_plain(json: Json, b: u8) -> bool
    ensures { result ≡ is_plain json b }
{
    match json {
        Json::Utf8 => b' ' <= b && b != b'"' && b != b'\\',
        Json::Ascii => b' ' <= b && b < 128 && b != b'"' && b != b'\\',
        Json::Page => {
            b' ' <= b && b <= b'~' && b != b'"' && b != b'\\' && b != b'<' && b != b'>' && b != b'&'
        }
    }
}

/// The lower-case hexadecimal digit of a number below 16.
pub fn hex_digit(n: u8) -> u8
    requires { n < 16 }
    ensures { result ≡ hex_digit n }
{
    if n < 10 { n + b'0' } else { n - 10 + b'a' }
}

// The escape `\u00NN` of a byte.
fn numbered(b: u8) -> [u8; 6]
    ensures { result ≡ numbered b }
{
    [
        b'\\',
        b'u',
        b'0',
        b'0',
        hex_digit(b / 16),
        hex_digit(b % 16),
    ]
}

impl Escape for Json {
    ghost text = { byte_text };

    fn put<S: Sink>(&self, sink: &mut S, b: u8) -> Result<(), WriteFault> {
        if is_plain(*self, b) {
            sink.put(&[b])
        } else {
            sink.put(&numbered(b))
        }
    }
}
