//! Texts as they are between quotes: most are written as they are, at once.

ghost use Rattle.std.specs.Prelude.{◌≡◌, IsOk};
ghost use Rattle.std.specs.List.{flat_map, list_all};
ghost use Rattle.rb_script.specs.Writes.{Writes};
ghost use Rattle.rb_text.specs.Json.{in_page, is_plain};
ghost use Rattle.rb_text.specs.declared.json.Json.TheVariants.{Page};

use rb_script::{Sink, WriteFault};
use rb_text::{Json, put_escaped};

// Whether the byte is written as it is.
fn is_plain(b: u8) -> bool
    ensures { result ≡ is_plain Page b }
{
    b' ' <= b && b <= b'~' && b != b'"' && b != b'\\' && b != b'<' && b != b'>' && b != b'&'
}

/// Whether all bytes are written as they are.
pub(crate) fn are_plain(bytes: &[u8]) -> bool
    ensures { result ≡ list_all (is_plain Page) bytes.now }
{
    bytes.iter().all(|b| is_plain(*b))
}

/// Writes the bytes as they are between quotes.
pub(crate) fn put_in_page<S: Sink>(sink: &mut S, bytes: &[u8]) -> Result<(), WriteFault>
    ensures wrote { Writes result (S.held sink.old) (S.held sink.new) (flat_map in_page bytes.now) }
    ensures all { S.takes_all sink.old → IsOk result × S.takes_all sink.new }
{
    if are_plain(bytes) {
        sink.put(bytes)
    } else {
        put_escaped(sink, &Json::Page, bytes)
    }
}
