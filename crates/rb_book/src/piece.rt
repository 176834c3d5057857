//! Bytes as they are in HTML, and in its addresses.

ghost use Rattle.std.specs.Prelude.{◌≡◌, IsOk};
ghost use Rattle.rb_script.specs.Writes.{Writes};
ghost use Rattle.rb_book.specs.Html.{address_byte, byte_text, is_plain, piece_text, text_byte, way_up};

use rb_script::{Sink, WriteFault};
use rb_text::{Escape, WrittenPiece, hex_digit, put_escaped};

/// Where bytes are in HTML.
#[derive(Clone, Copy)]
pub(crate) enum HtmlPart {
    /// In a text, or in the value of an attribute.
    Text,
    /// In the address of a file.
    Address,
    /// Of a file's place, the way up from its folder.
    WayUp,
}

impl Escape for HtmlPart {
    ghost text = { byte_text };

    fn put<S: Sink>(&self, sink: &mut S, b: u8) -> Result<(), WriteFault> {
        match *self {
            HtmlPart::Text => put_text_byte(sink, b),
            HtmlPart::Address => put_address_byte(sink, b),
            HtmlPart::WayUp => put_way_up(sink, b),
        }
    }
}

fn put_text_byte<S: Sink>(sink: &mut S, b: u8) -> Result<(), WriteFault>
    ensures wrote { Writes result (S.held sink.old) (S.held sink.new) (text_byte b) }
    ensures all { S.takes_all sink.old → IsOk result × S.takes_all sink.new }
{
    if b == b'&' {
        sink.put(b"&amp;")
    } else if b == b'<' {
        sink.put(b"&lt;")
    } else if b == b'>' {
        sink.put(b"&gt;")
    } else if b == b'"' {
        sink.put(b"&quot;")
    } else {
        sink.put(&[b])
    }
}

// Whether a byte is itself in an address.
fn is_plain(b: u8) -> bool
    ensures { result ≡ is_plain b }
{
    b'a' <= b && b <= b'z'
        || b'A' <= b && b <= b'Z'
        || b'-' <= b && b <= b'9'
        || b == b'_'
        || b == b'~'
}

fn put_address_byte<S: Sink>(sink: &mut S, b: u8) -> Result<(), WriteFault>
    ensures wrote { Writes result (S.held sink.old) (S.held sink.new) (address_byte b) }
    ensures all { S.takes_all sink.old → IsOk result × S.takes_all sink.new }
{
    if is_plain(b) {
        sink.put(&[b])
    } else {
        sink.put(&[b'%', hex_digit(b / 16), hex_digit(b % 16)])
    }
}

fn put_way_up<S: Sink>(sink: &mut S, b: u8) -> Result<(), WriteFault>
    ensures wrote { Writes result (S.held sink.old) (S.held sink.new) (way_up b) }
    ensures all { S.takes_all sink.old → IsOk result × S.takes_all sink.new }
{
    if b == b'/' {
        sink.put(b"../")
    } else {
        sink.put(b"")
    }
}

/// A piece of HTML.
#[derive(Clone, Copy)]
pub(crate) enum HtmlPiece<'a> {
    /// The bytes as they are.
    Bytes(&'a [u8]),
    /// The bytes in a text or in the value of an attribute.
    Text(&'a [u8]),
    /// The bytes in an address.
    Address(&'a [u8]),
    /// The way from the folder of a file with this place to the site's own folder.
    WayUp(&'a [u8]),
}

impl WrittenPiece for HtmlPiece<'_> {
    ghost text = { piece_text };

    fn put<S: Sink>(&self, sink: &mut S) -> Result<(), WriteFault> {
        match *self {
            HtmlPiece::Bytes(bytes) => sink.put(bytes),
            HtmlPiece::Text(bytes) => put_escaped(sink, &HtmlPart::Text, bytes),
            HtmlPiece::Address(bytes) => put_escaped(sink, &HtmlPart::Address, bytes),
            HtmlPiece::WayUp(bytes) => put_escaped(sink, &HtmlPart::WayUp, bytes),
        }
    }
}
