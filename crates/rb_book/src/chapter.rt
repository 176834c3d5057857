//! A script of a book.

ghost use Rattle.std.specs.Prelude.{◌≡◌, IsOk};
ghost use Rattle.rb_script.specs.Writes.{Writes};
ghost use Rattle.rb_book.specs.Contents.{differs_text, row_text, title_or};

use crate::piece::HtmlPiece;
use rb_script::{Sink, WriteFault};
use rb_text::{WrittenPiece, put_pieces};

/// A script of a book.
#[derive(Drop)]
pub struct Chapter {
    /// Where its page is in the site, without `.html`. Names are separated by slashes.
    pub place: String,
    /// What it is called in the contents; if this is empty, its place is.
    pub title: Vec<u8>,
    /// The bytes of the script.
    pub script: Vec<u8>,
    /// Whether an output is not the expected one.
    pub differs: bool,
}

// As a piece of the contents page it is a row: its title, and its place.
impl WrittenPiece for Chapter {
    ghost text = { row_text };

    fn put<S: Sink>(&self, sink: &mut S) -> Result<(), WriteFault> {
        let place = self.place.as_bytes();
        let title = title_or(self.title.as_slice(), place);
        put_pieces(
            sink,
            &[
                HtmlPiece::Bytes(b"<li><a href=\""),
                HtmlPiece::Address(place),
                HtmlPiece::Bytes(b".html\">"),
                HtmlPiece::Text(title),
                HtmlPiece::Bytes(b"</a><p>"),
                HtmlPiece::Text(place),
                HtmlPiece::Bytes(differs_text(self.differs)),
                HtmlPiece::Bytes(b"</p></li>\n"),
            ],
        )
    }
}

// The title, or this other text if there is none.
fn title_or<'a>(title: &'a [u8], other: &'a [u8]) -> &'a [u8]
    ensures { result.now ≡ title_or title.now other.now }
{
    match title {
        [] => other,
        _ => title,
    }
}

fn differs_text(differs: bool) -> &'static [u8]
    ensures { result.now ≡ differs_text differs }
{
    if differs { b", differs" } else { b"" }
}
