//! Bytes as text of XML.

ghost use Rattle.std.specs.Prelude.{◌≡◌};
ghost use Rattle.rb_view.specs.XmlEscapes.{escaped};

use rb_script::{Sink, WriteFault};
use rb_text::Escape;

/// Texts of XML.
#[derive(Clone, Copy)]
pub(crate) struct Xml;

impl Escape for Xml {
    ghost text = { λ _. escaped };

    fn put<S: Sink>(&self, sink: &mut S, b: u8) -> Result<(), WriteFault> {
        if b == b'&' {
            sink.put(b"&amp;")
        } else if b == b'<' {
            sink.put(b"&lt;")
        } else if b == b'>' {
            sink.put(b"&gt;")
        } else {
            sink.put(&[b])
        }
    }
}
