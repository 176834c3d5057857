//! The shapes of a picture besides its arrows. Positions and sizes are in pixels, from the upper left corner.

ghost use Rattle.std.specs.Prelude.{◌≡◌, ◌<◌, IsOk, Some, length, slice_get};
ghost use Rattle.rb_script.specs.Writes.{Writes};
ghost use Rattle.rb_view.specs.Shapes.{band_text, part_of, shape_text, shapes_text, words_text};

use crate::chart::css_class::CssClass;
use crate::chart::piece::SvgPiece;
use crate::rows::role_name;
use rb_message::Role;
use rb_script::{Sink, WriteFault};
use rb_text::put_pieces;

/// A shape.
#[derive(Clone, Copy)]
pub enum Shape {
    /// The line above a directive's row.
    Edge {
        y: u64,
    },
    /// A node in one role.
    Band {
        role: Role,
        x: u64,
        y: u64,
        width: u64,
        height: u64,
    },
    /// Words: those between two indexes of all words.
    Words {
        look: CssClass,
        x: u64,
        y: u64,
        from: usize,
        to: usize,
    },
}

fn put_band<S: Sink>(
    sink: &mut S,
    role: Role,
    x: u64,
    y: u64,
    width: u64,
    height: u64,
) -> Result<(), WriteFault>
    ensures wrote { Writes result (S.held sink.old) (S.held sink.new) (band_text role x y width height) }
    ensures all { S.takes_all sink.old → IsOk result × S.takes_all sink.new }
{
    put_pieces(
        sink,
        &[
            SvgPiece::Bytes(b"<rect class=\""),
            SvgPiece::Bytes(role_name(role)),
            SvgPiece::Bytes(b"\" x=\""),
            SvgPiece::Number(x),
            SvgPiece::Bytes(b"\" y=\""),
            SvgPiece::Number(y),
            SvgPiece::Bytes(b"\" width=\""),
            SvgPiece::Number(width),
            SvgPiece::Bytes(b"\" height=\""),
            SvgPiece::Number(height),
            SvgPiece::Bytes(b"\"/>\n"),
        ],
    )
}

// Writes words, as text of XML.
fn put_words<S: Sink>(
    sink: &mut S,
    look: CssClass,
    x: u64,
    y: u64,
    words: &[u8],
) -> Result<(), WriteFault>
    ensures wrote { Writes result (S.held sink.old) (S.held sink.new) (words_text look x y words.now) }
    ensures all { S.takes_all sink.old → IsOk result × S.takes_all sink.new }
{
    put_pieces(
        sink,
        &[
            SvgPiece::Bytes(b"<text class=\""),
            SvgPiece::Bytes(look.name()),
            SvgPiece::Bytes(b"\" x=\""),
            SvgPiece::Number(x),
            SvgPiece::Bytes(b"\" y=\""),
            SvgPiece::Number(y),
            SvgPiece::Bytes(b"\">"),
            SvgPiece::Words(words),
            SvgPiece::Bytes(b"</text>\n"),
        ],
    )
}

/// The words between two indexes; none if there are none.
pub(crate) fn words_at(words: &[u8], from: usize, to: usize) -> &[u8]
    ensures { result.now ≡ part_of from to words.now }
{
    if from <= to && to <= words.len() {
        &words[from..to]
    } else {
        &[]
    }
}

fn put_shape<S: Sink>(sink: &mut S, words: &[u8], shape: Shape) -> Result<(), WriteFault>
    ensures wrote { Writes result (S.held sink.old) (S.held sink.new) (shape_text words.now shape) }
    ensures all { S.takes_all sink.old → IsOk result × S.takes_all sink.new }
{
    match shape {
        Shape::Edge { y } => put_pieces(
            sink,
            &[
                SvgPiece::Bytes(b"<rect class=\"edge\" y=\""),
                SvgPiece::Number(y),
                SvgPiece::Bytes(b"\" width=\"100%\" height=\"1\"/>\n"),
            ],
        ),
        Shape::Band {
            role,
            x,
            y,
            width,
            height,
        } => put_band(sink, role, x, y, width, height),
        Shape::Words {
            look,
            x,
            y,
            from,
            to,
        } => put_words(sink, look, x, y, words_at(words, from, to)),
    }
}

fn shape_at(shapes: &[Shape], i: usize) -> Shape
    requires { i < length shapes.now }
    ensures { slice_get shapes.now i ≡ Some result }
{
    shapes[i]
}

/// Writes the shapes, with these words of all of them.
pub(crate) fn put_shapes<S: Sink>(
    sink: &mut S,
    words: &[u8],
    shapes: &[Shape],
) -> Result<(), WriteFault>
    ensures wrote { Writes result (S.held sink.old) (S.held sink.new) (shapes_text words.now shapes.now) }
    ensures all { S.takes_all sink.old → IsOk result × S.takes_all sink.new }
{
    for i in 0..shapes.len() {
        put_shape(sink, words, shape_at(shapes, i))?;
    }
    Ok(())
}
