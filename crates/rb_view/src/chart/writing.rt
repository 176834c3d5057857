//! The text of a picture.

ghost use Rattle.std.specs.Prelude.{IsOk};
ghost use Rattle.rb_script.specs.Writes.{Writes};
ghost use Rattle.rb_view.specs.declared.chart.style.TheConstants.{STYLE};
ghost use Rattle.rb_view.specs.Charts.{chart_text, front_text};

use crate::chart::chart::Chart;
use crate::chart::path::DrawnArrow;
use crate::chart::piece::SvgPiece;
use crate::chart::shape::{Shape, put_shapes};
use crate::chart::style::STYLE;
use rb_script::{Sink, WriteFault};
use rb_text::{WrittenPiece, put_pieces};

// Writes the part before the shapes.
fn put_front<'a, S: Sink>(
    sink: &mut S,
    style: &'a [u8],
    width: u64,
    height: u64,
    title: &'a [u8],
    told: &'a [u8],
) -> Result<(), WriteFault>
    ensures wrote { Writes result (S.held sink.old) (S.held sink.new) (front_text style.now width height title.now told.now) }
    ensures all { S.takes_all sink.old → IsOk result × S.takes_all sink.new }
{
    put_pieces(
        sink,
        &[
            SvgPiece::Bytes(
                b"<svg xmlns=\"http://www.w3.org/2000/svg\" role=\"img\" aria-labelledby=\"title\" aria-describedby=\"what\" viewBox=\"0 0 ",
            ),
            SvgPiece::Number(width),
            SvgPiece::Bytes(b" "),
            SvgPiece::Number(height),
            SvgPiece::Bytes(b"\" width=\""),
            SvgPiece::Number(width),
            SvgPiece::Bytes(b"\" height=\""),
            SvgPiece::Number(height),
            SvgPiece::Bytes(b"\">\n<title id=\"title\">"),
            SvgPiece::Words(title),
            SvgPiece::Bytes(b"</title>\n<desc id=\"what\">"),
            SvgPiece::Words(told),
            SvgPiece::Bytes(b"</desc>\n"),
            SvgPiece::Bytes(style),
            SvgPiece::Bytes(b"<rect class=\"background\" width=\"100%\" height=\"100%\"/>\n"),
        ],
    )
}

/// A part of a document.
#[derive(Clone, Copy)]
pub(crate) enum ChartLayer<'a> {
    /// The part before the shapes: the style, the size, the title and the description.
    Front(&'a [u8], u64, u64, &'a [u8], &'a [u8]),
    /// Shapes, with these words of all of them.
    Shapes(&'a [u8], &'a [Shape]),
    Arrows(&'a [DrawnArrow]),
    End,
}

impl WrittenPiece for ChartLayer<'_> {
    ghost use Rattle.rb_view.specs.Charts.{layer_text};

    ghost text = { layer_text };

    fn put<S: Sink>(&self, sink: &mut S) -> Result<(), WriteFault> {
        match *self {
            ChartLayer::Front(style, width, height, title, told) => {
                put_front(sink, style, width, height, title, told)
            }
            ChartLayer::Shapes(words, shapes) => put_shapes(sink, words, shapes),
            ChartLayer::Arrows(arrows) => put_pieces(sink, arrows),
            ChartLayer::End => sink.put(b"</svg>\n"),
        }
    }
}

// Writes a picture with this style.
fn put_styled<S: Sink>(sink: &mut S, style: &[u8], chart: &Chart) -> Result<(), WriteFault>
    ensures wrote { Writes result (S.held sink.old) (S.held sink.new) (chart_text style.now chart.now) }
    ensures all { S.takes_all sink.old → IsOk result × S.takes_all sink.new }
{
    let words = chart.words.as_slice();
    let title = chart.title.as_slice();
    let told = chart.told.as_slice();
    let layers = [
        ChartLayer::Front(style, chart.width, chart.height, title, told),
        ChartLayer::Shapes(words, chart.under.as_slice()),
        ChartLayer::Arrows(chart.arrows.as_slice()),
        ChartLayer::Shapes(words, chart.texts.as_slice()),
        ChartLayer::End,
    ];
    put_pieces(sink, &layers)
}

/// Writes a picture as a document of SVG, which needs no scripts and fetches nothing. Takes no memory. On a failure a beginning of the
/// document was written.
pub fn put_chart<S: Sink>(sink: &mut S, chart: &Chart) -> Result<(), WriteFault>
    ensures wrote { Writes result (S.held sink.old) (S.held sink.new) (chart_text STYLE.now chart.now) }
    ensures all { S.takes_all sink.old → IsOk result × S.takes_all sink.new }
{
    put_styled(sink, STYLE, chart)
}
