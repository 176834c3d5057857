//! The elements of arrows: level along their labels, then straight to their ends.

ghost use Rattle.std.specs.Prelude.{◌≡◌, IsOk};
ghost use Rattle.rb_script.specs.Writes.{Writes};
ghost use Rattle.rb_view.specs.Paths.{bend_of, cross_at, cross_of, end_of, is_left, is_loop, loop_of, path_text, right_of, start_of};
ghost use Rattle.rb_view.specs.Shapes.{arrow_text, cross_text, loop_text};

use crate::chart::arrow::{Arrow, ArrowPlace};
use crate::chart::css_class::DeliveryState;
use crate::chart::piece::SvgPiece;
use crate::chart::sizes::{HALF_BAND, LEAD, OUT, beside, middle};
use rb_script::{Sink, WriteFault};
use rb_text::{WrittenPiece, put_pieces};
use rb_vocab::MessageClass;

// How far the end of an arrow is from the middle of a band, or from where it bends.
const TO_BAND: u64 = HALF_BAND + 1;

const TO_CROSS: u64 = HALF_BAND + 19;

const WAITING: u64 = 26;

const GIVEN_UP: u64 = 14;

/// An arrow at its position.
#[derive(Clone, Copy)]
pub struct DrawnArrow {
    pub arrow: Arrow,
    pub place: ArrowPlace,
}

impl Arrow {
    /// Whether it goes to the left.
    pub(crate) fn is_left(self) -> bool
        ensures { result ≡ is_left self }
    {
        self.to < self.from
    }

    /// Whether it goes to the node that sends it.
    pub(crate) fn is_loop(self) -> bool
        ensures { result ≡ is_loop self }
    {
        self.to == self.from
    }

    fn bend(self) -> u64
        ensures { result ≡ bend_of self }
    {
        beside(middle(self.from), self.is_left(), LEAD)
    }

    // Where it ends.
    fn end(self, is_short: bool) -> u64
        ensures { result ≡ end_of self is_short }
    {
        match self.state {
            DeliveryState::Waiting => beside(self.bend(), self.is_left(), WAITING),
            DeliveryState::Delivered => beside(middle(self.to), !self.is_left(), TO_BAND),
            DeliveryState::Lost => {
                if is_short {
                    beside(self.bend(), self.is_left(), GIVEN_UP)
                } else {
                    beside(middle(self.to), !self.is_left(), TO_CROSS)
                }
            }
        }
    }

    fn start(self) -> u64
        ensures { result ≡ start_of self }
    {
        beside(middle(self.from), self.is_left(), HALF_BAND)
    }

    // Where the line of a message that a node sends to itself begins and ends.
    fn loop_x(self) -> u64
        ensures { result ≡ loop_of self }
    {
        middle(self.from).saturating_add(TO_BAND)
    }

    fn loop_out(self) -> u64
        ensures { result ≡ right_of (loop_of self) 40 }
    {
        self.loop_x().saturating_add(OUT)
    }

    // Where the cross is, if it is lost.
    fn cross(self, is_short: bool) -> u64
        ensures { result ≡ cross_of self is_short }
    {
        if self.is_loop() {
            self.loop_x()
        } else {
            self.end(is_short)
        }
    }
}

// The classes of an arrow's element.
#[derive(Clone, Copy)]
struct ArrowLook {
    class: MessageClass,
    state: DeliveryState,
}

// A position in the picture.
#[derive(Clone, Copy)]
struct Point {
    x: u64,
    y: u64,
}

fn put_arrow<S: Sink>(
    sink: &mut S,
    look: ArrowLook,
    from: Point,
    bend: u64,
    to: Point,
) -> Result<(), WriteFault>
    ensures wrote { Writes result (S.held sink.old) (S.held sink.new) (arrow_text look.class look.state from.x from.y bend to.x to.y) }
    ensures all { S.takes_all sink.old → IsOk result × S.takes_all sink.new }
{
    put_pieces(
        sink,
        &[
            SvgPiece::Bytes(b"<path class=\"arrow "),
            SvgPiece::Bytes(look.class.name()),
            SvgPiece::Bytes(b" "),
            SvgPiece::Bytes(look.state.name()),
            SvgPiece::Bytes(b"\" d=\"M"),
            SvgPiece::Number(from.x),
            SvgPiece::Bytes(b" "),
            SvgPiece::Number(from.y),
            SvgPiece::Bytes(b"H"),
            SvgPiece::Number(bend),
            SvgPiece::Bytes(b"L"),
            SvgPiece::Number(to.x),
            SvgPiece::Bytes(b" "),
            SvgPiece::Number(to.y),
            SvgPiece::Bytes(b"\"/>\n"),
        ],
    )
}

fn put_loop<S: Sink>(
    sink: &mut S,
    look: ArrowLook,
    from: Point,
    out: u64,
    to_y: u64,
) -> Result<(), WriteFault>
    ensures wrote { Writes result (S.held sink.old) (S.held sink.new) (loop_text look.class look.state from.x from.y out to_y) }
    ensures all { S.takes_all sink.old → IsOk result × S.takes_all sink.new }
{
    put_pieces(
        sink,
        &[
            SvgPiece::Bytes(b"<path class=\"arrow "),
            SvgPiece::Bytes(look.class.name()),
            SvgPiece::Bytes(b" "),
            SvgPiece::Bytes(look.state.name()),
            SvgPiece::Bytes(b"\" d=\"M"),
            SvgPiece::Number(from.x),
            SvgPiece::Bytes(b" "),
            SvgPiece::Number(from.y),
            SvgPiece::Bytes(b"C"),
            SvgPiece::Number(out),
            SvgPiece::Bytes(b" "),
            SvgPiece::Number(from.y),
            SvgPiece::Bytes(b" "),
            SvgPiece::Number(out),
            SvgPiece::Bytes(b" "),
            SvgPiece::Number(to_y),
            SvgPiece::Bytes(b" "),
            SvgPiece::Number(from.x),
            SvgPiece::Bytes(b" "),
            SvgPiece::Number(to_y),
            SvgPiece::Bytes(b"\"/>\n"),
        ],
    )
}

// Writes the line of a message.
fn put_path<S: Sink>(sink: &mut S, arrow: Arrow, place: ArrowPlace) -> Result<(), WriteFault>
    ensures wrote { Writes result (S.held sink.old) (S.held sink.new) (path_text arrow place) }
    ensures all { S.takes_all sink.old → IsOk result × S.takes_all sink.new }
{
    let class = arrow.message_type.class();
    let look = ArrowLook {
        class,
        state: arrow.state,
    };
    if arrow.is_loop() {
        let x = arrow.loop_x();
        let out = arrow.loop_out();
        return put_loop(sink, look, Point { x, y: place.y }, out, place.end);
    }
    let x = arrow.start();
    let bend = arrow.bend();
    let to_x = arrow.end(place.is_short);
    let end = Point {
        x: to_x,
        y: place.end,
    };
    put_arrow(sink, look, Point { x, y: place.y }, bend, end)
}

fn put_mark<S: Sink>(sink: &mut S, x: u64, y: u64) -> Result<(), WriteFault>
    ensures wrote { Writes result (S.held sink.old) (S.held sink.new) (cross_text x y) }
    ensures all { S.takes_all sink.old → IsOk result × S.takes_all sink.new }
{
    put_pieces(
        sink,
        &[
            SvgPiece::Bytes(b"<path class=\"cross\" d=\"M"),
            SvgPiece::Number(x),
            SvgPiece::Bytes(b" "),
            SvgPiece::Number(y),
            SvgPiece::Bytes(b"m-4 -4l8 8m0 -8l-8 8\"/>\n"),
        ],
    )
}

// Writes a cross where a message is lost.
fn put_cross<S: Sink>(sink: &mut S, arrow: Arrow, place: ArrowPlace) -> Result<(), WriteFault>
    ensures wrote { Writes result (S.held sink.old) (S.held sink.new) (cross_at arrow.state arrow place) }
    ensures all { S.takes_all sink.old → IsOk result × S.takes_all sink.new }
{
    let DeliveryState::Lost = arrow.state else {
        return put_pieces(sink, &[SvgPiece::Bytes(b"")]);
    };
    let x = arrow.cross(place.is_short);
    put_mark(sink, x, place.end)
}

// Its line, and a cross where it is lost.
impl WrittenPiece for DrawnArrow {
    ghost use Rattle.rb_view.specs.Paths.{drawn_text};

    ghost text = { drawn_text };

    fn put<S: Sink>(&self, sink: &mut S) -> Result<(), WriteFault> {
        put_path(sink, self.arrow, self.place)?;
        put_cross(sink, self.arrow, self.place)
    }
}
