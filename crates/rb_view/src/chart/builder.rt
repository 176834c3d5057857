//! Draws a run, item by item.

ghost use Rattle.std.specs.Prelude.{◌≡◌, IfOk, OnOk, fold};
ghost use Rattle.rb_view.specs.Arrows.{resent};
ghost use Rattle.rb_view.specs.Drawn.{without_places};

use crate::chart::arrow::{Arrow, ArrowPlace};
use crate::chart::arrows::Arrows;
use crate::chart::canvas::Canvas;
use crate::chart::chart::Chart;
use crate::chart::part::ChartPhase;
use crate::chart::path::DrawnArrow;
use rb_cluster::SharedNode;
use rb_directive::MailChoice;
use rb_machine::Observer;
use rb_message::Message;
use rb_node::Node;
use rb_raftlog::RaftLog;
use rb_texts::Item;
use rb_vocab::Level;
use std::alloc::{AllocError, Global};

/// The arrows so far, and everything else that is drawn, which no contract describes.
#[derive(Drop)]
pub(crate) struct ChartBuilder<'a> {
    phase: ChartPhase,
    arrows: Arrows,
    canvas: Canvas<'a>,
    // how many more items fit; 0 if there was one too many
    room: u64,
}

// The place of an arrow.
fn place_at(places: &[ArrowPlace], at: usize) -> ArrowPlace {
    match places.get(at) {
        Some(place) => *place,
        None => ArrowPlace {
            y: 0,
            end: 0,
            is_short: true,
        },
    }
}

// The arrows at their positions.
fn placed(
    alloc: Global,
    arrows: &[Arrow],
    places: &[ArrowPlace],
) -> Result<Vec<DrawnArrow>, AllocError>
    ensures { IfOk result (λ drawn. without_places drawn.items ≡ arrows.now) }
{
    let mut drawn = Vec::new(alloc);
    for arrow in arrows {
        let place = place_at(places, drawn.len());
        drawn.push(DrawnArrow {
            arrow: *arrow,
            place,
        })?;
    }
    Ok(drawn)
}

// Draws messages as if they were sent.
fn resend(
    arrows: &mut Arrows,
    canvas: &mut Canvas<'_>,
    messages: &[Message],
) -> Result<(), AllocError>
    ensures { OnOk result (arrows.new ≡ fold resent arrows.old messages.now) }
{
    for message in messages {
        arrows.resend(message)?;
        canvas.send(message)?;
    }
    Ok(())
}

impl<'a> ChartBuilder<'a> {
    ghost use Rattle.std.specs.Prelude.{◌≡◌, ◌-◌, IfOk, OnOk, length};
    ghost use Rattle.rb_texts.specs.Items.{plain_item};
    ghost use Rattle.rb_view.specs.Drawn.{arrows_of, entering, has_room, no_view, view_of, without_places};
    ghost use Rattle.rb_view.specs.Arrows.{coming_in, drawing};

    /// Nothing is drawn. There is room for one item less.
    pub(crate) fn new(alloc: Global, bytes: &'a [u8], room: u64) -> ChartBuilder<'a>
        ensures { view_of result ≡ no_view room }
    {
        ChartBuilder {
            phase: ChartPhase::Above,
            arrows: Arrows::new(alloc),
            canvas: Canvas::new(alloc, bytes),
            room,
        }
    }

    /// Whether all items fit so far.
    pub(crate) fn has_room(&self) -> bool
        ensures { result ≡ has_room (view_of self.now) }
    {
        self.room > 0
    }

    // The first drawn directive begins: messages come in from above.
    fn come_in<L: RaftLog>(&mut self, line: u64, nodes: &[SharedNode<L>]) -> Result<(), AllocError>
        ensures arrows { OnOk result (self.new.arrows ≡ coming_in self.old.arrows.in_flight.messages) }
        ensures phase { OnOk result (self.new.phase ≡ self.old.phase) }
        ensures room { OnOk result (self.new.room ≡ self.old.room - length self.old.arrows.in_flight.messages) }
    {
        let messages = self.arrows.take_messages();
        self.room = self.room.saturating_sub(messages.len() as u64);
        self.canvas.come_in(line, nodes, !messages.is_empty())?;
        resend(&mut self.arrows, &mut self.canvas, &messages)
    }

    /// Continues with the directive at a line, which chooses these messages. The nodes are those before it.
    pub(crate) fn enter<L: RaftLog>(
        &mut self,
        phase: ChartPhase,
        choice: MailChoice,
        line: u64,
        nodes: &[SharedNode<L>],
    ) -> Result<(), AllocError>
        ensures { OnOk result (view_of self.new ≡ entering phase choice (view_of self.old)) }
    {
        if let (ChartPhase::Above, ChartPhase::Within) = (self.phase, phase) {
            self.come_in(line, nodes)?;
        }
        self.arrows.choose(choice);
        self.phase = phase;
        match phase {
            ChartPhase::Above => self.canvas.pass(line),
            ChartPhase::Within => self.canvas.begin(line),
            ChartPhase::Below => Ok(()),
        }
    }

    // Draws an item, as long as all fit.
    fn draw(&mut self, item: &Item<'_>) -> Result<(), AllocError>
        ensures arrows { OnOk result (self.new.arrows ≡ drawing self.old.arrows (plain_item item.now)) }
        ensures phase { self.new.phase ≡ self.old.phase }
        ensures room { OnOk result (self.new.room ≡ self.old.room - 1) }
    {
        let arrow = self.arrows.draw(item)?;
        self.room = self.room.saturating_sub(1);
        if self.room == 0 {
            Ok(())
        } else {
            self.canvas.show(item, arrow)
        }
    }

    /// Marks the commits and logs that have moved after a directive.
    pub(crate) fn see<L: RaftLog>(&mut self, nodes: &[SharedNode<L>]) -> Result<(), AllocError>
        ensures { OnOk result (view_of self.new ≡ view_of self.old) }
    {
        match self.phase {
            ChartPhase::Within => self.canvas.see(nodes),
            ChartPhase::Above | ChartPhase::Below => Ok(()),
        }
    }

    /// The picture, with this title.
    pub(crate) fn finish(self, alloc: Global, title: Vec<u8>) -> Result<Chart, AllocError>
        ensures title { IfOk result (λ chart. chart.title ≡ title.items) }
        ensures arrows { IfOk result (λ chart. without_places chart.arrows ≡ arrows_of (view_of self.entry)) }
    {
        let ChartBuilder {
            phase,
            arrows,
            canvas,
            room: _,
        } = self;
        let (chart, places) = canvas.finish(phase, arrows.arrows(), arrows.positions())?;
        let drawn = placed(alloc, arrows.arrows(), places.as_slice())?;
        Ok(chart.with(title, drawn))
    }
}

impl<'a, L: RaftLog> Observer<L> for ChartBuilder<'a> {
    ghost use Rattle.rb_machine.specs.Observations.{passing};
    ghost use Rattle.rb_view.specs.Drawn.{PlainView, beginning, seeing, view_of};

    ghost Meaning = { PlainView };

    ghost meaning = { view_of };

    ghost starting = { λ v level. beginning v };

    ghost taking = { seeing };

    ghost settling = { passing };

    fn start(&mut self, _level: Level) {
        self.arrows.begin();
    }

    fn observe(&mut self, item: &Item<'_>) -> Result<(), AllocError> {
        match self.phase {
            ChartPhase::Above => self.arrows.fly(item),
            ChartPhase::Within => self.draw(item),
            ChartPhase::Below => Ok(()),
        }
    }

    fn settle(&mut self, _id: u64, _node: &Node<L>) -> Result<(), AllocError> {
        Ok(())
    }
}
