//! Keeps the arrows of a picture: one for each message that was sent.

ghost use Rattle.std.specs.Prelude.{◌≡◌, ◌<◌, IfSome, length, slice_get};
ghost use Rattle.rb_view.specs.Arrows.{set_state};

use crate::chart::arrow::Arrow;
use crate::chart::css_class::DeliveryState;
use crate::chart::in_flight::{InFlight, MessageChange};
use rb_directive::MailChoice;
use rb_message::Message;
use rb_texts::Item;
use std::alloc::{AllocError, Global};
use std::marker::Model;
use std::mem;

/// The arrows so far, in the order in which their messages were sent, and the messages in flight.
#[derive(Drop)]
pub struct Arrows {
    arrows: Vec<Arrow>,
    in_flight: InFlight,
    // for each message in flight, the index of its arrow
    positions: Vec<usize>,
}

impl Model for Arrows {
    ghost use Rattle.rb_view.specs.Arrows.{PlainArrows};

    ghost Value = { PlainArrows };

    ghost view = { λ d. record { arrows = d.arrows.items; in_flight = d.in_flight; positions = d.positions.items } };
}

// Ends the arrow at an index.
fn set_state(arrows: &mut [Arrow], at: usize, state: DeliveryState)
    ensures { arrows.new ≡ set_state at state arrows.old }
{
    if let Some(arrow) = arrows.get(at) {
        let ended = Arrow { state, ..*arrow };
        arrows[at] = ended;
    }
}

fn position_at(positions: &[usize], at: usize) -> Option<usize>
    ensures position { result ≡ slice_get positions.now at }
    ensures within { IfSome result (λ _. at < length positions.now) }
{
    match positions.get(at) {
        Some(position) => Some(*position),
        None => None,
    }
}

impl Arrows {
    ghost use Rattle.std.specs.Prelude.{◌≡◌, IfOk, OnOk, Some, None, slice_get};
    ghost use Rattle.rb_view.specs.Arrows.{begun, changed, choosing, drawing, end_arrow, no_arrows, resent};
    ghost use Rattle.rb_view.specs.InFlight.{flying};
    ghost use Rattle.rb_texts.specs.Items.{plain_item};

    /// No arrows.
    pub fn new(alloc: Global) -> Arrows
        ensures { result ≡ no_arrows }
    {
        Arrows {
            arrows: Vec::new(alloc),
            in_flight: InFlight::new(alloc),
            positions: Vec::new(alloc),
        }
    }

    /// The arrows.
    pub(crate) fn arrows(&self) -> &[Arrow]
        ensures { result.now ≡ self.now.arrows }
    {
        self.arrows.as_slice()
    }

    /// The indexes of the arrows of messages in flight.
    pub(crate) fn positions(&self) -> &[usize]
        ensures { result.now ≡ self.now.positions }
    {
        self.positions.as_slice()
    }

    /// The next directive chooses these messages.
    pub(crate) fn choose(&mut self, choice: MailChoice)
        ensures { self.new ≡ choosing choice self.old }
    {
        self.in_flight.choose(choice);
    }

    /// A directive begins.
    pub(crate) fn begin(&mut self)
        ensures { self.new ≡ begun self.old }
    {
        self.in_flight.begin();
    }

    // Ends the arrow of the message at an index of those in flight. Returns the arrow's own index.
    fn end(&mut self, at: usize, state: DeliveryState) -> Option<usize>
        ensures { self.new ≡ end_arrow (slice_get self.old.positions at) at state self.old }
    {
        let position = position_at(&self.positions, at)?;
        let _ = self.positions.remove(at);
        set_state(&mut self.arrows, position, state);
        Some(position)
    }

    // Draws what happened to a message. Returns the index of its arrow.
    fn change(&mut self, change: MessageChange) -> Result<Option<usize>, AllocError>
        ensures { OnOk result (self.new ≡ changed change self.old) }
    {
        let position = self.arrows.len();
        match change {
            MessageChange::Nothing => Ok(None),
            MessageChange::Sent(arrow) => {
                self.arrows.push(arrow)?;
                self.positions.push(position)?;
                Ok(Some(position))
            }
            MessageChange::Refused(arrow) => {
                self.arrows.push(arrow)?;
                Ok(Some(position))
            }
            MessageChange::Ended(at, state) => Ok(self.end(at, state)),
        }
    }

    /// Draws an item. Returns the index of the arrow that it begins or ends.
    #[tactic(auto, unfolding(crate::specs::Arrows::drawing))]
    pub fn draw(&mut self, item: &Item<'_>) -> Result<Option<usize>, AllocError>
        ensures { OnOk result (self.new ≡ drawing self.old (plain_item item.now)) }
    {
        let change = self.in_flight.take(item)?;
        self.change(change)
    }

    /// Follows the messages in flight, and draws nothing.
    pub(crate) fn fly(&mut self, item: &Item<'_>) -> Result<(), AllocError>
        ensures { OnOk result (self.new ≡ record self.old { in_flight = flying self.old.in_flight (plain_item item.now) }) }
    {
        self.in_flight.take(item)?;
        Ok(())
    }

    /// Removes the messages in flight and returns them.
    pub(crate) fn take_messages(&mut self) -> Vec<Message>
        ensures messages { result.items ≡ self.old.in_flight.messages }
        ensures left { self.new ≡ no_arrows }
    {
        let alloc = *self.arrows.allocator();
        let Arrows {
            arrows: _,
            in_flight,
            positions: _,
        } = mem::replace(self, Arrows::new(alloc));
        in_flight.into_messages()
    }

    /// Draws a message that was sent above the first drawn directive, as if it were sent now.
    pub(crate) fn resend(&mut self, message: &Message) -> Result<Option<usize>, AllocError>
        ensures { OnOk result (self.new ≡ resent self.old message.now) }
    {
        self.draw(&Item::Send(message))
    }
}
