//! Keeps the messages in flight.
//!
//! A node gets its messages in the order in which they were sent, or those of them that the directive chooses.
//! `messages_end_their_own_arrows` proves that the message that is met is the one that is delivered or dropped.

ghost use Rattle.std.specs.Prelude.{◌≡◌, ◌<◌, ℕ, IfSome, None, Some, if◌then◌else◌, length};
ghost use Rattle.std.specs.Option.{option_or};
ghost use Rattle.rb_view.specs.InFlight.{arrow, is_alike, last_alike};

use crate::chart::arrow::Arrow;
use crate::chart::choice::{message_at, met};
use crate::chart::css_class::DeliveryState;
use rb_directive::MailChoice;
use rb_message::Message;
use rb_texts::{Item, Verb};
use std::alloc::{AllocError, Global};
use std::marker::Model;

/// What happens to a message.
#[derive(Clone, Copy)]
pub enum MessageChange {
    Nothing,
    /// It is sent, and is the last of those in flight.
    Sent(Arrow),
    /// It doesn't fit, and never was in flight.
    Refused(Arrow),
    /// The one at this index ends.
    Ended(usize, DeliveryState),
}

/// The messages in flight, in the order in which they were sent.
#[derive(Drop)]
pub struct InFlight {
    messages: Vec<Message>,
    // which of them this directive chooses
    choice: MailChoice,
    // whether a ready of this directive was shown: a message that doesn't fit then was shown as sent
    is_ready: bool,
}

impl Model for InFlight {
    ghost use Rattle.rb_view.specs.InFlight.{PlainInFlight};

    ghost Value = { PlainInFlight };

    ghost view = { λ f. record { messages = f.messages.items; choice = f.choice; is_ready = f.is_ready } };
}

fn arrow(message: &Message, state: DeliveryState) -> Arrow
    ensures { result ≡ arrow message.now state }
{
    Arrow {
        from: message.from,
        to: message.to,
        message_type: message.kind.message_type(),
        state,
    }
}

// Whether another message has the same type and the same receiver.
fn is_alike(message: &Message, other: &Message) -> bool
    ensures { result ≡ is_alike message.now other.now }
{
    other.to == message.to && other.kind.message_type().text() == message.kind.message_type().text()
}

// An index, if the message there is alike; otherwise the one that was found before.
fn later(found: Option<usize>, at: usize, is_alike: bool) -> Option<usize>
    ensures found { result ≡ option_or (if is_alike then Some at else None) found }
    ensures within { (n : ℕ) → at < n → IfSome found (λ k. k < n) → IfSome result (λ k. k < n) }
{
    if is_alike { Some(at) } else { found }
}

// The index of the last.
fn last_alike(messages: &[Message], message: &Message) -> Option<usize>
    ensures position { result ≡ last_alike message.now 0 messages.now }
    ensures within { IfSome result (λ at. at < length messages.now) }
{
    let mut found = None;
    for at in 0..messages.len() {
        let other = message_at(messages, at);
        let next = later(found, at, is_alike(message, other));
        found = next;
    }
    found
}

impl InFlight {
    ghost use Rattle.std.specs.Prelude.{◌≡◌, IfOk, OnOk};
    ghost use Rattle.rb_view.specs.InFlight.{Taken, added, ended, given_up, next_met, none_in_flight, started, taken, taking, with_choice};
    ghost use Rattle.rb_texts.specs.Items.{plain_item};

    /// No messages.
    pub fn new(alloc: Global) -> InFlight
        ensures { result ≡ none_in_flight }
    {
        InFlight {
            messages: Vec::new(alloc),
            choice: MailChoice::all(),
            is_ready: false,
        }
    }

    /// The messages.
    pub(crate) fn into_messages(self) -> Vec<Message>
        ensures { result.items ≡ self.messages }
    {
        let InFlight {
            messages,
            choice: _,
            is_ready: _,
        } = self;
        messages
    }

    /// The next directive chooses these messages.
    pub(crate) fn choose(&mut self, choice: MailChoice)
        ensures { self.new ≡ with_choice choice self.old }
    {
        self.choice = choice;
    }

    /// A directive begins.
    pub(crate) fn begin(&mut self)
        ensures { self.new ≡ started self.old }
    {
        self.is_ready = false;
    }

    // Adds a message.
    fn add(&mut self, message: &Message) -> Result<MessageChange, AllocError>
        ensures { IfOk result (λ change. taken self.new change ≡ added self.old message.now) }
    {
        self.messages.push(message.try_copy()?)?;
        Ok(MessageChange::Sent(arrow(message, DeliveryState::Waiting)))
    }

    // Removes the message at an index, if there is one.
    fn end(&mut self, state: DeliveryState, at: Option<usize>) -> MessageChange
        requires { IfSome at (λ position. position < length self.old.messages) }
        ensures { taken self.new result ≡ ended self.old state at }
    {
        let Some(at) = at else {
            return MessageChange::Nothing;
        };
        let _ = self.messages.remove(at);
        MessageChange::Ended(at, state)
    }

    // The index of the message to a node that is met next.
    fn next_met(&self, id: u64) -> Option<usize>
        ensures position { result ≡ next_met self.now id }
        ensures within { IfSome result (λ at. at < length self.now.messages) }
    {
        met(&self.messages, id, &self.choice)
    }

    fn give_up(&mut self, message: &Message) -> MessageChange
        ensures { taken self.new result ≡ given_up self.old message.now }
    {
        if !self.is_ready {
            return MessageChange::Refused(arrow(message, DeliveryState::Lost));
        }
        let at = last_alike(&self.messages, message);
        self.end(DeliveryState::Lost, at)
    }

    /// Handles an item, and returns what happens to a message.
    #[tactic(auto, unfolding(crate::specs::InFlight::taking))]
    pub(crate) fn take(&mut self, item: &Item<'_>) -> Result<MessageChange, AllocError>
        ensures { IfOk result (λ change. taken self.new change ≡ taking self.old (plain_item item.now)) }
    {
        match item {
            Item::Ready(_) => {
                self.is_ready = true;
                Ok(MessageChange::Nothing)
            }
            Item::Send(message) | Item::Moved(Verb::Queue, message) => self.add(message),
            Item::Moved(Verb::Deliver, message) => {
                let at = self.next_met(message.to);
                Ok(self.end(DeliveryState::Delivered, at))
            }
            Item::Moved(Verb::Drop, message) => {
                let at = self.next_met(message.to);
                Ok(self.end(DeliveryState::Lost, at))
            }
            Item::Moved(Verb::NoRoomFor, message) => Ok(self.give_up(message)),
            _ => Ok(MessageChange::Nothing),
        }
    }
}
