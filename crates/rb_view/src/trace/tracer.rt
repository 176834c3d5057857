//! Who makes an object of each thing that happens.

ghost use Rattle.std.specs.Prelude.{◌≡◌, ◌+◌, ◌∷◌, [], IfOk, OnOk};
ghost use Rattle.rb_texts.specs.Items.{plain_item};
ghost use Rattle.rb_view.specs.Traces.{begun, counted, given_up, meeting, moving, nothing, numbered, ready_after, sending, shown, with_object};

use crate::trace::mail::SentMessages;
use crate::trace::objects::{Standing, node_of, object};
use rb_machine::Observer;
use rb_message::Message;
use rb_node::Node;
use rb_raftlog::RaftLog;
use rb_script::Lines;
use rb_texts::{Item, Verb};
use rb_vocab::Level;
use std::alloc::{AllocError, Global};

/// The trace so far.
#[derive(Drop)]
pub struct Tracer {
    /// The place of the directive that runs, from 1, and the line of its head.
    pub place: u64,
    pub line: u64,
    /// The node whose ready is shown.
    pub ready: u64,
    /// How many messages were sent, and those that are in flight.
    pub sent: u64,
    pub mail: SentMessages,
    /// The objects.
    pub lines: Lines,
}

// A message as it is shown, by which it is known again.
fn shown(alloc: Global, message: &Message) -> Result<Lines, AllocError>
    ensures { IfOk result (λ lines. lines ≡ shown message.now ∷ []) }
{
    let mut lines = Lines::new(alloc);
    lines.push_written(&Item::Send(message))?;
    Ok(lines)
}

fn ready_after(ready: u64, item: &Item<'_>) -> u64
    ensures { result ≡ ready_after ready (plain_item item.now) }
{
    match item {
        Item::Ready(id) => *id,
        _ => ready,
    }
}

impl Tracer {
    /// Nothing has happened yet.
    pub(crate) fn new(alloc: Global) -> Tracer
        ensures { result ≡ nothing }
    {
        Tracer {
            place: 0,
            line: 0,
            ready: 0,
            sent: 0,
            mail: SentMessages::new(alloc),
            lines: Lines::new(alloc),
        }
    }

    /// The directive at this place begins, whose head is at this line.
    pub(crate) fn begin(&mut self, place: u64, line: u64)
        ensures { self.new ≡ begun self.old place line }
    {
        self.place = place;
        self.line = line;
    }

    // The number of the next message that is sent.
    fn next_number(&self) -> Result<u64, AllocError>
        ensures { IfOk result (λ number. number ≡ self.now.sent + 1) }
    {
        match self.sent.checked_add(1) {
            Some(number) => Ok(number),
            None => Err(AllocError),
        }
    }

    // A message is sent. Gives its number.
    fn send(&mut self, message: &Message) -> Result<u64, AllocError>
        ensures number { IfOk result (λ number. number ≡ (sending self.old message.now).number) }
        ensures counted { OnOk result (self.new ≡ counted self.old (sending self.old message.now)) }
    {
        let number = self.next_number()?;
        let lines = shown(self.mail.allocator(), message)?;
        self.sent = number;
        self.mail.push(number, lines.line(0))?;
        Ok(number)
    }

    // A message is in flight no longer. Gives its number.
    fn meet(&mut self, message: &Message) -> Result<u64, AllocError>
        ensures number { IfOk result (λ number. number ≡ (meeting self.old message.now).number) }
        ensures counted { OnOk result (self.new ≡ counted self.old (meeting self.old message.now)) }
    {
        let lines = shown(self.mail.allocator(), message)?;
        Ok(self.mail.take(lines.line(0)))
    }

    // A message finds no room. Gives its number.
    fn give_up(&mut self) -> Result<u64, AllocError>
        ensures number { IfOk result (λ number. number ≡ (given_up self.old).number) }
        ensures counted { OnOk result (self.new ≡ counted self.old (given_up self.old)) }
    {
        match self.mail.take_past() {
            Some(number) => Ok(number),
            None => {
                self.sent = self.next_number()?;
                Ok(self.sent)
            }
        }
    }

    fn move_on(&mut self, verb: Verb, message: &Message) -> Result<u64, AllocError>
        ensures number { IfOk result (λ number. number ≡ (moving self.old verb message.now).number) }
        ensures counted { OnOk result (self.new ≡ counted self.old (moving self.old verb message.now)) }
    {
        match verb {
            Verb::Queue => self.send(message),
            Verb::Deliver | Verb::Drop => self.meet(message),
            Verb::NoRoomFor => self.give_up(),
        }
    }

    // Gives the number of the item's message, or 0.
    fn number(&mut self, item: &Item<'_>) -> Result<u64, AllocError>
        ensures number { IfOk result (λ number. number ≡ (numbered self.old (plain_item item.now)).number) }
        ensures counted { OnOk result (self.new ≡ counted self.old (numbered self.old (plain_item item.now))) }
    {
        match item {
            Item::Send(message) => self.send(message),
            Item::Moved(verb, message) => self.move_on(*verb, message),
            _ => Ok(0),
        }
    }

    // Adds the object of an item, whose message has this number.
    fn add_object(&mut self, number: u64, item: &Item<'_>) -> Result<(), AllocError>
        ensures { OnOk result (self.new ≡ with_object self.old number (plain_item item.now)) }
    {
        let at = Standing {
            place: self.place,
            line: self.line,
        };
        let node = node_of(self.ready, item);
        let text = object(self.mail.allocator(), at, node, number, item)?;
        self.ready = ready_after(self.ready, item);
        self.lines.push(text.as_slice())
    }
}

impl<L: RaftLog> Observer<L> for Tracer {
    ghost use Rattle.rb_view.specs.declared.trace.tracer.Tracer.{Tracer};
    ghost use Rattle.rb_machine.specs.Observations.{passing};
    ghost use Rattle.rb_view.specs.Traces.{at_level, with_item};

    ghost Meaning = { Tracer };

    ghost meaning = { λ t. t };

    ghost starting = { at_level };

    ghost taking = { with_item };

    ghost settling = { passing };

    fn start(&mut self, _level: Level) {}

    fn observe(&mut self, item: &Item<'_>) -> Result<(), AllocError> {
        let number = self.number(item)?;
        self.add_object(number, item)
    }

    fn settle(&mut self, _id: u64, _node: &Node<L>) -> Result<(), AllocError> {
        Ok(())
    }
}
