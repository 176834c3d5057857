//! Messages in flight, with their numbers.

ghost use Rattle.std.specs.Prelude.{◌≡◌, ◌≤◌, length};
ghost use Rattle.rb_view.specs.Mail.{place_of};

use rb_machine::MAX_PENDING;
use std::alloc::{AllocError, Global};
use std::marker::Model;

// A message that is in flight, as it is shown.
#[derive(Drop)]
struct OnWay {
    number: u64,
    text: Vec<u8>,
}

impl Model for OnWay {
    ghost use Rattle.rb_view.specs.Mail.{PlainOnWay};

    ghost Value = { PlainOnWay };

    ghost view = { λ w. record { number = w.number; text = w.text.items } };
}

impl OnWay {
    ghost use Rattle.std.specs.Prelude.{◌≡◌};
    ghost use Rattle.std.specs.Str.{bytes_eq};

    // Whether it is shown so.
    fn is_shown_as(&self, text: &[u8]) -> bool
        ensures { result ≡ bytes_eq self.now.text text.now }
    {
        self.text.as_slice() == text
    }
}

// The index of the first message that is shown so; the number of messages if there is none.
fn place_in(on_way: &[OnWay], text: &[u8]) -> usize
    ensures place { result ≡ place_of text.now on_way.now }
    ensures within { result ≤ length on_way.now }
{
    for (i, message) in on_way.iter().enumerate() {
        if message.is_shown_as(text) {
            return i;
        }
    }
    on_way.len()
}

/// The messages in flight, in the order in which they were sent.
#[derive(Drop)]
pub struct SentMessages {
    alloc: Global,
    on_way: Vec<OnWay>,
}

impl Model for SentMessages {
    ghost use Rattle.std.specs.Prelude.{List};
    ghost use Rattle.rb_view.specs.Mail.{PlainOnWay};

    ghost Value = { List PlainOnWay };

    ghost view = { λ m. m.on_way.items };
}

impl SentMessages {
    ghost use Rattle.std.specs.Prelude.{◌≡◌, ◌≤◌, [], length, OnOk};
    ghost use Rattle.rb_view.specs.Mail.{joined_by, number_at, number_of, number_past, place_of, without, without_at, without_past};

    pub(crate) fn new(alloc: Global) -> SentMessages
        ensures { result ≡ [] }
    {
        SentMessages {
            alloc,
            on_way: Vec::new(alloc),
        }
    }

    /// The allocator.
    pub(crate) fn allocator(&self) -> Global {
        self.alloc
    }

    // The index of the first message that is shown so; the number of messages if there is none.
    fn place_of(&self, text: &[u8]) -> usize
        ensures place { result ≡ place_of text.now self.now }
        ensures within { result ≤ length self.now }
    {
        place_in(self.on_way.as_slice(), text)
    }

    /// Removes the first message that is shown so, and returns its number, or 0 if there is none.
    pub(crate) fn take(&mut self, text: &[u8]) -> u64
        ensures number { result ≡ number_of text.now self.old }
        ensures rest { self.new ≡ without text.now self.old }
    {
        let place = self.place_of(text);
        if place < self.on_way.len() {
            let found = self.on_way.remove(place);
            found.number
        } else {
            0
        }
    }

    // Takes the message at an index out, and gives its number.
    fn take_at(&mut self, place: usize) -> Option<u64>
        ensures number { result ≡ number_at place self.old }
        ensures rest { self.new ≡ without_at place self.old }
    {
        if place < self.on_way.len() {
            let found = self.on_way.remove(place);
            Some(found.number)
        } else {
            None
        }
    }

    /// Takes the first message out that there is no room for, and gives its number.
    pub(crate) fn take_past(&mut self) -> Option<u64>
        ensures number { result ≡ number_past self.old }
        ensures rest { self.new ≡ without_past self.old }
    {
        self.take_at(MAX_PENDING)
    }

    /// Adds a message of this number, which is shown so.
    pub(crate) fn push(&mut self, number: u64, text: &[u8]) -> Result<(), AllocError>
        ensures { OnOk result (self.new ≡ joined_by number text.now self.old) }
    {
        let text = Vec::from_slice(self.alloc, text)?;
        self.on_way.push(OnWay { number, text })?;
        Ok(())
    }
}
