//! An outbox: messages that a node keeps until its owner takes them.
//!
//! An outbox grows at its end until its owner takes the messages, and a session keeps hundreds of clusters with similar outboxes. So an
//! outbox has pages, which never change and which copies share, and a tail that is shorter than a page. A copy costs two pointers for the
//! pages, and copies of the tail's messages. Equal outboxes are cut at the same places.

ghost use Rattle.std.specs.Prelude.{◌≡◌, ◌+◌, ◌<◌, ◌≤◌, ◌++◌, ◌∷◌, [], ◌↔◌, length, slice_get, Some, IsTrue, IfOk, OnOk};
ghost use Rattle.rb_raftlog.specs.Packed.{joined};
ghost use Rattle.rb_message.specs.Paged.{IsPaged};

use crate::limits::{MAX_PAGES, PAGE};
use crate::message::Message;
use rb_raftlog::{Pages, copies_of, limits_are, push_copies};
use rb_vocab::Shared;
use std::alloc::{AllocError, Global};
use std::marker::Model;
use std::mem;

/// Messages, in order. Contracts see the list of them.
#[derive(Drop)]
pub struct Outbox {
    // Each has PAGE messages.
    pages: Pages<Shared<Message>>,
    // Fewer than PAGE.
    tail: Vec<Message>,
}

impl Model for Outbox {
    ghost use Rattle.std.specs.Prelude.{List, ◌++◌};
    ghost use Rattle.rb_raftlog.specs.Packed.{joined};
    ghost use Rattle.rb_message.specs.declared.message.Message.{Message};
    ghost use Rattle.rb_message.specs.Paged.{IsPaged};

    ghost Value = { List Message };

    ghost view = { λ m. joined m.pages ++ m.tail.items };

    ghost invariant = { λ m. IsPaged m.pages m.tail.items };
}

// Whether both lists of messages are equal. Compares lengths first.
fn same_messages(messages: &[Message], others: &[Message]) -> bool
    ensures { IsTrue result ↔ (messages.now ≡ others.now) }
{
    if messages.len() != others.len() {
        return false;
    }
    for i in 0..messages.len() {
        if !messages[i].same(&others[i]) {
            return false;
        }
    }
    true
}

// Whether both lists of pages are equal. Compares lengths first.
fn same_pages(pages: &Pages<Shared<Message>>, others: &Pages<Shared<Message>>) -> bool
    ensures { IsTrue result ↔ (pages.now ≡ others.now) }
{
    if pages.len() != others.len() {
        return false;
    }
    for k in 0..pages.len() {
        if !same_messages(pages.item(k).as_slice(), others.item(k).as_slice()) {
            return false;
        }
    }
    true
}

// Appends copies of the messages of the pages.
fn push_pages(messages: &mut Vec<Message>, pages: &Pages<Shared<Message>>) -> Result<(), AllocError>
    ensures { OnOk result (messages.new.items ≡ messages.old.items ++ joined pages.now) }
{
    for k in 0..pages.len() {
        push_copies(messages, pages.item(k).as_slice())?;
    }
    Ok(())
}

// Takes the tail, with the message that makes it a page.
fn full_page(tail: &mut Vec<Message>, last: Message) -> Result<Shared<Message>, AllocError>
    ensures page { IfOk result (λ page. page ≡ tail.old.items ++ last ∷ []) }
    ensures none_left { tail.new.items ≡ [] }
{
    let alloc = *tail.allocator();
    let mut page = mem::replace(tail, Vec::new(alloc));
    page.push(last)?;
    Shared::new(page)
}

// Appends the message that makes the tail a page. An outbox of more than 2,000,000,000 pages is refused like a lack of memory.
fn push_page(
    pages: &mut Pages<Shared<Message>>,
    tail: &mut Vec<Message>,
    last: Message,
) -> Result<(), AllocError>
    requires paged { IsPaged pages.old tail.old.items }
    requires full { PAGE ≤ length tail.old.items + 1 }
    ensures paged { IsPaged pages.new tail.new.items }
    ensures put { OnOk result (joined pages.new ++ tail.new.items ≡ (joined pages.old ++ tail.old.items) ++ last ∷ []) }
{
    limits_are();
    if pages.len() >= MAX_PAGES {
        return Err(AllocError);
    }
    pages.push(full_page(tail, last)?)?;
    Ok(())
}

impl Outbox {
    /// No messages. It takes no memory.
    pub fn new(alloc: Global) -> Outbox
        ensures { result ≡ [] }
    {
        Outbox {
            pages: Pages::new(alloc),
            tail: Vec::new(alloc),
        }
    }

    fn allocator(&self) -> Global {
        *self.tail.allocator()
    }

    /// The number of messages.
    pub fn len(&self) -> usize
        ensures { result ≡ length self.now }
    {
        self.pages.len() * PAGE + self.tail.len()
    }

    /// The message at a place, counted from 0, without a search.
    pub fn message(&self, k: usize) -> &Message
        requires { k < length self.now }
        ensures { slice_get self.now k ≡ Some result.now }
    {
        if k / PAGE < self.pages.len() {
            return &self.pages.item(k / PAGE).as_slice()[k % PAGE];
        }
        &self.tail[k - self.pages.len() * PAGE]
    }

    /// Appends a message.
    pub fn push(&mut self, message: Message) -> Result<(), AllocError>
        ensures { OnOk result (self.new ≡ self.old ++ message ∷ []) }
    {
        if self.tail.len() + 1 >= PAGE {
            return push_page(&mut self.pages, &mut self.tail, message);
        }
        self.tail.push(message)?;
        Ok(())
    }

    /// Takes all messages. Messages in pages are copied, at a few pointers each; others are moved.
    pub fn take_all(&mut self) -> Result<Vec<Message>, AllocError>
        ensures taken { IfOk result (λ messages. messages.items ≡ self.old) }
        ensures none_left { OnOk result (self.new ≡ []) }
    {
        let alloc = self.allocator();
        let len = self.len();
        let mut tail = mem::replace(&mut self.tail, Vec::new(alloc));
        if self.pages.len() == 0 {
            return Ok(tail);
        }
        let pages = mem::replace(&mut self.pages, Pages::new(alloc));
        let mut messages = Vec::with_capacity(alloc, len)?;
        push_pages(&mut messages, &pages)?;
        messages.append(&mut tail)?;
        Ok(messages)
    }

    /// Copies the outbox: two pointers for the pages, and copies of the tail's messages.
    pub fn try_copy(&self) -> Result<Outbox, AllocError>
        ensures { IfOk result (λ copy. copy ≡ self.now) }
    {
        let alloc = self.allocator();
        Ok(Outbox {
            pages: self.pages.try_copy()?,
            tail: copies_of(alloc, &self.tail)?,
        })
    }

    /// Whether both outboxes are equal. Compares lengths first. Takes no memory.
    pub fn same(&self, other: &Outbox) -> bool
        ensures { IsTrue result ↔ (self.now ≡ other.now) }
    {
        if self.len() != other.len() {
            return false;
        }
        same_messages(&self.tail, &other.tail) && same_pages(&self.pages, &other.pages)
    }
}
