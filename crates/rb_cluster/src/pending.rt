//! Messages in flight.
//!
//! They are in one list, in the order in which they were sent. A message never changes, so a copy of the list costs a pointer a message.

ghost use Rattle.std.specs.Prelude.{◌≡◌, IfOk, OnOk};
ghost use Rattle.std.specs.List.{list_all};
ghost use Rattle.rb_machine.specs.Cluster as plain;
ghost use Rattle.rb_machine.specs.Deliveries.{has_chosen};
ghost use Rattle.rb_machine.specs.Pending.{is_selected, is_for, is_from, is_meant, mail, other_mail, has_room, sent, all_sent, with_pending};
ghost use Rattle.rb_machine.specs.Observers.{watched, after};

use crate::cluster::Cluster;
use crate::quota::Quota;
use crate::shared_message::SharedMessage;
use rb_directive::{MailChoice, TypeSet};
use rb_machine::{MAX_PENDING, Observer};
use rb_message::Message;
use rb_raftlog::RaftLog;
use rb_texts::{Item, Verb};
use rb_vocab::MessageType;
use std::alloc::{AllocError, Global};

// Whether a directive selects a message of this type. Without types it selects all.
fn is_selected(types: &Option<TypeSet>, message_type: MessageType) -> bool
    ensures { result ≡ is_selected types.now message_type }
{
    match types {
        Some(set) => set.has(message_type),
        None => true,
    }
}

// Whether a message is for this node, and of one of the types.
fn is_for(id: u64, types: &Option<TypeSet>, message: &Message) -> bool
    ensures { result ≡ is_for id types.now message.now }
{
    message.to == id && is_selected(types, message.kind.message_type())
}

// Whether a message is from this node, if one is named.
fn is_from(from: Option<u64>, message: &Message) -> bool
    ensures { result ≡ is_from from message.now }
{
    match from {
        Some(id) => message.from == id,
        None => true,
    }
}

/// Whether a message is for this node, and one of those of which some are chosen.
pub fn is_meant(id: u64, choice: &MailChoice, message: &Message) -> bool
    ensures { result ≡ is_meant id choice.now message.now }
{
    is_for(id, &choice.types, message) && is_from(choice.from, message)
}

// Whether all messages are for this node, and among those of which some are chosen.
fn are_meant(id: u64, choice: &MailChoice, pending: &[SharedMessage]) -> bool
    ensures { result ≡ list_all (is_meant id choice.now) pending.now }
{
    pending
        .iter()
        .all(|shared| is_meant(id, choice, shared.message()))
}

/// Whether a message to this node is chosen.
pub(crate) fn has_chosen(choice: &MailChoice, pending: &[SharedMessage], id: u64) -> bool
    ensures { result ≡ has_chosen choice.now pending.now id }
{
    let mut quota = Quota::of(choice);
    for shared in pending {
        if quota.takes(is_meant(id, choice, shared.message())) {
            return true;
        }
    }
    false
}

/// Pending messages, split into a node's chosen ones and the rest, each in their order.
#[derive(Drop)]
pub(crate) struct SplitMail {
    pub(crate) for_node: Vec<SharedMessage>,
    pub(crate) rest: Vec<SharedMessage>,
}

/// Splits off a node's chosen messages.
pub(crate) fn split(
    alloc: Global,
    pending: Vec<SharedMessage>,
    id: u64,
    choice: &MailChoice,
) -> Result<SplitMail, AllocError>
    ensures for_node { IfOk result (λ p. p.for_node.items ≡ mail pending.items id choice.now) }
    ensures rest { IfOk result (λ p. p.rest.items ≡ other_mail pending.items id choice.now) }
{
    let mut quota = Quota::of(choice);
    // Often all that is pending is chosen: then nothing is moved.
    if quota.takes_all() && are_meant(id, choice, &pending) {
        return Ok(SplitMail {
            for_node: pending,
            rest: Vec::new(alloc),
        });
    }
    let mut mail = Vec::new(alloc);
    let mut others = Vec::new(alloc);
    for shared in pending {
        if quota.takes(is_meant(id, choice, shared.message())) {
            mail.push(shared)?;
        } else {
            others.push(shared)?;
        }
    }
    Ok(SplitMail {
        for_node: mail,
        rest: others,
    })
}

/// Whether there is room for another message.
pub(crate) fn has_room(pending: &[SharedMessage]) -> bool
    ensures { result ≡ has_room pending.now }
{
    pending.len() < MAX_PENDING
}

/// Appends a message to the pending ones, or drops it if there is no room.
pub(crate) fn send<L: RaftLog, O: Observer<L>>(
    alloc: Global,
    pending: &mut Vec<SharedMessage>,
    message: Message,
    observer: &mut O,
) -> Result<(), AllocError>
    ensures { OnOk result ((c : plain.Cluster) → watched (with_pending c pending.new.items) (O.meaning observer.new) ≡ after O.taking O.settling (O.meaning observer.old) (sent (with_pending c pending.old.items) message)) }
{
    if !has_room(pending) {
        return observer.observe(&Item::Moved(Verb::NoRoomFor, &message));
    }
    pending.push(SharedMessage::new(alloc, message)?)?;
    Ok(())
}

/// Appends messages, in their order.
pub(crate) fn send_all<L: RaftLog, O: Observer<L>>(
    alloc: Global,
    pending: &mut Vec<SharedMessage>,
    messages: Vec<Message>,
    observer: &mut O,
) -> Result<(), AllocError>
    ensures { OnOk result ((c : plain.Cluster) → watched (with_pending c pending.new.items) (O.meaning observer.new) ≡ after O.taking O.settling (O.meaning observer.old) (all_sent (with_pending c pending.old.items) messages.items)) }
{
    for message in messages {
        send(alloc, pending, message, observer)?;
    }
    Ok(())
}

impl<L: RaftLog> Cluster<L> {
    /// Appends a message to the pending ones, or drops it if there is no room.
    pub(crate) fn send<O: Observer<L>>(
        &mut self,
        message: Message,
        observer: &mut O,
    ) -> Result<(), AllocError>
        ensures { OnOk result (watched self.new (O.meaning observer.new) ≡ after O.taking O.settling (O.meaning observer.old) (sent self.old message)) }
    {
        send(self.alloc, &mut self.pending, message, observer)
    }
}
