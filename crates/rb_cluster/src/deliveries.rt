//! `deliver-msgs`: delivers or drops pending messages.

ghost use Rattle.std.specs.Prelude.{◌≡◌, IfOk, OnOk, fold, map};
ghost use Rattle.std.specs.List.{list_any};
ghost use Rattle.rb_machine.specs.Pending.{mail, other_mail, with_pending};
ghost use Rattle.rb_machine.specs.Deliveries.{has_chosen, received, all_received, delivered, delivered_each, drop_item, dropped, dropped_each, chooses_any, msgs_delivered};
ghost use Rattle.rb_machine.specs.Observers.{watched, after};

use crate::acts::NodeCall;
use crate::cluster::Cluster;
use crate::pending::{has_chosen, split};
use crate::shared_message::SharedMessage;
use rb_directive::{DeliverMsgs, MailChoice};
use rb_machine::Observer;
use rb_message::Message;
use rb_raftlog::RaftLog;
use rb_texts::{Item, Verb};
use std::alloc::AllocError;
use std::mem;

// Shows each message as dropped.
fn show_dropped<L: RaftLog, O: Observer<L>>(
    observer: &mut O,
    messages: &[SharedMessage],
) -> Result<(), AllocError>
    ensures { OnOk result (O.meaning observer.new ≡ fold O.taking (O.meaning observer.old) (map drop_item messages.now)) }
{
    for shared in messages {
        observer.observe(&Item::Moved(Verb::Drop, shared.message()))?;
    }
    Ok(())
}

// Whether a message to one of these nodes is chosen.
fn any_chosen(choice: &MailChoice, pending: &[SharedMessage], ids: &[u8]) -> bool
    ensures { result ≡ list_any (has_chosen choice.now pending.now) ids.now }
{
    ids.iter()
        .any(|id| has_chosen(choice, pending, u64::from(*id)))
}

// Whether a pending message is chosen, to be delivered or dropped.
fn chooses_any(asked: &DeliverMsgs, pending: &[SharedMessage]) -> bool
    ensures { result ≡ chooses_any asked.now pending.now }
{
    any_chosen(&asked.choice, pending, asked.nodes.as_slice())
        || any_chosen(&asked.choice, pending, asked.drop.as_slice())
}

impl<L: RaftLog> Cluster<L> {
    // Delivers a message to its node.
    fn receive<O: Observer<L>>(
        &mut self,
        id: u64,
        message: &Message,
        observer: &mut O,
    ) -> Result<(), AllocError>
        ensures { OnOk result (watched self.new (O.meaning observer.new) ≡ after O.taking O.settling (O.meaning observer.old) (received id self.old message.now)) }
    {
        observer.observe(&Item::Moved(Verb::Deliver, message))?;
        self.call_and_settle(id, NodeCall::Step(message), observer)
    }

    // Delivers messages to their node, in order.
    fn receive_all<O: Observer<L>>(
        &mut self,
        id: u64,
        messages: &[SharedMessage],
        observer: &mut O,
    ) -> Result<(), AllocError>
        ensures { OnOk result (watched self.new (O.meaning observer.new) ≡ after O.taking O.settling (O.meaning observer.old) (all_received id self.old messages.now)) }
    {
        for shared in messages {
            self.receive(id, shared.message(), observer)?;
        }
        Ok(())
    }

    // Removes a node's chosen messages, and returns them.
    fn take_mail(&mut self, id: u64, choice: &MailChoice) -> Result<Vec<SharedMessage>, AllocError>
        ensures mail { IfOk result (λ taken. taken.items ≡ mail self.old.pending id choice.now) }
        ensures left { OnOk result (self.new ≡ with_pending self.old (other_mail self.old.pending id choice.now)) }
    {
        let pending = mem::replace(&mut self.pending, Vec::new(self.alloc));
        let sorted_mail = split(self.alloc, pending, id, choice)?;
        self.pending = sorted_mail.rest;
        Ok(sorted_mail.for_node)
    }

    /// Delivers a node's chosen messages.
    #[tactic(auto, unfolding(rb_machine::specs::Deliveries::delivered))]
    pub(crate) fn deliver<O: Observer<L>>(
        &mut self,
        id: u64,
        choice: &MailChoice,
        observer: &mut O,
    ) -> Result<(), AllocError>
        ensures { OnOk result (watched self.new (O.meaning observer.new) ≡ after O.taking O.settling (O.meaning observer.old) (delivered choice.now self.old id)) }
    {
        let mail = self.take_mail(id, choice)?;
        self.receive_all(id, &mail, observer)
    }

    fn deliver_each<O: Observer<L>>(
        &mut self,
        ids: &[u8],
        choice: &MailChoice,
        observer: &mut O,
    ) -> Result<(), AllocError>
        ensures { OnOk result (watched self.new (O.meaning observer.new) ≡ after O.taking O.settling (O.meaning observer.old) (delivered_each choice.now self.old ids.now)) }
    {
        for id in ids {
            self.deliver(u64::from(*id), choice, observer)?;
        }
        Ok(())
    }

    // Drops a node's chosen messages.
    #[tactic(auto, unfolding(rb_machine::specs::Deliveries::dropped))]
    fn drop_mail<O: Observer<L>>(
        &mut self,
        id: u64,
        choice: &MailChoice,
        observer: &mut O,
    ) -> Result<(), AllocError>
        ensures { OnOk result (watched self.new (O.meaning observer.new) ≡ after O.taking O.settling (O.meaning observer.old) (dropped choice.now self.old id)) }
    {
        let mail = self.take_mail(id, choice)?;
        show_dropped(observer, &mail)
    }

    fn drop_each<O: Observer<L>>(
        &mut self,
        ids: &[u8],
        choice: &MailChoice,
        observer: &mut O,
    ) -> Result<(), AllocError>
        ensures { OnOk result (watched self.new (O.meaning observer.new) ≡ after O.taking O.settling (O.meaning observer.old) (dropped_each choice.now self.old ids.now)) }
    {
        for id in ids {
            self.drop_mail(u64::from(*id), choice, observer)?;
        }
        Ok(())
    }

    /// Delivers messages to nodes in their order, then drops messages.
    #[tactic(auto, unfolding(rb_machine::specs::Deliveries::msgs_delivered))]
    pub(crate) fn deliver_msgs<O: Observer<L>>(
        &mut self,
        asked: &DeliverMsgs,
        observer: &mut O,
    ) -> Result<(), AllocError>
        ensures { OnOk result (watched self.new (O.meaning observer.new) ≡ after O.taking O.settling (O.meaning observer.old) (msgs_delivered asked.now self.old)) }
    {
        if !chooses_any(asked, &self.pending) {
            return observer.observe(&Item::NoMessages);
        }
        self.deliver_each(asked.nodes.as_slice(), &asked.choice, observer)?;
        self.drop_each(asked.drop.as_slice(), &asked.choice, observer)
    }
}
