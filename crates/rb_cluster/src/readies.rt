//! `process-ready`: shows a node's ready and processes it.

ghost use Rattle.std.specs.Prelude.{◌≡◌, ◌+◌, OnOk, Some, fold, map};
ghost use Rattle.rb_raftlog.specs.Log.{not_durable};
ghost use Rattle.rb_node.specs.Readying.{ready, applying, others};
ghost use Rattle.rb_texts.specs.Items as items;
ghost use Rattle.rb_machine.specs.Cluster as plain;
ghost use Rattle.rb_machine.specs.Cluster.{node_at, with_node};
ghost use Rattle.rb_machine.specs.Entries.{entry_items};
ghost use Rattle.rb_machine.specs.Pending.{with_pending};
ghost use Rattle.rb_machine.specs.Readies.{hard_items, snapshot_items, ready_items, advanced_and_settled, ready_processed, ready_processed_each};
ghost use Rattle.rb_machine.specs.Observers.{watched, after};

use crate::cluster::{Cluster, place_of};
use crate::pending::send_all;
use crate::shared_message::SharedMessage;
use rb_machine::{Observer, show_events};
use rb_message::Outbox;
use rb_node::{Node, ReadyView};
use rb_raftlog::RaftLog;
use rb_texts::Item;
use std::alloc::{AllocError, Global};

// Shows the hard state and a restored snapshot, if they are ready.
fn show_hard<O: Observer<L>, L: RaftLog>(
    observer: &mut O,
    view: &ReadyView<'_, L>,
) -> Result<(), AllocError>
    ensures { OnOk result (O.meaning observer.new ≡ fold O.taking (O.meaning observer.old) (hard_items (ready view.now).hard)) }
{
    match view.hard() {
        Some(hard) => observer.observe(&Item::HardState(hard)),
        None => Ok(()),
    }
}

fn show_snapshot<O: Observer<L>, L: RaftLog>(
    observer: &mut O,
    view: &ReadyView<'_, L>,
) -> Result<(), AllocError>
    ensures { OnOk result (O.meaning observer.new ≡ fold O.taking (O.meaning observer.old) (snapshot_items (ready view.now).snapshot)) }
{
    match view.snapshot() {
        Some((term, index)) => observer.observe(&Item::Snapshot(term, index)),
        None => Ok(()),
    }
}

// Shows the entries of a log that aren't durable, which are to be saved.
fn show_unsaved<O: Observer<L>, L: RaftLog>(observer: &mut O, log: &L) -> Result<(), AllocError>
    ensures { OnOk result (O.meaning observer.new ≡ fold O.taking (O.meaning observer.old) (entry_items items.save ((L.plain log.now).durable + 1) (not_durable (L.plain log.now)))) }
{
    let last = log.last_index();
    for index in log.durable() + 1..last + 1 {
        match log.entry_at(index) {
            Ok(entry) => observer.observe(&Item::Save(index, entry))?,
            Err(_) => unreachable!(),
        }
    }
    Ok(())
}

// Shows the entries to save.
fn show_saved<O: Observer<L>, L: RaftLog>(
    observer: &mut O,
    node: &Node<L>,
) -> Result<(), AllocError>
    ensures { OnOk result (O.meaning observer.new ≡ fold O.taking (O.meaning observer.old) (entry_items items.save (node.now.log.durable + 1) (ready node.now).save)) }
{
    show_unsaved(observer, &node.status().log)
}

// Shows the entries to apply.
fn show_applied<O: Observer<L>, L: RaftLog>(
    observer: &mut O,
    node: &Node<L>,
) -> Result<(), AllocError>
    ensures { OnOk result (O.meaning observer.new ≡ fold O.taking (O.meaning observer.old) (entry_items items.apply (node.now.applied + 1) (applying node.now))) }
{
    let state = node.status();
    let applied = state.applied;
    let view = node.ready();
    for k in 0..view.apply_len() {
        let index = applied + 1 + k as u64;
        observer.observe(&Item::Apply(index, view.apply(k)))?;
    }
    Ok(())
}

// Shows the outgoing messages: the sent ones, and the waiting answers to other nodes.
fn show_sent<L: RaftLog, O: Observer<L>>(
    observer: &mut O,
    outbox: &Outbox,
) -> Result<(), AllocError>
    ensures { OnOk result (O.meaning observer.new ≡ fold O.taking (O.meaning observer.old) (map items.send outbox.now)) }
{
    for k in 0..outbox.len() {
        observer.observe(&Item::Send(outbox.message(k)))?;
    }
    Ok(())
}

fn show_waited<L: RaftLog, O: Observer<L>>(
    observer: &mut O,
    id: u64,
    outbox: &Outbox,
) -> Result<(), AllocError>
    ensures { OnOk result (O.meaning observer.new ≡ fold O.taking (O.meaning observer.old) (map items.send (others id outbox.now))) }
{
    for k in 0..outbox.len() {
        let message = outbox.message(k);
        if message.to != id {
            observer.observe(&Item::Send(message))?;
        }
    }
    Ok(())
}

// Shows a node's ready.
#[tactic(auto, unfolding(rb_machine::specs::Readies::ready_items))]
fn show_ready<O: Observer<L>, L: RaftLog>(
    observer: &mut O,
    id: u64,
    node: &Node<L>,
) -> Result<(), AllocError>
    ensures { OnOk result (O.meaning observer.new ≡ fold O.taking (O.meaning observer.old) (ready_items id node.now)) }
{
    let view = node.ready();
    observer.observe(&Item::Ready(id))?;
    show_hard(observer, &view)?;
    show_snapshot(observer, &view)?;
    show_saved(observer, node)?;
    show_applied(observer, node)?;
    show_sent(observer, view.sent())?;
    show_waited(observer, node.status().id, view.waiting())
}

// Advances a node, sends its outgoing messages, and shows its events, and then the node, which has settled.
fn advance_and_settle<L: RaftLog, O: Observer<L>>(
    node: &mut Node<L>,
    id: u64,
    alloc: Global,
    pending: &mut Vec<SharedMessage>,
    observer: &mut O,
) -> Result<(), AllocError>
    ensures { OnOk result ((c : plain.Cluster) → (c.pending ≡ pending.old.items) → node_at c id ≡ Some node.old → watched (with_pending (with_node c id node.new) pending.new.items) (O.meaning observer.new) ≡ after O.taking O.settling (O.meaning observer.old) (advanced_and_settled c id)) }
{
    let mut events = Vec::new(alloc);
    let mut messages = Vec::new(alloc);
    node.advance(&mut messages, &mut events)?;
    send_all(alloc, pending, messages, observer)?;
    show_events(observer, &events)?;
    observer.settle(id, node)
}

impl<L: RaftLog> Cluster<L> {
    /// Processes a node's ready, or shows that there is none.
    #[tactic(auto, unfolding(rb_machine::specs::Readies::whole_ready_processed))]
    pub(crate) fn process_one_ready<O: Observer<L>>(
        &mut self,
        id: u64,
        observer: &mut O,
    ) -> Result<(), AllocError>
        ensures { OnOk result (watched self.new (O.meaning observer.new) ≡ after O.taking O.settling (O.meaning observer.old) (ready_processed self.old id)) }
    {
        let Some(shared) = self.nodes.get_mut(place_of(id)) else {
            return Ok(());
        };
        if !shared.node().has_ready() {
            return observer.observe(&Item::NothingReady(id));
        }
        show_ready(observer, id, shared.node())?;
        let node = shared.make_mut()?;
        advance_and_settle(node, id, self.alloc, &mut self.pending, observer)
    }

    /// Processes the ready of nodes, in their order.
    pub(crate) fn process_ready<O: Observer<L>>(
        &mut self,
        ids: &[u8],
        observer: &mut O,
    ) -> Result<(), AllocError>
        ensures { OnOk result (watched self.new (O.meaning observer.new) ≡ after O.taking O.settling (O.meaning observer.old) (ready_processed_each self.old ids.now)) }
    {
        for id in ids {
            self.process_one_ready(u64::from(*id), observer)?;
        }
        Ok(())
    }
}
