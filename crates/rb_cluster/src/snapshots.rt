//! `send-snapshot` and `compact`.

ghost use Rattle.std.specs.Prelude.{◌≡◌, IfOk, OnOk};
ghost use Rattle.rb_message.specs.declared.kind.MessageKind.TheVariants as kinds;
ghost use Rattle.rb_raftlog.specs.Log.{compact_fault};
ghost use Rattle.rb_node.specs.Node.{message};
ghost use Rattle.rb_node.specs.Sends.{snapshot_of};
ghost use Rattle.rb_machine.specs.Snapshots.{queued, snapshot_sent, error_of, compact_error, compact};
ghost use Rattle.rb_machine.specs.Observers.{watched, after};

use crate::cluster::{Cluster, place_of};
use crate::pending::has_room;
use crate::views::show_log;
use rb_machine::Observer;
use rb_message::{Install, Message, MessageKind};
use rb_node::Node;
use rb_raftlog::{CompactFault, RaftLog};
use rb_texts::{Item, Verb};
use rb_vocab::DirectiveError;
use std::alloc::{AllocError, Global};

fn error_of(fault: Option<CompactFault>) -> Option<DirectiveError<'static>>
    ensures { result ≡ error_of fault }
{
    match fault {
        Some(CompactFault::AlreadyCompacted) => Some(DirectiveError::AlreadyCompacted),
        Some(CompactFault::PastApplied) => Some(DirectiveError::IndexPastApplied),
        Some(CompactFault::OutOfMemory) | None => None,
    }
}

// Why a log can't be compacted to an index, if it can't.
fn compact_fault<L: RaftLog>(log: &L, index: u64, applied: u64) -> Option<CompactFault>
    ensures { result ≡ compact_fault (L.plain log.now) index applied }
{
    if index < log.first_index() {
        return Some(CompactFault::AlreadyCompacted);
    }
    if applied < index {
        return Some(CompactFault::PastApplied);
    }
    None
}

// A node's snapshot, as a message.
fn snapshot_message<L: RaftLog>(
    alloc: Global,
    node: &Node<L>,
    from: u64,
    to: u64,
) -> Result<Message, AllocError>
    ensures { IfOk result (λ m. m ≡ message from to node.now.term (kinds.Snapshot (snapshot_of node.now))) }
{
    let install = Install::new(alloc, node.snapshot()?)?;
    Ok(Message {
        from,
        to,
        term: node.status().term,
        kind: MessageKind::Snapshot(install),
    })
}

impl<L: RaftLog> Cluster<L> {
    // Queues a message by hand, if there is room.
    #[tactic(auto, unfolding(rb_machine::specs::Snapshots::queued))]
    fn queue<O: Observer<L>>(
        &mut self,
        message: Message,
        observer: &mut O,
    ) -> Result<(), AllocError>
        ensures { OnOk result (watched self.new (O.meaning observer.new) ≡ after O.taking O.settling (O.meaning observer.old) (queued self.old message)) }
    {
        // If there is no room, `send` says so.
        if has_room(&self.pending) {
            observer.observe(&Item::Moved(Verb::Queue, &message))?;
        }
        self.send(message, observer)
    }

    /// Queues a node's snapshot for another node.
    pub(crate) fn send_snapshot<O: Observer<L>>(
        &mut self,
        from: u64,
        to: u64,
        observer: &mut O,
    ) -> Result<(), AllocError>
        ensures { OnOk result (watched self.new (O.meaning observer.new) ≡ after O.taking O.settling (O.meaning observer.old) (snapshot_sent from to self.old)) }
    {
        let Some(node) = self.node_with(from) else {
            return Ok(());
        };
        let message = snapshot_message(self.alloc, node, from, to)?;
        self.queue(message, observer)
    }

    /// Why a node's log can't be compacted to an index, if it can't.
    #[tactic(auto, unfolding(rb_machine::specs::Snapshots::compact_error))]
    pub(crate) fn compact_error(&self, id: u64, index: u64) -> Option<DirectiveError<'static>>
        ensures { result ≡ compact_error id index self.now }
    {
        let node = self.node_with(id)?;
        let state = node.status();
        let applied = state.applied.min(state.log.durable());
        error_of(compact_fault(&state.log, index, applied))
    }

    /// Compacts a node's log to an index, and shows the log.
    pub(crate) fn compact<O: Observer<L>>(
        &mut self,
        id: u64,
        index: u64,
        observer: &mut O,
    ) -> Result<(), AllocError>
        ensures { OnOk result (watched self.new (O.meaning observer.new) ≡ after O.taking O.settling (O.meaning observer.old) (compact id index self.old)) }
    {
        let Some(shared) = self.nodes.get_mut(place_of(id)) else {
            return Ok(());
        };
        let node = shared.make_mut()?;
        if node.compact(index).is_err() {
            return Err(AllocError);
        }
        show_log(observer, node)
    }
}
