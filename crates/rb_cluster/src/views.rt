//! `raft-log`, `status` and `raft-state`: show nodes.

ghost use Rattle.std.specs.Prelude.{◌≡◌, ◌+◌, OnOk, fold, map};
ghost use Rattle.rb_texts.specs.Items.{plain_node};
ghost use Rattle.rb_machine.specs.Entries.{entry_items};
ghost use Rattle.rb_machine.specs.Observers.{watched, after};
ghost use Rattle.rb_machine.specs.Views.{log_line, held_item, log_items, log_shown, view_item, status_items, status_shown, node_line, state_item, states_shown};

use crate::cluster::Cluster;
use crate::shared_node::SharedNode;
use rb_machine::Observer;
use rb_node::{Node, State};
use rb_raftlog::RaftLog;
use rb_texts::{Item, LogLine, NodeLine};
use rb_tracker::Tracker;
use std::alloc::AllocError;

// ---- raft-log

fn log_line<L: RaftLog>(state: &State<L>) -> LogLine
    ensures { result ≡ log_line state.now }
{
    LogLine {
        base_term: state.log.base_term(),
        base: state.log.first_index() - 1,
        durable: state.log.durable(),
        commit: state.commit,
        applied: state.applied,
    }
}

// Shows the entries of a log.
fn show_entries<O: Observer<L>, L: RaftLog>(observer: &mut O, log: &L) -> Result<(), AllocError>
    ensures { OnOk result (O.meaning observer.new ≡ fold O.taking (O.meaning observer.old) (entry_items (held_item (L.plain log.now).durable) ((L.plain log.now).base + 1) (L.plain log.now).entries)) }
{
    let durable = log.durable();
    for index in log.first_index()..log.last_index() + 1 {
        match log.entry_at(index) {
            Ok(entry) => observer.observe(&Item::Entry(index, entry, durable < index))?,
            Err(_) => unreachable!(),
        }
    }
    Ok(())
}

/// Shows a node's log.
#[tactic(auto, unfolding(rb_machine::specs::Views::log_items))]
pub(crate) fn show_log<O: Observer<L>, L: RaftLog>(
    observer: &mut O,
    node: &Node<L>,
) -> Result<(), AllocError>
    ensures { OnOk result (O.meaning observer.new ≡ fold O.taking (O.meaning observer.old) (log_items node.now)) }
{
    let state = node.status();
    observer.observe(&Item::RaftLog(log_line(state)))?;
    show_entries(observer, &state.log)
}

// ---- status

// Shows a leader's views.
fn show_views<L: RaftLog, O: Observer<L>>(
    observer: &mut O,
    tracker: &Tracker,
) -> Result<(), AllocError>
    ensures { OnOk result (O.meaning observer.new ≡ fold O.taking (O.meaning observer.old) (map view_item tracker.now.views)) }
{
    for i in 0..tracker.len() {
        let (id, view) = tracker.view(i);
        observer.observe(&Item::Progress(id, view))?;
    }
    Ok(())
}

#[tactic(auto, unfolding(rb_machine::specs::Views::status_items))]
fn show_status<O: Observer<L>, L: RaftLog>(
    observer: &mut O,
    node: &Node<L>,
) -> Result<(), AllocError>
    ensures { OnOk result (O.meaning observer.new ≡ fold O.taking (O.meaning observer.old) (status_items node.now)) }
{
    let state = node.status();
    observer.observe(&Item::Config(state.tracker.config()))?;
    show_views(observer, &state.tracker)
}

// ---- raft-state

fn node_line<L: RaftLog>(state: &State<L>) -> NodeLine<'_>
    ensures { plain_node result ≡ node_line state.now }
{
    NodeLine {
        id: state.id,
        role: state.role,
        term: state.term,
        vote: state.vote,
        lead: state.lead,
        commit: state.commit,
        applied: state.applied,
        content_len: state.content.len(),
        content_end: state.content.end(),
    }
}

fn show_states<O: Observer<L>, L: RaftLog>(
    observer: &mut O,
    nodes: &[SharedNode<L>],
) -> Result<(), AllocError>
    ensures { OnOk result (O.meaning observer.new ≡ fold O.taking (O.meaning observer.old) (map state_item nodes.now)) }
{
    for node in nodes {
        observer.observe(&Item::RaftState(node_line(node.node().status())))?;
    }
    Ok(())
}

impl<L: RaftLog> Cluster<L> {
    /// Shows the log of a node.
    pub fn show_log<O: Observer<L>>(&self, id: u64, observer: &mut O) -> Result<(), AllocError>
        ensures { OnOk result (watched self.now (O.meaning observer.new) ≡ after O.taking O.settling (O.meaning observer.old) (log_shown id self.now)) }
    {
        match self.node_with(id) {
            Some(node) => show_log(observer, node),
            None => Ok(()),
        }
    }

    /// Shows the configuration of a node, and a leader's views.
    pub fn show_status<O: Observer<L>>(&self, id: u64, observer: &mut O) -> Result<(), AllocError>
        ensures { OnOk result (watched self.now (O.meaning observer.new) ≡ after O.taking O.settling (O.meaning observer.old) (status_shown id self.now)) }
    {
        match self.node_with(id) {
            Some(node) => show_status(observer, node),
            None => Ok(()),
        }
    }

    /// Shows the state of each node.
    pub fn show_states<O: Observer<L>>(&self, observer: &mut O) -> Result<(), AllocError>
        ensures { OnOk result (watched self.now (O.meaning observer.new) ≡ after O.taking O.settling (O.meaning observer.old) (states_shown self.now)) }
    {
        show_states(observer, &self.nodes)
    }
}
