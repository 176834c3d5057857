//! A node as a page wrote it last.
//!
//! A node settles many times while a directive runs. What is kept of it for the next comparison takes its new state part by part: what stays equal
//! isn't copied.

ghost use Rattle.std.specs.Prelude.{◌≡◌, IfOk, OnOk};

use rb_cluster::SharedNode;
use rb_message::Outbox;
use rb_node::{Node, State};
use rb_raftlog::{RaftLog, TryCopy};
use rb_tracker::{Tracker, Votes};
use std::alloc::{AllocError, Global};
use std::marker::Model;

/// A node as it was written last. Contracts see the node.
#[derive(Drop)]
pub(crate) struct WrittenNode<L: RaftLog> {
    // as it was before the directive
    before: SharedNode<L>,
    // as it settled last, if it has
    settled: Option<Box<State<L>>>,
}

impl<L: RaftLog> Model for WrittenNode<L> {
    ghost use Rattle.rb_node.specs.Node.{PlainNode};
    ghost use Rattle.rb_view.specs.Watching.{last_of};

    ghost Value = { PlainNode };

    ghost view = { λ w. last_of w.before (λ b. b.value) w.settled };
}

// Makes votes equal to others.
fn update_votes(votes: &mut Votes, others: &Votes) -> Result<(), AllocError>
    ensures { OnOk result (votes.new ≡ others.now) }
{
    if !votes.same(others) {
        *votes = others.try_copy()?;
    }
    Ok(())
}

// Makes a tracker equal to another.
fn update_tracker(tracker: &mut Tracker, other: &Tracker) -> Result<(), AllocError>
    ensures { OnOk result (tracker.new ≡ other.now) }
{
    if !tracker.same(other) {
        *tracker = other.try_copy()?;
    }
    Ok(())
}

// Makes an outbox equal to another.
fn update_outbox(outbox: &mut Outbox, other: &Outbox) -> Result<(), AllocError>
    ensures { OnOk result (outbox.new ≡ other.now) }
{
    if !outbox.same(other) {
        *outbox = other.try_copy()?;
    }
    Ok(())
}

// Makes a state equal to another in all that takes memory.
fn update_lists<L: RaftLog>(state: &mut State<L>, other: &State<L>) -> Result<(), AllocError>
    ensures { OnOk result (state.new ≡ record state.old { log = other.now.log; start = other.now.start; content = other.now.content; tracker = other.now.tracker; votes = other.now.votes; sent = other.now.sent; waiting = other.now.waiting }) }
{
    state.log = other.log.try_copy()?;
    state.start = other.start.clone()?;
    state.content = other.content.try_copy()?;
    update_tracker(&mut state.tracker, &other.tracker)?;
    update_votes(&mut state.votes, &other.votes)?;
    update_outbox(&mut state.sent, &other.sent)?;
    update_outbox(&mut state.waiting, &other.waiting)
}

// Makes a state equal to another.
fn update<L: RaftLog>(state: &mut State<L>, other: &State<L>) -> Result<(), AllocError>
    ensures { OnOk result (state.new ≡ other.now) }
{
    update_lists(state, other)?;
    state.id = other.id;
    state.term = other.term;
    state.vote = other.vote;
    state.lead = other.lead;
    state.role = other.role;
    state.commit = other.commit;
    state.applied = other.applied;
    state.clock = other.clock;
    state.transferee = other.transferee;
    state.pending_change = other.pending_change;
    state.saved = other.saved;
    state.restored = other.restored;
    state.options = other.options;
    Ok(())
}

impl<L: RaftLog> WrittenNode<L> {
    /// A node before a directive.
    pub(crate) fn new(before: SharedNode<L>) -> WrittenNode<L>
        ensures { result ≡ before }
    {
        WrittenNode {
            before,
            settled: None,
        }
    }

    /// The state as it was written last.
    pub(crate) fn state(&self) -> &State<L>
        ensures { result.now ≡ self.now }
    {
        match &self.settled {
            Some(state) => state,
            None => self.before.node().status(),
        }
    }

    /// Takes the state that was written now.
    pub(crate) fn rewrite(&mut self, node: &Node<L>) -> Result<(), AllocError>
        ensures { OnOk result (self.new ≡ node.now) }
    {
        let state = node.status();
        match &mut self.settled {
            Some(settled) => update(settled, state),
            None => {
                let copy = state.try_copy()?;
                self.settled = Some(Box::new(state.alloc, copy)?);
                Ok(())
            }
        }
    }
}

/// The nodes before a directive.
pub(crate) fn written_nodes<L: RaftLog>(
    alloc: Global,
    nodes: &[SharedNode<L>],
) -> Result<Vec<WrittenNode<L>>, AllocError>
    ensures { IfOk result (λ written. written.items ≡ nodes.now) }
{
    let mut written = Vec::with_capacity(alloc, nodes.len())?;
    for node in nodes {
        written.push(WrittenNode::new(node.try_copy()?))?;
    }
    Ok(written)
}
