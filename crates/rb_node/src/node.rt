//! A Raft node.

ghost use Rattle.std.specs.Prelude.{◌≡◌, ◌≤◌, ◌↔◌, [], ◌∷◌, ◌++◌, IsTrue, IfOk, OnOk};
ghost use Rattle.rb_raftlog.specs.declared.limits.TheConstants.{MAX_INDEX};
ghost use Rattle.rb_message.specs.declared.event.EventKind.TheVariants as event;
ghost use Rattle.rb_message.specs.Events.{event_at};
ghost use Rattle.rb_node.specs.Node.{PlainNode, node_step};
ghost use Rattle.rb_node.specs.Comparing.{HaveSameNumbers};
ghost use Rattle.rb_node.specs.Calls.{node_started};

use crate::options::Options;
use crate::state::State;
use rb_message::{Event, EventKind};
use rb_raftlog::{RaftLog, Snapshot};
use rb_tracker::Config;
use std::alloc::{AllocError, Global};
use std::marker::Model;

/// A Raft node. Contracts see its state as one plain record.
#[derive(Drop)]
pub struct Node<L: RaftLog> {
    pub(crate) state: State<L>,
}

impl<L: RaftLog> Model for Node<L> {
    ghost use Rattle.rb_node.specs.Node.{PlainNode};

    ghost Value = { PlainNode };

    ghost view = { λ n. n.state };
}

impl<L: RaftLog> Node<L> {
    /// Starts a node at a snapshot, as a follower of nobody in term 0. The snapshot's index must be within the limits.
    pub fn new(
        alloc: Global,
        id: u64,
        start: &Snapshot,
        options: Options,
        events: &mut Vec<Event>,
    ) -> Result<Node<L>, AllocError>
        requires { start.now.index ≤ MAX_INDEX }
        ensures { IfOk result (λ node. node_step node events.new.items ≡ node_started id start.now options events.old.items) }
    {
        let state = State::new(alloc, id, start, options)?;
        report_start(state.tracker.config(), id, start, events)?;
        Ok(Node { state })
    }

    /// Lends the node's state.
    pub fn status(&self) -> &State<L>
        ensures { result.now ≡ self.now }
    {
        &self.state
    }

    /// Copies the node. The cost is a few pointers, and for a leader a view of each member.
    pub fn try_copy(&self) -> Result<Node<L>, AllocError>
        ensures { IfOk result (λ copy. copy ≡ self.now) }
    {
        Ok(Node {
            state: self.state.try_copy()?,
        })
    }

    /// Whether both nodes may be equal: their numbers and the lengths of their lists are. The cost doesn't depend on those lengths.
    pub fn may_equal(&self, other: &Node<L>) -> bool
        ensures { IsTrue result ↔ HaveSameNumbers self.now other.now }
    {
        self.state.may_equal(&other.state)
    }

    /// Whether both nodes have equal states. Takes no memory.
    pub fn same(&self, other: &Node<L>) -> bool
        ensures { IsTrue result ↔ (self.now ≡ other.now) }
    {
        self.state.same(&other.state)
    }
}

// Reports where a node starts, and with which configuration.
fn report_start(
    config: &Config,
    id: u64,
    start: &Snapshot,
    events: &mut Vec<Event>,
) -> Result<(), AllocError>
    ensures { IfOk result (λ _. events.new.items ≡ events.old.items ++ event_at id (event.Started start.now.term start.now.index config.now) ∷ []) }
{
    let config = config.try_copy()?;
    Ok(events.push(Event {
        id,
        kind: EventKind::Started {
            term: start.term,
            index: start.index,
            config,
        },
    })?)
}
