//! The calls of a node, except ticks and readies.

ghost use Rattle.std.specs.Prelude.{◌≡◌, ◌≤◌, IfOk, OnOk, false};
ghost use Rattle.rb_raftlog.specs.declared.limits.TheConstants.{MAX_INDEX};
ghost use Rattle.rb_message.specs.declared.kind.MessageKind.TheVariants.{Proposal, TransferLeader};
ghost use Rattle.rb_raftlog.specs.declared.entry.Body.TheVariants.{Payload, Change};
ghost use Rattle.rb_node.specs.Node.{node_step, with_timeout};
ghost use Rattle.rb_node.specs.Campaigns.{campaigned};
ghost use Rattle.rb_node.specs.Sends.{snapshot_of};
ghost use Rattle.rb_node.specs.Step.{stepped};
ghost use Rattle.rb_node.specs.Calls.{called, leader_forgotten, reported};
ghost use Rattle.rb_node.specs.Compacting.{IsCompactedTo};
ghost use Rattle.rb_node.specs.Restarting.{node_restarted};

use crate::node::Node;
use rb_message::{Event, Message, MessageKind, Role};
use rb_raftlog::{Body, CompactFault, RaftLog, Snapshot};
use rb_tracker::ProgressState;
use rb_vocab::{Shared, Transition, Word};
use std::alloc::AllocError;

impl<L: RaftLog> Node<L> {
    /// Steps a message. The message stays the caller's; the node shares what it keeps of it.
    pub fn step(&mut self, message: &Message, events: &mut Vec<Event>) -> Result<(), AllocError>
        ensures { OnOk result (node_step self.new events.new.items ≡ stepped (node_step self.old events.old.items) message.now) }
    {
        self.state.step(message, events)
    }

    /// Starts a campaign.
    pub fn campaign(&mut self, events: &mut Vec<Event>) -> Result<(), AllocError>
        ensures { OnOk result (node_step self.new events.new.items ≡ campaigned (node_step self.old events.old.items) false) }
    {
        self.state.campaign(false, events)
    }

    fn call(&mut self, kind: MessageKind, events: &mut Vec<Event>) -> Result<(), AllocError>
        ensures { OnOk result (node_step self.new events.new.items ≡ called (node_step self.old events.old.items) kind) }
    {
        let id = self.state.id;
        let message = Message {
            from: id,
            to: id,
            term: 0,
            kind,
        };
        self.step(&message, events)
    }

    /// Proposes a payload.
    pub fn propose(
        &mut self,
        payload: Shared<u8>,
        events: &mut Vec<Event>,
    ) -> Result<(), AllocError>
        ensures { OnOk result (node_step self.new events.new.items ≡ called (node_step self.old events.old.items) (Proposal (Payload payload))) }
    {
        self.call(MessageKind::Proposal(Body::Payload(payload)), events)
    }

    /// Proposes a change of the configuration. One without words leaves a joint configuration.
    pub fn propose_change(
        &mut self,
        transition: Transition,
        words: Shared<Word>,
        events: &mut Vec<Event>,
    ) -> Result<(), AllocError>
        ensures { OnOk result (node_step self.new events.new.items ≡ called (node_step self.old events.old.items) (Proposal (Change transition words))) }
    {
        self.call(
            MessageKind::Proposal(Body::Change { transition, words }),
            events,
        )
    }

    /// Asks to transfer leadership to a node.
    pub fn transfer(&mut self, to: u64, events: &mut Vec<Event>) -> Result<(), AllocError>
        ensures { OnOk result (node_step self.new events.new.items ≡ called (node_step self.old events.old.items) (TransferLeader to)) }
    {
        self.call(MessageKind::TransferLeader { target: to }, events)
    }

    /// Makes a follower forget its leader; in other roles, does nothing. Takes no memory.
    pub fn forget_leader(&mut self)
        ensures { self.new ≡ leader_forgotten self.old }
    {
        if self.state.role == Role::Follower {
            self.state.lead = 0;
        }
    }

    /// Reports that a node can't be reached: a leader that replicates to it probes it. Takes no memory.
    pub fn report_unreachable(&mut self, id: u64)
        ensures { self.new ≡ reported self.old id }
    {
        if self.state.role != Role::Leader {
            return;
        }
        if let Some(place) = self.state.tracker.place(id) {
            let view = self.state.tracker.view_mut(place);
            if view.state() == ProgressState::Replicate {
                view.to_probe();
            }
        }
    }

    /// A snapshot of the node's applied state. Its index is within the limits.
    pub fn snapshot(&self) -> Result<Snapshot, AllocError>
        ensures value { IfOk result (λ snapshot. snapshot ≡ snapshot_of self.now) }
        ensures within { self.now.applied ≤ MAX_INDEX }
    {
        self.state.snapshot()
    }

    /// Restarts the node from what it saved: it loses what it did since it last advanced, and applies committed entries again.
    pub fn restart(&mut self, events: &mut Vec<Event>) -> Result<(), AllocError>
        ensures { OnOk result (node_step self.new events.new.items ≡ node_restarted (node_step self.old events.old.items)) }
    {
        self.state.restart(events)
    }

    /// Drops the log's entries up to an applied index. The cost is theirs, since the snapshot that a restart begins at moves too.
    pub fn compact(&mut self, index: u64) -> Result<(), CompactFault>
        ensures { IsCompactedTo self.old index result self.new }
    {
        self.state.compact(index)
    }

    /// Sets the election timeout in ticks, until the next reset. Takes no memory.
    pub fn set_timeout(&mut self, timeout: u64)
        ensures { self.new ≡ with_timeout self.old timeout }
    {
        self.state.clock.timeout = timeout;
    }
}
