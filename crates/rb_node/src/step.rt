//! Stepping a message.
//!
//! A step first compares terms. The node adopts a later term, and handles a message of an earlier term separately. In its own term, a table
//! by the node's role decides. Vote requests are handled the same in every role. The node ignores every other message, so messages of a
//! broken cluster are handled too.

ghost use Rattle.std.specs.Prelude.{◌≡◌, OnOk};
ghost use Rattle.rb_message.specs.declared.event.EventKind.TheVariants as event;
ghost use Rattle.rb_message.specs.Events.{event_at};
ghost use Rattle.rb_message.specs.declared.event.WhyIgnored.TheVariants.{NoUse};
ghost use Rattle.rb_node.specs.Node.{node_step, with_event, ignored};
ghost use Rattle.rb_node.specs.Step.{as_follower, leader_followed, as_precandidate, as_candidate, as_leader, by_role, at_term, stepped};

use crate::state::State;
use rb_message::{Event, EventKind, Message, MessageKind, Role, WhyIgnored};
use rb_raftlog::RaftLog;
use std::alloc::AllocError;

impl<L: RaftLog> State<L> {
    /// Steps a message. The message stays the caller's; the node shares what it keeps of it.
    #[tactic(auto, unfolding(crate::specs::Step::stepped))]
    pub(crate) fn step(
        &mut self,
        message: &Message,
        events: &mut Vec<Event>,
    ) -> Result<(), AllocError>
        ensures { OnOk result (node_step self.new events.new.items ≡ stepped (node_step self.old events.old.items) message.now) }
    {
        if !message.kind.has_term() || message.term == self.term {
            return self.step_at_term(message, events);
        }
        if message.term < self.term {
            return self.step_earlier(message, events);
        }
        if self.ignores_campaign(&message.kind) {
            return self.ignore(message, WhyIgnored::HearsLeader { lead: self.lead }, events);
        }
        self.step_later(message, events)?;
        self.step_at_term(message, events)
    }

    fn step_at_term(&mut self, message: &Message, events: &mut Vec<Event>) -> Result<(), AllocError>
        ensures { OnOk result (node_step self.new events.new.items ≡ at_term (node_step self.old events.old.items) message.now) }
    {
        match &message.kind {
            MessageKind::Vote {
                last_term,
                last_index,
                ..
            } => self.handle_vote_request(message, *last_term, *last_index, events),
            MessageKind::PreVote {
                last_term,
                last_index,
            } => self.handle_pre_vote_request(message, *last_term, *last_index, events),
            _ => self.step_by_role(message, events),
        }
    }

    fn step_by_role(&mut self, message: &Message, events: &mut Vec<Event>) -> Result<(), AllocError>
        ensures { OnOk result (node_step self.new events.new.items ≡ by_role (node_step self.old events.old.items) message.now) }
    {
        match self.role {
            Role::Follower => self.step_as_follower(message, events),
            Role::Precandidate => self.step_as_precandidate(message, events),
            Role::Candidate => self.step_as_candidate(message, events),
            Role::Leader => self.step_as_leader(message, events),
        }
    }

    // Ignores a message that a node in this role doesn't handle.
    fn ignore_by_role(
        &self,
        role: Role,
        message: &Message,
        events: &mut Vec<Event>,
    ) -> Result<(), AllocError>
        ensures { OnOk result (node_step self.now events.new.items ≡ ignored (node_step self.now events.old.items) message.now (NoUse role)) }
    {
        self.ignore(message, WhyIgnored::NoUse { role }, events)
    }

    fn step_as_follower(
        &mut self,
        message: &Message,
        events: &mut Vec<Event>,
    ) -> Result<(), AllocError>
        ensures { OnOk result (node_step self.new events.new.items ≡ as_follower message.now.kind (node_step self.old events.old.items) message.now) }
    {
        let from = message.from;
        match &message.kind {
            MessageKind::Append(append) => self.handle_append_entries(from, append, events),
            MessageKind::Heartbeat { commit } => self.handle_heartbeat(from, *commit),
            MessageKind::Snapshot(install) => {
                self.record_leader_contact(from);
                self.handle_snapshot(from, install, events)
            }
            MessageKind::Proposal(body) => {
                let kind = MessageKind::Proposal(body.try_copy()?);
                self.forward_proposal(kind, events)
            }
            MessageKind::TransferLeader { target } => {
                self.forward_transfer(
                    MessageKind::TransferLeader { target: *target },
                    message,
                    events,
                )
            }
            MessageKind::TimeoutNow => self.campaign(true, events),
            _ => self.ignore_by_role(Role::Follower, message, events),
        }
    }

    // Follows the leader of the node's term, and then handles its message.
    fn follow_leader(
        &mut self,
        message: &Message,
        events: &mut Vec<Event>,
    ) -> Result<(), AllocError>
        ensures { OnOk result (node_step self.new events.new.items ≡ leader_followed (node_step self.old events.old.items) message.now) }
    {
        let term = self.term;
        self.become_follower(term, message.from, events)?;
        self.step_as_follower(message, events)
    }

    pub(crate) fn drop_proposal(&self, events: &mut Vec<Event>) -> Result<(), AllocError>
        ensures { OnOk result (node_step self.now events.new.items ≡ with_event (node_step self.now events.old.items) (event_at self.now.id event.DroppedProposal)) }
    {
        events.push(Event {
            id: self.id,
            kind: EventKind::DroppedProposal,
        })?;
        Ok(())
    }

    fn step_as_precandidate(
        &mut self,
        message: &Message,
        events: &mut Vec<Event>,
    ) -> Result<(), AllocError>
        ensures { OnOk result (node_step self.new events.new.items ≡ as_precandidate message.now.kind (node_step self.old events.old.items) message.now) }
    {
        match &message.kind {
            MessageKind::PreVoteResponse { granted } => self.handle_pre_vote_response(
                message, *granted, events,
            ),
            MessageKind::Append(_) | MessageKind::Heartbeat { .. } | MessageKind::Snapshot(_) => {
                self.follow_leader(message, events)
            }
            MessageKind::Proposal(_) => self.drop_proposal(events),
            _ => self.ignore_by_role(Role::Precandidate, message, events),
        }
    }

    fn step_as_candidate(
        &mut self,
        message: &Message,
        events: &mut Vec<Event>,
    ) -> Result<(), AllocError>
        ensures { OnOk result (node_step self.new events.new.items ≡ as_candidate message.now.kind (node_step self.old events.old.items) message.now) }
    {
        match &message.kind {
            MessageKind::VoteResponse { granted } => self.handle_vote_response(
                message, *granted, events,
            ),
            MessageKind::Append(_) | MessageKind::Heartbeat { .. } | MessageKind::Snapshot(_) => {
                self.follow_leader(message, events)
            }
            MessageKind::Proposal(_) => self.drop_proposal(events),
            _ => self.ignore_by_role(Role::Candidate, message, events),
        }
    }

    fn step_as_leader(
        &mut self,
        message: &Message,
        events: &mut Vec<Event>,
    ) -> Result<(), AllocError>
        ensures { OnOk result (node_step self.new events.new.items ≡ as_leader message.now.kind (node_step self.old events.old.items) message.now) }
    {
        match &message.kind {
            MessageKind::Proposal(body) => self.handle_proposal(body, events),
            MessageKind::AppendResponse { matched } => self.handle_append_response(
                message, *matched, events,
            ),
            MessageKind::AppendRefusal { refused, hint } => self.handle_append_refusal(
                message, *refused, *hint, events,
            ),
            MessageKind::HeartbeatResponse => self.handle_heartbeat_response(message, events),
            MessageKind::TransferLeader { target } => self.handle_transfer_leader(
                message, *target, events,
            ),
            _ => self.ignore_by_role(Role::Leader, message, events),
        }
    }
}
