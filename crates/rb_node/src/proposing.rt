//! Proposing.
//!
//! A leader appends a proposal to its log and replicates it (Ongaro's thesis, section 3.5). Only one configuration change may be in
//! progress (section 4.1): the leader replaces another by an empty entry.

ghost use Rattle.std.specs.Prelude.{◌≡◌, OnOk, false};
ghost use Rattle.rb_node.specs.Node.{node_step};
ghost use Rattle.rb_node.specs.Leading.{is_log_full};
ghost use Rattle.rb_node.specs.Proposing.{why_replaced, change_or_empty_appended, proposal_appended, drops_proposals, proposal_handled};

use crate::state::State;
use rb_message::{Event, EventKind, WhyReplaced};
use rb_raftlog::{Body, RaftLog};
use std::alloc::AllocError;

impl<L: RaftLog> State<L> {
    // The first reason to replace a change by an empty entry, if any.
    fn why_replaced(&self, words: usize) -> Option<WhyReplaced>
        ensures { result ≡ why_replaced self.now words }
    {
        if self.applied < self.pending_change {
            return Some(WhyReplaced::Unapplied);
        }
        if self.tracker.config().is_joint() && words != 0 {
            return Some(WhyReplaced::Joint);
        }
        if words == 0 && !self.tracker.config().is_joint() {
            return Some(WhyReplaced::NotJoint);
        }
        None
    }

    fn append_change_or_empty(
        &mut self,
        why: Option<WhyReplaced>,
        body: Body,
        events: &mut Vec<Event>,
    ) -> Result<(), AllocError>
        requires { is_log_full self.old ≡ false }
        ensures { OnOk result (node_step self.new events.new.items ≡ change_or_empty_appended why (node_step self.old events.old.items) body) }
    {
        match why {
            None => self.append_change(body, events),
            Some(why) => {
                events.push(Event {
                    id: self.id,
                    kind: EventKind::ReplacedChange {
                        index: self.log.last_index() + 1,
                        why,
                    },
                })?;
                let body = self.empty_payload()?;
                self.append(body, events)
            }
        }
    }

    fn append_proposal(&mut self, body: &Body, events: &mut Vec<Event>) -> Result<(), AllocError>
        ensures { OnOk result (node_step self.new events.new.items ≡ proposal_appended body.now (node_step self.old events.old.items)) }
    {
        let copy = body.try_copy()?;
        match body {
            Body::Payload(_) => self.append(copy, events),
            Body::Change { words, .. } => {
                if self.is_log_full() {
                    return self.append_nothing(events);
                }
                let why = self.why_replaced(words.len());
                self.append_change_or_empty(why, copy, events)
            }
        }
    }

    fn drops_proposals(&self) -> bool
        ensures { result ≡ drops_proposals self.now }
    {
        !self.tracker.has_view(self.id) || self.transferee != 0
    }

    // Handles a proposal at a leader.
    #[tactic(auto, unfolding(crate::specs::Proposing::proposal_handled))]
    pub(crate) fn handle_proposal(
        &mut self,
        body: &Body,
        events: &mut Vec<Event>,
    ) -> Result<(), AllocError>
        ensures { OnOk result (node_step self.new events.new.items ≡ proposal_handled (node_step self.old events.old.items) body.now) }
    {
        if self.drops_proposals() {
            return self.drop_proposal(events);
        }
        self.append_proposal(body, events)?;
        self.broadcast_append()
    }
}
