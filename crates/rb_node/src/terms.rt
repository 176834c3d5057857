//! Terms.
//!
//! Terms number elections (Ongaro's thesis, section 3.3). A node adopts a later term as a follower. It ignores messages of an earlier term,
//! unless the sender would otherwise never learn of the later one.

ghost use Rattle.std.specs.Prelude.{◌≡◌, OnOk};
ghost use Rattle.rb_node.specs.Node.{node_step};
ghost use Rattle.rb_node.specs.Terms.{reset, became_follower, stepped_later, earlier_term_ignored, refused_vote, term_revealed, stepped_earlier, hears_leader, ignores_campaign};

use crate::clock::Clock;
use crate::limits::ELECTION_TICKS;
use crate::state::State;
use rb_message::{Event, EventKind, Message, MessageKind, Role, WhyIgnored, WhyRefused};
use rb_raftlog::RaftLog;
use std::alloc::AllocError;

impl<L: RaftLog> State<L> {
    // Resets the state for the beginning of a term.
    pub(crate) fn reset(&mut self, term: u64)
        ensures { self.new ≡ reset self.old term }
    {
        if self.term != term {
            self.vote = 0;
        }
        self.term = term;
        self.lead = 0;
        self.clock = Clock::new();
        self.votes.clear();
        self.tracker.clear();
        self.transferee = 0;
        self.pending_change = 0;
    }

    /// Becomes a follower in a term, with or without a known leader.
    pub(crate) fn become_follower(
        &mut self,
        term: u64,
        lead: u64,
        events: &mut Vec<Event>,
    ) -> Result<(), AllocError>
        ensures { OnOk result (node_step self.new events.new.items ≡ became_follower (node_step self.old events.old.items) term lead) }
    {
        self.reset(term);
        self.lead = lead;
        self.role = Role::Follower;
        events.push(Event {
            id: self.id,
            kind: EventKind::Became {
                role: Role::Follower,
                term,
            },
        })?;
        Ok(())
    }

    // Adopts a message's later term.
    pub(crate) fn step_later(
        &mut self,
        message: &Message,
        events: &mut Vec<Event>,
    ) -> Result<(), AllocError>
        ensures { OnOk result (node_step self.new events.new.items ≡ stepped_later (node_step self.old events.old.items) message.now) }
    {
        match &message.kind {
            MessageKind::PreVote { .. } => Ok(()),
            MessageKind::PreVoteResponse { granted: true } => Ok(()),
            MessageKind::Append(_) | MessageKind::Heartbeat { .. } | MessageKind::Snapshot(_) => {
                self.become_follower(message.term, message.from, events)
            }
            _ => self.become_follower(message.term, 0, events),
        }
    }

    // Ignores a message of an earlier term.
    fn ignore_earlier_term(
        &self,
        message: &Message,
        events: &mut Vec<Event>,
    ) -> Result<(), AllocError>
        ensures { OnOk result (node_step self.now events.new.items ≡ earlier_term_ignored (node_step self.now events.old.items) message.now) }
    {
        let why = WhyIgnored::EarlierTerm {
            term: message.term,
            own: self.term,
        };
        self.ignore(message, why, events)
    }

    /// Reports why a vote is refused.
    pub(crate) fn refuse_vote(
        &self,
        message: &Message,
        why: WhyRefused,
        events: &mut Vec<Event>,
    ) -> Result<(), AllocError>
        ensures { OnOk result (node_step self.now events.new.items ≡ refused_vote (node_step self.now events.old.items) message.now why) }
    {
        events.push(Event {
            id: self.id,
            kind: EventKind::RefusedVote {
                message_type: message.kind.message_type(),
                from: message.from,
                why,
            },
        })?;
        Ok(())
    }

    // Answers a leader of an earlier term, so that it learns the later one, if it might not learn it otherwise.
    fn reveal_term(&mut self, message: &Message, events: &mut Vec<Event>) -> Result<(), AllocError>
        ensures { OnOk result (node_step self.new events.new.items ≡ term_revealed (node_step self.old events.old.items) message.now) }
    {
        if self.options.pre_vote || self.options.check_quorum {
            return self.answer(
                message.from,
                self.term,
                MessageKind::AppendResponse { matched: 0 },
            );
        }
        self.ignore_earlier_term(message, events)
    }

    // Steps a message of an earlier term.
    pub(crate) fn step_earlier(
        &mut self,
        message: &Message,
        events: &mut Vec<Event>,
    ) -> Result<(), AllocError>
        ensures { OnOk result (node_step self.new events.new.items ≡ stepped_earlier (node_step self.old events.old.items) message.now) }
    {
        match &message.kind {
            MessageKind::PreVote { .. } => {
                let own = self.term;
                self.answer(
                    message.from,
                    own,
                    MessageKind::PreVoteResponse { granted: false },
                )?;
                let term = message.term;
                self.refuse_vote(message, WhyRefused::EarlierTerm { term, own }, events)
            }
            MessageKind::Append(_) | MessageKind::Heartbeat { .. } => {
                self.reveal_term(message, events)
            }
            _ => self.ignore_earlier_term(message, events),
        }
    }

    fn hears_leader(&self) -> bool
        ensures { result ≡ hears_leader self.now }
    {
        self.options.check_quorum && self.lead != 0 && self.clock.elapsed < ELECTION_TICKS
    }

    // Whether the node ignores a vote request because it hears from a leader.
    pub(crate) fn ignores_campaign(&self, kind: &MessageKind) -> bool
        ensures { result ≡ ignores_campaign kind.now self.now }
    {
        match kind {
            MessageKind::Vote { transfer, .. } => self.hears_leader() && !*transfer,
            MessageKind::PreVote { .. } => self.hears_leader(),
            _ => false,
        }
    }
}
