//! Votes.
//!
//! A node grants one vote a term, to the first candidate whose log is as up to date as its own (Ongaro's thesis, sections 3.4 and 3.6.1).
//! The response waits until the vote is durable. A candidate counts the first response of each voter.

ghost use Rattle.std.specs.Prelude.{◌≡◌, OnOk, IfOk, true, false};
ghost use Rattle.rb_node.specs.Node.{node_step};
ghost use Rattle.rb_node.specs.Votes.{can_vote_for, grants, why_refused, vote_request_handled, pre_vote_request_handled, count_of, vote_counted, vote_response_handled, pre_vote_response_handled};

use crate::state::State;
use rb_message::{Event, EventKind, Message, MessageKind, WhyRefused};
use rb_raftlog::RaftLog;
use rb_tracker::VoteResult;
use std::alloc::AllocError;

impl<L: RaftLog> State<L> {
    fn can_vote_for(&self, message: &Message, pre_vote: bool) -> bool
        ensures { result ≡ can_vote_for self.now message.now pre_vote }
    {
        self.vote == message.from
            || (self.vote == 0 && self.lead == 0)
            || (pre_vote && self.term < message.term)
    }

    fn grants(&self, message: &Message, last_term: u64, last_index: u64, pre_vote: bool) -> bool
        ensures { result ≡ grants self.now message.now last_term last_index pre_vote }
    {
        self.can_vote_for(message, pre_vote) && self.log.is_up_to_date(last_index, last_term)
    }

    // The reason why a vote is refused.
    fn why_refused(
        &self,
        message: &Message,
        last_term: u64,
        last_index: u64,
        pre_vote: bool,
    ) -> WhyRefused
        ensures { result ≡ why_refused self.now message.now last_term last_index pre_vote }
    {
        if self.can_vote_for(message, pre_vote) {
            return WhyRefused::OlderLog {
                term: last_term,
                index: last_index,
                own_term: self.log.last_term(),
                own_index: self.log.last_index(),
            };
        }
        if self.vote == 0 {
            return WhyRefused::KnowsLeader {
                term: self.term,
                lead: self.lead,
            };
        }
        WhyRefused::Voted {
            term: self.term,
            vote: self.vote,
        }
    }

    // Handles a vote request.
    pub(crate) fn handle_vote_request(
        &mut self,
        message: &Message,
        last_term: u64,
        last_index: u64,
        events: &mut Vec<Event>,
    ) -> Result<(), AllocError>
        ensures { OnOk result (node_step self.new events.new.items ≡ vote_request_handled (node_step self.old events.old.items) message.now last_term last_index) }
    {
        if self.grants(message, last_term, last_index, false) {
            self.vote = message.from;
            self.clock.elapsed = 0;
            return self.answer(
                message.from,
                message.term,
                MessageKind::VoteResponse { granted: true },
            );
        }
        let why = self.why_refused(message, last_term, last_index, false);
        self.answer(
            message.from,
            self.term,
            MessageKind::VoteResponse { granted: false },
        )?;
        self.refuse_vote(message, why, events)
    }

    // Handles a pre-vote request.
    pub(crate) fn handle_pre_vote_request(
        &mut self,
        message: &Message,
        last_term: u64,
        last_index: u64,
        events: &mut Vec<Event>,
    ) -> Result<(), AllocError>
        ensures { OnOk result (node_step self.new events.new.items ≡ pre_vote_request_handled (node_step self.old events.old.items) message.now last_term last_index) }
    {
        if self.grants(message, last_term, last_index, true) {
            return self.answer(
                message.from,
                message.term,
                MessageKind::PreVoteResponse { granted: true },
            );
        }
        let why = self.why_refused(message, last_term, last_index, true);
        self.answer(
            message.from,
            self.term,
            MessageKind::PreVoteResponse { granted: false },
        )?;
        self.refuse_vote(message, why, events)
    }

    // Counts a vote response, the first of each sender.
    fn count_vote(
        &mut self,
        message: &Message,
        granted: bool,
        events: &mut Vec<Event>,
    ) -> Result<VoteResult, AllocError>
        ensures node_step { OnOk result (node_step self.new events.new.items ≡ vote_counted (node_step self.old events.old.items) message.now granted) }
        ensures result { IfOk result (λ count. count ≡ count_of self.old message.now.from granted) }
    {
        self.votes.answer(message.from, granted)?;
        let result = self.votes.result(self.tracker.config());
        events.push(Event {
            id: self.id,
            kind: EventKind::VoteCounted {
                message_type: message.kind.message_type(),
                granted,
                from: message.from,
                result,
            },
        })?;
        Ok(result)
    }

    // Handles a vote response.
    pub(crate) fn handle_vote_response(
        &mut self,
        message: &Message,
        granted: bool,
        events: &mut Vec<Event>,
    ) -> Result<(), AllocError>
        ensures { OnOk result (node_step self.new events.new.items ≡ vote_response_handled (node_step self.old events.old.items) message.now granted) }
    {
        match self.count_vote(message, granted, events)? {
            VoteResult::Won => self.become_leader(events),
            VoteResult::Pending => Ok(()),
            VoteResult::Lost => {
                let term = self.term;
                self.become_follower(term, 0, events)
            }
        }
    }

    // Handles a pre-vote response.
    pub(crate) fn handle_pre_vote_response(
        &mut self,
        message: &Message,
        granted: bool,
        events: &mut Vec<Event>,
    ) -> Result<(), AllocError>
        ensures { OnOk result (node_step self.new events.new.items ≡ pre_vote_response_handled (node_step self.old events.old.items) message.now granted) }
    {
        match self.count_vote(message, granted, events)? {
            VoteResult::Won => self.campaign_after_pre_vote(events),
            VoteResult::Pending => Ok(()),
            VoteResult::Lost => {
                let term = self.term;
                self.become_follower(term, 0, events)
            }
        }
    }
}
