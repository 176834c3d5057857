//! Campaigns.
//!
//! A node that hears from no leader becomes a candidate of the next term and requests a vote from each voter (Ongaro's thesis, section
//! 3.4). With pre-vote it first asks whether it would get the votes; this changes neither its term nor its vote (section 9.6).

ghost use Rattle.std.specs.Prelude.{◌≡◌, ◌<◌, OnOk, true};
ghost use Rattle.rb_message.specs.declared.kind.MessageKind.TheVariants.{Vote, PreVote, VoteResponse, PreVoteResponse};
ghost use Rattle.rb_raftlog.specs.declared.limits.TheConstants.{MAX_TERM};
ghost use Rattle.rb_node.specs.Node.{node_step};
ghost use Rattle.rb_node.specs.Campaigns.{why_no_campaign, asked_one, asked, asked_for_votes, asked_for_pre_votes, became_candidate, became_precandidate, campaigned, campaigned_after_pre_vote};

use crate::limits::ELECTION_TICKS;
use crate::state::State;
use rb_message::{Event, EventKind, MessageKind, Role, WhyNoCampaign};
use rb_raftlog::{MAX_TERM, RaftLog};
use std::alloc::AllocError;

impl<L: RaftLog> State<L> {
    // The first reason that keeps the node from campaigning, if any.
    fn why_no_campaign(&self) -> Option<WhyNoCampaign>
        ensures { result ≡ why_no_campaign self.now }
    {
        if self.role == Role::Leader {
            return Some(WhyNoCampaign::Leader);
        }
        if !self.tracker.config().is_voter(self.id) {
            return Some(WhyNoCampaign::NotAVoter);
        }
        if self.restored {
            return Some(WhyNoCampaign::SnapshotPending);
        }
        if self.log.has_change(self.applied, self.commit) {
            return Some(WhyNoCampaign::ChangePending);
        }
        if self.term >= MAX_TERM {
            return Some(WhyNoCampaign::TermLimit);
        }
        None
    }

    // Sends a request to one voter, or answers in the node's own name if that is itself.
    fn ask_one(
        &mut self,
        to: u64,
        term: u64,
        question: MessageKind,
        answer: MessageKind,
    ) -> Result<(), AllocError>
        ensures { OnOk result (self.new ≡ asked_one self.old to term question answer) }
    {
        if to == self.id {
            self.answer(to, term, answer)
        } else {
            self.post_at(to, term, question)
        }
    }

    // Sends the same request to each of these voters.
    fn ask(
        &mut self,
        ids: &[u64],
        term: u64,
        question: &MessageKind,
        answer: &MessageKind,
    ) -> Result<(), AllocError>
        ensures { OnOk result (self.new ≡ asked self.old ids.now term question.now answer.now) }
    {
        for id in ids {
            self.ask_one(*id, term, question.clone()?, answer.clone()?)?;
        }
        Ok(())
    }

    fn ask_for_votes(&mut self, transfer: bool) -> Result<(), AllocError>
        ensures { OnOk result (self.new ≡ asked_for_votes self.old transfer) }
    {
        let voters = self.tracker.config().voters()?;
        let question = MessageKind::Vote {
            last_term: self.log.last_term(),
            last_index: self.log.last_index(),
            transfer,
        };
        let answer = MessageKind::VoteResponse { granted: true };
        self.ask(voters.as_slice(), self.term, &question, &answer)
    }

    fn ask_for_pre_votes(&mut self) -> Result<(), AllocError>
        requires { self.old.term < MAX_TERM }
        ensures { OnOk result (self.new ≡ asked_for_pre_votes self.old) }
    {
        let voters = self.tracker.config().voters()?;
        let question = MessageKind::PreVote {
            last_term: self.log.last_term(),
            last_index: self.log.last_index(),
        };
        let answer = MessageKind::PreVoteResponse { granted: true };
        self.ask(voters.as_slice(), self.term + 1, &question, &answer)
    }

    // Becomes a candidate of the next term, and requests votes.
    fn become_candidate(
        &mut self,
        transfer: bool,
        events: &mut Vec<Event>,
    ) -> Result<(), AllocError>
        requires { self.old.term < MAX_TERM }
        ensures { OnOk result (node_step self.new events.new.items ≡ became_candidate (node_step self.old events.old.items) transfer) }
    {
        self.reset(self.term + 1);
        self.vote = self.id;
        self.role = Role::Candidate;
        events.push(Event {
            id: self.id,
            kind: EventKind::Became {
                role: Role::Candidate,
                term: self.term,
            },
        })?;
        self.ask_for_votes(transfer)
    }

    // Becomes a precandidate, and requests pre-votes.
    fn become_precandidate(&mut self, events: &mut Vec<Event>) -> Result<(), AllocError>
        requires { self.old.term < MAX_TERM }
        ensures { OnOk result (node_step self.new events.new.items ≡ became_precandidate (node_step self.old events.old.items)) }
    {
        self.role = Role::Precandidate;
        self.votes.clear();
        self.lead = 0;
        self.clock.timeout = ELECTION_TICKS;
        events.push(Event {
            id: self.id,
            kind: EventKind::Became {
                role: Role::Precandidate,
                term: self.term,
            },
        })?;
        self.ask_for_pre_votes()
    }

    /// Campaigns, by itself or because the leader transfers leadership to it.
    #[tactic(auto, unfolding(crate::specs::Campaigns::campaigned))]
    pub(crate) fn campaign(
        &mut self,
        transfer: bool,
        events: &mut Vec<Event>,
    ) -> Result<(), AllocError>
        ensures { OnOk result (node_step self.new events.new.items ≡ campaigned (node_step self.old events.old.items) transfer) }
    {
        if let Some(why) = self.why_no_campaign() {
            events.push(Event {
                id: self.id,
                kind: EventKind::CannotCampaign { why },
            })?;
            return Ok(());
        }
        if self.options.pre_vote && !transfer {
            self.become_precandidate(events)
        } else {
            self.become_candidate(transfer, events)
        }
    }

    // Campaigns after a pre-vote was won.
    #[tactic(auto, unfolding(crate::specs::Campaigns::campaigned_after_pre_vote))]
    pub(crate) fn campaign_after_pre_vote(
        &mut self,
        events: &mut Vec<Event>,
    ) -> Result<(), AllocError>
        ensures { OnOk result (node_step self.new events.new.items ≡ campaigned_after_pre_vote (node_step self.old events.old.items)) }
    {
        if let Some(why) = self.why_no_campaign() {
            events.push(Event {
                id: self.id,
                kind: EventKind::CannotCampaign { why },
            })?;
            return Ok(());
        }
        self.become_candidate(false, events)
    }
}
