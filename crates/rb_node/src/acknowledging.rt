//! A leader handles its followers' responses.
//!
//! A follower's response says how much of the leader's log it holds. The leader commits an index once a quorum holds it, and sends the next
//! entries (Ongaro's thesis, sections 3.5 and 3.6; etcd raft documentation, "Progress").

ghost use Rattle.std.specs.Prelude.{◌≡◌, ◌<◌, ◌≤◌, length, OnOk};
ghost use Rattle.rb_raftlog.specs.declared.limits.TheConstants.{MAX_INDEX};
ghost use Rattle.rb_tracker.specs.Trackers.{view_at};
ghost use Rattle.rb_node.specs.Node.{node_step};
ghost use Rattle.rb_node.specs.Acknowledging.{marked_active, transfer_finished_to, commit_or_sent, reason_after, match_advanced, append_response_handled_with, append_response_handled, why_old, append_refusal_handled_with, append_refusal_handled, lags, heartbeat_response_handled_with, heartbeat_response_handled};

use crate::sends::SendReason;
use crate::state::State;
use rb_message::{Event, Message, MessageKind, WhyIgnored};
use rb_raftlog::RaftLog;
use rb_tracker::{Progress, ProgressState};
use std::alloc::AllocError;

fn reason_after(paused: bool) -> SendReason
    ensures { result ≡ reason_after paused }
{
    if paused {
        SendReason::Tell
    } else {
        SendReason::News
    }
}

// Says why a refusal of the entries after an index is stale.
fn why_old(view: &Progress, from: u64, index: u64) -> WhyIgnored
    ensures { result ≡ why_old view.now.state view.now from index }
{
    match view.state() {
        ProgressState::Probe => WhyIgnored::ProbesElsewhere {
            from,
            refused: index,
            probed: view.next().saturating_sub(1),
        },
        ProgressState::Replicate => WhyIgnored::HoldsMore {
            from,
            refused: index,
            matched: view.matched(),
        },
        ProgressState::Snapshot => WhyIgnored::AwaitsSnapshot { from },
    }
}

impl<L: RaftLog> State<L> {
    // Marks the follower with the view at a place as active.
    fn mark_active(&mut self, place: usize)
        requires { place < length self.old.tracker.views }
        ensures node { self.new ≡ marked_active self.old place }
        ensures within { place < length self.new.tracker.views }
    {
        self.tracker.set_active(place, true);
    }

    // Sends TimeoutNow to the transfer's target once it holds the whole log.
    fn finish_transfer_to(&mut self, to: u64, index: u64) -> Result<(), AllocError>
        ensures { OnOk result (self.new ≡ transfer_finished_to self.old to index) }
    {
        if to == self.transferee && index == self.log.last_index() {
            return self.post(to, MessageKind::TimeoutNow);
        }
        Ok(())
    }

    // Commits what a quorum holds and broadcasts it. If the commit doesn't move, sends the follower the entries that it lacks.
    #[tactic(auto, unfolding(crate::specs::Acknowledging::commit_or_sent))]
    fn commit_or_send(&mut self, to: u64, mode: SendReason) -> Result<(), AllocError>
        ensures { OnOk result (self.new ≡ commit_or_sent self.old to mode) }
    {
        let index = self.tracker.committed()?;
        if self.can_commit(index) {
            self.commit = index;
            return self.broadcast_append();
        }
        self.send(to, mode)
    }

    fn advance_match(&mut self, place: usize, from: u64, index: u64) -> Result<(), AllocError>
        requires place { place < length self.old.tracker.views }
        requires fits { index ≤ MAX_INDEX }
        ensures { OnOk result (self.new ≡ match_advanced (view_at self.old.tracker.views place) self.old place from index) }
    {
        let paused = self.tracker.progress(place).paused();
        self.tracker.view_mut(place).acked(index);
        self.commit_or_send(from, reason_after(paused))?;
        self.finish_transfer_to(from, index)
    }

    fn handle_append_response_at(
        &mut self,
        place: usize,
        from: u64,
        index: u64,
    ) -> Result<(), AllocError>
        requires place { place < length self.old.tracker.views }
        requires fits { index ≤ MAX_INDEX }
        ensures { OnOk result (self.new ≡ append_response_handled_with (view_at self.old.tracker.views place) self.old place from index) }
    {
        if self.tracker.progress(place).is_news(index) {
            self.advance_match(place, from, index)
        } else {
            self.tracker.view_mut(place).free_through(index);
            Ok(())
        }
    }

    // Handles an append response: the follower holds the log up to an index. An index past the leader's last one counts as the last one.
    #[tactic(auto, unfolding(crate::specs::Acknowledging::append_response_handled))]
    pub(crate) fn handle_append_response(
        &mut self,
        message: &Message,
        index: u64,
        events: &mut Vec<Event>,
    ) -> Result<(), AllocError>
        ensures { OnOk result (node_step self.new events.new.items ≡ append_response_handled (node_step self.old events.old.items) message.now index) }
    {
        let index = index.min(self.log.last_index());
        match self.tracker.place(message.from) {
            Some(place) => {
                self.mark_active(place);
                self.handle_append_response_at(place, message.from, index)
            }
            None => self.ignore(message, WhyIgnored::NoView { from: message.from }, events),
        }
    }

    fn handle_append_refusal_at(
        &mut self,
        place: usize,
        message: &Message,
        index: u64,
        hint: u64,
        events: &mut Vec<Event>,
    ) -> Result<(), AllocError>
        requires { place < length self.old.tracker.views }
        ensures { OnOk result (node_step self.new events.new.items ≡ append_refusal_handled_with (view_at self.old.tracker.views place) (node_step self.old events.old.items) place message.now index hint) }
    {
        if !self.tracker.progress(place).is_current_reject(index) {
            let why = why_old(self.tracker.progress(place), message.from, index);
            return self.ignore(message, why, events);
        }
        self.tracker.view_mut(place).refused(index, hint);
        self.send(message.from, SendReason::Tell)
    }

    // Handles an append response that refuses the entries after an index.
    #[tactic(auto, unfolding(crate::specs::Acknowledging::append_refusal_handled))]
    pub(crate) fn handle_append_refusal(
        &mut self,
        message: &Message,
        index: u64,
        hint: u64,
        events: &mut Vec<Event>,
    ) -> Result<(), AllocError>
        ensures { OnOk result (node_step self.new events.new.items ≡ append_refusal_handled (node_step self.old events.old.items) message.now index hint) }
    {
        match self.tracker.place(message.from) {
            Some(place) => {
                self.mark_active(place);
                self.handle_append_refusal_at(place, message, index, hint, events)
            }
            None => self.ignore(message, WhyIgnored::NoView { from: message.from }, events),
        }
    }

    fn lags(&self, view: &Progress) -> bool
        ensures { result ≡ lags self.now view.now }
    {
        view.matched() < self.log.last_index() || view.state() == ProgressState::Probe
    }

    fn handle_heartbeat_response_at(&mut self, place: usize, from: u64) -> Result<(), AllocError>
        requires { place < length self.old.tracker.views }
        ensures { OnOk result (self.new ≡ heartbeat_response_handled_with (view_at self.old.tracker.views place) self.old place from) }
    {
        let lags = self.lags(self.tracker.progress(place));
        self.tracker.view_mut(place).resume();
        if lags {
            return self.send(from, SendReason::Ping);
        }
        Ok(())
    }

    // Handles a heartbeat response.
    #[tactic(auto, unfolding(crate::specs::Acknowledging::heartbeat_response_handled))]
    pub(crate) fn handle_heartbeat_response(
        &mut self,
        message: &Message,
        events: &mut Vec<Event>,
    ) -> Result<(), AllocError>
        ensures { OnOk result (node_step self.new events.new.items ≡ heartbeat_response_handled (node_step self.old events.old.items) message.now) }
    {
        match self.tracker.place(message.from) {
            Some(place) => {
                self.mark_active(place);
                self.handle_heartbeat_response_at(place, message.from)
            }
            None => self.ignore(message, WhyIgnored::NoView { from: message.from }, events),
        }
    }
}
