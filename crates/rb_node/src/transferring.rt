//! Leadership transfers.
//!
//! A leader brings another voter's log up to date and then asks it to campaign at once (Ongaro's thesis, section 3.10). Meanwhile the
//! leader drops proposals.

ghost use Rattle.std.specs.Prelude.{◌≡◌, OnOk};
ghost use Rattle.rb_node.specs.Node.{node_step};
ghost use Rattle.rb_node.specs.Transferring.{cannot_take_lead, why_no_transfer, previous_transfer_ended, timeout_now_sent, transfer_started, transfer_leader_handled, transfer_ended};

use crate::sends::SendReason;
use crate::state::State;
use rb_message::{Event, EventKind, Message, MessageKind, WhyIgnored};
use rb_raftlog::RaftLog;
use std::alloc::AllocError;

impl<L: RaftLog> State<L> {
    fn cannot_take_lead(&self, target: u64) -> bool
        ensures { result ≡ cannot_take_lead self.now target }
    {
        !self.tracker.config().is_voter(target) || target == self.id || target == self.transferee
    }

    // The first reason to refuse a transfer to a node.
    fn why_no_transfer(&self, target: u64) -> WhyIgnored
        ensures { result ≡ why_no_transfer self.now target }
    {
        if !self.tracker.config().is_voter(target) {
            return WhyIgnored::NotAVoter { target };
        }
        if target == self.id {
            return WhyIgnored::LeadsAlready { target };
        }
        WhyIgnored::IsUnderWay { target }
    }

    fn end_previous_transfer(&self, events: &mut Vec<Event>) -> Result<(), AllocError>
        ensures { OnOk result (node_step self.now events.new.items ≡ previous_transfer_ended (node_step self.now events.old.items)) }
    {
        if self.transferee != 0 {
            events.push(Event {
                id: self.id,
                kind: EventKind::TransferEnds {
                    to: self.transferee,
                },
            })?;
        }
        Ok(())
    }

    // Sends TimeoutNow to a target that holds the whole log. Sends entries to one that lags.
    fn send_timeout_now(&mut self, target: u64) -> Result<(), AllocError>
        ensures { OnOk result (self.new ≡ timeout_now_sent self.old target) }
    {
        if self.tracker.match_of(target) == self.log.last_index() {
            return self.post(target, MessageKind::TimeoutNow);
        }
        self.send(target, SendReason::Tell)
    }

    fn start_transfer(&mut self, target: u64, events: &mut Vec<Event>) -> Result<(), AllocError>
        ensures { OnOk result (node_step self.new events.new.items ≡ transfer_started (node_step self.old events.old.items) target) }
    {
        events.push(Event {
            id: self.id,
            kind: EventKind::TransferStarts { to: target },
        })?;
        self.clock.elapsed = 0;
        self.transferee = target;
        self.send_timeout_now(target)
    }

    // Handles a request to transfer leadership.
    #[tactic(auto, unfolding(crate::specs::Transferring::transfer_leader_handled))]
    pub(crate) fn handle_transfer_leader(
        &mut self,
        message: &Message,
        target: u64,
        events: &mut Vec<Event>,
    ) -> Result<(), AllocError>
        ensures { OnOk result (node_step self.new events.new.items ≡ transfer_leader_handled (node_step self.old events.old.items) message.now target) }
    {
        if self.cannot_take_lead(target) {
            return self.ignore(message, self.why_no_transfer(target), events);
        }
        self.end_previous_transfer(events)?;
        self.start_transfer(target, events)
    }

    /// Cancels the transfer, if there is one.
    #[tactic(auto, unfolding(crate::specs::Transferring::transfer_ended))]
    pub(crate) fn end_transfer(&mut self, events: &mut Vec<Event>) -> Result<(), AllocError>
        ensures { OnOk result (node_step self.new events.new.items ≡ transfer_ended (node_step self.old events.old.items)) }
    {
        if self.transferee != 0 {
            events.push(Event {
                id: self.id,
                kind: EventKind::TransferEnds {
                    to: self.transferee,
                },
            })?;
            self.transferee = 0;
        }
        Ok(())
    }
}
