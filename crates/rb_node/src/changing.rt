//! Applying committed entries.
//!
//! A payload is appended to the content. A change switches the configuration (Ongaro's thesis, sections 4.1 to 4.3). A leader then adds and
//! removes views by the members, and the new quorum may commit more.

ghost use Rattle.std.specs.Prelude.{◌≡◌, ◌+◌, ◌≤◌, [], length, IfOk, OnOk, Ok, Err};
ghost use Rattle.rb_raftlog.specs.declared.entry.Body.TheVariants.{Change};
ghost use Rattle.rb_vocab.specs.declared.change.Transition.TheVariants.{Auto};
ghost use Rattle.rb_raftlog.specs.declared.limits.TheConstants.{MAX_INDEX};
ghost use Rattle.rb_message.specs.declared.event.EventKind.TheVariants as event;
ghost use Rattle.rb_message.specs.Events.{event_at};
ghost use Rattle.rb_node.specs.Node.{node_step, with_event};
ghost use Rattle.rb_node.specs.Changing.{missing, without_view, without_views, transfer_to_non_member_cancelled, new_members_added, members_added, views_updated, steps_down, continued_after_switch, switched, change_applied, applied_one, applied_all, leaves_joint, joint_left};

use crate::state::State;
use rb_message::{Event, EventKind, Role};
use rb_raftlog::{Body, Entry, RaftLog};
use rb_tracker::{ChangeFault, Config};
use rb_vocab::{Shared, Transition, Word};
use std::alloc::AllocError;

impl<L: RaftLog> State<L> {
    fn remove_view(&mut self, id: u64)
        ensures { self.new ≡ without_view self.old id }
    {
        if !self.tracker.config().is_member(id) {
            self.tracker.remove(id);
        }
    }

    // Removes the views of the ids that are not members.
    fn remove_views(&mut self, ids: &[u64])
        ensures { self.new ≡ without_views self.old ids.now }
    {
        for id in ids {
            self.remove_view(*id);
        }
    }

    // The ids without a view.
    fn missing(&self, ids: &[u64]) -> Result<Vec<u64>, AllocError>
        ensures { IfOk result (λ found. found.items ≡ missing self.now.tracker.views ids.now) }
    {
        let mut found = Vec::new(self.alloc);
        for id in ids {
            if !self.tracker.has_view(*id) {
                found.push(*id)?;
            }
        }
        Ok(found)
    }

    // Cancels a transfer to a node that is not a member.
    fn cancel_transfer_to_non_member(&mut self, events: &mut Vec<Event>) -> Result<(), AllocError>
        ensures { OnOk result (node_step self.new events.new.items ≡ transfer_to_non_member_cancelled (node_step self.old events.old.items)) }
    {
        if self.tracker.config().is_member(self.transferee) {
            return Ok(());
        }
        self.end_transfer(events)
    }

    fn add_new_members(&mut self, added: &[u64], events: &mut Vec<Event>) -> Result<(), AllocError>
        ensures { OnOk result (node_step self.new events.new.items ≡ new_members_added (node_step self.old events.old.items) added.now) }
    {
        self.add_views(added, true)?;
        self.cancel_transfer_to_non_member(events)?;
        self.check_commit(added)
    }

    fn add_members(&mut self, events: &mut Vec<Event>) -> Result<(), AllocError>
        ensures { OnOk result (node_step self.new events.new.items ≡ members_added (node_step self.old events.old.items)) }
    {
        let members = self.tracker.config().members()?;
        let added = self.missing(members.as_slice())?;
        self.add_new_members(added.as_slice(), events)
    }

    // Removes the views of nodes that aren't members, and adds views of new members.
    #[tactic(auto, unfolding(crate::specs::Changing::views_updated))]
    fn update_views(&mut self, events: &mut Vec<Event>) -> Result<(), AllocError>
        ensures { OnOk result (node_step self.new events.new.items ≡ views_updated (node_step self.old events.old.items)) }
    {
        let ids = self.tracker.ids()?;
        self.remove_views(ids.as_slice());
        self.add_members(events)
    }

    fn steps_down(&self) -> bool
        ensures { result ≡ steps_down self.now }
    {
        self.options.step_down_on_removal && !self.tracker.config().is_voter(self.id)
    }

    fn continue_after_switch(&mut self, events: &mut Vec<Event>) -> Result<(), AllocError>
        ensures { OnOk result (node_step self.new events.new.items ≡ continued_after_switch (node_step self.old events.old.items)) }
    {
        if self.role != Role::Leader {
            return Ok(());
        }
        if self.steps_down() {
            let term = self.term;
            return self.become_follower(term, 0, events);
        }
        self.update_views(events)
    }

    fn report_switch(&self, config: &Config, events: &mut Vec<Event>) -> Result<(), AllocError>
        ensures { OnOk result (node_step self.now events.new.items ≡ with_event (node_step self.now events.old.items) (event_at self.now.id (event.Switched config.now))) }
    {
        let config = config.try_copy()?;
        events.push(Event {
            id: self.id,
            kind: EventKind::Switched { config },
        })?;
        Ok(())
    }

    fn switch_to(&mut self, config: Config, events: &mut Vec<Event>) -> Result<(), AllocError>
        ensures { OnOk result (node_step self.new events.new.items ≡ switched (Ok config) (node_step self.old events.old.items)) }
    {
        self.report_switch(&config, events)?;
        self.tracker.set_config(config);
        self.continue_after_switch(events)
    }

    fn refuse_change(&self, fault: ChangeFault, events: &mut Vec<Event>) -> Result<(), AllocError>
        ensures { OnOk result (node_step self.now events.new.items ≡ switched (Err fault) (node_step self.now events.old.items)) }
    {
        events.push(Event {
            id: self.id,
            kind: EventKind::RefusedChange {
                index: self.applied,
                fault,
            },
        })?;
        Ok(())
    }

    #[tactic(auto, unfolding(crate::specs::Changing::change_applied))]
    fn apply_change(
        &mut self,
        transition: Transition,
        words: &[Word],
        events: &mut Vec<Event>,
    ) -> Result<(), AllocError>
        ensures { OnOk result (node_step self.new events.new.items ≡ change_applied (node_step self.old events.old.items) transition words.now) }
    {
        match self.tracker.config().changed(transition, words) {
            Ok(config) => self.switch_to(config, events),
            Err(ChangeFault::OutOfMemory) => Err(AllocError),
            Err(fault) => self.refuse_change(fault, events),
        }
    }

    /// Applies one entry.
    pub(crate) fn apply(
        &mut self,
        index: u64,
        entry: &Entry,
        events: &mut Vec<Event>,
    ) -> Result<(), AllocError>
        requires { index ≤ MAX_INDEX }
        ensures { OnOk result (node_step self.new events.new.items ≡ applied_one (node_step self.old events.old.items) index entry.now) }
    {
        self.applied = index;
        match &entry.body {
            Body::Payload(bytes) => self.content.append(bytes.as_slice()),
            Body::Change { transition, words } => {
                self.apply_change(*transition, words.as_slice(), events)
            }
        }
    }

    fn leaves_joint(&self) -> bool
        ensures { result ≡ leaves_joint self.now }
    {
        self.role == Role::Leader
            && self.tracker.config().is_joint()
            && self.tracker.config().auto
            && self.transferee == 0
            && self.pending_change <= self.applied
    }

    fn leaving(&self) -> Result<Body, AllocError>
        ensures { IfOk result (λ body. body ≡ Change Auto []) }
    {
        Ok(Body::Change {
            transition: Transition::Auto,
            words: Shared::new(Vec::new(self.alloc))?,
        })
    }

    /// Makes a leader leave a joint configuration by itself, after the change that entered it is applied.
    #[tactic(auto, unfolding(crate::specs::Changing::joint_left))]
    pub(crate) fn leave_joint(&mut self, events: &mut Vec<Event>) -> Result<(), AllocError>
        ensures { OnOk result (node_step self.new events.new.items ≡ joint_left (node_step self.old events.old.items)) }
    {
        if !self.leaves_joint() {
            return Ok(());
        }
        let body = self.leaving()?;
        self.append_change(body, events)?;
        self.broadcast_append()
    }
}
