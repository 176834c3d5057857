//! Leading.
//!
//! A leader only appends to its own log. It commits an index once a quorum holds it and its entry has the leader's term (Ongaro's thesis,
//! sections 3.5 and 3.6). Its own entries count once they are durable, by a response to itself.

ghost use Rattle.std.specs.Prelude.{◌≡◌, ◌≤◌, [], false, IsTrue, IfOk, OnOk};
ghost use Rattle.rb_raftlog.specs.declared.entry.Body.TheVariants.{Payload};
ghost use Rattle.rb_raftlog.specs.declared.limits.TheConstants.{MAX_INDEX};
ghost use Rattle.rb_message.specs.declared.event.EventKind.TheVariants as event;
ghost use Rattle.rb_message.specs.Events.{event_at};
ghost use Rattle.rb_node.specs.Node.{node_step, with_event};
ghost use Rattle.rb_node.specs.Leading.{with_own, is_log_full, appended, appended_change, new_view, with_view_of, with_views, leading, became_leader, can_commit, checked_commit};

use crate::state::State;
use rb_message::{Event, EventKind, MessageKind, Role};
use rb_raftlog::{Body, Entry, MAX_INDEX, RaftLog};
use rb_tracker::Progress;
use rb_vocab::Shared;
use std::alloc::AllocError;

impl<L: RaftLog> State<L> {
    pub(crate) fn empty_payload(&self) -> Result<Body, AllocError>
        ensures { IfOk result (λ body. body ≡ Payload []) }
    {
        Ok(Body::Payload(Shared::new(Vec::new(self.alloc))?))
    }

    pub(crate) fn is_log_full(&self) -> bool
        ensures { result ≡ is_log_full self.now }
    {
        MAX_INDEX <= self.log.last_index()
    }

    // Appends an entry of the node's term, and answers itself.
    fn push_own(&mut self, body: Body) -> Result<(), AllocError>
        requires { is_log_full self.old ≡ false }
        ensures { OnOk result (self.new ≡ with_own self.old body) }
    {
        let term = self.term;
        let id = self.id;
        let last = self.log.last_index();
        self.log.push_own(Entry { term, body })?;
        self.answer(id, term, MessageKind::AppendResponse { matched: last + 1 })
    }

    // Reports that the log is full.
    pub(crate) fn append_nothing(&self, events: &mut Vec<Event>) -> Result<(), AllocError>
        ensures { OnOk result (node_step self.now events.new.items ≡ with_event (node_step self.now events.old.items) (event_at self.now.id event.AppendsNothing)) }
    {
        events.push(Event {
            id: self.id,
            kind: EventKind::AppendsNothing,
        })?;
        Ok(())
    }

    pub(crate) fn append(&mut self, body: Body, events: &mut Vec<Event>) -> Result<(), AllocError>
        ensures { OnOk result (node_step self.new events.new.items ≡ appended (node_step self.old events.old.items) body) }
    {
        if self.is_log_full() {
            return self.append_nothing(events);
        }
        self.push_own(body)
    }

    pub(crate) fn append_change(
        &mut self,
        body: Body,
        events: &mut Vec<Event>,
    ) -> Result<(), AllocError>
        ensures { OnOk result (node_step self.new events.new.items ≡ appended_change (node_step self.old events.old.items) body) }
    {
        if self.is_log_full() {
            return self.append_nothing(events);
        }
        let last = self.log.last_index();
        self.push_own(body)?;
        self.pending_change = last + 1;
        Ok(())
    }

    fn new_view(&self, id: u64, active: bool) -> Result<Progress, AllocError>
        ensures { IfOk result (λ view. view ≡ new_view self.now id active) }
    {
        let alloc = self.alloc;
        let capacity = self.options.inflight;
        let next = self.log.last_index() + 1;
        if id == self.id {
            Progress::own(alloc, capacity, self.log.durable(), next)
        } else {
            Progress::new(alloc, capacity, next, active)
        }
    }

    fn add_view(&mut self, id: u64, active: bool) -> Result<(), AllocError>
        ensures { OnOk result (self.new ≡ with_view_of self.old id active) }
    {
        if self.tracker.has_view(id) {
            return Ok(());
        }
        let view = self.new_view(id, active)?;
        self.tracker.add(id, view)
    }

    pub(crate) fn add_views(&mut self, ids: &[u64], active: bool) -> Result<(), AllocError>
        ensures { OnOk result (self.new ≡ with_views self.old ids.now active) }
    {
        for id in ids {
            self.add_view(*id, active)?;
        }
        Ok(())
    }

    fn start_lead(&mut self) -> Result<(), AllocError>
        ensures { OnOk result (self.new ≡ leading self.old) }
    {
        let members = self.tracker.config().members()?;
        let last = self.log.last_index();
        self.reset(self.term);
        self.lead = self.id;
        self.role = Role::Leader;
        let active = !self.options.check_quorum;
        self.add_views(members.as_slice(), active)?;
        self.pending_change = last;
        Ok(())
    }

    // Becomes the leader of its term.
    #[tactic(auto, unfolding(crate::specs::Leading::became_leader))]
    pub(crate) fn become_leader(&mut self, events: &mut Vec<Event>) -> Result<(), AllocError>
        ensures { OnOk result (node_step self.new events.new.items ≡ became_leader (node_step self.old events.old.items)) }
    {
        let id = self.id;
        let term = self.term;
        self.start_lead()?;
        events.push(Event {
            id,
            kind: EventKind::Became {
                role: Role::Leader,
                term,
            },
        })?;
        let body = self.empty_payload()?;
        self.append(body, events)?;
        self.broadcast_append()
    }

    // Whether the node may commit an index that a quorum holds: it is past the commit, and its entry has the node's term.
    #[tactic(auto, using(crate::proofs::Past::is_term_past))]
    pub(crate) fn can_commit(&self, index: u64) -> bool
        ensures can { result ≡ can_commit self.now index }
        ensures fits { IsTrue result → index ≤ MAX_INDEX }
    {
        if index <= self.commit {
            return false;
        }
        if index > self.log.last_index() {
            return false;
        }
        match self.log.term_at(index) {
            Ok(term) => term == self.term,
            Err(_) => false,
        }
    }

    // Commits what a quorum holds and broadcasts it. If the commit doesn't move, sends to these nodes only.
    #[tactic(auto, unfolding(crate::specs::Leading::checked_commit))]
    pub(crate) fn check_commit(&mut self, ids: &[u64]) -> Result<(), AllocError>
        ensures { OnOk result (self.new ≡ checked_commit self.old ids.now) }
    {
        let index = self.tracker.committed()?;
        if self.can_commit(index) {
            self.commit = index;
            return self.broadcast_append();
        }
        self.send_to_each(ids)
    }
}
