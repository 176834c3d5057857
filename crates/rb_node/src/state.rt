//! A node's state.

ghost use Rattle.std.specs.Prelude.{◌≡◌, ◌≤◌, IfOk, OnOk};
ghost use Rattle.rb_raftlog.specs.declared.limits.TheConstants.{MAX_INDEX};
ghost use Rattle.rb_node.specs.Node.{PlainNode, node_step, started, posted, posted_at, answered_with, ignored};

mod copies;

use crate::clock::Clock;
use crate::options::Options;
use rb_message::{
    Event, EventKind, HardState, Install, Message, MessageKind, Outbox, Role, WhyIgnored,
};
use rb_raftlog::{Content, RaftLog, Snapshot};
use rb_tracker::{Config, Tracker, Votes};
use std::alloc::{AllocError, Global};
use std::marker::Model;

/// A node's state (Ongaro's thesis, figure 3.1, and what etcd's raft adds). Only the calls of a node change it.
#[derive(Drop)]
pub struct State<L: RaftLog> {
    /// The node's id.
    pub id: u64,
    pub term: u64,
    /// The node that got this node's vote in its term, or 0.
    pub vote: u64,
    /// The known leader, or 0.
    pub lead: u64,
    pub role: Role,
    pub log: L,
    /// The saved snapshot, which a restart begins at.
    pub start: Install,
    /// The last index known to be committed.
    pub commit: u64,
    /// The last applied index.
    pub applied: u64,
    /// The applied payloads, joined.
    pub content: Content,
    /// The configuration, and a leader's view of each member.
    pub tracker: Tracker,
    /// The votes in the node's campaign.
    pub votes: Votes,
    pub clock: Clock,
    /// The target of a leadership transfer, or 0.
    pub transferee: u64,
    /// The last index at which the log may have an unapplied change.
    pub pending_change: u64,
    /// The last saved hard state.
    pub saved: HardState,
    /// Whether a restored snapshot isn't durable yet.
    pub restored: bool,
    /// Messages that go out with the next ready.
    pub sent: Outbox,
    /// Answers that wait until what they depend on is durable.
    pub waiting: Outbox,
    pub options: Options,
    /// The allocator.
    pub alloc: Global,
}

impl<L: RaftLog> Model for State<L> {
    ghost use Rattle.rb_node.specs.Node.{PlainNode, IsNode};

    ghost Value = { PlainNode };

    ghost view = { λ n. record {
      id = n.id;
      term = n.term;
      vote = n.vote;
      lead = n.lead;
      role = n.role;
      log = L.plain n.log;
      start = n.start;
      commit = n.commit;
      applied = n.applied;
      content = n.content;
      tracker = n.tracker;
      votes = n.votes;
      clock = n.clock;
      transferee = n.transferee;
      pending_change = n.pending_change;
      saved = n.saved;
      restored = n.restored;
      sent = n.sent;
      waiting = n.waiting;
      options = n.options;
    } };

    ghost invariant = { λ n. IsNode n.commit n.applied n.saved.commit };
}

impl<L: RaftLog> State<L> {
    /// Starts a node at a snapshot, as a follower of nobody in term 0.
    pub(crate) fn new(
        alloc: Global,
        id: u64,
        start: &Snapshot,
        options: Options,
    ) -> Result<State<L>, AllocError>
        requires { start.now.index ≤ MAX_INDEX }
        ensures { IfOk result (λ node. node ≡ started id start.now options) }
    {
        let index = start.index;
        let log = L::fresh(alloc, index, start.term)?;
        let content = start.content.try_copy()?;
        let config = Config::of_state(alloc, &start.config)?;
        let start = Install::new(alloc, start.try_copy()?)?;
        Ok(State {
            id,
            term: 0,
            vote: 0,
            lead: 0,
            role: Role::Follower,
            log,
            start,
            commit: index,
            applied: index,
            content,
            tracker: Tracker::new(alloc, config),
            votes: Votes::new(alloc),
            clock: Clock::new(),
            transferee: 0,
            pending_change: 0,
            saved: HardState {
                term: 0,
                vote: 0,
                commit: index,
            },
            restored: false,
            sent: Outbox::new(alloc),
            waiting: Outbox::new(alloc),
            options,
            alloc,
        })
    }

    /// Sends a message of the node's term with the next ready.
    pub(crate) fn post(&mut self, to: u64, kind: MessageKind) -> Result<(), AllocError>
        ensures { OnOk result (self.new ≡ posted self.old to kind) }
    {
        self.post_at(to, self.term, kind)
    }

    /// Sends a message of a given term with the next ready.
    pub(crate) fn post_at(
        &mut self,
        to: u64,
        term: u64,
        kind: MessageKind,
    ) -> Result<(), AllocError>
        ensures { OnOk result (self.new ≡ posted_at self.old to term kind) }
    {
        let from = self.id;
        self.sent.push(Message {
            from,
            to,
            term,
            kind,
        })?;
        Ok(())
    }

    /// Sends an answer after the next ready is durable.
    pub(crate) fn answer(&mut self, to: u64, term: u64, kind: MessageKind) -> Result<(), AllocError>
        ensures { OnOk result (self.new ≡ answered_with self.old to term kind) }
    {
        let from = self.id;
        self.waiting.push(Message {
            from,
            to,
            term,
            kind,
        })?;
        Ok(())
    }

    /// Ignores a message, and reports why.
    pub(crate) fn ignore(
        &self,
        message: &Message,
        why: WhyIgnored,
        events: &mut Vec<Event>,
    ) -> Result<(), AllocError>
        ensures { OnOk result (node_step self.now events.new.items ≡ ignored (node_step self.now events.old.items) message.now why) }
    {
        events.push(Event {
            id: self.id,
            kind: EventKind::Ignored {
                message_type: message.kind.message_type(),
                from: message.from,
                why,
            },
        })?;
        Ok(())
    }
}
