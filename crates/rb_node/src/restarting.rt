//! Restarting a node from what it saved.
//!
//! A node saves its hard state, its entries and a snapshot before any message that depends on them goes out (Ongaro's thesis, section 3.8; etcd
//! raft documentation, "Ready"). So after a crash it goes on from them, and nobody was told what it lost. It has applied the snapshot, and applies
//! committed entries again.

ghost use Rattle.std.specs.Prelude.{◌≡◌, OnOk};
ghost use Rattle.rb_node.specs.Node.{node_step};
ghost use Rattle.rb_node.specs.Restarting.{restarted, lost, node_restarted};

use crate::clock::Clock;
use crate::state::State;
use rb_message::{Event, EventKind, Outbox, Role, Unsaved};
use rb_raftlog::RaftLog;
use rb_tracker::{Config, Tracker, Votes};
use std::alloc::AllocError;

impl<L: RaftLog> State<L> {
    // What a restart loses, if it isn't saved.
    fn lost(&self) -> Unsaved
        ensures { result ≡ lost self.now }
    {
        Unsaved {
            term: self.term,
            vote: self.vote,
            durable: self.log.durable(),
            last: self.log.last_index(),
        }
    }

    // Goes back to what is saved.
    fn go_back(&mut self) -> Result<(), AllocError>
        ensures { OnOk result (self.new ≡ restarted self.old) }
    {
        let alloc = self.alloc;
        let start = self.start.snapshot();
        let content = start.content.try_copy()?;
        let config = Config::of_state(alloc, &start.config)?;
        let index = start.index;
        self.log.restart(start)?;
        self.term = self.saved.term;
        self.vote = self.saved.vote;
        self.lead = 0;
        self.role = Role::Follower;
        self.commit = self.saved.commit;
        self.applied = index;
        self.content = content;
        self.tracker = Tracker::new(alloc, config);
        self.votes = Votes::new(alloc);
        self.clock = Clock::new();
        self.transferee = 0;
        self.pending_change = 0;
        self.restored = false;
        self.sent = Outbox::new(alloc);
        self.waiting = Outbox::new(alloc);
        Ok(())
    }

    /// Restarts the node, and reports what it begins with and what it lost.
    pub(crate) fn restart(&mut self, events: &mut Vec<Event>) -> Result<(), AllocError>
        ensures { OnOk result (node_step self.new events.new.items ≡ node_restarted (node_step self.old events.old.items)) }
    {
        let lost = self.lost();
        self.go_back()?;
        events.push(Event {
            id: self.id,
            kind: EventKind::Restarted {
                saved: self.saved,
                base: self.log.first_index() - 1,
                last: self.log.last_index(),
                lost,
            },
        })?;
        Ok(())
    }
}
