//! A follower handles its leader's messages.
//!
//! A follower appends its leader's entries if it holds the entry before them. Otherwise it refuses them, with a hint where the logs may
//! agree (Ongaro's thesis, section 3.5). A leader that has compacted the entries sends a snapshot (section 5.3). A follower forwards
//! proposals and transfers to its leader (section 6.2).

ghost use Rattle.std.specs.Prelude.{◌≡◌, ◌<◌, ◌≤◌, IfOk, OnOk};
ghost use Rattle.rb_raftlog.specs.Log.{last, is_term, term_at, hint, answer, given_way};
ghost use Rattle.rb_raftlog.specs.declared.raft_log.Appended.TheVariants.{Refused};
ghost use Rattle.rb_raftlog.specs.declared.limits.TheConstants.{MAX_INDEX};
ghost use Rattle.rb_message.specs.declared.kind.MessageKind.TheVariants.{Proposal, TransferLeader};
ghost use Rattle.rb_node.specs.Node.{node_step};
ghost use Rattle.rb_node.specs.Following.{HasLimits, leader_contact_recorded, heartbeat_handled, after_log, with_appended, removal_reported, append_entries_handled, restored_to, with_match, new_snapshot_handled, snapshot_handled, forwarded_to_leader, proposal_forwarded, transfer_forwarded};

use crate::state::State;
use rb_message::{Append, Event, EventKind, Install, Message, MessageKind, WhyIgnored};
use rb_raftlog::{Appended, Entries, MAX_INDEX, RaftLog, Snapshot};
use rb_tracker::Config;
use std::alloc::AllocError;

impl<L: RaftLog> State<L> {
    // Records the sender as leader, and restarts the election timer.
    pub(crate) fn record_leader_contact(&mut self, from: u64)
        ensures { self.new ≡ leader_contact_recorded self.old from }
    {
        self.lead = from;
        self.clock.elapsed = 0;
    }

    pub(crate) fn handle_heartbeat(&mut self, from: u64, commit: u64) -> Result<(), AllocError>
        ensures { OnOk result (self.new ≡ heartbeat_handled self.old from commit) }
    {
        self.record_leader_contact(from);
        let last = self.log.last_index();
        self.commit = self.commit.max(commit.min(last));
        self.post(from, MessageKind::HeartbeatResponse)
    }

    // Refuses entries past the limit of indexes, where the log is empty.
    #[tactic(auto, using(crate::proofs::Past::hint_past))]
    fn refuse_past(&self, append: &Append) -> Appended
        requires { MAX_INDEX < append.now.prev }
        ensures refused { result ≡ Refused (hint self.now.log append.now.prev append.now.prev_term) }
        ensures past { last self.now.log < append.now.prev }
    {
        let last = self.log.last_index();
        Appended::Refused(self.log.hint(last, append.prev_term()))
    }

    // Appends a message's entries to the log.
    #[tactic(auto, using(crate::proofs::Past::appended_past, crate::proofs::Past::answer_past))]
    fn append_after(&mut self, from: u64, append: &Append) -> Result<Appended, AllocError>
        ensures node { OnOk result (self.new ≡ with_appended self.old from append.now) }
        ensures answer { IfOk result (λ told. told ≡ answer self.old.log append.now.prev append.now.prev_term append.now.entries self.old.commit) }
        ensures fits { IfOk result (λ told. HasLimits told) }
    {
        self.record_leader_contact(from);
        let prev = append.prev();
        let commit = self.commit;
        if prev > MAX_INDEX {
            return Ok(self.refuse_past(append));
        }
        self.log
            .append_shared(prev, append.prev_term(), append.entries(), commit)
    }

    fn after_log(
        &mut self,
        appended: Appended,
        from: u64,
        append: &Append,
        events: &mut Vec<Event>,
    ) -> Result<(), AllocError>
        requires { HasLimits appended }
        ensures { OnOk result (node_step self.new events.new.items ≡ after_log appended (node_step self.old events.old.items) from append.now) }
    {
        match appended {
            Appended::Matched(index) => {
                self.commit = self.commit.max(append.commit().min(index));
                self.answer(
                    from,
                    self.term,
                    MessageKind::AppendResponse { matched: index },
                )
            }
            Appended::Refused(hint) => {
                let refused = append.prev();
                self.answer(
                    from,
                    self.term,
                    MessageKind::AppendRefusal { refused, hint },
                )
            }
            Appended::BelowCommit(index) => {
                events.push(Event {
                    id: self.id,
                    kind: EventKind::Conflict {
                        index,
                        commit: self.commit,
                    },
                })?;
                Ok(())
            }
        }
    }

    // The entries of the log that give way to a message's entries.
    #[tactic(auto, using(crate::proofs::Past::given_way_past))]
    fn given_way(&self, append: &Append) -> Result<Entries, AllocError>
        ensures { IfOk result (λ gone. gone ≡ given_way self.now.log append.now.prev append.now.prev_term append.now.entries self.now.commit) }
    {
        let prev = append.prev();
        if self.log.last_index() <= prev {
            return Ok(Entries::empty());
        }
        self.log
            .given_way(prev, append.prev_term(), append.entries(), self.commit)
    }

    // Reports the entries of the log that give way to a message's entries, if there are any.
    #[tactic(auto, using(crate::proofs::Past::removal_some))]
    fn report_removal(&self, append: &Append, events: &mut Vec<Event>) -> Result<(), AllocError>
        ensures { OnOk result (node_step self.now events.new.items ≡ removal_reported (node_step self.now events.old.items) append.now) }
    {
        let entries = self.given_way(append)?;
        if entries.is_empty() {
            return Ok(());
        }
        events.push(Event {
            id: self.id,
            kind: EventKind::RemovedEntries {
                last: self.log.last_index(),
                entries,
            },
        })?;
        Ok(())
    }

    // Handles a leader's entries.
    #[tactic(auto, unfolding(crate::specs::Following::append_entries_handled))]
    pub(crate) fn handle_append_entries(
        &mut self,
        from: u64,
        append: &Append,
        events: &mut Vec<Event>,
    ) -> Result<(), AllocError>
        ensures { OnOk result (node_step self.new events.new.items ≡ append_entries_handled (node_step self.old events.old.items) from append.now) }
    {
        self.report_removal(append, events)?;
        let appended = self.append_after(from, append)?;
        self.after_log(appended, from, append, events)
    }

    // Replaces log, content and configuration by those of a snapshot.
    fn restore(&mut self, snapshot: &Snapshot) -> Result<(), AllocError>
        requires { snapshot.now.index ≤ MAX_INDEX }
        ensures { OnOk result (self.new ≡ restored_to self.old snapshot.now) }
    {
        let content = snapshot.content.try_copy()?;
        let config = Config::of_state(self.alloc, &snapshot.config)?;
        self.log.restore(snapshot)?;
        self.commit = snapshot.index;
        self.applied = snapshot.index;
        self.content = content;
        self.tracker.set_config(config);
        self.restored = true;
        Ok(())
    }

    // Answers that the log matches the leader's up to the commit.
    fn answer_match(&mut self, from: u64) -> Result<(), AllocError>
        ensures { OnOk result (self.new ≡ with_match self.old from) }
    {
        let matched = self.commit;
        self.answer(from, self.term, MessageKind::AppendResponse { matched })
    }

    fn handle_new_snapshot(
        &mut self,
        from: u64,
        snapshot: &Snapshot,
        events: &mut Vec<Event>,
    ) -> Result<(), AllocError>
        requires { snapshot.now.index ≤ MAX_INDEX }
        ensures { OnOk result (node_step self.new events.new.items ≡ new_snapshot_handled (node_step self.old events.old.items) from snapshot.now) }
    {
        self.restore(snapshot)?;
        events.push(Event {
            id: self.id,
            kind: EventKind::Restored {
                term: snapshot.term,
                index: snapshot.index,
            },
        })?;
        self.answer_match(from)
    }

    // Whether the log has an entry of this term at an index.
    fn has_entry(&self, index: u64, term: u64) -> bool
        ensures { result ≡ is_term (term_at self.now.log index) term }
    {
        match self.log.term_at(index) {
            Ok(held) => held == term,
            Err(_) => false,
        }
    }

    // Handles a leader's snapshot.
    #[tactic(auto, unfolding(crate::specs::Following::snapshot_handled))]
    pub(crate) fn handle_snapshot(
        &mut self,
        from: u64,
        install: &Install,
        events: &mut Vec<Event>,
    ) -> Result<(), AllocError>
        ensures { OnOk result (node_step self.new events.new.items ≡ snapshot_handled (node_step self.old events.old.items) from install.now) }
    {
        let snapshot = install.snapshot();
        if snapshot.index <= self.commit {
            return self.answer_match(from);
        }
        if self.has_entry(snapshot.index, snapshot.term) {
            self.commit = snapshot.index;
            return self.answer_match(from);
        }
        self.handle_new_snapshot(from, snapshot, events)
    }

    // Forwards a message to the leader, with this node as sender and without a term.
    fn forward_to_leader(&mut self, kind: MessageKind) -> Result<(), AllocError>
        ensures { OnOk result (self.new ≡ forwarded_to_leader self.old kind) }
    {
        self.post_at(self.lead, 0, kind)
    }

    pub(crate) fn forward_proposal(
        &mut self,
        kind: MessageKind,
        events: &mut Vec<Event>,
    ) -> Result<(), AllocError>
        ensures { OnOk result (node_step self.new events.new.items ≡ proposal_forwarded (node_step self.old events.old.items) kind) }
    {
        if self.lead == 0 {
            return self.drop_proposal(events);
        }
        self.forward_to_leader(kind)
    }

    pub(crate) fn forward_transfer(
        &mut self,
        kind: MessageKind,
        message: &Message,
        events: &mut Vec<Event>,
    ) -> Result<(), AllocError>
        ensures { OnOk result (node_step self.new events.new.items ≡ transfer_forwarded (node_step self.old events.old.items) kind message.now) }
    {
        if self.lead == 0 {
            return self.ignore(message, WhyIgnored::NoLeader, events);
        }
        self.forward_to_leader(kind)
    }
}
