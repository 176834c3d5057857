//! A leader sends entries or a snapshot to a follower.
//!
//! The leader's view of a follower decides. A paused follower gets nothing. One that lacks compacted entries gets a snapshot. Any other
//! gets the entries that were not sent (Ongaro's thesis, sections 3.5 and 5.1; etcd raft documentation, "Progress").

ghost use Rattle.std.specs.Prelude.{◌≡◌, ◌+◌, ◌-◌, ◌<◌, ◌≤◌, length, IfOk, OnOk};
ghost use Rattle.rb_raftlog.specs.Log.{entries_after};
ghost use Rattle.rb_raftlog.specs.declared.limits.TheConstants.{MAX_INDEX};
ghost use Rattle.rb_tracker.specs.Trackers.{view_at};
ghost use Rattle.rb_node.specs.Sends.{is_news, is_ping, takes_nothing, is_window_full, sending_of, term_or_0, append_of, snapshot_of, snapshot_to, empty_to, entries_to, sends_with, sends, sent_to_each, append_broadcast};
ghost use Rattle.rb_node.specs.Node.{posted};

use crate::state::State;
use rb_message::{Append, Install, MessageKind};
use rb_raftlog::{Entries, RaftLog, Snapshot};
use rb_tracker::{Progress, ProgressState};
use std::alloc::AllocError;

/// The reason to send, which decides whether an empty append goes out.
#[derive(Clone, Copy, PartialEq, Eq, Debug)]
pub enum SendReason {
    /// Send the log's end and commit, even without entries.
    Tell,
    /// Send only if there are new entries.
    News,
    /// Make the follower answer, even if its window is full.
    Ping,
}

/// The message to send.
#[derive(Clone, Copy, PartialEq, Eq, Debug)]
pub enum Sending {
    Nothing,
    /// A snapshot.
    Snapshot,
    /// An append without entries.
    Empty,
    /// An append with all entries that are not sent yet.
    Entries,
}

impl SendReason {
    fn is_news(self) -> bool
        ensures { result ≡ is_news self }
    {
        match self {
            SendReason::News => true,
            SendReason::Tell | SendReason::Ping => false,
        }
    }

    fn is_ping(self) -> bool
        ensures { result ≡ is_ping self }
    {
        match self {
            SendReason::Ping => true,
            SendReason::Tell | SendReason::News => false,
        }
    }
}

fn takes_nothing(view: &Progress) -> bool
    ensures { result ≡ takes_nothing view.now }
{
    match view.state() {
        ProgressState::Probe => view.waiting(),
        ProgressState::Replicate => false,
        ProgressState::Snapshot => true,
    }
}

fn is_window_full(view: &Progress) -> bool
    ensures { result ≡ is_window_full view.now }
{
    view.state() == ProgressState::Replicate && view.is_full()
}

impl<L: RaftLog> State<L> {
    // Decides what to send a follower: the first case that holds.
    fn sending(&self, view: &Progress, mode: SendReason) -> Sending
        ensures { result ≡ sending_of self.now.log view.now mode }
    {
        if takes_nothing(view) {
            return Sending::Nothing;
        }
        if view.next().saturating_sub(1) + 1 < self.log.first_index() {
            return Sending::Snapshot;
        }
        if is_window_full(view) {
            return if mode.is_ping() {
                Sending::Empty
            } else {
                Sending::Nothing
            };
        }
        if self.log.last_index() < view.next() && mode.is_news() {
            return Sending::Nothing;
        }
        Sending::Entries
    }

    pub(crate) fn term_or_0(&self, index: u64) -> u64
        ensures { result ≡ term_or_0 self.now.log index }
    {
        self.log.term_at(index).unwrap_or(0)
    }

    fn post_append(&mut self, to: u64, next: u64, entries: Entries) -> Result<(), AllocError>
        requires { length entries ≤ MAX_INDEX - (next - 1) }
        ensures { OnOk result (self.new ≡ posted self.old to (append_of self.old next entries)) }
    {
        let prev = next.saturating_sub(1);
        let prev_term = self.term_or_0(prev);
        let append = Append::new(prev_term, prev, self.commit, entries);
        self.post(to, MessageKind::Append(append))
    }

    /// A snapshot of the applied state.
    pub(crate) fn snapshot(&self) -> Result<Snapshot, AllocError>
        ensures value { IfOk result (λ snapshot. snapshot ≡ snapshot_of self.now) }
        ensures within { self.now.applied ≤ MAX_INDEX }
    {
        let index = self.applied;
        Ok(Snapshot {
            index,
            term: self.term_or_0(index),
            content: self.content.try_copy()?,
            config: self.tracker.config().to_state()?,
        })
    }

    // The entries from an index on. There are none past the limit of indexes.
    fn entries_from(&self, next: u64) -> Result<Entries, AllocError>
        ensures value { IfOk result (λ entries. entries ≡ entries_after self.now.log (next - 1)) }
        ensures within { IfOk result (λ entries. length entries ≤ MAX_INDEX - (next - 1)) }
    {
        self.log.entries_after(next.saturating_sub(1))
    }

    fn send_snapshot(&mut self, place: usize, to: u64) -> Result<(), AllocError>
        requires { place < length self.old.tracker.views }
        ensures { OnOk result (self.new ≡ snapshot_to (view_at self.old.tracker.views place) self.old place to) }
    {
        let install = Install::new(self.alloc, self.snapshot()?)?;
        self.post(to, MessageKind::Snapshot(install))?;
        let applied = self.applied;
        self.tracker.view_mut(place).to_snapshot(applied);
        Ok(())
    }

    fn send_empty(&mut self, place: usize, to: u64) -> Result<(), AllocError>
        requires { place < length self.old.tracker.views }
        ensures { OnOk result (self.new ≡ empty_to (view_at self.old.tracker.views place) self.old to) }
    {
        let next = self.tracker.progress(place).next();
        self.post_append(to, next, Entries::empty())
    }

    fn send_entries(&mut self, place: usize, to: u64) -> Result<(), AllocError>
        requires { place < length self.old.tracker.views }
        ensures { OnOk result (self.new ≡ entries_to (view_at self.old.tracker.views place) self.old place to) }
    {
        let next = self.tracker.progress(place).next();
        let entries = self.entries_from(next)?;
        self.post_append(to, next, entries)?;
        let last = self.log.last_index();
        self.tracker.view_mut(place).sent(last);
        Ok(())
    }

    fn send_at(&mut self, place: usize, to: u64, mode: SendReason) -> Result<(), AllocError>
        requires { place < length self.old.tracker.views }
        ensures { OnOk result (self.new ≡ sends_with (view_at self.old.tracker.views place) self.old place to mode) }
    {
        match self.sending(self.tracker.progress(place), mode) {
            Sending::Nothing => Ok(()),
            Sending::Snapshot => self.send_snapshot(place, to),
            Sending::Empty => self.send_empty(place, to),
            Sending::Entries => self.send_entries(place, to),
        }
    }

    // Sends a node what its view asks for. Sends nothing to itself or to a node without a view.
    #[tactic(auto, unfolding(crate::specs::Sends::sends))]
    pub(crate) fn send(&mut self, to: u64, mode: SendReason) -> Result<(), AllocError>
        ensures { OnOk result (self.new ≡ sends self.old to mode) }
    {
        if to == self.id {
            return Ok(());
        }
        match self.tracker.place(to) {
            Some(place) => self.send_at(place, to, mode),
            None => Ok(()),
        }
    }

    pub(crate) fn send_to_each(&mut self, ids: &[u64]) -> Result<(), AllocError>
        ensures { OnOk result (self.new ≡ sent_to_each self.old ids.now) }
    {
        for id in ids {
            self.send(*id, SendReason::Tell)?;
        }
        Ok(())
    }

    // Sends an append to every other node, as its view asks for.
    #[tactic(auto, unfolding(crate::specs::Sends::append_broadcast))]
    pub(crate) fn broadcast_append(&mut self) -> Result<(), AllocError>
        ensures { OnOk result (self.new ≡ append_broadcast self.old) }
    {
        let ids = self.tracker.ids()?;
        self.send_to_each(ids.as_slice())
    }
}
