//! Progress: what a leader knows of a follower's log.
//!
//! For each follower the leader keeps `matched`, the last index that the follower is known to hold, and `next`, the next index to send. It
//! *probes* with one append at a time until it finds where the logs agree. Then it *replicates*, with as many appends in flight as the
//! window holds. If the log was compacted past what the follower needs, it waits for a *snapshot* to arrive (Ongaro's thesis, section 3.5;
//! etcd raft documentation, "Progress").
ghost use Rattle.std.specs.Prelude.{◌≡◌, ◌+◌, ◌<◌, ◌≤◌, ◌^◌, ◌↔◌, IsTrue, IfOk, length, true};
ghost use Rattle.rb_tracker.specs.Windows.{is_full};
ghost use Rattle.rb_tracker.specs.Progresses.{probing, own_view, paused, with_active, resumed, probed, snapshotting, replicating, sent, is_news, acked, freed_through, is_current_reject, refused};

use crate::window::Window;
use std::alloc::{AllocError, Global};
use std::marker::Model;

/// The state of a leader's view: how it sends entries.
#[derive(Clone, Copy, PartialEq, Eq, Debug)]
pub enum ProgressState {
    /// One append at a time, until the leader finds where the logs agree.
    Probe,
    /// As many appends in flight as the window holds.
    Replicate,
    /// No appends, until a snapshot has arrived.
    Snapshot,
}

/// A leader's view of a member's log.
#[derive(Clone, Drop)]
pub struct Progress {
    state: ProgressState,
    matched: u64,
    next: u64,
    waiting: bool,
    pending: u64,
    active: bool,
    window: Window,
}

impl Model for Progress {
    ghost use Rattle.rb_tracker.specs.Progresses.{PlainProgress, IsProgress};

    ghost Value = { PlainProgress };

    ghost view = { λ p. record { state = p.state; matched = p.matched; next = p.next; waiting = p.waiting; pending = p.pending; active = p.active; window = p.window } };

    ghost invariant = { λ p. IsProgress p.state p.matched p.next p.window };
}

impl Progress {
    /// A view of a member whose log is unknown: it is probed from `next` on. `capacity` limits the appends in flight.
    pub fn new(
        alloc: Global,
        capacity: usize,
        next: u64,
        active: bool,
    ) -> Result<Progress, AllocError>
        requires { next < 2 ^ 41 }
        ensures { IfOk result (λ view. view ≡ probing capacity next active) }
    {
        Ok(Progress {
            state: ProgressState::Probe,
            matched: 0,
            next,
            waiting: false,
            pending: 0,
            active,
            window: Window::new(alloc, capacity)?,
        })
    }

    /// A leader's view of itself: it holds the log up to `matched`, and is always active.
    pub fn own(
        alloc: Global,
        capacity: usize,
        matched: u64,
        next: u64,
    ) -> Result<Progress, AllocError>
        requires matched { matched + 1 < 2 ^ 41 }
        requires next { next < 2 ^ 41 }
        ensures { IfOk result (λ view. view ≡ own_view capacity matched next) }
    {
        Ok(Progress {
            state: ProgressState::Replicate,
            matched,
            next,
            waiting: false,
            pending: 0,
            active: true,
            window: Window::new(alloc, capacity)?,
        })
    }

    pub fn state(&self) -> ProgressState
        ensures { result ≡ self.now.state }
    {
        self.state
    }

    /// The last index that the member is known to hold.
    pub fn matched(&self) -> u64
        ensures matched { result ≡ self.now.matched }
        ensures fits { self.now.matched + 1 < 2 ^ 41 }
    {
        self.matched
    }

    /// The next index to send.
    pub fn next(&self) -> u64
        ensures next { result ≡ self.now.next }
        ensures fits { self.now.next < 2 ^ 41 }
    {
        self.next
    }

    /// Whether a probe is in flight.
    pub fn waiting(&self) -> bool
        ensures { result ≡ self.now.waiting }
    {
        self.waiting
    }

    /// The index of the snapshot in flight, or 0.
    pub fn pending(&self) -> u64
        ensures { result ≡ self.now.pending }
    {
        self.pending
    }

    /// Whether the leader heard from the member since it last checked its quorum.
    pub fn active(&self) -> bool
        ensures { result ≡ self.now.active }
    {
        self.active
    }

    /// The appends in flight.
    pub fn window(&self) -> &Window
        ensures window { result.now ≡ self.now.window }
        ensures within { length self.now.window.in_flight ≤ self.now.window.capacity }
    {
        &self.window
    }

    /// Whether the window of appends in flight is full.
    pub fn is_full(&self) -> bool
        ensures full { result ≡ is_full self.now.window }
        ensures within { length self.now.window.in_flight ≤ self.now.window.capacity }
    {
        self.window.is_full()
    }

    /// Whether sending is paused.
    pub fn paused(&self) -> bool
        ensures { result ≡ paused self.now }
    {
        match self.state {
            ProgressState::Probe => self.waiting,
            ProgressState::Replicate => self.window.is_full(),
            ProgressState::Snapshot => true,
        }
    }

    /// Sets whether the member is active.
    pub fn set_active(&mut self, active: bool)
        ensures { self.new ≡ with_active self.old active }
    {
        self.active = active;
    }

    /// Allows the next probe.
    pub fn resume(&mut self)
        ensures { self.new ≡ resumed self.old }
    {
        self.waiting = false;
    }

    /// Probes from the last index that the member is known to hold.
    pub fn to_probe(&mut self)
        ensures { self.new ≡ probed self.old }
    {
        self.state = ProgressState::Probe;
        self.next = self.matched + 1;
        self.waiting = false;
        self.window.clear();
    }

    /// Records that a snapshot up to `index` was sent.
    pub fn to_snapshot(&mut self, index: u64)
        requires { index + 1 < 2 ^ 41 }
        ensures { self.new ≡ snapshotting self.old index }
    {
        self.state = ProgressState::Snapshot;
        self.pending = index;
        self.next = index + 1;
        self.window.clear();
    }

    // Replicates from the last index that the member is known to hold.
    fn to_replicate(&mut self)
        ensures { self.new ≡ replicating self.old }
    {
        self.state = ProgressState::Replicate;
        self.next = self.matched + 1;
        self.waiting = false;
        self.pending = 0;
        self.window.clear();
    }

    /// Records that an append of all entries up to `last` was sent. Entries that were sent before, and a full window, change nothing.
    pub fn sent(&mut self, last: u64)
        requires { last + 1 < 2 ^ 41 }
        ensures { self.new ≡ sent self.old last }
    {
        match self.state {
            ProgressState::Probe => self.waiting = true,
            ProgressState::Replicate => {
                if self.next <= last && !self.window.is_full() {
                    self.window.push(last);
                    self.next = last + 1;
                }
            }
            ProgressState::Snapshot => {}
        }
    }

    /// Whether an accepted index tells something new: it is past `matched`, or it is where a probe found that the logs agree.
    pub fn is_news(&self, index: u64) -> bool
        ensures { result ≡ is_news self.now index }
    {
        self.matched < index || (self.matched == index && self.state == ProgressState::Probe)
    }

    /// Records that the member holds the log up to `index`. This ends a probe, and a snapshot if it has arrived.
    pub fn acked(&mut self, index: u64)
        requires { index + 1 < 2 ^ 41 }
        ensures { self.new ≡ acked self.old index }
    {
        self.matched = index;
        self.next = self.next.max(index + 1);
        match self.state {
            ProgressState::Probe => self.to_replicate(),
            ProgressState::Replicate => self.window.free_through(index),
            ProgressState::Snapshot => {
                if self.pending <= index {
                    self.to_replicate();
                }
            }
        }
    }

    /// Frees the appends in flight up to an index.
    pub fn free_through(&mut self, index: u64)
        ensures { self.new ≡ freed_through self.old index }
    {
        match self.state {
            ProgressState::Replicate => self.window.free_through(index),
            ProgressState::Probe | ProgressState::Snapshot => {}
        }
    }

    /// Whether a refusal of the entries after `index` is current, and not stale.
    pub fn is_current_reject(&self, index: u64) -> bool
        ensures { result ≡ is_current_reject self.now index }
    {
        match self.state {
            ProgressState::Probe => index == self.next.saturating_sub(1),
            ProgressState::Replicate => self.matched < index,
            ProgressState::Snapshot => false,
        }
    }

    /// Records that the entries after `index` were refused. Probes at the hint or, if it replicated, from the last index that the member is
    /// known to hold.
    pub fn refused(&mut self, index: u64, hint: u64)
        requires { is_current_reject self.old index ≡ true }
        ensures { self.new ≡ refused self.old index hint }
    {
        match self.state {
            ProgressState::Probe => {
                let next = index.min(hint.saturating_add(1));
                self.next = next.max(self.matched + 1);
                self.waiting = false;
            }
            ProgressState::Replicate => self.to_probe(),
            ProgressState::Snapshot => {}
        }
    }

    pub fn try_copy(&self) -> Result<Progress, AllocError>
        ensures { IfOk result (λ copy. copy ≡ self.now) }
    {
        self.clone()
    }

    /// Whether both views are equal. Takes no memory.
    pub fn same(&self, other: &Progress) -> bool
        ensures { IsTrue result ↔ (self.now ≡ other.now) }
    {
        self.state == other.state
            && self.matched == other.matched
            && self.next == other.next
            && self.waiting == other.waiting
            && self.pending == other.pending
            && self.active == other.active
            && self.window.same(&other.window)
    }
}
