//! The ready of a node.
//!
//! Before a node advances, its owner saves the hard state and the new entries, sends messages, and applies committed entries (etcd raft
//! documentation, "Ready"). The view borrows all of it from the node; nothing is copied.

ghost use Rattle.std.specs.Prelude.{◌≡◌, ◌+◌, ◌<◌, ◌≤◌, length, slice_get};
ghost use Rattle.rb_raftlog.specs.declared.limits.TheConstants.{MAX_INDEX};
ghost use Rattle.rb_node.specs.Readying.{ready, hard_state, is_saved, has_ready, applying};

use crate::node::Node;
use crate::state::State;
use rb_message::{HardState, Outbox};
use rb_raftlog::{Entry, Pieces, RaftLog, held_entry};
use std::marker::Model;

/// A borrowed view of what is ready. Contracts see its node.
#[derive(Drop)]
pub struct ReadyView<'a, L: RaftLog> {
    state: &'a State<L>,
}

impl<'a, L: RaftLog> Model for ReadyView<'a, L> {
    ghost use Rattle.rb_node.specs.Node.{PlainNode};

    ghost Value = { PlainNode };

    ghost view = { λ r. r.state.now };
}

pub(crate) fn hard_state<L: RaftLog>(state: &State<L>) -> HardState
    ensures { result ≡ hard_state state.now }
{
    HardState {
        term: state.term,
        vote: state.vote,
        commit: state.commit,
    }
}

pub(crate) fn is_saved<L: RaftLog>(state: &State<L>) -> bool
    ensures { result ≡ is_saved state.now }
{
    state.term == state.saved.term
        && state.vote == state.saved.vote
        && state.commit == state.saved.commit
}

// The number of committed entries that aren't applied.
#[tactic(auto, using(crate::proofs::Between::between_sizes))]
pub(crate) fn applying_len<L: RaftLog>(state: &State<L>) -> usize
    ensures value { result ≡ length (applying state.now) }
    ensures within { state.now.applied + result ≤ MAX_INDEX }
{
    let from = state.applied.max(state.log.first_index() - 1);
    state
        .commit
        .min(state.log.last_index())
        .saturating_sub(from) as usize
}

// One of the committed entries that aren't applied.
#[tactic(auto, using(crate::proofs::Between::between_sizes, crate::proofs::Between::between_found, crate::proofs::Between::between_is_found))]
pub(crate) fn applying_entry<L: RaftLog>(state: &State<L>, k: usize) -> &Entry
    requires { k < length (applying state.now) }
    ensures { slice_get (applying state.now) k ≡ Some result.now }
{
    let from = state.applied.max(state.log.first_index() - 1);
    held_entry(&state.log, from + 1 + k as u64)
}

impl<'a, L: RaftLog> ReadyView<'a, L> {
    /// The hard state, if it isn't saved.
    pub fn hard(&self) -> Option<HardState>
        ensures { result ≡ (ready self.now).hard }
    {
        let state = self.state;
        if is_saved(state) {
            return None;
        }
        Some(hard_state(state))
    }

    /// The term and the index of a snapshot that was restored.
    pub fn snapshot(&self) -> Option<(u64, u64)>
        ensures { result ≡ (ready self.now).snapshot }
    {
        let state = self.state;
        if !state.restored {
            return None;
        }
        Some((state.log.base_term(), state.log.first_index() - 1))
    }

    /// The entries that aren't durable, in pieces.
    pub fn save(&self) -> Pieces<'a>
        ensures { result ≡ (ready self.now).save }
    {
        let state = self.state;
        state.log.not_durable()
    }

    /// The number of committed entries to apply.
    pub fn apply_len(&self) -> usize
        ensures value { result ≡ length (applying self.now) }
        ensures within { self.now.applied + result ≤ MAX_INDEX }
    {
        applying_len(self.state)
    }

    /// One of the committed entries to apply.
    pub fn apply(&self, k: usize) -> &'a Entry
        requires { k < length (applying self.now) }
        ensures { slice_get (applying self.now) k ≡ Some result.now }
    {
        applying_entry(self.state, k)
    }

    /// The sent messages, which go out first.
    pub fn sent(&self) -> &'a Outbox
        ensures { result.now ≡ self.now.sent }
    {
        let state = self.state;
        &state.sent
    }

    /// The answers that waited. Those to other nodes go out after the sent messages; those to the node itself stay.
    pub fn waiting(&self) -> &'a Outbox
        ensures { result.now ≡ self.now.waiting }
    {
        let state = self.state;
        &state.waiting
    }
}

impl<L: RaftLog> Node<L> {
    /// Whether there is something to save, apply or send. Compares only numbers.
    pub fn has_ready(&self) -> bool
        ensures { result ≡ has_ready self.now }
    {
        let state = &self.state;
        !is_saved(state)
            || state.log.durable() < state.log.last_index()
            || state.restored
            || state.applied < state.commit
            || state.sent.len() != 0
            || state.waiting.len() != 0
    }

    /// Lends what is ready. Takes no memory.
    pub fn ready(&self) -> ReadyView<'_, L>
        ensures { result ≡ self.now }
    {
        ReadyView { state: &self.state }
    }
}
