//! Advancing a node after its ready was processed.
//!
//! What was ready is durable now. So the answers that depend on it go out, and the node handles its own: its vote for itself, and that it
//! holds its own entries (etcd raft documentation, "Advance").

ghost use Rattle.std.specs.Prelude.{◌≡◌, ◌+◌, ◌≤◌, ◌++◌, [], length, OnOk, IfOk};
ghost use Rattle.rb_raftlog.specs.declared.limits.TheConstants.{MAX_INDEX};
ghost use Rattle.rb_node.specs.Node.{node_step};
ghost use Rattle.rb_node.specs.Changing.{applied_all};
ghost use Rattle.rb_node.specs.Readying.{applying, others, outgoing, saved_start, saved, own_answers_stepped, advanced};

use crate::node::Node;
use crate::ready::{applying_entry, applying_len, hard_state};
use crate::state::State;
use rb_message::{Event, Install, Message};
use rb_raftlog::{Entry, RaftLog};
use std::alloc::AllocError;

// The messages of a ready: the sent ones, and the answers that waited.
#[derive(Drop)]
struct Outgoing {
    sent: Vec<Message>,
    waiting: Vec<Message>,
}

// Copies the committed entries that aren't applied, at a pointer each.
#[tactic(auto, using(crate::proofs::Between::between_sizes, rb_tracker::proofs::WindowLaws::take_more_some))]
fn applying_copies<L: RaftLog>(state: &State<L>) -> Result<Vec<Entry>, AllocError>
    ensures entries { IfOk result (λ copies. copies.items ≡ applying state.now) }
    ensures within { IfOk result (λ copies. state.now.applied + length copies.items ≤ MAX_INDEX) }
{
    let len = applying_len(state);
    let mut copies = Vec::with_capacity(state.alloc, len)?;
    for k in 0..len {
        copies.push(applying_entry(state, k).try_copy()?)?;
    }
    Ok(copies)
}

// Saves a restored snapshot.
fn save_start<L: RaftLog>(state: &mut State<L>) -> Result<(), AllocError>
    ensures { OnOk result (state.new ≡ record state.old { start = saved_start state.old }) }
{
    if state.restored {
        let snapshot = state.snapshot()?;
        state.start = Install::new(state.alloc, snapshot)?;
    }
    Ok(())
}

// Marks everything as durable, and takes both lists of messages.
fn save<L: RaftLog>(state: &mut State<L>) -> Result<Outgoing, AllocError>
    ensures node { OnOk result (state.new ≡ saved state.old) }
    ensures sent { IfOk result (λ taken. taken.sent.items ≡ state.old.sent) }
    ensures waiting { IfOk result (λ taken. taken.waiting.items ≡ state.old.waiting) }
{
    save_start(state)?;
    state.saved = hard_state(state);
    state.log.mark_durable()?;
    state.restored = false;
    Ok(Outgoing {
        sent: state.sent.take_all()?,
        waiting: state.waiting.take_all()?,
    })
}

// Applies the entries after an index, in order.
fn apply_all<L: RaftLog>(
    state: &mut State<L>,
    after: u64,
    entries: &[Entry],
    events: &mut Vec<Event>,
) -> Result<(), AllocError>
    requires { after + length entries.now ≤ MAX_INDEX }
    ensures { OnOk result (node_step state.new events.new.items ≡ applied_all (node_step state.old events.old.items) after entries.now) }
{
    let mut index = after;
    for entry in entries {
        index += 1;
        state.apply(index, entry, events)?;
    }
    Ok(())
}

// Appends the sent messages, then the answers to other nodes.
fn collect_outgoing(
    id: u64,
    mut posted: Vec<Message>,
    waiting: &[Message],
    sent: &mut Vec<Message>,
) -> Result<(), AllocError>
    ensures { OnOk result (sent.new.items ≡ sent.old.items ++ (posted.items ++ others id waiting.now)) }
{
    sent.append(&mut posted)?;
    for message in waiting {
        if message.to != id {
            sent.push(message.try_copy()?)?;
        }
    }
    Ok(())
}

// Steps the node's own answers, in order.
fn step_own_answers<L: RaftLog>(
    state: &mut State<L>,
    id: u64,
    waiting: &[Message],
    events: &mut Vec<Event>,
) -> Result<(), AllocError>
    ensures { OnOk result (node_step state.new events.new.items ≡ own_answers_stepped id (node_step state.old events.old.items) waiting.now) }
{
    for message in waiting {
        if message.to == id {
            state.step(message, events)?;
        }
    }
    Ok(())
}

impl<L: RaftLog> Node<L> {
    /// Advances the node after its ready was processed. Saved entries are durable, committed ones take effect. The outgoing messages are
    /// appended to `sent`, the answers that waited last.
    #[tactic(auto, unfolding(crate::specs::Readying::advanced))]
    pub fn advance(
        &mut self,
        sent: &mut Vec<Message>,
        events: &mut Vec<Event>,
    ) -> Result<(), AllocError>
        ensures node { OnOk result (node_step self.new events.new.items ≡ advanced (node_step self.old events.old.items)) }
        ensures sent { OnOk result (sent.new.items ≡ sent.old.items ++ outgoing self.old) }
    {
        let state = &mut self.state;
        let id = state.id;
        let applied = state.applied;
        let entries = applying_copies(state)?;
        let taken = save(state)?;
        apply_all(state, applied, entries.as_slice(), events)?;
        state.leave_joint(events)?;
        collect_outgoing(id, taken.sent, taken.waiting.as_slice(), sent)?;
        step_own_answers(state, id, taken.waiting.as_slice(), events)
    }
}
