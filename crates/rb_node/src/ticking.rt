//! Ticks.
//!
//! A node counts ticks. A leader sends heartbeats; with `CheckQuorum` it regularly checks that a quorum answers. It cancels a transfer that
//! takes longer than that. Any other node campaigns if it hears from no leader for its election timeout (Ongaro's thesis, sections 3.4,
//! 3.10 and 6.2).

ghost use Rattle.std.specs.Prelude.{◌≡◌, OnOk};
ghost use Rattle.rb_node.specs.Node.{node_step};
ghost use Rattle.rb_node.specs.declared.limits.TheConstants.{MAX_TICKS, HEARTBEAT_TICKS};
ghost use Rattle.rb_node.specs.Ticking.{next_count, due_heartbeats_sent, active_quorum_checked, non_leader_ticked, ticked};

use crate::limits::{ELECTION_TICKS, HEARTBEAT_TICKS, MAX_TICKS};
use crate::node::Node;
use crate::state::State;
use rb_message::{Event, EventKind, MessageKind, Role};
use rb_raftlog::RaftLog;
use std::alloc::AllocError;

// The counter after one more tick.
fn next_count(count: u64) -> u64
    ensures { result ≡ next_count count }
{
    count.saturating_add(1).min(MAX_TICKS)
}

// Sends due heartbeats to all other members. A heartbeat's commit is at most the index that the receiver is known to hold.
#[tactic(auto, unfolding(crate::specs::Ticking::due_heartbeats_sent))]
fn send_due_heartbeats<L: RaftLog>(state: &mut State<L>) -> Result<(), AllocError>
    ensures { OnOk result (state.new ≡ due_heartbeats_sent state.old) }
{
    if state.clock.heartbeat_elapsed < HEARTBEAT_TICKS {
        return Ok(());
    }
    let ids = state.tracker.ids()?;
    state.clock.heartbeat_elapsed = 0;
    for id in ids.as_slice() {
        if *id != state.id {
            let commit = state.tracker.match_of(*id).min(state.commit);
            state.post(*id, MessageKind::Heartbeat { commit })?;
        }
    }
    Ok(())
}

// Checks that a quorum was active since the last check, and starts the next count. If none was, the leader steps down.
#[tactic(auto, unfolding(crate::specs::Ticking::active_quorum_checked))]
fn check_active_quorum<L: RaftLog>(
    state: &mut State<L>,
    events: &mut Vec<Event>,
) -> Result<(), AllocError>
    ensures { OnOk result (node_step state.new events.new.items ≡ active_quorum_checked (node_step state.old events.old.items)) }
{
    if state.options.check_quorum && !state.tracker.quorum_active() {
        events.push(Event {
            id: state.id,
            kind: EventKind::LostQuorum,
        })?;
        let term = state.term;
        return state.become_follower(term, 0, events);
    }
    if state.options.check_quorum {
        let id = state.id;
        state.tracker.mark_others_inactive(id);
    }
    state.end_transfer(events)?;
    send_due_heartbeats(state)
}

// Ticks a node that doesn't lead. A voter campaigns once its election timeout has passed.
#[tactic(auto, unfolding(crate::specs::Ticking::non_leader_ticked))]
fn tick_non_leader<L: RaftLog>(
    state: &mut State<L>,
    events: &mut Vec<Event>,
) -> Result<(), AllocError>
    ensures { OnOk result (node_step state.new events.new.items ≡ non_leader_ticked (node_step state.old events.old.items)) }
{
    state.clock.elapsed = next_count(state.clock.elapsed);
    if state.tracker.config().is_voter(state.id) && state.clock.timeout <= state.clock.elapsed {
        state.clock.elapsed = 0;
        return state.campaign(false, events);
    }
    Ok(())
}

impl<L: RaftLog> Node<L> {
    /// Ticks the node once.
    #[tactic(auto, unfolding(crate::specs::Ticking::leader_ticked))]
    pub fn tick(&mut self, events: &mut Vec<Event>) -> Result<(), AllocError>
        ensures { OnOk result (node_step self.new events.new.items ≡ ticked (node_step self.old events.old.items)) }
    {
        let state = &mut self.state;
        match state.role {
            Role::Leader => {}
            Role::Follower | Role::Precandidate | Role::Candidate => {
                return tick_non_leader(state, events);
            }
        }
        // A leader sends due heartbeats, after a due check of its quorum.
        state.clock.elapsed = next_count(state.clock.elapsed);
        state.clock.heartbeat_elapsed = next_count(state.clock.heartbeat_elapsed);
        if state.clock.elapsed < ELECTION_TICKS {
            return send_due_heartbeats(state);
        }
        state.clock.elapsed = 0;
        check_active_quorum(state, events)
    }
}
