//! Whom a leader has heard of since it last looked at its quorum.
ghost use Rattle.std.specs.Prelude.{◌≡◌, ◌≤◌, ◌<◌, ℕ, true, false, Some};
ghost use Rattle.rb_tracker.specs.Active.{is_active, quorum_active};
ghost use Rattle.rb_tracker.specs.Trackers.{place};
ghost use Rattle.rb_message.specs.declared.message.Message.{Message};
ghost use Rattle.rb_message.specs.declared.role.Role.TheVariants.{Leader};
ghost use Rattle.rb_node.specs.Node.{NodeStep};
ghost use Rattle.rb_node.specs.Step.{stepped};
ghost use Rattle.rb_node.specs.Ticking.{next_count};
ghost use Rattle.rb_node.specs.declared.limits.TheConstants.{ELECTION_TICKS};
ghost use Rattle.rb_laws.specs.Activity.{IsAnswer};
ghost use Rattle.rb_calls.specs.Calling.{Tick, after};

/// A leader holds a member for active exactly if it has answered since the leader last looked. An answer of its term marks its sender; no other
/// message, and no tick without a look, changes a mark; a look takes all marks off but the leader's own.
pub fn members_are_active_by_their_answers()
    ensures answers { (t : NodeStep) (m : Message) (at : ℕ) → t.node.role ≡ Leader → IsAnswer m.kind → m.term ≡ t.node.term → place t.node.tracker.views m.from ≡ Some at → is_active (stepped t m).node.tracker.views m.from ≡ true }
    ensures others { (t : NodeStep) (m : Message) (id : ℕ) → t.node.role ≡ Leader → m.term ≤ t.node.term → (IsAnswer m.kind → id ≡ m.from → ⊥) → is_active (stepped t m).node.tracker.views id ≡ is_active t.node.tracker.views id }
    ensures look { (t : NodeStep) (id : ℕ) → t.node.role ≡ Leader → t.node.options.check_quorum ≡ true → quorum_active t.node.tracker ≡ true → ELECTION_TICKS ≤ next_count t.node.clock.elapsed → (id ≡ t.node.id → ⊥) → is_active (after Tick t).node.tracker.views id ≡ false }
    ensures tick { (t : NodeStep) (id : ℕ) → t.node.role ≡ Leader → next_count t.node.clock.elapsed < ELECTION_TICKS → is_active (after Tick t).node.tracker.views id ≡ is_active t.node.tracker.views id }
{}
