//! What happens as time passes.
ghost use Rattle.std.specs.Prelude.{◌≡◌, ◌+◌, ◌≤◌, ◌<◌, ℕ, true, Contains};
ghost use Rattle.rb_tracker.specs.Configs.{is_member};
ghost use Rattle.rb_message.specs.declared.role.Role.TheVariants.{Leader};
ghost use Rattle.rb_node.specs.declared.limits.TheConstants.{HEARTBEAT_TICKS, MAX_TICKS};
ghost use Rattle.rb_node.specs.Node.{NodeStep, with_node, with_elapsed};
ghost use Rattle.rb_node.specs.Ticking.{next_count};
ghost use Rattle.rb_calls.specs.Calling.{SetTimeout, Tick, after, run};
ghost use Rattle.rb_calls.specs.Sound.{HasViewsOfMembers};
ghost use Rattle.rb_laws.specs.Timing.{CanTimeOut, HasCampaigned, IsSupported, heartbeat, ticks};

/// Who hears nothing for its timeout campaigns, and asks each other voter. Each tick before only counts. The timeout is what it was set to.
pub fn silence_ends_in_a_campaign()
    ensures counts { (t : NodeStep) → (t.node.role ≡ Leader → ⊥) → t.node.clock.timeout ≤ MAX_TICKS → t.node.clock.elapsed + 1 < t.node.clock.timeout → after Tick t ≡ with_node t (with_elapsed t.node (t.node.clock.elapsed + 1)) }
    ensures passes { (t : NodeStep) → CanTimeOut t.node → t.node.clock.timeout ≤ t.node.clock.elapsed + 1 → HasCampaigned t.node (after Tick t).node }
    ensures silence { (n : ℕ) (t : NodeStep) → CanTimeOut t.node → t.node.clock.elapsed < t.node.clock.timeout → t.node.clock.elapsed + n ≡ t.node.clock.timeout → HasCampaigned t.node (run (ticks n) t).node }
    ensures set { (t : NodeStep) (k : ℕ) → (after (SetTimeout k) t).node.clock.timeout ≡ k }
{}

/// With a tick, a leader sends each other member a heartbeat, if it has heard of a quorum or doesn't look for one.
pub fn leaders_send_heartbeats()
    ensures { (t : NodeStep) (id : ℕ) → t.node.role ≡ Leader → IsSupported t.node → HasViewsOfMembers t.node → is_member t.node.tracker.config id ≡ true → (id ≡ t.node.id → ⊥) → HEARTBEAT_TICKS ≤ next_count t.node.clock.heartbeat_elapsed → Contains (after Tick t).node.sent (heartbeat t.node id) }
{}
