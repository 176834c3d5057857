//! The calls of a node as one type, and what each call keeps, over the definitions of rb_node alone.
//!
//! rb_laws' laws of nodes and of clusters go on from here, and rb_view's pages rest on it: entries up to the commit stay.
#![tactic(auto)]

ghost use Rattle.std.specs.Prelude.{ℕ, List};
ghost use Rattle.rb_raftlog.specs.declared.snapshot.Snapshot.{Snapshot};
ghost use Rattle.rb_node.specs.declared.options.Options.{Options};
ghost use Rattle.rb_node.specs.Node.{NodeStep, started};
ghost use Rattle.rb_calls.specs.Calling.{Call, after, run};
ghost use Rattle.rb_calls.specs.Sound.{IsSound};

/// A node that starts is sound, and after each call and any list of calls it still is: base, applied, durable, commit and last stay
/// in order.
pub fn nodes_stay_sound()
    ensures started { (id : ℕ) (start : Snapshot) (options : Options) → IsSound (started id start options) }
    ensures called { (c : Call) (t : NodeStep) → IsSound t.node → IsSound (after c t).node }
    ensures run { (cs : List Call) (t : NodeStep) → IsSound t.node → IsSound (run cs t).node }
{}
