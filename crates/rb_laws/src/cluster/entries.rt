//! Where the entries of a network's nodes come from.
ghost use Rattle.std.specs.Prelude.{◌≡◌, ℕ, List, Ok, Some, slice_get};
ghost use Rattle.rb_vocab.specs.declared.conf_state.ConfState.{ConfState};
ghost use Rattle.rb_raftlog.specs.declared.entry.Entry.{Entry};
ghost use Rattle.rb_raftlog.specs.Log.{entry_at};
ghost use Rattle.rb_node.specs.Node.{PlainNode};
ghost use Rattle.rb_laws.specs.Network.{Network, Happening, run, IsBegun};
ghost use Rattle.rb_laws.specs.Proposals.{AreSaid, HasSource};

/// Nobody makes entries up: each entry of a log was proposed to a node as it is, or is empty, or leaves a joint configuration. Each append and each
/// proposal that comes was put out by a node; other messages may be made up, and the configuration may change.
pub fn entries_were_proposed()
    ensures { (members : ConfState) (s : Network) (hs : List Happening) (k i : ℕ) (n : PlainNode) (e : Entry) → IsBegun members s → AreSaid hs s → slice_get (run hs s).nodes k ≡ Some n → entry_at n.log i ≡ Ok e → HasSource hs e.body }
{}
