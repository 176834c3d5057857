//! Configurations as members change, and how many changes are under way.
ghost use Rattle.std.specs.Prelude.{◌≡◌, ◌⊎◌, ◌-◌, ℕ, List, [], Some, Contains, slice_get};
ghost use Rattle.rb_raftlog.specs.declared.entry.Entry.{Entry};
ghost use Rattle.rb_tracker.specs.Configs.{config_of};
ghost use Rattle.rb_message.specs.Appends.{PlainAppend};
ghost use Rattle.rb_message.specs.declared.kind.MessageKind.TheVariants.{Append};
ghost use Rattle.rb_message.specs.declared.message.Message.{Message};
ghost use Rattle.rb_message.specs.declared.role.Role.TheVariants.{Candidate, Leader};
ghost use Rattle.rb_node.specs.Node.{PlainNode};
ghost use Rattle.rb_laws.specs.Configurations.{IsAgreedNetwork, IsLedNetwork, HasOneChangePast, config_after_all, log_of};
ghost use Rattle.rb_laws.specs.Network.{Network, Happening, run};
ghost use Rattle.rb_laws.specs.Restarts.{Occurrence, passed, IsAgreedRestartingNetwork, IsLedRestartingNetwork};

/// Each node's configuration is that of its applied index: what the committed changes up to there make of the members, one after another. So two nodes
/// that have applied up to the same index have the same configuration, at whatever moments, whatever changes are proposed. That committed entries agree
/// is a premise here; each snapshot that comes was put out by a node, or is of a node's state.
pub fn configurations_agree()
    ensures applied { (chosen : ℕ → Entry) (s : Network) (hs : List Happening) (k : ℕ) (n : PlainNode) → (net : IsAgreedNetwork chosen s hs []) → slice_get (run hs s).nodes k ≡ Some n → n.tracker.config ≡ config_after_all chosen (config_of net.starts.members) net.starts.index (n.applied - net.starts.index) }
    ensures same { (chosen : ℕ → Entry) (s : Network) (earlier later : List Happening) (j k : ℕ) (n m : PlainNode) → IsAgreedNetwork chosen s earlier later → slice_get (run earlier s).nodes j ≡ Some n → slice_get (run later (run earlier s)).nodes k ≡ Some m → n.applied ≡ m.applied → n.tracker.config ≡ m.tracker.config }
{}

/// The same where nodes restart, and so apply changes again from their snapshot's configuration on.
pub fn configurations_agree_with_restarts()
    ensures applied { (chosen : ℕ → Entry) (s : Network) (os : List Occurrence) (k : ℕ) (n : PlainNode) → (net : IsAgreedRestartingNetwork chosen s os []) → slice_get (passed os s).nodes k ≡ Some n → n.tracker.config ≡ config_after_all chosen (config_of net.starts.members) net.starts.index (n.applied - net.starts.index) }
    ensures same { (chosen : ℕ → Entry) (s : Network) (earlier later : List Occurrence) (j k : ℕ) (n m : PlainNode) → IsAgreedRestartingNetwork chosen s earlier later → slice_get (passed earlier s).nodes j ≡ Some n → slice_get (passed later (passed earlier s)).nodes k ≡ Some m → n.applied ≡ m.applied → n.tracker.config ≡ m.tracker.config }
{}

/// One change at a time: no node's log has more than one change past its commit, nor an append on its way past the append's. Who decides, as a candidate
/// or a leader, has applied all changes of its log but at most one. That a term has at most one leader is a premise here; each append that comes was put
/// out by a node, any other message may be made up, and any change may be proposed.
pub fn changes_wait_for_earlier_ones()
    ensures committed { (s : Network) (hs : List Happening) (k : ℕ) (n : PlainNode) → IsLedNetwork s hs → slice_get (run hs s).nodes k ≡ Some n → HasOneChangePast n.log n.commit }
    ensures applied { (s : Network) (hs : List Happening) (k : ℕ) (n : PlainNode) → IsLedNetwork s hs → slice_get (run hs s).nodes k ≡ Some n → (n.role ≡ Candidate) ⊎ (n.role ≡ Leader) → HasOneChangePast n.log n.applied }
    ensures on_their_way { (s : Network) (hs : List Happening) (m : Message) (append : PlainAppend) → IsLedNetwork s hs → Contains (run hs s).said m → m.kind ≡ Append append → HasOneChangePast (log_of append) append.commit }
{}

/// The same where nodes restart. That a node has saved the term in which it is elected is one more premise, which `leaders_have_saved_their_terms` holds
/// of fixed members.
pub fn changes_wait_for_earlier_ones_with_restarts()
    ensures committed { (s : Network) (os : List Occurrence) (k : ℕ) (n : PlainNode) → IsLedRestartingNetwork s os → slice_get (passed os s).nodes k ≡ Some n → HasOneChangePast n.log n.commit }
    ensures applied { (s : Network) (os : List Occurrence) (k : ℕ) (n : PlainNode) → IsLedRestartingNetwork s os → slice_get (passed os s).nodes k ≡ Some n → (n.role ≡ Candidate) ⊎ (n.role ≡ Leader) → HasOneChangePast n.log n.applied }
    ensures on_their_way { (s : Network) (os : List Occurrence) (m : Message) (append : PlainAppend) → IsLedRestartingNetwork s os → Contains (passed os s).said m → m.kind ≡ Append append → HasOneChangePast (log_of append) append.commit }
{}
