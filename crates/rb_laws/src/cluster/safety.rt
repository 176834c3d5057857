//! The whole of Raft's safety, in the words of figure 3.2 of Ongaro's thesis.
//!
//! Election safety and log matching are in laws.rt, and a leader that only appends in rb_laws. The laws here are the two others, leader
//! completeness and state machine safety (section 3.6.3). Each is of a network of nodes, and of a cluster of the bench.
//!
//! The premises of a network (`IsRaftNetwork`): all nodes start with the same members, not joint, and at one index, term and content, and the term is
//! at most 1; each message that comes was put out by a node, or is a snapshot of the state that a node has, and comes to the node that it is for, or it
//! is harmless; and nobody proposes a change. No node of these networks restarts; restarts.rt has the laws where nodes do. The laws of scripts have nodes
//! that restart: a script keeps their premises if its nodes come by `add-nodes` with the same members, index and content, at whatever points, and no
//! directive is `propose-conf-change`.
ghost use Rattle.std.specs.Prelude.{◌≡◌, ◌<◌, ◌≤◌, ℕ, List, Contains, Some, slice_get};
ghost use Rattle.rb_script.specs.Lines.{Line};
ghost use Rattle.rb_script.specs.Script.{PlainScript};
ghost use Rattle.rb_raftlog.specs.declared.entry.Entry.{Entry};
ghost use Rattle.rb_raftlog.specs.Log.{entry_at};
ghost use Rattle.rb_message.specs.declared.role.Role.TheVariants.{Leader};
ghost use Rattle.rb_node.specs.Node.{PlainNode};
ghost use Rattle.rb_texts.specs.Entries.{entry_text};
ghost use Rattle.rb_replay.specs.Run.{state};
ghost use Rattle.rb_laws.specs.Clusters.{HasSameStarts};
ghost use Rattle.rb_laws.specs.Network.{Network, Happening, run};
ghost use Rattle.rb_laws.specs.Printing.{PrintsLog};
ghost use Rattle.rb_laws.specs.Safety.{IsRaftNetwork, HasCommitted};

/// Leader completeness: if a node knows an entry to be committed, each leader of a later term has it, whether the leader led before or after.
/// Where both logs still have an index, they have the same entry there.
pub fn leaders_have_what_is_committed()
    ensures after { (s : Network) (earlier later : List Happening) (j k : ℕ) (n l : PlainNode) → IsRaftNetwork s earlier later → slice_get (run earlier s).nodes j ≡ Some n → slice_get (run later (run earlier s)).nodes k ≡ Some l → l.role ≡ Leader → n.term < l.term → HasCommitted n l }
    ensures before { (s : Network) (earlier later : List Happening) (j k : ℕ) (l n : PlainNode) → IsRaftNetwork s earlier later → slice_get (run earlier s).nodes j ≡ Some l → slice_get (run later (run earlier s)).nodes k ≡ Some n → l.role ≡ Leader → n.term < l.term → HasCommitted n l }
{}

/// Of two nodes, or of one at two moments, the entries that both know to be committed are the same.
pub fn committed_entries_agree()
    ensures { (s : Network) (earlier later : List Happening) (j k i : ℕ) (n m : PlainNode) → IsRaftNetwork s earlier later → slice_get (run earlier s).nodes j ≡ Some n → slice_get (run later (run earlier s)).nodes k ≡ Some m → i ≤ n.commit → i ≤ m.commit → n.log.base < i → m.log.base < i → entry_at n.log i ≡ entry_at m.log i }
{}

/// State machine safety: no two nodes apply different entries at one index.
pub fn applied_entries_agree()
    ensures { (s : Network) (earlier later : List Happening) (j k i : ℕ) (n m : PlainNode) → IsRaftNetwork s earlier later → slice_get (run earlier s).nodes j ≡ Some n → slice_get (run later (run earlier s)).nodes k ≡ Some m → i ≤ n.applied → i ≤ m.applied → n.log.base < i → m.log.base < i → entry_at n.log i ≡ entry_at m.log i }
{}

/// Two nodes that have applied up to the same index have the same content.
pub fn contents_agree()
    ensures { (s : Network) (earlier later : List Happening) (j k : ℕ) (n m : PlainNode) → IsRaftNetwork s earlier later → slice_get (run earlier s).nodes j ≡ Some n → slice_get (run later (run earlier s)).nodes k ≡ Some m → n.applied ≡ m.applied → n.content ≡ m.content }
{}

/// Leader completeness of scripts: if a node knows an entry to be committed at one point, each node that leads in a later term at another has it,
/// whichever point comes first.
pub fn clusters_leaders_have_what_is_committed()
    ensures { (s : PlainScript) (p q j k : ℕ) (n l : PlainNode) → HasSameStarts s → slice_get (state s p).nodes j ≡ Some n → slice_get (state s q).nodes k ≡ Some l → l.role ≡ Leader → n.term < l.term → HasCommitted n l }
{}

/// The entries that two nodes of a script know to be committed, at whatever points, are the same.
pub fn clusters_committed_entries_agree()
    ensures { (s : PlainScript) (p q j k i : ℕ) (n m : PlainNode) → HasSameStarts s → slice_get (state s p).nodes j ≡ Some n → slice_get (state s q).nodes k ≡ Some m → i ≤ n.commit → i ≤ m.commit → n.log.base < i → m.log.base < i → entry_at n.log i ≡ entry_at m.log i }
{}

/// State machine safety of scripts: no two nodes apply different entries at one index.
pub fn clusters_applied_entries_agree()
    ensures { (s : PlainScript) (p q j k i : ℕ) (n m : PlainNode) → HasSameStarts s → slice_get (state s p).nodes j ≡ Some n → slice_get (state s q).nodes k ≡ Some m → i ≤ n.applied → i ≤ m.applied → n.log.base < i → m.log.base < i → entry_at n.log i ≡ entry_at m.log i }
{}

/// Two nodes of a script that have applied up to the same index, at whatever points, have the same content.
pub fn clusters_contents_agree()
    ensures { (s : PlainScript) (p q j k : ℕ) (n m : PlainNode) → HasSameStarts s → slice_get (state s p).nodes j ≡ Some n → slice_get (state s q).nodes k ≡ Some m → n.applied ≡ m.applied → n.content ≡ m.content }
{}

/// What `raft-log` prints of two nodes of a script, whenever it is asked, agrees: an index that both have applied, and that both logs still have, has
/// one line in both outputs, that of the same entry.
pub fn clusters_print_the_same_entries()
    ensures { (s : PlainScript) (p q i : ℕ) (n m : PlainNode) (first second : List Line) → HasSameStarts s → PrintsLog s p n first → PrintsLog s q m second → i ≤ n.applied → i ≤ m.applied → n.log.base < i → m.log.base < i → (e : Entry) × Contains first (entry_text i e) × Contains second (entry_text i e) }
{}
