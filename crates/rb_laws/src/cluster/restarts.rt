//! Raft's safety where nodes restart (Ongaro's thesis, figure 3.2 and section 3.8).
//!
//! A node may restart at any moment, any number of times, by rb_node's rule. It goes back to what its last advance saved: its term, vote and commit, and
//! the log after its snapshot. Only the snapshot is applied, so its application applies committed entries again. What the node did since that advance is
//! gone, and nobody has heard of it, since messages go out only once they are saved. The other premises are those of laws.rt and safety.rt. Log matching
//! has one more, since with a made-up MsgVote a node could lead twice in a term that it hadn't saved.
ghost use Rattle.std.specs.Prelude.{◌≡◌, ◌<◌, ◌≤◌, ℕ, List, [], Some, slice_get};
ghost use Rattle.rb_script.specs.Script.{PlainScript};
ghost use Rattle.rb_raftlog.specs.Laws.{AreMatching};
ghost use Rattle.rb_raftlog.specs.Log.{entry_at};
ghost use Rattle.rb_message.specs.declared.role.Role.TheVariants.{Leader};
ghost use Rattle.rb_node.specs.Node.{PlainNode};
ghost use Rattle.rb_replay.specs.Run.{state};
ghost use Rattle.rb_laws.specs.Clusters.{HasSameMembers};
ghost use Rattle.rb_laws.specs.Network.{Network, Leads};
ghost use Rattle.rb_laws.specs.Restarts.{Occurrence, passed, IsHonestRestartingNetwork, IsGenuineRestartingNetwork, IsRestartingNetwork};
ghost use Rattle.rb_laws.specs.Safety.{HasCommitted};

/// Election safety: two nodes that lead in one term, at whatever points of a run, are one node.
pub fn elections_are_safe_with_restarts()
    ensures { (s : Network) (earlier later : List Occurrence) (first second term : ℕ) → IsHonestRestartingNetwork s earlier later → Leads (passed earlier s).nodes first term → Leads (passed later (passed earlier s)).nodes second term → second ≡ first }
{}

/// Log matching: logs with an entry of the same index and term are the same up to it, as far as both still have it. An entry that was not saved
/// counts as well: no entry with its index and term comes in its place. No vote, no append and no request for votes is forged, and the configuration
/// stays; the logs may begin anywhere.
pub fn logs_match_with_restarts()
    ensures { (s : Network) (earlier later : List Occurrence) (j k : ℕ) (first second : PlainNode) → IsGenuineRestartingNetwork s earlier later → slice_get (passed earlier s).nodes j ≡ Some first → slice_get (passed later (passed earlier s)).nodes k ≡ Some second → AreMatching first.log second.log }
{}

/// A node leads only in a term that it has saved, so no restart takes it back to before an election that it won.
pub fn leaders_have_saved_their_terms()
    ensures networks { (s : Network) (os : List Occurrence) (k : ℕ) (n : PlainNode) → IsGenuineRestartingNetwork s os [] → slice_get (passed os s).nodes k ≡ Some n → n.role ≡ Leader → n.saved.term ≡ n.term }
    ensures scripts { (s : PlainScript) (p k : ℕ) (n : PlainNode) → HasSameMembers s → slice_get (state s p).nodes k ≡ Some n → n.role ≡ Leader → n.saved.term ≡ n.term }
{}

/// Leader completeness: if a node knows an entry to be committed, each leader of a later term has it, whether the leader led before or after.
pub fn leaders_have_what_is_committed_with_restarts()
    ensures after { (s : Network) (earlier later : List Occurrence) (j k : ℕ) (n l : PlainNode) → IsRestartingNetwork s earlier later → slice_get (passed earlier s).nodes j ≡ Some n → slice_get (passed later (passed earlier s)).nodes k ≡ Some l → l.role ≡ Leader → n.term < l.term → HasCommitted n l }
    ensures before { (s : Network) (earlier later : List Occurrence) (j k : ℕ) (l n : PlainNode) → IsRestartingNetwork s earlier later → slice_get (passed earlier s).nodes j ≡ Some l → slice_get (passed later (passed earlier s)).nodes k ≡ Some n → l.role ≡ Leader → n.term < l.term → HasCommitted n l }
{}

/// Of two nodes, or of one at two moments, the entries that both know to be committed are the same, also where a node forgets that they are.
pub fn committed_entries_agree_with_restarts()
    ensures { (s : Network) (earlier later : List Occurrence) (j k i : ℕ) (n m : PlainNode) → IsRestartingNetwork s earlier later → slice_get (passed earlier s).nodes j ≡ Some n → slice_get (passed later (passed earlier s)).nodes k ≡ Some m → i ≤ n.commit → i ≤ m.commit → n.log.base < i → m.log.base < i → entry_at n.log i ≡ entry_at m.log i }
{}

/// State machine safety: no two nodes apply different entries at one index, and a node that applies one again applies the same.
pub fn applied_entries_agree_with_restarts()
    ensures { (s : Network) (earlier later : List Occurrence) (j k i : ℕ) (n m : PlainNode) → IsRestartingNetwork s earlier later → slice_get (passed earlier s).nodes j ≡ Some n → slice_get (passed later (passed earlier s)).nodes k ≡ Some m → i ≤ n.applied → i ≤ m.applied → n.log.base < i → m.log.base < i → entry_at n.log i ≡ entry_at m.log i }
{}

/// Two nodes that have applied up to the same index have the same content.
pub fn contents_agree_with_restarts()
    ensures { (s : Network) (earlier later : List Occurrence) (j k : ℕ) (n m : PlainNode) → IsRestartingNetwork s earlier later → slice_get (passed earlier s).nodes j ≡ Some n → slice_get (passed later (passed earlier s)).nodes k ≡ Some m → n.applied ≡ m.applied → n.content ≡ m.content }
{}
