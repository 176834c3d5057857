//! What the nodes of a cluster keep together, whatever happens.
ghost use Rattle.std.specs.Prelude.{◌≡◌, ℕ, List, [], Some, slice_get};
ghost use Rattle.rb_script.specs.Script.{PlainScript};
ghost use Rattle.rb_raftlog.specs.Laws.{AreMatching};
ghost use Rattle.rb_tracker.specs.Configs.{config_of};
ghost use Rattle.rb_node.specs.Node.{PlainNode};
ghost use Rattle.rb_replay.specs.Run.{state};
ghost use Rattle.rb_laws.specs.Clusters.{HasSameMembers};
ghost use Rattle.rb_laws.specs.Network.{Network, Happening, run, Leads};
ghost use Rattle.rb_laws.specs.Honesty.{IsHonestNetwork, IsGenuineNetwork};
ghost use Rattle.rb_laws.specs.Votes.{IsCast, IsChosen};

/// A node casts at most one vote in a term: of all the answers that were put out, those of one node that give a vote of one term give it to
/// one candidate.
pub fn votes_are_cast_once()
    ensures { (s : Network) (hs : List Happening) (voter term first second : ℕ) → IsHonestNetwork s hs [] → IsCast (run hs s).said voter term first → IsCast (run hs s).said voter term second → second ≡ first }
{}

/// Who leads in a term was chosen in it: a quorum of the members cast its votes for it.
pub fn leaders_are_chosen()
    ensures { (s : Network) (hs : List Happening) (id term : ℕ) → (net : IsHonestNetwork s hs []) → Leads (run hs s).nodes id term → IsChosen (config_of net.members) (run hs s).said id term }
{}

/// Election safety: two nodes that lead in one term, at whatever points of a run, are one node. The nodes start with the same members, in
/// no joint configuration; no vote is forged, and the configuration stays.
pub fn elections_are_safe()
    ensures { (s : Network) (earlier later : List Happening) (first second term : ℕ) → IsHonestNetwork s earlier later → Leads (run earlier s).nodes first term → Leads (run later (run earlier s)).nodes second term → second ≡ first }
{}

/// The same of scripts: two nodes that lead in one term, at whatever points of a script, are one node. All nodes are added with the same voters and
/// learners, whenever they are, and nobody proposes a change. Nodes may restart.
pub fn clusters_elect_one_leader()
    ensures { (s : PlainScript) (p q first second term : ℕ) → HasSameMembers s → Leads (state s p).nodes first term → Leads (state s q).nodes second term → second ≡ first }
{}

/// Log matching: the logs of two nodes, or of one, at whatever points of a run, are the same up to an index at which both have an entry of
/// the same term, as far as both still have it. The nodes start with the same members, in no joint configuration; no vote and no append is
/// forged, and the configuration stays. Snapshots may be made up.
pub fn logs_match()
    ensures { (s : Network) (earlier later : List Happening) (j k : ℕ) (first second : PlainNode) → IsGenuineNetwork s earlier later → slice_get (run earlier s).nodes j ≡ Some first → slice_get (run later (run earlier s)).nodes k ≡ Some second → AreMatching first.log second.log }
{}

/// The same of scripts: logs of a script's nodes, at whatever points, match. All nodes are added with the same voters and learners, and nobody proposes
/// a change. Nodes may restart.
pub fn clusters_keep_logs_matching()
    ensures { (s : PlainScript) (p q j k : ℕ) (first second : PlainNode) → HasSameMembers s → slice_get (state s p).nodes j ≡ Some first → slice_get (state s q).nodes k ≡ Some second → AreMatching first.log second.log }
{}
