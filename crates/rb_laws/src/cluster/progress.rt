//! That something happens in a network: a law that asks that an election ends.
ghost use Rattle.std.specs.Prelude.{◌+◌, ℕ, List};
ghost use Rattle.rb_node.specs.Node.{PlainNode};
ghost use Rattle.rb_laws.specs.LoneElections.{TimesOutAlone, lone_election};
ghost use Rattle.rb_laws.specs.Network.{Network, run, Leads};
ghost use Rattle.rb_laws.specs.Safety.{AreTrue};

/// A node whose timeout passes while those of the others don't is elected, once all messages are delivered: it waits, and puts out its requests; a quorum
/// of voters, each of an earlier term, without a lease, and with a log that is no newer, gets them, and puts out its votes; and these come back. No
/// message is made up.
pub fn lone_candidates_are_elected()
    ensures leads { (s : Network) (at : ℕ) (n : PlainNode) (places : List ℕ) → TimesOutAlone s at n places → Leads (run (lone_election at n places) s).nodes n.id (n.term + 1) }
    ensures delivered { (s : Network) (at : ℕ) (n : PlainNode) (places : List ℕ) → TimesOutAlone s at n places → AreTrue (lone_election at n places) s }
{}
