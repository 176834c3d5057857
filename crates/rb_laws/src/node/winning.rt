//! How an election is won: laws that ask that it is.
ghost use Rattle.std.specs.Prelude.{◌≡◌, ◌<◌, ℕ, false, List};
ghost use Rattle.rb_raftlog.specs.declared.limits.TheConstants.{MAX_TERM};
ghost use Rattle.rb_node.specs.Node.{PlainNode, NodeStep};
ghost use Rattle.rb_node.specs.Step.{stepped};
ghost use Rattle.rb_calls.specs.Calling.{Campaign, after, run};
ghost use Rattle.rb_laws.specs.Choices.{MayCampaign};
ghost use Rattle.rb_laws.specs.Winning.{request_to, yeses, WouldVoteFor, VotesFor, StillStands, HasQuorumWith, LeadsIn};

/// If one node campaigns, others whose logs are no newer are asked before they campaign themselves, and all messages are delivered, then it leads. It
/// stands, and asks each other voter (`silence_ends_in_a_campaign`); each that is asked votes for it; once the yes of a quorum has come, in whatever
/// order, it leads in its term.
pub fn elections_are_won()
    ensures stands { (t : NodeStep) → MayCampaign t.node → t.node.term < MAX_TERM → t.node.options.pre_vote ≡ false → StillStands (after Campaign t).node }
    ensures given { (t : NodeStep) (n : PlainNode) → WouldVoteFor t.node n → VotesFor t.node (stepped t (request_to n t.node.id)).node n }
    ensures won { (t : NodeStep) (ids : List ℕ) → StillStands t.node → HasQuorumWith t.node ids → LeadsIn (run (yeses t.node ids) t).node t.node.term }
{}
