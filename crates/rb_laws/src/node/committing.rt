//! What a leader commits: laws that ask that it does.
ghost use Rattle.std.specs.Prelude.{◌≡◌, ◌+◌, ◌<◌, ℕ, true, false, List, ◌∷◌};
ghost use Rattle.rb_raftlog.specs.declared.entry.Body.TheVariants.{Payload};
ghost use Rattle.rb_raftlog.specs.Log.{last, term_at, is_term};
ghost use Rattle.rb_tracker.specs.Configs.{is_member};
ghost use Rattle.rb_tracker.specs.Sets.{has};
ghost use Rattle.rb_message.specs.declared.role.Role.TheVariants.{Leader};
ghost use Rattle.rb_node.specs.Leading.{became_leader};
ghost use Rattle.rb_node.specs.Node.{NodeStep};
ghost use Rattle.rb_calls.specs.Calling.{Call, Propose, after, run};
ghost use Rattle.rb_laws.specs.Committing.{AwaitsAnswers, CommitsAll, HasCommittedAll, HasCommittedEntry, IsHeldWith, acks};
ghost use Rattle.rb_laws.specs.Proposals.{TakesProposals};
ghost use Rattle.rb_calls.specs.Sound.{IsSound, HasViewsOfMembers};

/// What a quorum holds is committed: a leader that leads on in its term and has committed all that it may has done so after each call, too. All that it
/// may are the entries of its term that a quorum holds, with all before them. A node that is elected has none such, if it held no entry of its term before.
pub fn leaders_commit_all_that_they_may()
    ensures run { (cs : List Call) (t : NodeStep) → HasViewsOfMembers t.node → IsSound t.node → t.node.role ≡ Leader → (run cs t).node.role ≡ Leader → (run cs t).node.term ≡ t.node.term → HasCommittedAll t.node → HasCommittedAll (run cs t).node }
    ensures elected { (t : NodeStep) → IsSound t.node → ((i : ℕ) → t.node.commit < i → is_term (term_at t.node.log i) t.node.term ≡ false) → HasCommittedAll (became_leader t).node }
{}

/// Once members that make a quorum have answered that they hold a leader's whole log, in whatever order, all of it is committed, if its last entry is of
/// the leader's term. So a payload that a leader is asked for is committed, with its term, once they have answered that they hold it.
pub fn answered_entries_are_committed()
    ensures all { (t : NodeStep) (ids : List ℕ) → AwaitsAnswers t.node → ((id : ℕ) → has ids id ≡ true → is_member t.node.tracker.config id ≡ true) → IsHeldWith t.node ids → (run (acks t.node ids) t).node.commit ≡ last t.node.log }
    ensures asked { (t : NodeStep) (bytes ids : List ℕ) → TakesProposals t.node → CommitsAll t.node → ((id : ℕ) → has ids id ≡ true → is_member t.node.tracker.config id ≡ true) → IsHeldWith (after (Propose (Payload bytes)) t).node ids → HasCommittedEntry (run (Propose (Payload bytes) ∷ acks (after (Propose (Payload bytes)) t).node ids) t).node (last t.node.log + 1) (record { term = t.node.term; body = Payload bytes }) }
{}
