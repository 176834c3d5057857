//! What Raft rests on: any two decisions share a voter, also across a change of the configuration.
//!
//! A leader is elected by a quorum and commits by a quorum. Since two quorums share a voter, no two leaders are elected in a term,
//! and a node that is elected has heard from one that holds all that is committed (Ongaro's thesis, sections 3.4, 3.6 and 4.1 to 4.3).
//! These are the facts of it that are about sets and counts alone, over all configurations, views and votes.
ghost use Rattle.std.specs.Prelude.{◌≡◌, ◌≤◌, ◌<◌, ◌↔◌, ℕ, Bool, true, false, not, List, [], length, Ok};
ghost use Rattle.indexmap.specs.Layout.{set_value_at};
ghost use Rattle.rb_vocab.specs.declared.conf_state.ConfState.{ConfState};
ghost use Rattle.rb_vocab.specs.declared.change.Transition.{Transition};
ghost use Rattle.rb_vocab.specs.declared.change.Word.{Word};
ghost use Rattle.rb_vocab.specs.declared.change.WordKind.TheVariants as kind;
ghost use Rattle.rb_tracker.specs.declared.config.Config.{Config};
ghost use Rattle.rb_tracker.specs.declared.votes.Votes.{Votes};
ghost use Rattle.rb_tracker.specs.declared.votes.VoteResult.TheVariants.{Won, Lost};
ghost use Rattle.rb_tracker.specs.Sets.{has, set_of, IsAscending};
ghost use Rattle.rb_tracker.specs.Configs.{config_of, state_of, voters};
ghost use Rattle.rb_tracker.specs.Quorum.{IsMajority, IsQuorum, Share, ShareVoter};
ghost use Rattle.rb_tracker.specs.Changes.{word_applied, simple, enter_joint, leave_joint, changed, IsConfig};
ghost use Rattle.rb_tracker.specs.Ballots.{no_votes, answered, is_won, is_open, vote_result, MoreGrants, IsOnce};
ghost use Rattle.rb_tracker.specs.Moves.{Moves, IsLeft, answered_all, grants_of};
ghost use Rattle.rb_tracker.specs.Progresses.{PlainProgress};
ghost use Rattle.rb_tracker.specs.Trackers.{PlainTracker, cleared, has_view, with_new, removed, with_view, AreInOrder};
ghost use Rattle.rb_tracker.specs.Active.{others_marked_inactive};
ghost use Rattle.rb_tracker.specs.Commits.{holds, is_held, commit_of};

/// Two majorities of one set of voters share a voter.
pub fn majorities_meet()
    ensures { (voters : List ℕ) (p q : ℕ → Bool) → IsMajority voters p → IsMajority voters q → Share voters p q }
{}

/// Two quorums of one configuration, joint or not, share a voter.
pub fn quorums_meet()
    ensures { (c : Config) (p q : ℕ → Bool) → IsQuorum c p → IsQuorum c q → ShareVoter c p q }
{}

/// A quorum of a joint configuration shares a voter with each majority of its old voters and with each of its new voters, so
/// neither can decide without it.
pub fn joint_quorums_meet_each_half()
    ensures old { (c : Config) (p q : ℕ → Bool) → IsQuorum c p → IsMajority c.outgoing q → Share c.outgoing p q }
    ensures new { (c : Config) (p q : ℕ → Bool) → IsQuorum c p → IsMajority c.incoming q → Share c.incoming p q }
{}

/// A quorum before a change and a quorum after it share a voter: over a simple change, over entering a joint configuration, over
/// leaving it, and so over each change that an entry may ask for.
pub fn changes_keep_quorums_meeting()
    ensures simple { (c d : Config) (words : List Word) (p q : ℕ → Bool) → IsConfig c → simple c words ≡ Ok d → IsQuorum c p → IsQuorum d q → ShareVoter c p q }
    ensures entering { (c d : Config) (auto : Bool) (words : List Word) (p q : ℕ → Bool) → enter_joint c auto words ≡ Ok d → IsQuorum c p → IsQuorum d q → ShareVoter c p q }
    ensures leaving { (c d : Config) (p q : ℕ → Bool) → leave_joint c ≡ Ok d → IsQuorum c p → IsQuorum d q → ShareVoter c p q }
    ensures each { (c d : Config) (transition : Transition) (words : List Word) (p q : ℕ → Bool) → IsConfig c → changed c transition words ≡ Ok d → IsQuorum c p → IsQuorum d q → ShareVoter c p q }
{}

/// A change never leaves a configuration without voters, and keeps voters and learners apart.
pub fn changes_keep_configurations()
    ensures apart { (c d : Config) (transition : Transition) (words : List Word) → IsConfig c → changed c transition words ≡ Ok d → IsConfig d }
    ensures simple { (c d : Config) (words : List Word) → simple c words ≡ Ok d → 0 < length d.incoming }
    ensures entering { (c d : Config) (auto : Bool) (words : List Word) → enter_joint c auto words ≡ Ok d → 0 < length d.incoming }
    ensures old_voters { (c d : Config) (auto : Bool) (words : List Word) → enter_joint c auto words ≡ Ok d → d.outgoing ≡ c.incoming }
    ensures leaving { (c d : Config) → leave_joint c ≡ Ok d → d.incoming ≡ c.incoming }
{}

/// What a word does to the member that it names, and that nobody else moves: `v` makes a voter; `l` a learner, at once or, of a voter
/// that leaves, once the joint configuration is left; `r` removes; `u` changes nothing.
pub fn words_move_one_member()
    ensures voter { (c : Config) (id : ℕ) → Moves c (word_applied kind.Voter c id) id true false false }
    ensures learner { (c : Config) (id : ℕ) → IsConfig c → Moves c (word_applied kind.Learner c id) id false (not (has c.outgoing id)) (has c.outgoing id) }
    ensures removed { (c : Config) (id : ℕ) → Moves c (word_applied kind.Remove c id) id false false false }
    ensures updated { (c : Config) (id : ℕ) → word_applied kind.Update c id ≡ c }
{}

/// Who leads leaves a joint configuration by itself exactly where it was entered so; once it is left, its incoming voters decide alone, and
/// who was to learn later learns. A simple change makes nothing joint.
pub fn joint_configurations_are_left()
    ensures entered { (c d : Config) (auto : Bool) (words : List Word) → enter_joint c auto words ≡ Ok d → d.auto ≡ auto }
    ensures left { (c d : Config) → leave_joint c ≡ Ok d → IsLeft c d }
    ensures simple { (c d : Config) (words : List Word) → simple c words ≡ Ok d → (d.outgoing ≡ c.outgoing) × (d.auto ≡ c.auto) }
{}

/// A vote is lost exactly where no further answers can win it, and then it stays lost.
pub fn lost_votes_cant_be_won()
    ensures stays { (c : Config) (v : Votes) (answers : List (ℕ × Bool)) → IsOnce v → vote_result c v ≡ Lost → vote_result c (answered_all v answers) ≡ Lost }
    ensures winnable { (c : Config) (v : Votes) → IsOnce v → (vote_result c v ≡ Lost → ⊥) → vote_result c (answered_all v (grants_of (voters c))) ≡ Won }
{}

/// What is committed is the greatest index that a quorum holds.
pub fn committed_is_greatest()
    ensures held { (t : PlainTracker) → is_held t (commit_of t) ≡ true }
    ensures greatest { (t : PlainTracker) (n : ℕ) → 0 < length t.config.incoming → is_held t n ≡ true → n ≤ commit_of t }
    ensures nobody { (t : PlainTracker) → t.config.incoming ≡ [] → t.config.outgoing ≡ [] → commit_of t ≡ 0 }
{}

/// Each quorum has a voter who holds all that is committed: so a node that is elected has heard from one.
pub fn quorums_know_what_is_committed()
    ensures { (t : PlainTracker) (p : ℕ → Bool) → IsQuorum t.config p → ShareVoter t.config p (λ id. holds t.views (commit_of t) id) }
{}

/// A vote is won exactly where a quorum granted, it can't be both won and lost, and a further answer doesn't turn a won vote.
pub fn votes_are_decided_once()
    ensures won { (c : Config) (v : Votes) → (vote_result c v ≡ Won) ↔ (is_won c v ≡ true) }
    ensures lost { (c : Config) (v : Votes) → vote_result c v ≡ Lost → is_open c v ≡ false }
    ensures not_both { (c : Config) (v : Votes) → IsOnce v → is_won c v ≡ true → is_open c v ≡ true }
    ensures more { (c : Config) (v w : Votes) → MoreGrants v w → vote_result c v ≡ Won → vote_result c w ≡ Won }
    ensures stays { (c : Config) (v : Votes) (id : ℕ) (granted : Bool) → vote_result c v ≡ Won → vote_result c (answered v id granted) ≡ Won }
    ensures first { IsOnce no_votes }
    ensures once { (v : Votes) (id : ℕ) (granted : Bool) → IsOnce v → IsOnce (answered v id granted) }
{}

/// A won vote has a quorum of grants, so two that are won share a voter who granted both.
pub fn winners_share_a_voter()
    ensures quorum { (c : Config) (v : Votes) → 0 < length c.incoming → vote_result c v ≡ Won → IsQuorum c (λ id. has v.granted id) }
    ensures share { (c : Config) (v w : Votes) → 0 < length c.incoming → vote_result c v ≡ Won → vote_result c w ≡ Won → ShareVoter c (λ id. has v.granted id) (λ id. has w.granted id) }
{}

/// A configuration is read from a snapshot as it was put into it. Whatever lists a snapshot has, the sets read from it are ascending and have
/// the lists' ids.
pub fn configurations_read_back()
    ensures back { (c : Config) → IsConfig c → config_of (state_of c) ≡ c }
    ensures ascending { (ids : List ℕ) → IsAscending (set_of ids) }
    ensures same { (ids : List ℕ) (id : ℕ) → has (set_of ids) id ≡ has ids id }
{}

/// The views stay in the order of their ids, and as many, whatever is written to one of them.
pub fn views_stay_in_order()
    ensures put { (t : PlainTracker) (id : ℕ) (view : PlainProgress) → AreInOrder t.views → has_view t.views id ≡ false → AreInOrder (with_new t id view).views }
    ensures taken { (t : PlainTracker) (id : ℕ) → AreInOrder t.views → AreInOrder (removed t id).views }
    ensures written { (t : PlainTracker) (i : ℕ) (view : PlainProgress) → AreInOrder t.views → AreInOrder (with_view t i view).views }
    ensures others_marked_inactive { (t : PlainTracker) (own : ℕ) → AreInOrder t.views → AreInOrder (others_marked_inactive t own).views }
    ensures none { (t : PlainTracker) → AreInOrder (cleared t).views }
    ensures written_length { (t : PlainTracker) (i : ℕ) (view : PlainProgress) → length (with_view t i view).views ≡ length t.views }
    ensures unmarked_length { (t : PlainTracker) (own : ℕ) → length (others_marked_inactive t own).views ≡ length t.views }
{}
