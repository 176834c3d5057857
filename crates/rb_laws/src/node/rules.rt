//! What a single call of a node does by Raft's rules, one law for each rule that the laws over any calls don't need.
ghost use Rattle.std.specs.Prelude.{◌≡◌, ◌≤◌, ◌<◌, ◌⊎◌, ◌+◌, ◌*◌, ◌++◌, ℕ, Bool, true, false, max, min, List, [], ◌∷◌, length, count_by, Contains, Ok, Some, None, slice_get};
ghost use Rattle.rb_raftlog.specs.declared.entry.Body.TheVariants.{Change};
ghost use Rattle.rb_raftlog.specs.declared.entry.Entry.{Entry};
ghost use Rattle.rb_raftlog.specs.declared.limits.TheConstants.{MAX_INDEX};
ghost use Rattle.rb_raftlog.specs.declared.snapshot.Snapshot.{Snapshot};
ghost use Rattle.rb_raftlog.specs.Log.{LogValue, last, term_at, entry_at, is_term, is_up_to_date, own, has_change, last_of};
ghost use Rattle.rb_vocab.specs.declared.change.Transition.TheVariants.{Auto};
ghost use Rattle.rb_tracker.specs.Active.{quorum_active, is_active};
ghost use Rattle.rb_tracker.specs.Configs.{is_joint, is_voter, voters};
ghost use Rattle.rb_tracker.specs.Progresses.{PlainProgress, sent, acked, freed_through, refused};
ghost use Rattle.rb_tracker.specs.Quorum.{is_majority, is_quorum, IsQuorum};
ghost use Rattle.rb_tracker.specs.Sets.{has};
ghost use Rattle.rb_tracker.specs.Trackers.{PlainTracker, place, view_at};
ghost use Rattle.rb_tracker.specs.Windows.{is_full};
ghost use Rattle.rb_tracker.specs.declared.config.Config.{Config};
ghost use Rattle.rb_tracker.specs.declared.progress.ProgressState.TheVariants.{Probe, Replicate};
ghost use Rattle.rb_message.specs.Messages.{has_term};
ghost use Rattle.rb_message.specs.declared.hard_state.HardState.{HardState};
ghost use Rattle.rb_message.specs.declared.kind.MessageKind.TheVariants as kinds;
ghost use Rattle.rb_message.specs.declared.kind.MessageKind.TheVariants.{Vote, PreVote, PreVoteResponse};
ghost use Rattle.rb_message.specs.declared.message.Message.{Message};
ghost use Rattle.rb_message.specs.declared.role.Role.TheVariants.{Leader};
ghost use Rattle.rb_node.specs.declared.limits.TheConstants.{ELECTION_TICKS};
ghost use Rattle.rb_node.specs.declared.options.Options.{Options};
ghost use Rattle.rb_node.specs.declared.sends.SendReason.{SendReason};
ghost use Rattle.rb_node.specs.Changing.{applied_all, joint_left};
ghost use Rattle.rb_node.specs.Compacting.{config_after};
ghost use Rattle.rb_node.specs.Node.{PlainNode, NodeStep, message, started};
ghost use Rattle.rb_node.specs.Readying.{applying, ready};
ghost use Rattle.rb_node.specs.Sends.{sends};
ghost use Rattle.rb_node.specs.Step.{stepped};
ghost use Rattle.rb_node.specs.Ticking.{next_count};
ghost use Rattle.rb_node.specs.Votes.{grants, why_refused};
ghost use Rattle.rb_calls.specs.Calling.{Call, Tick, after, run};
ghost use Rattle.rb_calls.specs.Elections.{own_turn};
ghost use Rattle.rb_calls.specs.Learning.{IsLeaders, LearnsBy, IsRestored, KeepsState};
ghost use Rattle.rb_laws.specs.Rules.{ShowsTerm, KeepsFollowers, ShowsItsTerm, IsReason, HasNoLease, KnowsLeader, LeadsKnowing, IsHardStateOf, SendsNoEntries, HasChangeIn};
ghost use Rattle.rb_calls.specs.Sound.{IsSound};

/// A node that doesn't lead in a message's term learns of a commit by its leader's messages alone: by an append that follows an entry of its
/// log, to at most the append's last entry and the leader's commit; by a heartbeat, to at most its commit and the node's last index; by a
/// snapshot, to its index, where the log then has its term.
pub fn followers_commit_what_leaders_tell()
    ensures { (t : NodeStep) (m : Message) → (t.node.role ≡ Leader → (has_term m.kind ≡ true) × (t.node.term < m.term)) → ((stepped t m).node.commit ≡ t.node.commit) ⊎ LearnsBy m.kind t.node (stepped t m).node }
{}

/// A message of an earlier term changes nothing but what waits to be answered: a question before the vote gets a no; and if a node asks before votes or
/// checks its quorum, so that a leader might never hear of its term, what keeps that leader's followers is answered with the term.
pub fn earlier_terms_change_nothing()
    ensures stays { (t : NodeStep) (m : Message) → has_term m.kind ≡ true → m.term < t.node.term → (stepped t m).node ≡ record t.node { waiting = (stepped t m).node.waiting } }
    ensures asked { (t : NodeStep) (m : Message) (last_term last_index : ℕ) → m.kind ≡ PreVote last_term last_index → m.term < t.node.term → (stepped t m).node.waiting ≡ t.node.waiting ++ message t.node.id m.from t.node.term (PreVoteResponse false) ∷ [] }
    ensures shown { (t : NodeStep) (m : Message) → KeepsFollowers m.kind → ShowsItsTerm t.node.options → m.term < t.node.term → (stepped t m).node.waiting ≡ t.node.waiting ++ message t.node.id m.from t.node.term (kinds.AppendResponse 0) ∷ [] }
{}

/// A later term is taken up from each message that shows one; from a vote request only by a node without a lease, or if the leader hands
/// the lead over.
pub fn later_terms_are_taken_up()
    ensures shown { (t : NodeStep) (m : Message) → ShowsTerm m.kind → t.node.term < m.term → m.term ≤ (stepped t m).node.term }
    ensures lease { (t : NodeStep) (m : Message) (last_term last_index : ℕ) (transfer : Bool) → m.kind ≡ Vote last_term last_index transfer → HasNoLease t.node → t.node.term < m.term → m.term ≤ (stepped t m).node.term }
{}

/// A question before the vote never gets a yes for a log that is older than the node's.
pub fn pre_votes_look_at_logs()
    ensures { (t : NodeStep) (m : Message) (last_term last_index : ℕ) → m.kind ≡ PreVote last_term last_index → is_up_to_date t.node.log last_index last_term ≡ false → ((stepped t m).node.waiting ≡ t.node.waiting) ⊎ ((stepped t m).node.waiting ≡ t.node.waiting ++ message t.node.id m.from t.node.term (PreVoteResponse false) ∷ []) }
{}

/// A vote is refused for a reason that holds: the candidate's log is older, or another node has the vote, or a leader is known.
pub fn votes_are_refused_for_a_reason()
    ensures { (n : PlainNode) (m : Message) (last_term last_index : ℕ) (pre_vote : Bool) → grants n m last_term last_index pre_vote ≡ false → IsReason n m last_term last_index (why_refused n m last_term last_index pre_vote) }
{}

/// A leader's message starts the election timer of its followers again, and so does a vote that is given. A leader's look at its quorum starts its own.
pub fn timers_start_again()
    ensures leader { (t : NodeStep) (m : Message) → IsLeaders m.kind → t.node.term ≤ m.term → (t.node.role ≡ Leader → t.node.term < m.term) → (stepped t m).node.clock.elapsed ≡ 0 }
    ensures vote { (t : NodeStep) (m : Message) (last_term last_index : ℕ) (transfer : Bool) → m.kind ≡ Vote last_term last_index transfer → ((stepped t m).node.vote ≡ t.node.vote) ⊎ ((stepped t m).node.clock.elapsed ≡ 0) }
    ensures look { (t : NodeStep) → t.node.role ≡ Leader → ELECTION_TICKS ≤ next_count t.node.clock.elapsed → (after Tick t).node.clock.elapsed ≡ 0 }
{}

/// A node knows of no other leader than itself, if it leads, and the sender of a leader's message of its term. While it knows of one, it
/// gives its vote to nobody else.
pub fn leaders_are_known_by_their_messages()
    ensures known { (t : NodeStep) (m : Message) → KnowsLeader t.node m (stepped t m).node }
    ensures vote { (t : NodeStep) (m : Message) (last_term last_index : ℕ) (transfer : Bool) → m.kind ≡ Vote last_term last_index transfer → m.term ≡ t.node.term → ((stepped t m).node.vote ≡ t.node.vote) ⊎ ((t.node.vote ≡ 0) × (t.node.lead ≡ 0)) }
{}

/// A snapshot is restored whole, or changes neither the log nor what is applied. A node that doesn't lead in the snapshot's term restores
/// one that is past its commit and whose entry it lacks, and hands it over to be saved. It answers with its commit, whichever snapshot it is.
pub fn snapshots_are_restored_whole()
    ensures all { (t : NodeStep) (m : Message) (s : Snapshot) → m.kind ≡ kinds.Snapshot s → IsRestored (stepped t m).node s ⊎ KeepsState t.node (stepped t m).node }
    ensures news { (t : NodeStep) (m : Message) (s : Snapshot) → m.kind ≡ kinds.Snapshot s → t.node.term ≤ m.term → (t.node.role ≡ Leader → t.node.term < m.term) → t.node.commit < s.index → is_term (term_at t.node.log s.index) s.term ≡ false → IsRestored (stepped t m).node s }
    ensures answered { (t : NodeStep) (m : Message) (s : Snapshot) → m.kind ≡ kinds.Snapshot s → t.node.term ≤ m.term → (t.node.role ≡ Leader → t.node.term < m.term) → (stepped t m).node.waiting ≡ t.node.waiting ++ message t.node.id m.from (stepped t m).node.term (kinds.AppendResponse (stepped t m).node.commit) ∷ [] }
    ensures handed { (n : PlainNode) → n.restored ≡ true → (ready n).snapshot ≡ Some (n.log.base_term, n.log.base) }
{}

/// What is ready is the node's state: the hard state is its term, its vote and its commit, and is left out only where these are saved; what
/// is to be saved are the log's entries past the durable ones, and what is to be applied those past the applied ones, in order.
pub fn ready_is_the_state()
    ensures hard { (n : PlainNode) (h : HardState) → (ready n).hard ≡ Some h → IsHardStateOf h n }
    ensures saved { (n : PlainNode) → (ready n).hard ≡ None → IsHardStateOf n.saved n }
    ensures save { (n : PlainNode) (k : ℕ) (e : Entry) → IsSound n → slice_get (ready n).save k ≡ Some e → entry_at n.log (n.log.durable + 1 + k) ≡ Ok e }
    ensures apply { (n : PlainNode) (k : ℕ) (e : Entry) → IsSound n → slice_get (ready n).apply k ≡ Some e → entry_at n.log (n.applied + 1 + k) ≡ Ok e }
{}

/// A committed change takes effect: after an advance the configuration is what the changes among the applied entries make of it, one after
/// another; a change that can't be made leaves it.
pub fn committed_changes_take_effect()
    ensures entries { (t : NodeStep) (i : ℕ) (es : List Entry) → (applied_all t i es).node.tracker.config ≡ config_after t.node.tracker.config es }
    ensures advance { (t : NodeStep) → (own_turn t).node.tracker.config ≡ config_after t.node.tracker.config (applying t.node) }
{}

/// A leader leaves a joint configuration by itself, if the configuration asks for it: once its last change is applied, the change that
/// leaves goes to the end of its log, unless it hands the lead over or its log is full.
pub fn joint_configurations_are_left()
    ensures { (t : NodeStep) → t.node.role ≡ Leader → is_joint t.node.tracker.config ≡ true → t.node.tracker.config.auto ≡ true → t.node.transferee ≡ 0 → t.node.pending_change ≤ t.node.applied → last t.node.log < MAX_INDEX → (joint_left t).node.log ≡ own t.node.log (record { term = t.node.term; body = Change Auto [] }) }
{}

/// To a member whose window is full goes no append with entries. Sending adds at most the last index to what is in flight, and an answer
/// frees no more than it covers.
pub fn full_windows_take_no_entries()
    ensures full { (n : PlainNode) (to at : ℕ) (how : SendReason) (view : PlainProgress) → place n.tracker.views to ≡ Some at → view_at n.tracker.views at ≡ Some view → view.state ≡ Replicate → is_full view.window ≡ true → SendsNoEntries n to (sends n to how) }
    ensures sent { (p : PlainProgress) (last : ℕ) → ((sent p last).window.in_flight ≡ p.window.in_flight) ⊎ ((sent p last).window.in_flight ≡ p.window.in_flight ++ last ∷ []) }
    ensures acked { (p : PlainProgress) (index i : ℕ) → p.state ≡ Replicate → Contains p.window.in_flight i → index < i → Contains (acked p index).window.in_flight i }
    ensures freed { (p : PlainProgress) (index i : ℕ) → p.state ≡ Replicate → Contains p.window.in_flight i → index < i → Contains (freed_through p index).window.in_flight i }
{}

/// A refusal leads a probe back: what is sent next begins past what the member is known to hold, and else one past its hint, or where it refused, if that
/// is sooner.
pub fn refusals_lead_back()
    ensures ahead { (p : PlainProgress) (index hint : ℕ) → p.state ≡ Probe → p.matched < (refused p index hint).next }
    ensures hint { (p : PlainProgress) (index hint : ℕ) → p.state ≡ Probe → (refused p index hint).next ≤ max (p.matched + 1) (hint + 1) }
    ensures back { (p : PlainProgress) (index hint : ℕ) → p.state ≡ Probe → (refused p index hint).next ≤ max (p.matched + 1) index }
    ensures far { (p : PlainProgress) (index hint : ℕ) → p.state ≡ Probe → min index (hint + 1) ≤ (refused p index hint).next }
    ensures goes_on { (p : PlainProgress) (index hint : ℕ) → p.state ≡ Probe → (refused p index hint).waiting ≡ false }
{}

/// A leader's look at its quorum ends a transfer.
pub fn transfers_time_out()
    ensures { (t : NodeStep) → t.node.role ≡ Leader → ELECTION_TICKS ≤ next_count t.node.clock.elapsed → (after Tick t).node.transferee ≡ 0 }
{}

/// The tests of the rules mean what they are named for: a quorum is active if a quorum of the configuration was heard of; an id is a voter's
/// if it is among the voters; entries have a change if one of them is a change; their last term is that of the last of them. More than half of some
/// voters are a majority, and a majority of all voters decides, unless the configuration is joint.
pub fn tests_mean_their_names()
    ensures quorum { (t : PlainTracker) → 0 < length t.config.incoming → quorum_active t ≡ true → IsQuorum t.config (λ id. is_active t.views id) }
    ensures active { (t : PlainTracker) → IsQuorum t.config (λ id. is_active t.views id) → quorum_active t ≡ true }
    ensures voter { (c : Config) (id : ℕ) → is_voter c id ≡ has (voters c) id }
    ensures change { (v : LogValue) (after upto : ℕ) → v.base ≤ after → has_change v after upto ≡ true → HasChangeIn v after upto }
    ensures changes { (v : LogValue) (after upto : ℕ) → v.base ≤ after → HasChangeIn v after upto → has_change v after upto ≡ true }
    ensures last { (es : List Entry) (e : Entry) → last_of (es ++ e ∷ []) ≡ Some e.term }
    ensures most { (voters : List ℕ) (among : ℕ → Bool) → length voters < 2 * count_by among voters → is_majority voters among ≡ true }
    ensures alone { (c : Config) (among : ℕ → Bool) → c.outgoing ≡ [] → is_quorum c among ≡ is_majority c.incoming among }
{}

/// A leader knows itself as the leader, and up to which index a change of the configuration may be in its log: no entry past it is a change. So a
/// change that is proposed goes into the log only where all others in it are applied (`changes_go_one_at_a_time`).
pub fn leaders_know_of_changes()
    ensures started { (id : ℕ) (start : Snapshot) (options : Options) → LeadsKnowing (started id start options) }
    ensures called { (c : Call) (t : NodeStep) → LeadsKnowing t.node → LeadsKnowing (after c t).node }
    ensures run { (cs : List Call) (t : NodeStep) → LeadsKnowing t.node → LeadsKnowing (run cs t).node }
{}
