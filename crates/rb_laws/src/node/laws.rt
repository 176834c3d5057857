//! What a node keeps, whatever is done with it.
ghost use Rattle.std.specs.Prelude.{◌≡◌, ◌≤◌, ◌<◌, ◌⊎◌, ◌+◌, ◌++◌, ℕ, Bool, true, false, List, length, All, Contains, Result, Ok, Err};
ghost use Rattle.rb_raftlog.specs.declared.raft_log.CompactFault.TheVariants.{AlreadyCompacted, PastApplied, OutOfMemory};
ghost use Rattle.rb_raftlog.specs.declared.snapshot.Snapshot.{Snapshot};
ghost use Rattle.rb_raftlog.specs.Laws.{AreMatching, AreOfLog};
ghost use Rattle.rb_raftlog.specs.Log.{LogValue, entry_at, term_at, is_term};
ghost use Rattle.rb_message.specs.declared.role.Role.TheVariants.{Leader, Candidate};
ghost use Rattle.rb_message.specs.declared.message.Message.{Message};
ghost use Rattle.rb_message.specs.Appends.{PlainAppend};
ghost use Rattle.rb_message.specs.declared.kind.MessageKind.TheVariants.{Append, Vote, PreVote, Proposal, TransferLeader};
ghost use Rattle.rb_node.specs.declared.options.Options.{Options};
ghost use Rattle.rb_node.specs.Node.{PlainNode, NodeStep, node_step, started, with_timeout};
ghost use Rattle.rb_node.specs.Campaigns.{campaigned, campaigned_after_pre_vote};
ghost use Rattle.rb_node.specs.declared.limits.TheConstants.{ELECTION_TICKS};
ghost use Rattle.rb_raftlog.specs.declared.entry.Body.{Body};
ghost use Rattle.rb_raftlog.specs.declared.entry.Body.TheVariants.{Payload, Change};
ghost use Rattle.rb_raftlog.specs.declared.entry.Entry.{Entry};
ghost use Rattle.rb_vocab.specs.declared.change.Transition.{Transition};
ghost use Rattle.rb_vocab.specs.declared.change.Word.{Word};
ghost use Rattle.rb_tracker.specs.Commits.{match_of, is_held};
ghost use Rattle.rb_tracker.specs.Active.{quorum_active};
ghost use Rattle.rb_tracker.specs.Changes.{changed};
ghost use Rattle.rb_tracker.specs.Configs.{is_voter};
ghost use Rattle.rb_tracker.specs.declared.config.Config.{Config};
ghost use Rattle.rb_node.specs.Changing.{applied_all, change_applied};
ghost use Rattle.rb_node.specs.Proposing.{proposal_handled};
ghost use Rattle.rb_node.specs.Step.{stepped};
ghost use Rattle.rb_node.specs.Transferring.{transfer_leader_handled};
ghost use Rattle.rb_node.specs.Calls.{called, leader_forgotten, reported};
ghost use Rattle.rb_node.specs.Compacting.{IsCompactedTo};
ghost use Rattle.rb_node.specs.Readying.{advanced, applying, outgoing, has_ready};
ghost use Rattle.rb_node.specs.Ticking.{next_count, ticked};
ghost use Rattle.rb_calls.specs.Calling.{Call, Step, Campaign, Propose, Transfer, Tick, Advance, ForgetLeader, ReportUnreachable, SetTimeout, compacted_to, after, run};
ghost use Rattle.rb_laws.specs.Choices.{MayCampaign, MayTakeLead, PutsChange, StepsDown, payloads, HasNothing};
ghost use Rattle.rb_calls.specs.Elections.{VotesOnly, LeadsOnly, Granted, Elected, own_turn};
ghost use Rattle.rb_calls.specs.Events.{OnlyAdded};
ghost use Rattle.rb_calls.specs.Matches.{RestsOn, Told, IsOfOthers, HasOwnAnswers, CountsDurable, IsHeldBetween};
ghost use Rattle.rb_calls.specs.Sound.{IsSound, IsGrown, HasSameVote, HasSoundViews, HasViewsOfMembers};
ghost use Rattle.rb_calls.specs.Words.{IsYes, IsPromised, HasPromises, IsAnswered, AreTrueBetween};

/// The calls of the laws are the calls of a node: each leaves what its contract says that it does. Compacting, whose contract is a relation,
/// does unless memory is refused.
pub fn calls_are_these()
    ensures step { (t : NodeStep) (m : Message) → after (Step m) t ≡ stepped t m }
    ensures campaign { (t : NodeStep) → after Campaign t ≡ campaigned t false }
    ensures propose { (t : NodeStep) (bytes : List ℕ) → after (Propose (Payload bytes)) t ≡ called t (Proposal (Payload bytes)) }
    ensures change { (t : NodeStep) (transition : Transition) (words : List Word) → after (Propose (Change transition words)) t ≡ called t (Proposal (Change transition words)) }
    ensures transfer { (t : NodeStep) (to : ℕ) → after (Transfer to) t ≡ called t (TransferLeader to) }
    ensures tick { (t : NodeStep) → after Tick t ≡ ticked t }
    ensures advance { (t : NodeStep) → after Advance t ≡ advanced t }
    ensures forget { (t : NodeStep) → after ForgetLeader t ≡ node_step (leader_forgotten t.node) t.events }
    ensures report { (t : NodeStep) (id : ℕ) → after (ReportUnreachable id) t ≡ node_step (reported t.node id) t.events }
    ensures timeout { (t : NodeStep) (ticks : ℕ) → after (SetTimeout ticks) t ≡ node_step (with_timeout t.node ticks) t.events }
    ensures compacted { (old new : PlainNode) (index : ℕ) (done : Unit {0}) → IsCompactedTo old index (Ok done) new → new ≡ compacted_to old index }
    ensures already { (old new : PlainNode) (index : ℕ) → IsCompactedTo old index (Err AlreadyCompacted) new → new ≡ compacted_to old index }
    ensures past { (old new : PlainNode) (index : ℕ) → IsCompactedTo old index (Err PastApplied) new → new ≡ compacted_to old index }
    ensures memory { (old new : PlainNode) (index : ℕ) → IsCompactedTo old index (Err OutOfMemory) new → new ≡ old }
{}

/// Events are only added, whatever is called: none is taken back or changed, and none comes before an earlier one.
pub fn events_are_only_added()
    ensures { (cs : List Call) (t : NodeStep) → OnlyAdded t.events (run cs t).events }
{}

/// The term never falls, and the id stays.
pub fn terms_never_fall()
    ensures term { (cs : List Call) (t : NodeStep) → IsSound t.node → t.node.term ≤ (run cs t).node.term }
    ensures id { (cs : List Call) (t : NodeStep) → IsSound t.node → (run cs t).node.id ≡ t.node.id }
{}

/// In one term a vote that was given stays.
pub fn votes_are_given_once()
    ensures { (cs : List Call) (t : NodeStep) → IsSound t.node → (run cs t).node.term ≡ t.node.term → 0 < t.node.vote → (run cs t).node.vote ≡ t.node.vote }
{}

/// A campaign by pre-vote changes no term, no vote and no log, and neither does the answer to its question.
pub fn pre_votes_bind_nobody()
    ensures campaign { (t : NodeStep) → t.node.options.pre_vote ≡ true → HasSameVote t.node (campaigned t false).node }
    ensures answer { (t : NodeStep) (m : Message) (last_term last_index : ℕ) → m.kind ≡ PreVote last_term last_index → HasSameVote t.node (stepped t m).node }
{}

/// A node gives its vote to nobody else but by a message of its term that asks for it, for a log at least as new as its own.
pub fn votes_go_to_new_logs()
    ensures { (c : Call) (t : NodeStep) → IsSound t.node → VotesOnly t.node (after c t).node (Granted c t (after c t).node.vote (after c t).node.term) }
{}

/// A node becomes leader only as a candidate, in its term, by an answer with which a quorum has granted.
pub fn leaders_are_elected()
    ensures { (c : Call) (t : NodeStep) → IsSound t.node → LeadsOnly t.node (after c t).node (Elected c t (after c t).node.term) }
{}

/// Commit and applied never fall.
pub fn commit_never_falls()
    ensures commit { (cs : List Call) (t : NodeStep) → IsSound t.node → t.node.commit ≤ (run cs t).node.commit }
    ensures applied { (cs : List Call) (t : NodeStep) → IsSound t.node → t.node.applied ≤ (run cs t).node.applied }
    ensures base { (cs : List Call) (t : NodeStep) → IsSound t.node → t.node.log.base ≤ (run cs t).node.log.base }
{}

/// No entry that is committed is ever changed or lost but into the base, by compacting or by a snapshot past it; and where it is
/// durable, it stays so.
pub fn committed_entries_stay()
    ensures entries { (cs : List Call) (t : NodeStep) (i : ℕ) → IsSound t.node → i ≤ t.node.commit → (run cs t).node.log.base < i → entry_at (run cs t).node.log i ≡ entry_at t.node.log i }
    ensures durable { (cs : List Call) (t : NodeStep) (i : ℕ) → IsSound t.node → i ≤ t.node.commit → i ≤ t.node.log.durable → i ≤ (run cs t).node.log.durable }
{}

/// A leader that leads on in its term only appends to its log, but for what is compacted.
pub fn leaders_append_only()
    ensures { (cs : List Call) (t : NodeStep) → IsSound t.node → t.node.role ≡ Leader → (run cs t).node.role ≡ Leader → (run cs t).node.term ≡ t.node.term → IsGrown t.node.log (run cs t).node.log }
{}

/// In one term nobody becomes leader but a candidate, and nobody becomes a candidate.
pub fn leaders_were_candidates()
    ensures leader { (cs : List Call) (t : NodeStep) → IsSound t.node → (run cs t).node.role ≡ Leader → (run cs t).node.term ≡ t.node.term → (t.node.role ≡ Leader) ⊎ (t.node.role ≡ Candidate) }
    ensures candidate { (cs : List Call) (t : NodeStep) → IsSound t.node → (run cs t).node.role ≡ Candidate → (run cs t).node.term ≡ t.node.term → t.node.role ≡ Candidate }
{}

/// Where the commit of a leader that leads on in its term moves, it moves to an entry of that term.
pub fn leaders_commit_own_terms()
    ensures { (cs : List Call) (t : NodeStep) → IsSound t.node → t.node.role ≡ Leader → (run cs t).node.role ≡ Leader → (run cs t).node.term ≡ t.node.term → ((run cs t).node.commit ≡ t.node.commit) ⊎ (is_term (term_at (run cs t).node.log (run cs t).node.commit) t.node.term ≡ true) }
{}

/// Where a leader's commit moves by a message, in the term that it leads, and where a node's moves by a change that takes effect, a
/// quorum of the configuration holds what it moves to, by the views after it. Over any calls there is a moment at which a quorum held it.
pub fn leaders_commit_what_a_quorum_holds()
    ensures step { (t : NodeStep) (m : Message) → IsSound t.node → t.node.role ≡ Leader → (stepped t m).node.term ≡ t.node.term → ((stepped t m).node.commit ≡ t.node.commit) ⊎ (is_held (stepped t m).node.tracker (stepped t m).node.commit ≡ true) }
    ensures change { (t : NodeStep) (transition : Transition) (words : List Word) → ((change_applied t transition words).node.commit ≡ t.node.commit) ⊎ (is_held (change_applied t transition words).node.tracker (change_applied t transition words).node.commit ≡ true) }
    ensures run { (cs : List Call) (t : NodeStep) → IsSound t.node → t.node.role ≡ Leader → (run cs t).node.role ≡ Leader → (run cs t).node.term ≡ t.node.term → ((run cs t).node.commit ≡ t.node.commit) ⊎ IsHeldBetween t.node (run cs t).node }
{}

/// A leader's views stay sound: what a member is sent next is past what it is known to hold, and no more is in flight to it than may
/// be. Who doesn't lead has no views.
pub fn views_stay_sound()
    ensures started { (id : ℕ) (start : Snapshot) (options : Options) → HasSoundViews (started id start options) }
    ensures called { (c : Call) (t : NodeStep) → IsSound t.node → HasSoundViews t.node → HasSoundViews (after c t).node }
    ensures run { (cs : List Call) (t : NodeStep) → IsSound t.node → HasSoundViews t.node → HasSoundViews (run cs t).node }
{}

/// A leader has a view of each member of its configuration, and of nobody else. Who doesn't lead has none.
pub fn leaders_view_the_members()
    ensures started { (id : ℕ) (start : Snapshot) (options : Options) → HasViewsOfMembers (started id start options) }
    ensures called { (c : Call) (t : NodeStep) → HasViewsOfMembers t.node → HasViewsOfMembers (after c t).node }
    ensures run { (cs : List Call) (t : NodeStep) → HasViewsOfMembers t.node → HasViewsOfMembers (run cs t).node }
{}

/// A vote that a node's answer gives is a promise: in the answer's term it votes for nobody else, and it gives no other that vote, whatever
/// else it is asked or does. So of two votes of one term that are handed over, at once or at different times, both are for one candidate.
pub fn promises_are_kept()
    ensures started { (id : ℕ) (start : Snapshot) (options : Options) → HasPromises (started id start options) }
    ensures kept { (cs : List Call) (t : NodeStep) → IsSound t.node → HasPromises t.node → HasPromises (run cs t).node }
    ensures stays { (cs : List Call) (t : NodeStep) (term to : ℕ) → IsSound t.node → 0 < to → IsPromised t.node term to → IsPromised (run cs t).node term to }
    ensures once { (cs : List Call) (t : NodeStep) (first second : Message) → IsSound t.node → HasPromises t.node → Contains (outgoing t.node) first → IsYes first → Contains (outgoing (run cs t).node) second → IsYes second → second.term ≡ first.term → second.to ≡ first.to }
{}

/// What a node says is true when it says it: each message that a call leaves to be sent, and each answer that it leaves waiting, was there
/// before it, or says of its log, its vote, its commit and its state what they were at a moment of the call.
pub fn messages_are_true()
    ensures sent { (cs : List Call) (t : NodeStep) → IsSound t.node → AreTrueBetween t.node (run cs t).node t.node.sent (run cs t).node.sent }
    ensures waiting { (cs : List Call) (t : NodeStep) → IsSound t.node → AreTrueBetween t.node (run cs t).node t.node.waiting (run cs t).node.waiting }
{}

/// Who accepts an append holds it: at each place up to the index that it answers, unless it is compacted, is an entry of the term that was
/// sent; and it answers no index past what was sent and what is committed. Where the node's log matches the one that the append is of, it continues to match it; so what is held there is the very entry.
pub fn answers_tell_what_is_held()
    ensures held { (t : NodeStep) (m : Message) (append : PlainAppend) → IsSound t.node → m.kind ≡ Append append → ((stepped t m).node.waiting ≡ t.node.waiting) ⊎ IsAnswered t.node.waiting m.from append (stepped t m).node }
    ensures matching { (t : NodeStep) (m : Message) (append : PlainAppend) (leader : LogValue) → IsSound t.node → m.kind ≡ Append append → AreMatching leader t.node.log → term_at leader append.prev ≡ Ok append.prev_term → AreOfLog leader append.prev append.entries → AreMatching leader (stepped t m).node.log }
{}

/// What a leader counts as held by a member rests on that member's answers: a message raises a match only where it is the sender's and its
/// answer says so, in the leader's term and to no more than the leader's own log; a new leader's own match is what is durable, and it
/// knows nothing of the others. While it leads on in its term, no message lowers a match.
pub fn matches_rest_on_answers()
    ensures rests { (t : NodeStep) (m : Message) (id : ℕ) → RestsOn t.node m (stepped t m).node id }
    ensures stays { (t : NodeStep) (m : Message) (id : ℕ) → t.node.role ≡ Leader → (stepped t m).node.role ≡ Leader → (stepped t m).node.term ≡ t.node.term → match_of t.node.tracker.views id ≤ match_of (stepped t m).node.tracker.views id }
{}

/// Whatever is called, what a leader counts as held by another member rises by that member's answers alone: one of the calls brought it an
/// answer to that index or further, in the term that it led, and its own log reached there. What waits in a node is its own.
pub fn members_are_counted_by_their_answers()
    ensures started { (id : ℕ) (start : Snapshot) (options : Options) → HasOwnAnswers (started id start options) }
    ensures own { (cs : List Call) (t : NodeStep) → IsSound t.node → HasOwnAnswers t.node → HasOwnAnswers (run cs t).node }
    ensures rises { (cs : List Call) (t : NodeStep) (id : ℕ) → IsSound t.node → HasSoundViews t.node → HasViewsOfMembers t.node → HasOwnAnswers t.node → (id ≡ t.node.id → ⊥) → (match_of (run cs t).node.tracker.views id ≤ match_of t.node.tracker.views id) ⊎ Told cs t id (match_of (run cs t).node.tracker.views id) }
{}

/// A leader counts of its own log what is durable and no more, as long as nobody else answers appends in its name.
pub fn leaders_count_what_they_saved()
    ensures started { (id : ℕ) (start : Snapshot) (options : Options) → CountsDurable (started id start options) }
    ensures run { (cs : List Call) (t : NodeStep) → IsSound t.node → HasSoundViews t.node → HasViewsOfMembers t.node → HasOwnAnswers t.node → All (IsOfOthers t.node.id) cs → CountsDurable t.node → CountsDurable (run cs t).node }
{}

/// Nobody campaigns but a voter that doesn't lead, has saved what it restored, and has applied each change that it knows to be committed.
pub fn campaigns_are_of_voters()
    ensures asked { (t : NodeStep) (transfer : Bool) → ((campaigned t transfer).node ≡ t.node) ⊎ MayCampaign t.node }
    ensures won { (t : NodeStep) → ((campaigned_after_pre_vote t).node ≡ t.node) ⊎ MayCampaign t.node }
{}

/// A leader appends a proposed change only where it has applied each change that may be in its log.
pub fn changes_go_one_at_a_time()
    ensures { (t : NodeStep) (transition : Transition) (words : List Word) → PutsChange t.node (proposal_handled t (Change transition words)).node (Change transition words) }
{}

/// Entries take effect in order, each once: the content grows by their payloads and by nothing else. Where a node advances, they are the
/// entries past applied and up to the commit, and then all that was committed is applied.
pub fn committed_entries_take_effect()
    ensures entries { (t : NodeStep) (i : ℕ) (es : List Entry) → (applied_all t i es).node.content ≡ t.node.content ++ payloads es }
    ensures content { (t : NodeStep) → (own_turn t).node.content ≡ t.node.content ++ payloads (applying t.node) }
    ensures applied { (t : NodeStep) → IsSound t.node → (own_turn t).node.applied ≡ t.node.commit }
{}

/// Something is ready exactly where something is to be saved, applied or sent, or an answer waits.
pub fn ready_is_exact()
    ensures none { (n : PlainNode) → IsSound n → has_ready n ≡ false → HasNothing n }
    ensures some { (n : PlainNode) → IsSound n → HasNothing n → has_ready n ≡ false }
{}

/// With checks of the quorum, a leader that has heard of no quorum since it last looked steps down when it looks.
pub fn lost_quorums_end_a_lead()
    ensures { (t : NodeStep) → t.node.role ≡ Leader → t.node.options.check_quorum ≡ true → quorum_active t.node.tracker ≡ false → ELECTION_TICKS ≤ next_count t.node.clock.elapsed → StepsDown t.node (after Tick t).node }
{}

/// With checks of the quorum, a node that has heard of its leader within the timeout is changed by no candidate of a later term but one
/// that the leader hands the lead to.
pub fn candidates_disturb_nobody()
    ensures vote { (t : NodeStep) (m : Message) (last_term last_index : ℕ) → m.kind ≡ Vote last_term last_index false → t.node.options.check_quorum ≡ true → 0 < t.node.lead → t.node.clock.elapsed < ELECTION_TICKS → t.node.term < m.term → (stepped t m).node ≡ t.node }
    ensures pre_vote { (t : NodeStep) (m : Message) (last_term last_index : ℕ) → m.kind ≡ PreVote last_term last_index → t.node.options.check_quorum ≡ true → 0 < t.node.lead → t.node.clock.elapsed < ELECTION_TICKS → t.node.term < m.term → (stepped t m).node ≡ t.node }
{}

/// Where leaders step down on removal, one that a change leaves without a vote leads no more.
pub fn removed_leaders_step_down()
    ensures { (t : NodeStep) (transition : Transition) (words : List Word) (c : Config) → changed t.node.tracker.config transition words ≡ Ok c → t.node.role ≡ Leader → t.node.options.step_down_on_removal ≡ true → is_voter c t.node.id ≡ false → StepsDown t.node (change_applied t transition words).node }
{}

/// A leader hands the lead to another voter alone.
pub fn leads_go_to_voters()
    ensures { (t : NodeStep) (m : Message) (target : ℕ) → ((transfer_leader_handled t m target).node ≡ t.node) ⊎ MayTakeLead t.node target }
{}

/// A leader that hands the lead over takes no proposal.
pub fn transfers_stop_proposals()
    ensures { (t : NodeStep) (body : Body) → t.node.role ≡ Leader → 0 < t.node.transferee → (after (Propose body) t).node ≡ t.node }
{}
