//! Laws of logs, in Raft's words, over the definitions alone.
//!
//! The contracts of [`crate::RaftLog`] state each call's result by these definitions. The laws state what Raft requires of a log: committed
//! entries stay, appended ones match, and a candidate with an older log gets no vote. Laws have no code.

ghost use Rattle.std.specs.Prelude.{◌≡◌, ◌↔◌, ℕ, ◌+◌, ◌-◌, ◌<◌, ◌≤◌, ◌⊎◌, List, [], Ok, Some, None, length, drop, slice_get, min, true, false};
ghost use Rattle.rb_raftlog.specs.declared.entry.Entry.{Entry};
ghost use Rattle.rb_raftlog.specs.declared.snapshot.Snapshot.{Snapshot};
ghost use Rattle.rb_raftlog.specs.declared.limits.TheConstants.{MAX_INDEX};
ghost use Rattle.rb_raftlog.specs.declared.raft_log.Appended.TheVariants.{Matched, Refused, BelowCommit};
ghost use Rattle.rb_raftlog.specs.Log.{LogValue, IsLog, last, fresh, term_at, entry_at, is_term, first_new, appended, given_way, answer, own, made_durable, compacted, restored, restarted, saved_entries, hint, is_up_to_date, entries_from, between, not_durable};
ghost use Rattle.rb_raftlog.specs.Laws.{IsHint, log_is_up_to_date, IsAsNew, IsConflicting, IsFirstConflict, HasLost, AreMatching, AreOfLog};

/// No append changes an entry up to commit.
pub fn committed_entries_stay()
    ensures terms { (v : LogValue) (prev term commit i : ℕ) (es : List Entry) → i ≤ commit → term_at (appended v prev term es commit) i ≡ term_at v i }
    ensures entries { (v : LogValue) (prev term commit i : ℕ) (es : List Entry) → i ≤ commit → entry_at (appended v prev term es commit) i ≡ entry_at v i }
{}

/// Where the entry to append after is held, and isn't below commit, the log then has an entry of the stated term at each place that
/// is named, and the entries that were added are those that were sent.
pub fn appended_entries_match()
    ensures terms { (v : LogValue) (prev term commit k : ℕ) (es : List Entry) (e : Entry) → commit ≤ prev → term_at v prev ≡ Ok term → slice_get es k ≡ Some e → term_at (appended v prev term es commit) (prev + 1 + k) ≡ Ok e.term }
    ensures entries { (v : LogValue) (prev term commit new k : ℕ) (es : List Entry) (e : Entry) → commit ≤ prev → term_at v prev ≡ Ok term → first_new v (prev + 1) es ≡ Some new → new ≤ prev + 1 + k → slice_get es k ≡ Some e → entry_at (appended v prev term es commit) (prev + 1 + k) ≡ Ok e }
{}

/// Entries before the first that differs are the very ones that were there; where none differs, nothing changes.
pub fn held_entries_stay()
    ensures before { (v : LogValue) (prev term commit new i : ℕ) (es : List Entry) → first_new v (prev + 1) es ≡ Some new → i < new → entry_at (appended v prev term es commit) i ≡ entry_at v i }
    ensures none { (v : LogValue) (prev term commit : ℕ) (es : List Entry) → first_new v (prev + 1) es ≡ None → appended v prev term es commit ≡ v }
{}

/// An entry that conflicts goes, and all that follow it: from the first that is new on, the log is what was sent and nothing else.
pub fn conflicting_entries_go()
    ensures { (v : LogValue) (prev term commit new : ℕ) (es : List Entry) → commit ≤ prev → term_at v prev ≡ Ok term → first_new v (prev + 1) es ≡ Some new → last (appended v prev term es commit) ≡ prev + length es }
{}

/// The entries that give way to an append were the log's last, in order; all others stay. The first of them is replaced by an entry of another
/// term. If the log matches that of the sender, none of them is in the log at its index any more.
pub fn what_gives_way_is_gone()
    ensures lost { (v : LogValue) (prev term commit : ℕ) (es : List Entry) → HasLost v (appended v prev term es commit) (given_way v prev term es commit) }
    ensures gone { (v w : LogValue) (prev term commit k : ℕ) (es : List Entry) (e : Entry) → AreMatching v w → term_at w prev ≡ Ok term → AreOfLog w prev es → slice_get (given_way v prev term es commit) k ≡ Some e → term_at (appended v prev term es commit) (last v - length (given_way v prev term es commit) + 1 + k) ≡ Ok e.term → ⊥ }
{}

/// Written entries are durable. Entries that an append replaces aren't durable any more; no other is affected. A leader's own entry isn't
/// durable before it is written. After all is written, all is durable.
pub fn durable_is_what_was_written()
    ensures replaced { (v : LogValue) (prev term commit new : ℕ) (es : List Entry) → commit ≤ prev → term_at v prev ≡ Ok term → first_new v (prev + 1) es ≡ Some new → (appended v prev term es commit).durable ≡ min v.durable (new - 1) }
    ensures falls { (v : LogValue) (prev term commit : ℕ) (es : List Entry) → (appended v prev term es commit).durable ≤ v.durable }
    ensures entries { (v : LogValue) (prev term commit i : ℕ) (es : List Entry) → i ≤ (appended v prev term es commit).durable → entry_at (appended v prev term es commit) i ≡ entry_at v i }
    ensures own { (v : LogValue) (e : Entry) → (own v e).durable ≡ v.durable }
    ensures own_last { (v : LogValue) (e : Entry) → entry_at (own v e) (last v + 1) ≡ Ok e }
    ensures own_held { (v : LogValue) (e : Entry) (i : ℕ) → i ≤ last v → entry_at (own v e) i ≡ entry_at v i }
    ensures written { (v : LogValue) → (made_durable v).durable ≡ last v }
    ensures written_entries { (v : LogValue) → (made_durable v).entries ≡ v.entries }
{}

/// What a restart finds is what the last save left, whatever came since: an append, an own entry or a snapshot changes none of it. Compacting only
/// drops its beginning.
pub fn saved_entries_stay()
    ensures appended { (v : LogValue) (prev term commit : ℕ) (es : List Entry) → saved_entries (appended v prev term es commit) ≡ saved_entries v }
    ensures own { (v : LogValue) (e : Entry) → IsLog v → saved_entries (own v e) ≡ saved_entries v }
    ensures restored { (v : LogValue) (s : Snapshot) → saved_entries (restored v s) ≡ saved_entries v }
    ensures restarted { (v : LogValue) (s : Snapshot) → saved_entries (restarted v s) ≡ saved_entries v }
    ensures written { (v : LogValue) → saved_entries (made_durable v) ≡ v.entries }
    ensures compacted { (v : LogValue) (i term : ℕ) → IsLog v → v.base < i → i ≤ v.durable → saved_entries (compacted v i (Ok term)) ≡ drop (i - v.base) (saved_entries v) }
{}

/// A log that restarts has the entries up to the durable index, unless some of them were replaced since the last save.
pub fn restarted_logs_have_what_is_durable()
    ensures { (v : LogValue) (s : Snapshot) (i : ℕ) → IsLog v → v.overwritten ≡ [] → s.index ≡ v.base → s.term ≡ v.base_term → i ≤ v.durable → entry_at (restarted v s) i ≡ entry_at v i }
{}

/// What an append is answered says what is held: that all that was sent is, or that the entry to append after isn't, or where what is
/// committed conflicts. In the last two cases the log stays.
pub fn answers_say_what_is_held()
    ensures matched { (v : LogValue) (prev term commit i : ℕ) (es : List Entry) → commit ≤ prev → answer v prev term es commit ≡ Matched i → (term_at v prev ≡ Ok term) × (i ≡ prev + length es) }
    ensures committed { (v : LogValue) (prev term commit i : ℕ) (es : List Entry) → prev < commit → answer v prev term es commit ≡ Matched i → (i ≡ commit) × ((k : ℕ) → IsConflicting v prev es commit k → ⊥) }
    ensures refused { (v : LogValue) (prev term commit i : ℕ) (es : List Entry) → answer v prev term es commit ≡ Refused i → (term_at v prev ≡ Ok term → ⊥) × (appended v prev term es commit ≡ v) }
    ensures below { (v : LogValue) (prev term commit i : ℕ) (es : List Entry) → answer v prev term es commit ≡ BelowCommit i → IsFirstConflict v prev es commit i × (appended v prev term es commit ≡ v) }
{}

/// Log matching (Ongaro's thesis, section 3.5) is kept: by an append of what another log has after an entry of the stated term; by an
/// entry of one's own where the other has none of its term there; by compacting; and a log that a snapshot brought matches any.
pub fn logs_keep_matching()
    ensures either { (u v : LogValue) → AreMatching u v → AreMatching v u }
    ensures appended { (u v w : LogValue) (prev term commit : ℕ) (es : List Entry) → AreMatching u v → AreMatching u w → AreMatching v w → term_at w prev ≡ Ok term → AreOfLog w prev es → AreMatching u (appended v prev term es commit) }
    ensures own { (u v : LogValue) (e : Entry) → AreMatching u v → (term_at u (last v + 1) ≡ Ok e.term → ⊥) → AreMatching u (own v e) }
    ensures compacted { (u v : LogValue) (i term : ℕ) → AreMatching u v → v.base < i → term_at v i ≡ Ok term → AreMatching u (compacted v i (Ok term)) }
    ensures written { (u v : LogValue) → AreMatching u v → AreMatching u (made_durable v) }
    ensures restored { (u v : LogValue) (s : Snapshot) → AreMatching u (restored v s) }
{}

/// Appending the same again changes nothing, so a message may be delivered twice.
pub fn appending_again_changes_nothing()
    ensures { (v : LogValue) (prev term commit : ℕ) (es : List Entry) → appended (appended v prev term es commit) prev term es commit ≡ appended v prev term es commit }
{}

/// Of two logs, one is at least as new as the other. "At least as new" is transitive.
pub fn logs_are_ordered()
    ensures total { (v w : LogValue) → (log_is_up_to_date v w ≡ true) ⊎ (log_is_up_to_date w v ≡ true) }
    ensures on { (u v w : LogValue) → log_is_up_to_date u v ≡ true → log_is_up_to_date v w ≡ true → log_is_up_to_date u w ≡ true }
{}

/// A log is at least as new as another where its last term is later, or is the same and it is at least as long.
pub fn newer_is_by_term_and_length()
    ensures { (v : LogValue) (i term : ℕ) → (is_up_to_date v i term ≡ true) ↔ IsAsNew v i term }
{}

/// The hint is the greatest index, from the base up to the one that is asked for, whose term is at most the stated one.
pub fn hints_are_greatest()
    ensures { (v : LogValue) (i term : ℕ) → v.base ≤ i → IsHint v i term (hint v i term) }
{}

/// Compacting changes no term at or above the new base, and no entry above it.
pub fn compacting_keeps_terms()
    ensures terms { (v : LogValue) (i term j : ℕ) → v.base < i → term_at v i ≡ Ok term → i ≤ j → term_at (compacted v i (Ok term)) j ≡ term_at v j }
    ensures entries { (v : LogValue) (i term j : ℕ) → v.base < i → i < j → entry_at (compacted v i (Ok term)) j ≡ entry_at v j }
{}

/// The durable index is between the base and the last index, after every call.
pub fn durable_stays_within()
    ensures fresh { (index term : ℕ) → index ≤ MAX_INDEX → IsLog (fresh index term) }
    ensures appended { (v : LogValue) (prev term commit : ℕ) (es : List Entry) → IsLog v → prev + length es ≤ MAX_INDEX → IsLog (appended v prev term es commit) }
    ensures own { (v : LogValue) (e : Entry) → IsLog v → last v < MAX_INDEX → IsLog (own v e) }
    ensures made_durable { (v : LogValue) → IsLog v → IsLog (made_durable v) }
    ensures compacted { (v : LogValue) (i term : ℕ) → IsLog v → v.base < i → i ≤ v.durable → IsLog (compacted v i (Ok term)) }
    ensures restored { (v : LogValue) (s : Snapshot) → s.index ≤ MAX_INDEX → IsLog (restored v s) }
    ensures restarted { (v : LogValue) (s : Snapshot) → s.index + length (saved_entries v) ≤ MAX_INDEX → IsLog (restarted v s) }
{}

/// Compacting only moves the base. A restored snapshot replaces the log.
pub fn bases_move()
    ensures compacted { (v : LogValue) (i term : ℕ) → v.base < i → i ≤ last v → ((compacted v i (Ok term)).base ≡ i) × (last (compacted v i (Ok term)) ≡ last v) × ((compacted v i (Ok term)).durable ≡ v.durable) }
    ensures restored { (v : LogValue) (s : Snapshot) → (term_at (restored v s) s.index ≡ Ok s.term) × (last (restored v s) ≡ s.index) × ((restored v s).durable ≡ s.index) }
{}

/// Lists of entries have each entry at its index.
pub fn entries_stand_at_their_indexes()
    ensures from { (v : LogValue) (from k : ℕ) (es : List Entry) (e : Entry) → entries_from v from ≡ Ok es → slice_get es k ≡ Some e → entry_at v (from + k) ≡ Ok e }
    ensures from_all { (v : LogValue) (from : ℕ) (es : List Entry) → entries_from v from ≡ Ok es → from + length es ≡ last v + 1 }
    ensures between { (v : LogValue) (after upto k : ℕ) (e : Entry) → v.base ≤ after → slice_get (between v after upto) k ≡ Some e → (entry_at v (after + 1 + k) ≡ Ok e) × (after + 1 + k ≤ upto) }
    ensures between_all { (v : LogValue) (after upto k : ℕ) (e : Entry) → v.base ≤ after → after + 1 + k ≤ upto → entry_at v (after + 1 + k) ≡ Ok e → slice_get (between v after upto) k ≡ Some e }
    ensures not_durable { (v : LogValue) (k : ℕ) (e : Entry) → v.base ≤ v.durable → slice_get (not_durable v) k ≡ Some e → entry_at v (v.durable + 1 + k) ≡ Ok e }
    ensures not_durable_all { (v : LogValue) → v.base ≤ v.durable → v.durable ≤ last v → v.durable + length (not_durable v) ≡ last v }
{}
