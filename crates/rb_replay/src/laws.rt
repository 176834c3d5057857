//! Laws of a session and of the reuse of checkpoints, for all scripts, edits and replacements.

ghost use Rattle.std.specs.Prelude.{◌≡◌, ℕ, ◌+◌, ◌-◌, ◌*◌, ◌/◌, ◌<◌, ◌≤◌, ◌↔◌, List, [], ◌∷◌, ◌++◌, Option, Ok, Contains, IfSome, length, slice_index};
ghost use Rattle.rb_script.specs.declared.edit.Edit.{Edit};
ghost use Rattle.rb_script.specs.declared.edit.Edit.TheVariants as edits;
ghost use Rattle.rb_script.specs.Script.{PlainScript};
ghost use Rattle.rb_script.specs.Reads.{Reads};
ghost use Rattle.rb_script.specs.Valid.{IsScript};
ghost use Rattle.rb_script.specs.Edits.{edited};
ghost use Rattle.rb_script.specs.Directive.{PlainDirective};
ghost use Rattle.rb_replay.specs.declared.splice.Splice.{Splice};
ghost use Rattle.rb_replay.specs.declared.session.Changed.{Changed};
ghost use Rattle.rb_replay.specs.Run.{directives, state, outputs};
ghost use Rattle.rb_replay.specs.Report.{mismatches, rewritten};
ghost use Rattle.rb_replay.specs.Points.{AreKept, IsRising};
ghost use Rattle.rb_replay.specs.Holding.{Holding, IsFresh, IsOneRun};
ghost use Rattle.rb_replay.specs.Reuse.{Change, change_by, change_of, IsChange, IsOneBlock, IsCost, IsFirstMeeting, points_before, IsPointBefore};
ghost use Rattle.rb_replay.specs.After.{Answer, Answered, IsExact, Leads, after};
ghost use Rattle.rb_replay.specs.Replacements.{IsLongestSplice, IsReplaced, IsReplacementCost, shown};

/// After any edits, a session is that of one run of the script with the accepted edits applied. That `Session::edit` gives such answers is its
/// clause `answer`; that a session starts as one run is `fresh` of `Session::start`.
pub fn edits_answer_as_one_run()
    // The script is that of the accepted edits, and everything that the session holds is what one run of it gives.
    ensures run { (first last : Holding) (steps : Answered) → IsOneRun first → Leads first steps last → (last.script ≡ after first.script steps) × IsOneRun last }
    // The outputs are those of one run. `Session::output` shows them.
    ensures outputs { (first last : Holding) (steps : Answered) → IsOneRun first → Leads first steps last → last.outputs ≡ outputs (after first.script steps) }
    // The mismatches are those of one run. `Session::mismatches` shows them, and `changed.mismatches` is their number (`IsEdited`).
    ensures mismatches { (first last : Holding) (steps : Answered) → IsOneRun first → Leads first steps last → last.mismatches ≡ mismatches (after first.script steps) }
    // The bytes of the rewritten script are those of one run. `Session::write_rewritten` writes them (`wrote`).
    ensures rewritten { (first last : Holding) (steps : Answered) → IsOneRun first → Leads first steps last → rewritten last.script ≡ rewritten (after first.script steps) }
    // Wherever an edit is in the list: if it is refused, it changes nothing; if not, it says exactly the stated number of executed directives. The
    // meter has counted that number (`Session::edit`, `counted`).
    ensures exact { (first last : Holding) (before later : Answered) (edit : Edit) (answer : Answer) → Leads first (before ++ (edit, answer) ∷ later) last
        → (old : Holding) × (new : Holding) × Leads first before old × IsExact old edit answer new × Leads new later last }
{}

/// A session that was started keeps its checkpoint interval, and stays one that could have been started.
pub fn started_sessions_stay_fresh()
    ensures { (first last : Holding) (steps : Answered) → IsFresh first → Leads first steps last → IsFresh last }
{}

/// If the outputs can be expected, the rewritten script reads as the script that accepts them, and only as that. It has no
/// mismatches.
pub fn rewritten_scripts_match()
    ensures reads { (s new : PlainScript) → edited s edits.Accept (outputs s) ≡ Ok new → IsScript new → Reads (rewritten s) new }
    ensures once { (s new t : PlainScript) → edited s edits.Accept (outputs s) ≡ Ok new → IsScript new → Reads (rewritten s) t → (t ≡ new) × (mismatches t ≡ []) }
{}

/// A session whose script was replaced shows what a session shows that was started with that script.
pub fn replaced_sessions_show_a_fresh_start()
    ensures { (old replaced started : Holding) (script : PlainScript) (changed : Changed) → IsReplaced old script changed replaced → IsOneRun started → started.script ≡ script → shown replaced ≡ shown started }
{}

/// An accepted edit is a change, so the laws below hold for it. At most one block is removed, at most one is added, and all others
/// stay.
pub fn edits_are_changes()
    ensures change { (h : Holding) (edit : Edit) (new : PlainScript) → IsOneRun h → edited h.script edit (outputs h.script) ≡ Ok new → IfSome (change_of h new edit) IsChange }
    ensures one { (h : Holding) (edit : Edit) (new : PlainScript) → IsOneRun h → edited h.script edit (outputs h.script) ≡ Ok new → IfSome (change_of h new edit) IsOneBlock }
{}

/// The difference between a session's script and another is a change, and it is unique: the longest rest, and the longest front
/// before it. So a replacement has at most one cost.
pub fn replacements_are_changes()
    ensures change { (h : Holding) (new : PlainScript) (splice : Splice) → IsOneRun h → IsLongestSplice (directives h.script) (directives new) splice → IsChange (change_by h new splice) }
    ensures once { (old new : List PlainDirective) (a b : Splice) → IsLongestSplice old new a → IsLongestSplice old new b → a ≡ b }
    ensures cost { (h : Holding) (new : PlainScript) (m n : ℕ) → IsReplacementCost h new m → IsReplacementCost h new n → m ≡ n }
{}

/// Replacing a script by one with the same directives executes nothing.
pub fn expectations_cost_nothing()
    ensures { (h : Holding) (new : PlainScript) (n : ℕ) → IsOneRun h → directives new ≡ directives h.script → IsReplacementCost h new n → n ≡ 0 }
{}

/// A change has at most one cost.
pub fn cost_is_one()
    ensures { (c : Change) (m n : ℕ) → IsCost c m → IsCost c n → m ≡ n }
{}

/// A change executes fewer directives than those after the common front plus the checkpoint interval.
pub fn cost_is_bounded()
    ensures { (c : Change) (n : ℕ) → IsChange c → IsCost c n → n + c.front + 1 ≤ length c.new.blocks + c.checkpoint_interval }
{}

/// If the clusters are equal where the rest begins, an edit executes fewer directives than twice the checkpoint interval. For
/// others add the directives between front and rest.
pub fn cost_is_small()
    ensures one { (c : Change) (n : ℕ) → IsChange c → IsOneBlock c → IsCost c n → state c.new c.new_rest ≡ state c.old c.old_rest → n + 1 ≤ 2 * c.checkpoint_interval }
    ensures any { (c : Change) (n : ℕ) → IsChange c → IsCost c n → state c.new c.new_rest ≡ state c.old c.old_rest → n + c.front + 2 ≤ 2 * c.checkpoint_interval + c.new_rest }
{}

/// The points before thinning ascend. They are those up to the start, those on the way to the stop, and from a meeting on those of
/// the old script.
pub fn points_are_members()
    ensures ascending { (c : Change) (meeting : Option ℕ) → IsChange c → IsFirstMeeting c meeting → IsRising 0 (points_before c meeting) }
    ensures members { (c : Change) (meeting : Option ℕ) (p : ℕ) → IsChange c → IsFirstMeeting c meeting → Contains (points_before c meeting) p ↔ IsPointBefore c meeting p }
{}

/// The first checkpoint is 0. Neighbours are at most the checkpoint interval apart, and fewer directives than that follow the last.
pub fn points_are_near()
    ensures some { (K n : ℕ) (points : List ℕ) → AreKept K n points → 0 < length points }
    ensures first { (K n : ℕ) (points : List ℕ) → AreKept K n points → slice_index points 0 ≡ 0 }
    ensures ascending { (K n : ℕ) (points : List ℕ) (i : ℕ) → AreKept K n points → i + 1 < length points → slice_index points i < slice_index points (i + 1) }
    ensures near { (K n : ℕ) (points : List ℕ) (i : ℕ) → AreKept K n points → i + 1 < length points → slice_index points (i + 1) ≤ slice_index points i + K }
    ensures last { (K n : ℕ) (points : List ℕ) → AreKept K n points → n < slice_index points (length points - 1) + K }
    ensures within { (K n : ℕ) (points : List ℕ) → AreKept K n points → slice_index points (length points - 1) ≤ n }
{}

/// There are few checkpoints.
pub fn points_are_few()
    ensures { (K n : ℕ) (points : List ℕ) → AreKept K n points → length points ≤ 2 * (n / (K + 1)) + 2 }
{}
