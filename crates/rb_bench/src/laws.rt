//! Laws of conversations.

ghost use Rattle.std.specs.Prelude.{◌≡◌, ℕ, List, Option, Ok, Err};
ghost use Rattle.std.specs.Io.KnownBytes.{Appends};
ghost use Rattle.rb_script.specs.declared.fault.ScriptFault.{ScriptFault};
ghost use Rattle.rb_script.specs.declared.fault.EditFault.{EditFault};
ghost use Rattle.rb_script.specs.Lines.{Line};
ghost use Rattle.rb_script.specs.Script.{PlainScript};
ghost use Rattle.rb_script.specs.Reads.{Reads};
ghost use Rattle.rb_script.specs.Writes.{AppendsFront};
ghost use Rattle.rb_replay.specs.Holding.{Holding, IsFresh, IsOneRun};
ghost use Rattle.rb_replay.specs.After.{Answered, Leads, after};
ghost use Rattle.rb_bench.specs.Talk.{Exchange, Converses, Talks, refusals};
ghost use Rattle.rb_bench.specs.Made.{AreMade};
ghost use Rattle.rb_bench.specs.Runs.{Answers, IsNoScript, status_for, text_for};
ghost use Rattle.rb_bench.specs.Serves.{IsStarted};
ghost use Rattle.rb_report.specs.Refusals.{fault_line};
ghost use Rattle.rb_bench.specs.Names.{script_name, edit_name};
ghost use Rattle.rb_bench.specs.declared.running.Mode.{Mode};
ghost use Rattle.rb_bench.specs.declared.fault.BenchFault.TheVariants as faults;
ghost use Rattle.rb_report.specs.declared.check.status.Status.{Status};

use rb_replay::{edits_answer_as_one_run, started_sessions_stay_fresh};

/// Whatever is sent to a session, its accepted edits are those that its commands ask for, in order, and what it holds
/// at last is what one run gives of the first script with these edits made.
pub fn conversations_answer_as_one_run()
    ensures { (first last : Holding) (xs : List Exchange) → IsFresh first → Converses first xs last
        → (steps : Answered) × AreMade first xs steps × Leads first steps last × (last.script ≡ after first.script steps) × IsFresh last }
{
    edits_answer_as_one_run();
    started_sessions_stay_fresh();
}

/// A conversation has one text and one status, given the lines, the session, and the commands for which memory ran out.
pub fn conversations_are_one()
    ensures { (first : Holding) (ls : List Line) (text other : List ℕ) (status code : Status) (one : Talks first ls text status) (two : Talks first ls other code) → IsOneRun first
        → refusals one.begins.exchanges ≡ refusals two.begins.exchanges → (text ≡ other) × (status ≡ code) }
{}

/// A run has one text and one status, those of the script. If it ends with a status, its text is written; if writing fails, a beginning
/// of it is. Neither happens if the bytes are not a script.
pub fn runs_are_one()
    ensures ended { (mode : Mode) (bytes : List ℕ) (s : PlainScript) (status : Status) (old new : Option (List ℕ)) → Reads bytes s → Answers mode bytes (Ok status) old new
        → (status ≡ status_for mode s) × Appends old new (text_for mode s) }
    ensures failed { (mode : Mode) (bytes : List ℕ) (s : PlainScript) (old new : Option (List ℕ)) → Reads bytes s → Answers mode bytes (Err faults.Io) old new
        → AppendsFront old new (text_for mode s) }
    ensures none { (mode : Mode) (bytes : List ℕ) (status : Status) (old new : Option (List ℕ)) → IsNoScript bytes → Answers mode bytes (Ok status) old new → ⊥ }
    ensures unfailed { (mode : Mode) (bytes : List ℕ) (old new : Option (List ℕ)) → IsNoScript bytes → Answers mode bytes (Err faults.Io) old new → ⊥ }
    ensures refused { (mode : Mode) (bytes : List ℕ) (s : PlainScript) (fault : ScriptFault) (old new : Option (List ℕ)) → Reads bytes s → Answers mode bytes (Err (faults.Script fault)) old new → ⊥ }
{}

/// The session that a conversation begins with is the one that the bytes and the checkpoint interval determine.
pub fn sessions_start_as_one()
    ensures { (script : List ℕ) (every : ℕ) (first other : Holding) → IsStarted script every first → IsStarted script every other → first ≡ other }
{}

/// No two faults have the same words.
pub fn names_are_distinct()
    ensures script { (fault other : ScriptFault) → script_name fault ≡ script_name other → fault_line fault ≡ fault_line other → fault ≡ other }
    ensures edit { (fault other : EditFault) → edit_name fault ≡ edit_name other → fault ≡ other }
{}
