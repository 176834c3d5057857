//! Laws of pages, for whoever reads the contracts. No call does anything.

ghost use Rattle.std.specs.Prelude.{◌≡◌, ℕ, List, Option, Ok, Err, false, true};
ghost use Rattle.std.specs.Io.KnownBytes.{Appends, Keeps};
ghost use Rattle.rb_script.specs.Lines.{Line, lines};
ghost use Rattle.rb_script.specs.Script.{PlainScript};
ghost use Rattle.rb_script.specs.Reads.{Reads};
ghost use Rattle.rb_script.specs.HeadLines.{AreHeadLines};
ghost use Rattle.rb_script.specs.Writes.{AppendsFront};
ghost use Rattle.rb_replay.specs.Report.{mismatches};
ghost use Rattle.rb_bench.specs.Runs.{IsNoScript, status_of};
ghost use Rattle.rb_bench.specs.declared.fault.BenchFault.TheVariants as faults;
ghost use Rattle.rb_report.specs.declared.check.status.Status.{Status};
ghost use Rattle.rb_report.specs.declared.check.status.Status.TheVariants as statuses;
ghost use Rattle.rb_view.specs.PageRoom.{has_room};
ghost use Rattle.rb_view.specs.Steps.{steps_texts};
ghost use Rattle.rb_program.specs.Written.{Tells};

/// The bytes have at most one script, and the result is about it. A status is that of its mismatches, and the text of its rows was written. If a
/// page has no room for the rows, the script is refused. If writing failed, a beginning of the text was written. Without a script there is no status.
pub fn pages_are_one()
    ensures ended { (text : List Line → List ℕ) (bytes heads : List ℕ) (s : PlainScript) (status : Status) (old new : Option (List ℕ)) → Reads bytes s → AreHeadLines 1 (lines bytes) s.blocks heads → has_room (steps_texts bytes heads s) ≡ true → Tells text bytes (Ok status) old new
        → (status ≡ status_of (mismatches s)) × Appends old new (text (steps_texts bytes heads s)) }
    ensures refused { (text : List Line → List ℕ) (bytes heads : List ℕ) (s : PlainScript) (status : Status) (old new : Option (List ℕ)) → Reads bytes s → AreHeadLines 1 (lines bytes) s.blocks heads → has_room (steps_texts bytes heads s) ≡ false → Tells text bytes (Ok status) old new
        → (status ≡ statuses.Refused) × Keeps old new }
    ensures failed { (text : List Line → List ℕ) (bytes heads : List ℕ) (s : PlainScript) (old new : Option (List ℕ)) → Reads bytes s → AreHeadLines 1 (lines bytes) s.blocks heads → Tells text bytes (Err faults.Io) old new
        → AppendsFront old new (text (steps_texts bytes heads s)) }
    ensures none { (text : List Line → List ℕ) (bytes : List ℕ) (status : Status) (old new : Option (List ℕ)) → IsNoScript bytes → Tells text bytes (Ok status) old new → ⊥ }
    ensures unfailed { (text : List Line → List ℕ) (bytes : List ℕ) (old new : Option (List ℕ)) → IsNoScript bytes → Tells text bytes (Err faults.Io) old new → ⊥ }
{}
