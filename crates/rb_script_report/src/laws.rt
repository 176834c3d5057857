//! Laws of the report of a script.

ghost use Rattle.std.specs.Prelude.{◌≡◌, ◌<◌, ◌∷◌, ℕ, Bool, true, false, if◌then◌else◌, List, [], length, slice_index, slice_get, Some, None};
ghost use Rattle.std.specs.List.{flat_map, list_all};
ghost use Rattle.rb_script.specs.Lines.{Line, lines};
ghost use Rattle.rb_script.specs.Script.{PlainBlock, PlainScript, expecting, with_outputs};
ghost use Rattle.rb_script.specs.HeadLines.{AreHeadLines, StandsOn};
ghost use Rattle.rb_replay.specs.Run.{outputs};
ghost use Rattle.rb_replay.specs.Report.{same_lines, mismatches};
ghost use Rattle.rb_report.specs.declared.check.colors.Colors.{Colors};
ghost use Rattle.rb_report.specs.declared.check.table.TheConstants.{MAX_SCRIPT_CELLS};
ghost use Rattle.rb_script_report.specs.declared.view.Detail.TheVariants.{Differing};
ghost use Rattle.rb_script_report.specs.declared.view.Detail.{Detail};
ghost use Rattle.rb_script_report.specs.Checked.{checked_text, mismatches_at, NoneIsNamed};
ghost use Rattle.rb_script_report.specs.Shows.{IsQuiet, summary_of};
ghost use Rattle.rb_script_report.specs.Whys.{told_text};
ghost use Rattle.rb_report.specs.Whys.{OnlyAdds};
ghost use Rattle.rb_script_report.specs.Errors.{is_unexpected};
ghost use Rattle.rb_script_report.specs.declared.accept_options.AcceptFilter.TheVariants.{All};
ghost use Rattle.rb_script_report.specs.declared.accept_options.AcceptOptions.{AcceptOptions};
ghost use Rattle.rb_script_report.specs.Accepting.{is_picked, is_left, accepted, left_heads, picked_unnamed};
ghost use Rattle.rb_script_report.specs.Doubts.{all_warnings, is_called_rightly};

/// If each error is expected, the report is the mismatches: each once, in order, with the line of its directive, and compared with the
/// cells that those before it left.
pub fn mismatches_are_shown()
    ensures { (colors : Colors) (ls : List Line) (path heads : List ℕ) (s : PlainScript) → length heads ≡ length s.blocks → NoneIsNamed ls heads s.blocks (outputs s) → checked_text Differing colors ls path heads s ≡ mismatches_at MAX_SCRIPT_CELLS colors path heads s (mismatches s) }
{}

/// If a script has neither mismatches nor errors, nothing is shown unless all directives are, and the summary is empty.
pub fn matching_scripts_show_nothing()
    ensures found { (shown : Detail) (ls : List Line) (heads : List ℕ) (s : PlainScript) → IsQuiet shown s → summary_of ls heads s ≡ record { first = None; errors = 0 } }
    ensures shown { (shown : Detail) (colors : Colors) (ls : List Line) (path heads : List ℕ) (s : PlainScript) → IsQuiet shown s → checked_text shown colors ls path heads s ≡ [] }
{}

/// A report with reasons is the report without them, with reasons between its lines, each on a line of its own.
pub fn reasons_stand_between_outputs()
    ensures { (shown : Detail) (colors : Colors) (ls : List Line) (path : List ℕ) (whys : List (List Line)) (heads : List ℕ) (s : PlainScript) → OnlyAdds (checked_text shown colors ls path heads s) (told_text shown colors ls path whys heads s) }
{}

/// Without reasons, both definitions give the same report.
pub fn nothing_is_told_unasked()
    ensures { (shown : Detail) (colors : Colors) (ls : List Line) (path heads : List ℕ) (s : PlainScript) → told_text shown colors ls path [] heads s ≡ checked_text shown colors ls path heads s }
{}

/// The line that is shown with a directive is the one on which its head begins.
pub fn shown_lines_are_of_heads()
    ensures { (bytes : List ℕ) (s : PlainScript) (heads : List ℕ) → AreHeadLines 1 (lines bytes) s.blocks heads → (k : ℕ) (b : PlainBlock) → slice_get s.blocks k ≡ Some b → StandsOn (lines bytes) b.head (slice_index heads k) }
{}

/// After accepting, a script expects the accepted outputs at their places, and is unchanged at all others.
pub fn accepted_scripts_are()
    ensures { (wanted : AcceptOptions) (ls : List Line) (heads : List ℕ) (s : PlainScript) (k line : ℕ) (b : PlainBlock) (output : List Line) → slice_get heads k ≡ Some line → slice_get s.blocks k ≡ Some b → slice_get (outputs s) k ≡ Some output → slice_get (accepted wanted ls heads s).blocks k ≡ Some (if is_left wanted ls line b output then b else expecting b output) }
{}

/// A directive that isn't picked stays as it was.
pub fn others_stay()
    ensures { (wanted : AcceptOptions) (ls : List Line) (heads : List ℕ) (s : PlainScript) (k line : ℕ) (b : PlainBlock) (output : List Line) → slice_get heads k ≡ Some line → slice_get s.blocks k ≡ Some b → slice_get (outputs s) k ≡ Some output → is_picked wanted.picked line ≡ false → slice_get (accepted wanted ls heads s).blocks k ≡ Some b }
{}

/// Unless new errors are accepted too, the directive of a new error keeps its expectation.
pub fn new_errors_are_left()
    ensures { (wanted : AcceptOptions) (ls : List Line) (heads : List ℕ) (s : PlainScript) (k line : ℕ) (b : PlainBlock) (output : List Line) → wanted.errors ≡ false → slice_get heads k ≡ Some line → slice_get s.blocks k ≡ Some b → slice_get (outputs s) k ≡ Some output → is_unexpected ls line output ≡ true → same_lines b.expected output ≡ false → slice_get (accepted wanted ls heads s).blocks k ≡ Some b }
{}

/// If no directive is named, nothing below the first new error is accepted: it may follow from the error.
pub fn echoes_are_left()
    ensures { (ls : List Line) (heads left : List ℕ) (s : PlainScript) (first k line : ℕ) (b : PlainBlock) (output : List Line) → left_heads (record { picked = All; errors = false }) ls heads s.blocks (outputs s) ≡ first ∷ left → slice_get heads k ≡ Some line → slice_get s.blocks k ≡ Some b → slice_get (outputs s) k ≡ Some output → first < line → slice_get (accepted (record { picked = picked_unnamed false ls heads s; errors = false }) ls heads s).blocks k ≡ Some b }
{}

/// If all directives are picked and new errors are accepted too, each directive expects its output afterwards.
pub fn errors_are_accepted_on_request()
    ensures { (wanted : AcceptOptions) (ls : List Line) (heads : List ℕ) (s : PlainScript) → wanted.errors ≡ true → wanted.picked ≡ All → length heads ≡ length s.blocks → accepted wanted ls heads s ≡ with_outputs s (outputs s) }
{}

/// A line that is called a directive looks like one.
pub fn called_lines_look_like_directives()
    ensures { (ls : List Line) (heads : List ℕ) (bs : List PlainBlock) (os : List (List Line)) → list_all (is_called_rightly ls) (all_warnings ls heads bs os) ≡ true }
{}
