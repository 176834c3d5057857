//! Theorems about what an editor is sent. The functions do nothing: their contracts are the theorems.

ghost use Rattle.std.specs.Prelude.{◌≡◌, ◌≤◌, ◌+◌, ◌*◌, List, ℕ, None, codes, length};
ghost use Rattle.rb_script.specs.Script.{PlainScript};
ghost use Rattle.rb_replay.specs.Run.{outputs};
ghost use Rattle.rb_report.specs.declared.check.table.TheConstants.{MAX_SCRIPT_CELLS};
ghost use Rattle.rb_lsp.specs.declared.server.client.Client.{Client};
ghost use Rattle.rb_editor.specs.ActionLaws.{AcceptsAsCheckDoes, EditedLinesRead, EditedTextsRead, EditsReplaceLines, IdsAreOfTheCluster, IsQuietText, MakesWhatCheckWrites, TextsHaveOneRun};
ghost use Rattle.rb_editor.specs.Diagnostics.{PlainDiagnostic};
ghost use Rattle.rb_editor.specs.Findings.{cells_for};
ghost use Rattle.rb_editor.specs.Told.{diff_bytes};
ghost use Rattle.rb_editor.specs.Published.{diagnose};
ghost use Rattle.rb_editor.specs.declared.actions.actual_output.TheConstants.{MAX_SHOWN};
ghost use Rattle.rb_editor.specs.declared.actions.bounded.TheConstants.{DIRECTIVE_WORK};
ghost use Rattle.rb_editor.specs.declared.actions.told.TheConstants.{MAX_DIFF, MAX_TOLD};
ghost use Rattle.rb_editor.specs.declared.offers.symbols.TheConstants.{MAX_NAME};

/// A script has no diagnostics if all outputs are expected, none is an error, and there is no warning.
#[tactic(auto, using(crate::proofs::QuietLaws::quiet_text))]
pub fn matching_texts_have_none()
    ensures { (client : Client) (uri text : List ℕ) → IsQuietText text → diagnose None client uri text ≡ codes "[]" }
{}

/// Whatever was sent before, a notification about a document is followed by the diagnostics of one fresh run of its current text. If the run
/// stops, which it does only after [`rb_lsp::server::MAX_WORK`], they are those of the text above, and one that says where it stopped. If memory is
/// refused, one diagnostic says so. A change whose version isn't after the document's is refused.
#[tactic(auto, using(rb_lsp::proofs::NoticeLaws::diagnosed))]
pub fn texts_have_one_run()
    ensures { TextsHaveOneRun }
{}

/// The diagnostics of a script compare at most as many pairs of lines as the report of `check` does: [`rb_report::check::MAX_SCRIPT_CELLS`]. After that
/// the lines between the common beginning and the common end of a mismatch are shown whole.
#[tactic(auto, using(crate::proofs::EachFindingLaws::cells_bounded))]
pub fn comparing_is_bounded()
    ensures { (s : PlainScript) → cells_for MAX_SCRIPT_CELLS s.blocks (outputs s) ≤ MAX_SCRIPT_CELLS }
{}

/// Of diffs and actual outputs an editor is told 64 KiB of a document, and with each at most a sentence that says where the rest is.
#[tactic(auto, using(crate::proofs::ToldLaws::told_bound))]
pub fn diffs_are_bounded()
    ensures { (ds : List PlainDiagnostic) → diff_bytes MAX_TOLD ds ≤ MAX_TOLD + 36 * length ds }
{}

/// The numbers that definitions name: how many lines of an output are shown at its expectation, how many bytes of diffs and outputs are told of a
/// document, and of each, the work of a directive, and how many characters of a head are in an outline.
pub fn limits_are()
    ensures shown { MAX_SHOWN ≡ 20 }
    ensures told { MAX_TOLD ≡ 65536 }
    ensures diff { MAX_DIFF ≡ 4096 }
    ensures work { DIRECTIVE_WORK ≡ 100 }
    ensures name { MAX_NAME ≡ 80 }
{}

/// The ids that completion offers are those of the nodes of the cluster after the directives above, by one fresh run of these.
pub fn ids_are_those_of_the_cluster()
    ensures { IdsAreOfTheCluster }
{}

/// An action accepts the outputs that `check --accept` does, and the action for all directives makes the script that `check --accept` writes.
#[tactic(auto, using(crate::proofs::ActionLaws::as_check_does, crate::proofs::ActionLaws::as_check_writes))]
pub fn accepts_as_check_does()
    ensures one { AcceptsAsCheckDoes }
    ensures all { MakesWhatCheckWrites }
{}

/// An editor that makes an action's edit replaces the expectation's lines and nothing else.
#[tactic(auto, using(crate::proofs::RangeLaws::lines_replaced))]
pub fn edits_replace_lines()
    ensures { EditsReplaceLines }
{}

/// If an output replaces a directive's expectation, the lines read as the script in which the directive expects the output.
#[tactic(auto, using(crate::proofs::EditedScriptLaws::edited_script))]
pub fn edited_lines_read()
    ensures { EditedLinesRead }
{}

/// Once an editor has made an action's edits, the text reads as the script in which each picked directive expects its actual output, and the
/// others expect what they did before, if the text doesn't become too long.
pub fn edited_texts_read()
    ensures { EditedTextsRead }
{}
