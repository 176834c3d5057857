//! Laws of steps.

ghost use Rattle.std.specs.Prelude.{◌≡◌, ◌≤◌, ◌<◌, ◌+◌, ◌-◌, ◌⊎◌, [], ◌∷◌, ◌++◌, ℕ, Contains, List, drop, false, length, take, true};
ghost use Rattle.std.specs.List.{flat_map, list_all, sum_by};
ghost use Rattle.rb_script.specs.Directive.{PlainDirective};
ghost use Rattle.rb_script.specs.Lines.{Line};
ghost use Rattle.rb_script.specs.Reads.{Reads};
ghost use Rattle.rb_script.specs.Script.{PlainScript};
ghost use Rattle.rb_raftlog.specs.Log.{LogValue, entries_after};
ghost use Rattle.rb_tracker.specs.Progresses.{PlainProgress};
ghost use Rattle.rb_tracker.specs.Trackers.{has_view};
ghost use Rattle.rb_node.specs.Node.{PlainNode};
ghost use Rattle.rb_report.specs.declared.check.table.TheConstants.{MAX_CELLS};
ghost use Rattle.rb_texts.specs.Items.{PlainItem};
ghost use Rattle.rb_machine.specs.Cluster.{Cluster, empty};
ghost use Rattle.rb_machine.specs.Outcome.{outcome};
ghost use Rattle.rb_replay.specs.Points.{last_up_to};
ghost use Rattle.rb_replay.specs.Points as places;
ghost use Rattle.rb_replay.specs.Reuse.{Change, IsChange, IsCost, StayWhole, old_point};
ghost use Rattle.rb_replay.specs.Run.{state};
ghost use Rattle.rb_script_report.specs.declared.warning.Warning.{Warning};
ghost use Rattle.rb_view.specs.Escapes.{is_inert};
ghost use Rattle.rb_view.specs.Json.{AreRows, is_byte};
ghost use Rattle.rb_view.specs.Kept.{texts_of};
ghost use Rattle.rb_view.specs.SomeSteps.{StaysAround, left_in, relined, some_steps, some_texts};
ghost use Rattle.rb_view.specs.Rows.{Row, next_text, rows_text};
ghost use Rattle.rb_view.specs.Sizes.{is_view, row_size};
ghost use Rattle.rb_view.specs.Changes.{node_change, state_change, views_changed, views_gone};
ghost use Rattle.rb_view.specs.Committed.{AreKept, AreSound, restarts};
ghost use Rattle.rb_view.specs.Pages.{first_row, rows_joined, steps_text};
ghost use Rattle.rb_view.specs.Logs.{entries_read, is_same_log, stays};
ghost use Rattle.rb_view.specs.StepSizes.{around_size, item_size, step_size};
ghost use Rattle.rb_view.specs.NewRows.{has_text};
ghost use Rattle.rb_view.specs.States.{changed_rows, no_view_row, standing, state_rows};
ghost use Rattle.rb_view.specs.Steps.{end_row, source_row, step_texts, steps, steps_texts, warning_rows};
ghost use Rattle.rb_view.specs.Values.{GoOnShowingBytes, all_rows};

/// The text of a script's steps is a list of rows, the first of which names the script.
pub fn steps_are_rows()
    ensures { (name bytes heads : List ℕ) (s : PlainScript) → (rest : List Row) × (steps_text name bytes heads s ≡ rows_text (first_row name) rest) }
{}

/// Whatever a script holds, no byte of that text is `<`, `>` or `&`, or past ASCII.
pub fn steps_are_inert()
    ensures { (name bytes heads : List ℕ) (s : PlainScript) → list_all is_inert (steps_text name bytes heads s) ≡ true }
{}

/// Whatever a directive does, if it restarts no node, the indexes of each node stay in order, and the entries that the node knew to be committed
/// stay as they are, but for those that are compacted. So comparisons of logs begin after them.
pub fn committed_entries_stay()
    ensures begun { AreSound empty.nodes }
    ensures sound { (c : Cluster) (d : PlainDirective) → restarts d ≡ false → AreSound c.nodes → AreSound (outcome c d).cluster.nodes }
    ensures kept { (c : Cluster) (d : PlainDirective) → restarts d ≡ false → AreSound c.nodes → AreKept c.nodes (outcome c d).cluster.nodes }
{}

/// Without a change there is no row.
pub fn what_stands_still_has_no_row()
    ensures { (nodes : List PlainNode) → state_rows nodes nodes ≡ [] }
{}

/// There are at most as many rows as parts that differ, over all nodes. A node that is as it was adds nothing, wherever it stands, and neither
/// does a view; one that differs adds at most a row for its numbers, its configuration and its log, one for each view that differs or is gone,
/// and one for each entry that its log didn't have.
pub fn changes_grow_with_what_differs()
    ensures rows { (olds news : List PlainNode) → length (state_rows olds news) ≤ state_change olds news }
    ensures node { (n : PlainNode) (olds news : List PlainNode) → state_change (n ∷ olds) (n ∷ news) ≡ state_change olds news }
    ensures nodes { (nodes : List PlainNode) → state_change nodes nodes ≡ 0 }
    ensures view { (olds : List (ℕ × PlainProgress)) (v : ℕ × PlainProgress) (news : List (ℕ × PlainProgress)) → Contains olds v → views_changed olds (v ∷ news) ≡ views_changed olds news }
    ensures most { (old new : PlainNode) → old.id ≡ new.id → node_change old new ≤ 3 + views_changed old.tracker.views new.tracker.views + views_gone old.tracker.views new.tracker.views + length (entries_after new.log (stays old.log new.log)) }
{}

/// The text is at most as long as what each step says, beside the script's name and bytes and two numbers: where it stands, what it printed, what
/// happened and what changed, and its warnings. Items that show how a node stands say nothing.
pub fn pages_grow_with_what_happens()
    ensures text { (name bytes heads : List ℕ) (s : PlainScript) → length (steps_text name bytes heads s) ≤ around_size name bytes s + sum_by step_size (steps heads s) + sum_by row_size (warning_rows bytes heads s) }
    ensures views { (i : PlainItem) → is_view i ≡ true → item_size i ≡ 0 }
{}

/// The text is a text of JSON, by its grammar, and its value is the rows: the script's bytes; for each directive where it stands, what it printed,
/// the rows of the items that it can show, and what changed; the end. The name and the script are bytes, and so is what is shown of contents:
/// [`steps_of`](crate::steps::steps_of) ensures that.
pub fn steps_are_json()
    ensures { (name bytes heads : List ℕ) (s : PlainScript) → list_all is_byte name ≡ true → list_all is_byte bytes ≡ true → Reads bytes s → GoOnShowingBytes empty s.blocks → AreRows (first_row name) (all_rows bytes heads s) (steps_text name bytes heads s) }
{}

/// A log can be read back: its entries are those of before, up to the index that is written, and after them the ones that are written. Where nothing
/// is written of a log, its base and its entries are as they were.
pub fn logs_read_back()
    ensures written { (old new : LogValue) → new.entries ≡ entries_read old new.base (stays old new) (entries_after new (stays old new)) }
    ensures still { (old new : LogValue) → is_same_log old new ≡ true → (new.base ≡ old.base) × (new.base_term ≡ old.base_term) × (new.entries ≡ old.entries) }
{}

/// What is not written stands as it stood: each row of a node's numbers, configuration and views is written, or it is as one of before; and each
/// view that is gone is written as gone.
pub fn what_is_not_written_stood()
    ensures stands { (old new : PlainNode) (r : Row) → Contains (standing new) r → Contains (changed_rows old new) r ⊎ (has_text (texts_of (standing old)) (next_text r) ≡ true) }
    ensures gone { (old new : PlainNode) (v : ℕ × PlainProgress) → Contains old.tracker.views v → has_view new.tracker.views v.0 ≡ false → Contains (changed_rows old new) (no_view_row new.id v.0) }
{}

/// The rows before an edit stay: those of the first directives, if these and the lines of their heads stay.
pub fn rows_stay()
    ensures { (old_heads new_heads : List ℕ) (old new : PlainScript) (front : ℕ) → take front new.blocks ≡ take front old.blocks → take front new_heads ≡ take front old_heads → take front (steps new_heads new) ≡ take front (steps old_heads old) }
{}

/// The rows shown before, with the rows of some directives put in, are the page of the new script. Only the lines of heads move after them. So
/// it is, from the first directive that changes up to where the rest is the same, in the same cluster, if at the end of both scripts as many cells are
/// left as one comparison takes at the most: then the rows of a directive don't depend on the mismatches before it.
pub fn rows_are_a_page()
    ensures { (bytes old_heads new_heads : List ℕ) (old new : PlainScript) (front old_rest new_rest : ℕ) → StaysAround old_heads new_heads old new front old_rest new_rest → steps_texts bytes new_heads new ≡ texts_of (source_row bytes ∷ []) ++ ((flat_map step_texts (take front (steps old_heads old)) ++ (flat_map step_texts (some_steps new_heads new front (new_rest - front)) ++ flat_map step_texts (relined (drop new_rest new_heads) (drop old_rest (steps old_heads old))))) ++ (texts_of (warning_rows bytes new_heads new) ++ texts_of (end_row new ∷ []))) }
{}

/// Where that is: after the directives before an edit and as many as the session then executed ([`rb_replay::Changed`]), clusters are those of
/// before, and so is all that [`rows_are_a_page`] asks for.
pub fn clusters_meet_after_what_ran()
    ensures clusters { (c : Change) (n i : ℕ) → IsChange c → IsCost c n → c.front + n ≤ i → i < length c.new.blocks → state c.new i ≡ state c.old (old_point c i) }
    ensures around { (c : Change) (n i : ℕ) (old_heads new_heads : List ℕ) → IsChange c → StayWhole c → IsCost c n → c.front + n ≤ i → c.new_rest ≤ i → take c.front new_heads ≡ take c.front old_heads → length old_heads ≡ length c.old.blocks → length new_heads ≡ length c.new.blocks → MAX_CELLS ≤ left_in c.old → MAX_CELLS ≤ left_in c.new → StaysAround old_heads new_heads c.old c.new c.front (old_point c i) i }
{}

/// Between a place and the last checkpoint up to it there are fewer directives than the checkpoint interval: as many run before the rows of some
/// directives.
pub fn few_run_before()
    ensures { (interval count from : ℕ) (points : List ℕ) → places.AreKept interval count points → from ≤ count → from < last_up_to from points + interval }
{}

/// The rows of some directives, after a row that names them, are the text of a list of rows.
pub fn some_steps_are_rows()
    ensures { (name heads : List ℕ) (warnings : List Warning) (from count : ℕ) (s : PlainScript) → (rest : List Row) × (rows_joined name (some_texts heads warnings from count s) ≡ rows_text (first_row name) rest) }
{}
