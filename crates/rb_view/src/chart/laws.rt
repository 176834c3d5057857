//! Laws of pictures: of their arrows, and of their texts.

ghost use Rattle.std.specs.Prelude.{◌≡◌, ◌++◌, ℕ, List, [], fold, map, true};
ghost use Rattle.std.specs.List.{flat_map, list_all};
ghost use Rattle.rb_script.specs.Directive.{PlainDirective};
ghost use Rattle.rb_script.specs.Script.{PlainScript};
ghost use Rattle.rb_texts.specs.Items.{PlainItem};
ghost use Rattle.rb_machine.specs.Cluster.{Cluster, empty};
ghost use Rattle.rb_machine.specs.Outcome.{execution, outcome, shown_items};
ghost use Rattle.rb_view.specs.Arrows.{PlainArrows, begun_by, coming_in, drawing, no_arrows};
ghost use Rattle.rb_view.specs.Drawn.{drawn_arrows};
ghost use Rattle.rb_view.specs.XmlEscapes.{ReadsAs, escaped, is_no_bracket};
ghost use Rattle.rb_view.specs.Promises.{AllEnd, Ascend, Shows, all_sent, arrow_address, message_address, pending_drawn, waiting_arrow, waiting_arrows, waiting_from};
ghost use Rattle.rb_view.specs.declared.chart.part.ChartPart.{ChartPart};

/// Whatever happens, the arrows are those of the messages that were sent, by a ready or by hand, in that order. A later item
/// of a message changes only its arrow.
pub fn arrows_are_of_what_is_sent()
    ensures { (d : PlainArrows) (items : List PlainItem) → map arrow_address (fold drawing d items).arrows ≡ map arrow_address d.arrows ++ map message_address (all_sent d.in_flight.is_ready items) }
{}

/// The arrows that are drawn as in flight are those of the messages in flight: one that was delivered, dropped or given up has an arrow that
/// shows it.
pub fn what_is_on_its_way_waits()
    ensures { (d : PlainArrows) (items : List PlainItem) → d.positions ≡ waiting_from 0 d.arrows → (fold drawing d items).positions ≡ waiting_from 0 (fold drawing d items).arrows }
{}

/// Arrows that show what is pending in a cluster still do after any directive: one waits for each pending message, in order, and no other does.
/// They do so for the empty cluster, and where messages come in from above.
pub fn what_waits_is_pending()
    ensures empty { Shows empty no_arrows }
    ensures coming { (c : Cluster) → Shows c (coming_in c.pending) }
    ensures after { (c : Cluster) (d : PlainArrows) (directive : PlainDirective) → Shows c d → Shows (outcome c directive).cluster (fold drawing (begun_by directive d) (shown_items (execution c directive))) }
{}

/// A picture, or one of a part of a script, shows what is pending where it ends: the arrows that are drawn as on their way are those of the
/// pending messages, one for each, in order. The lines of heads ascend, as rb_script's `head_lines_are` says.
pub fn pictures_show_what_is_pending()
    ensures { (p : ChartPart) (heads : List ℕ) (s : PlainScript) → Ascend heads → waiting_arrows (drawn_arrows p heads s) ≡ map waiting_arrow (pending_drawn p [] empty heads s.blocks) }
{}

/// Where arrows show what is pending in a cluster, each message that a directive delivers or drops ends its own arrow.
pub fn messages_end_their_own_arrows()
    ensures { (c : Cluster) (d : PlainArrows) (directive : PlainDirective) → Shows c d → AllEnd (begun_by directive d) (shown_items (execution c directive)) }
{}

/// Whatever words are, their text in an element has neither `<` nor `>`: they begin no element and end none.
pub fn words_have_no_brackets()
    ensures { (words : List ℕ) → list_all is_no_bracket (flat_map escaped words) ≡ true }
{}

/// Their text reads as the words: each `&` in it begins an entity, and each byte is itself or the one that its entity
/// names.
pub fn words_read_back()
    ensures { (words : List ℕ) → ReadsAs words (flat_map escaped words) }
{}
