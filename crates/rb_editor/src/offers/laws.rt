//! Theorems about what an editor is offered. The functions do nothing: their contracts are the theorems.

ghost use Rattle.rb_editor.specs.OfferLaws.{BlocksStandApart, ChangesAreOfTheNodes, FormattingMakes, HeadsAreKnown, IdsAreOfTheNodes, KeysAreOfTheTable, LinesStayInOrder, NamesAreOfTheTable, RangeFormattingKeeps, ValuesAreOfTheOption};

/// The blocks of a text are in its lines, one after the other, and each has a head, a separator below it, and perhaps an expectation: so
/// no fold goes beyond the text, and where two have a line in common one is within the other.
pub fn blocks_stand_apart()
    ensures { BlocksStandApart }
{}

/// A later line of a text is on no earlier line of an editor: so folds keep the order of the lines, and lie within each other as these do.
pub fn lines_stay_in_order()
    ensures { LinesStayInOrder }
{}

/// What goes out for formatting is an edit that makes the canonical text of the script, without the empty line at its end. The text reads back as the
/// same script.
pub fn formatting_makes_the_canonical_text()
    ensures { FormattingMakes }
{}

/// What goes out to format the directives in a range makes a text that is the same script.
#[tactic(auto, using(crate::proofs::RangeFormattingLaws::range_kept))]
pub fn range_formatting_keeps_the_script()
    ensures { RangeFormattingKeeps }
{}

/// The names of directives that are offered are those of the table that begin so, in its order.
pub fn names_are_those_of_the_table()
    ensures { NamesAreOfTheTable }
{}

/// The keys that are offered are those of the directive's options in the table that begin so, in its order, and `log-level`.
pub fn keys_are_those_of_the_table()
    ensures { KeysAreOfTheTable }
{}

/// The values that are offered are those of the option that begin so.
pub fn values_are_those_of_the_option()
    ensures { ValuesAreOfTheOption }
{}

/// The ids that are offered are those of the cluster's nodes, and those that the head itself adds: numbers from 1, in decimal digits.
pub fn ids_are_those_of_the_nodes()
    ensures { IdsAreOfTheNodes }
{}

/// The words of changes that are offered are those of the cluster's nodes: each as a voter, as a learner, and removed.
pub fn changes_are_those_of_the_nodes()
    ensures { ChangesAreOfTheNodes }
{}

/// On the line of each head of a script it is known that a head can be written there.
pub fn heads_are_known()
    ensures { HeadsAreKnown }
{}
