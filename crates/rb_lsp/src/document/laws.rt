//! Laws of positions and changes, for readers of the contracts. No function here does anything.

ghost use Rattle.rb_lsp.specs.Changes.{PlacesReturn, ReplacesPart};
ghost use Rattle.rb_lsp.specs.Edits.{EditsMake};

/// An offset that is neither within a character nor between CR and LF has a position, and the position leads back to it.
#[tactic(auto, using(crate::proofs::PositionLaws::place_returns))]
pub fn places_return()
    ensures { PlacesReturn }
{}

/// After a part of a text is replaced, the new part is between the bytes that were before and after the old part.
#[tactic(auto, using(crate::proofs::ChangeLaws::part_replaced))]
pub fn replaces_part()
    ensures { ReplacesPart }
{}

/// The edit between two texts makes the new one of the old one, if the old one begins with a character.
#[tactic(auto, using(crate::proofs::DifferLaws::edits_make))]
pub fn edits_make_the_new_text()
    ensures { EditsMake }
{}
