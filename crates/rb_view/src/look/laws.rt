//! Laws of answers.

ghost use Rattle.std.specs.Prelude.{◌≡◌, ◌+◌, ◌≤◌, ◌++◌, ◌∷◌, ℕ, List, length, take, drop, Some, Ok};
ghost use Rattle.rb_script.specs.Script.{PlainBlock, PlainScript};
ghost use Rattle.rb_script.specs.Reading.{block_of};
ghost use Rattle.rb_replay.specs.Run.{state, output_at};
ghost use Rattle.rb_view.specs.Looks.{answer_in};

/// An answer is the output of the directive at its place in the script, after the directives that were run.
pub fn answers_are_those_of_the_script()
    ensures { (s new : PlainScript) (question : List ℕ) (b : PlainBlock) (n : ℕ) → block_of question ≡ Ok b → n ≤ length s.blocks → new.blocks ≡ take n s.blocks ++ b ∷ drop n s.blocks → output_at new (n + 1) ≡ Some (answer_in (state s n) question) }
{}
