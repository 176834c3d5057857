//! Laws of reading directives. They hold for each directive that a script can have.

ghost use Rattle.std.specs.Prelude.{◌≡◌, ◌≢◌, ◌<◌, ◌≤◌, ◌^◌, ◌∷◌, [], decimal, Some, None, Ok, Err, true, false, ℕ};
ghost use Rattle.std.specs.Option.{option_map, unwrap_or};
ghost use Rattle.std.specs.List.{list_all};
ghost use Rattle.rb_script.specs.Directive.{PlainArgument, PlainDirective};
ghost use Rattle.rb_text.specs.Numbers.{number_of};
ghost use Rattle.rb_vocab.specs.declared.directive_error.DirectiveError.TheVariants as errors;
ghost use Rattle.rb_directive.specs.declared.name.Name.{Name};
ghost use Rattle.rb_directive.specs.declared.requests.AddNodes.{AddNodes};
ghost use Rattle.rb_directive.specs.declared.requests.Request.TheVariants as requests;
ghost use Rattle.rb_directive.specs.declared.build.Asked.{Asked};
ghost use Rattle.rb_directive.specs.declared.arguments.Arguments.{Arguments};
ghost use Rattle.rb_directive.specs.declared.table.Row.{Row};
ghost use Rattle.rb_directive.specs.Names.{name_text};
ghost use Rattle.rb_directive.specs.Table.{directives, row_in, option_of, has_option};
ghost use Rattle.rb_directive.specs.Reading.{number_value, with_argument};
ghost use Rattle.rb_directive.specs.Requests.{request, IsWithin};
ghost use Rattle.rb_directive.specs.Whole.{first_word, name_of, AreApart};

/// Each directive is found by its name, so no two have the same name.
#[tactic(auto, using(crate::proofs::TableLaws::names_found))]
pub fn names_are_apart()
    ensures { (name : Name) → option_map (λ (row : Row). row.name) (row_in directives (name_text name)) ≡ Some name }
{}

/// Only directives that have an option in the table accept it. Others refuse it as unsupported.
pub fn options_are_those_of_the_table()
    ensures taken { (d : PlainDirective) (a : Asked) → request d ≡ Ok a → list_all (has_option d.name) d.args ≡ true }
    ensures refused { (row : Row) (a : PlainArgument) (g : Arguments) → a.has_equals ≡ true → option_of (name_text row.name) a.key ≡ None → with_argument row a g ≡ Err (errors.UnsupportedOption a.key) }
{}

/// A number in decimal digits is read as itself, if the argument allows it.
#[tactic(auto, using(crate::proofs::SpellingLaws::number_in))]
pub fn numbers_are_read()
    ensures { (low high n : ℕ) → low ≤ n → n ≤ high → n < 10 ^ 10 → number_value low high (decimal n ∷ []) ≡ Some n }
{}

/// Each request is within its limits.
#[tactic(auto, using(crate::proofs::BoundLaws::request_within))]
pub fn requests_are_within()
    ensures { (d : PlainDirective) (a : Asked) → request d ≡ Ok a → IsWithin a.request }
{}

/// A request is of the directive that its name says. An unknown name is refused.
pub fn names_say_what_is_asked_for()
    ensures known { (d : PlainDirective) (a : Asked) → request d ≡ Ok a → name_text (name_of a.request) ≡ d.name }
    ensures unknown { (d : PlainDirective) → ((name : Name) → name_text name ≢ d.name) → request d ≡ Err (errors.UnknownDirective d.name) }
{}

/// The first word of `add-nodes` is the number of nodes.
#[tactic(auto, using(crate::proofs::CountLaws::request_counts))]
pub fn counts_are_first_words()
    ensures { (d : PlainDirective) (a : Asked) (r : AddNodes) → request d ≡ Ok a → a.request ≡ requests.AddNodes r → number_of (first_word d.args) ≡ Some r.count }
{}

/// No id of an `add-nodes` is both a voter and a learner.
pub fn voters_and_learners_are_apart()
    ensures { (d : PlainDirective) (a : Asked) (r : AddNodes) → request d ≡ Ok a → a.request ≡ requests.AddNodes r → AreApart (unwrap_or r.voters []) (unwrap_or r.learners []) }
{}
