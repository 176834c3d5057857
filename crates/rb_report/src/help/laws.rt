//! Laws of the manual, which has exactly the directives and options that are read, and of suggestions.

ghost use Rattle.std.specs.Prelude.{◌<◌, ◌≡◌, ◌==◌, ◌≤◌, ◌++◌, true, not, codes, is_some, length, map, List, Some};
ghost use Rattle.std.specs.List.{list_all, Contains};
ghost use Rattle.rb_vocab.specs.Levels.{level_of};
ghost use Rattle.rb_vocab.specs.MessageTypes.{type_of};
ghost use Rattle.rb_directive.specs.declared.table.Row.{Row};
ghost use Rattle.rb_directive.specs.declared.table.OptionRow.{OptionRow};
ghost use Rattle.rb_directive.specs.Names.{argument_text, name_text};
ghost use Rattle.rb_directive.specs.Table.{directives, is_name, options};
ghost use Rattle.rb_directive.specs.Forms.{flag_of, transition_of};
ghost use Rattle.rb_report.specs.Forms.{other_names};
ghost use Rattle.rb_report.specs.HelpLines.{option_line, value_line};
ghost use Rattle.rb_report.specs.Manual.{Key, Page, keys, pages};
ghost use Rattle.rb_report.specs.Choices.{levels, flags, transitions, types};
ghost use Rattle.rb_report.specs.Distance.{Word, distance};
ghost use Rattle.rb_report.specs.Nearest.{nearest};

/// The manual has a page for each directive of the table, in its order, and no other.
pub fn pages_are_of_the_table()
    ensures { map (λ (p : Page). p.0) pages ≡ map (λ (row : Row). name_text row.name) directives }
{}

/// It has the options that each directive takes, by their keys and in the table's order, and no others except `log-level`.
pub fn options_are_those_of_the_table()
    ensures { keys ≡ map (λ (row : OptionRow). (name_text row.name, argument_text row.option)) options }
{}

/// Each value that is suggested is one that a directive takes.
pub fn choices_are_taken()
    ensures levels { list_all (λ (w : Word). is_some (level_of w)) levels ≡ true }
    ensures flags { list_all (λ (w : Word). is_some (flag_of w)) flags ≡ true }
    ensures transitions { list_all (λ (w : Word). is_some (transition_of w)) transitions ≡ true }
    ensures types { list_all (λ (w : Word). is_some (type_of w)) types ≡ true }
{}

/// Each option has a line of help, and so has each value of an option that takes some values alone.
pub fn lines_are_on_all()
    ensures options { list_all (λ (k : Key). not (length (option_line k.1) == 0)) keys ≡ true }
    ensures log_level { not (length (option_line (codes "log-level")) == 0) ≡ true }
    ensures values { list_all (λ (w : Word). not (length (value_line w) == 0)) (levels ++ (flags ++ (transitions ++ types))) ≡ true }
{}

/// No name that other tools have is that of a directive, and each has a line of help.
pub fn other_names_are_free()
    ensures names { list_all (λ (k : Key). not (is_name k.0)) other_names ≡ true }
    ensures lines { list_all (λ (k : Key). not (length k.1 == 0)) other_names ≡ true }
{}

/// The nearest of some words is one of them, and at most two letters off, but not all letters differ.
pub fn suggestions_are_near()
    ensures among { (word w : Word) (cs : List Word) → nearest word cs ≡ Some w → Contains cs w }
    ensures near { (word w : Word) (cs : List Word) → nearest word cs ≡ Some w → distance word w ≤ 2 }
    ensures kept { (word w : Word) (cs : List Word) → nearest word cs ≡ Some w → 0 < length w → distance word w < length w }
{}
