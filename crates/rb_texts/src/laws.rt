//! Laws of printed lines. Each is a function with an empty body; its contract is the law.

ghost use Rattle.std.specs.Prelude.{◌≡◌, ◌≤◌, true, false, List, length};
ghost use Rattle.std.specs.List.{list_all, AllByRecursion};
ghost use Rattle.rb_vocab.specs.declared.level.Level.{Level};
ghost use Rattle.rb_script.specs.declared.limits.TheConstants.{MAX_LINE};
ghost use Rattle.rb_script.specs.Lines.{Line};
ghost use Rattle.rb_script.specs.Script.{needs_double};
ghost use Rattle.rb_script.specs.Edits.{is_expectation};
ghost use Rattle.rb_texts.specs.Items.{PlainItem};
ghost use Rattle.rb_texts.specs.Shapes.{is_solid};
ghost use Rattle.rb_texts.specs.Texts.{line_of};

/// No line that [`put`](crate::put) adds is blank or `----`, and each of its bytes is from 32 to 126.
pub fn lines_are_solid()
    ensures { (level : Level) (item : PlainItem) → list_all is_solid (line_of level item) ≡ true }
{}

/// Printed lines can be expected if none is too long.
pub fn printed_lines_can_be_expected()
    ensures { (ls : List Line) → list_all is_solid ls ≡ true → AllByRecursion (λ line. length line ≤ MAX_LINE) ls → is_expectation ls ≡ true }
{}

/// Printed lines need only the plain form.
pub fn printed_plain()
    ensures { (ls : List Line) → list_all is_solid ls ≡ true → needs_double ls ≡ false }
{}
