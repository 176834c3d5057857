//! Laws of scripts. Each is a function with an empty body; its contract is the law.
//!
//! The other contracts cite functions on lists of lines, such as `Reading.read_of` and `Edits.edited`, and the relation `Reads`.
//! The laws state what these mean for the bytes of a line: which lines are blank, comments, separators or continued, where an
//! expectation ends, and on which lines heads are. They also state why bytes and edits are refused, and that a text reads back.

ghost use Rattle.std.specs.Prelude.{◌≡◌, ◌↔◌, ℕ, ◌<◌, ◌⊎◌, true, false, List, [], ◌∷◌, ◌++◌, length, slice_get, slice_index, Some, Ok, Err};
ghost use Rattle.std.specs.List.{AllByRecursion};
ghost use Rattle.rb_script.specs.declared.fault.ScriptFault.{ScriptFault};
ghost use Rattle.rb_script.specs.declared.fault.EditFault.{EditFault};
ghost use Rattle.rb_script.specs.declared.edit.Edit.{Edit};
ghost use Rattle.rb_script.specs.Bytes.{tab, space, backslash};
ghost use Rattle.rb_script.specs.Lines.{Line};
ghost use Rattle.rb_script.specs.Marks.{is_space, is_blank, is_lead, rule, is_rule, is_separator, continues};
ghost use Rattle.rb_script.specs.Script.{PlainBlock, PlainScript, needs_double, text};
ghost use Rattle.rb_script.specs.Joined.{joined};
ghost use Rattle.rb_script.specs.Directive.{PlainArgument, Derives};
ghost use Rattle.rb_script.specs.Reads.{begins_blank, ReadsBlock, Reads};
ghost use Rattle.rb_script.specs.Heads.{directive_of};
ghost use Rattle.rb_script.specs.Reading.{read_of, block_of};
ghost use Rattle.rb_script.specs.Faults.{IsScriptFault, IsBlockFault};
ghost use Rattle.rb_script.specs.HeadLines.{AreHeadLines, StandsOn};
ghost use Rattle.rb_script.specs.Valid.{IsLine, IsBlock, IsScript};
ghost use Rattle.rb_script.specs.Edits.{is_text_line, is_expectation, edited};
ghost use Rattle.rb_script.specs.LineParts.{AreBlanks, IsComment, IsRuleWithin, AsksForNext, IsSolid};
ghost use Rattle.rb_script.specs.Ends.{above, CanBePlain};
ghost use Rattle.rb_script.specs.Refusals.{CanBeExpected, MayBeMade, made_by, IsEditFault};

/// Blanks are spaces and tabs. A blank line contains nothing else.
pub fn blanks_are()
    ensures byte { (b : ℕ) → (is_space b ≡ true) ↔ ((b ≡ space) ⊎ (b ≡ tab)) }
    ensures line { (line : Line) → (is_blank line ≡ true) ↔ AreBlanks line }
{}

/// A lead line is blank, or begins with blanks and a number sign.
pub fn lead_lines_are()
    ensures { (line : Line) → (is_lead line ≡ true) ↔ (AreBlanks line ⊎ IsComment line) }
{}

/// A separator is `----` with blanks around it. The lines that open and close the double form are exactly `----`.
pub fn separators_are()
    ensures separator { (line : Line) → (is_separator line ≡ true) ↔ IsRuleWithin line }
    ensures exact { (line : Line) → (is_rule line ≡ true) ↔ (line ≡ rule) }
{}

/// A head line is continued by a backslash at its end, with or without blanks after it. One blank joins the lines, even if no
/// line follows.
pub fn heads_are_joined()
    ensures asks { (line : Line) → (continues line ≡ true) ↔ AsksForNext line }
    ensures next { (body blanks : Line) (ls : List Line) → AreBlanks blanks → joined ((body ++ backslash ∷ blanks) ∷ ls) ≡ body ++ space ∷ joined ls }
    ensures nothing { (body blanks : Line) → AreBlanks blanks → joined ((body ++ backslash ∷ blanks) ∷ []) ≡ body ++ space ∷ [] }
    ensures last { (line : Line) → continues line ≡ false → joined (line ∷ []) ≡ line }
{}

/// A blank line, or the end of the lines, ends an expectation in the plain form.
pub fn plain_expectations_end()
    ensures at_blank { (b : PlainBlock) (separator : Line) → IsBlock b → IsRuleWithin separator → (blank : Line) (rest : List Line) → CanBePlain b.expected → AreBlanks blank →
        ReadsBlock (above b separator (b.expected ++ blank ∷ rest)) b rest }
    ensures at_end { (b : PlainBlock) (separator : Line) → IsBlock b → IsRuleWithin separator → CanBePlain b.expected → ReadsBlock (above b separator b.expected) b [] }
{}

/// Two lines `----` end an expectation in the double form. One blank line after them belongs to it.
pub fn double_expectations_end()
    ensures at_blank { (b : PlainBlock) (separator : Line) → IsBlock b → IsRuleWithin separator → (blank : Line) (rest : List Line) → AreBlanks blank →
        ReadsBlock (above b separator (rule ∷ b.expected ++ rule ∷ rule ∷ blank ∷ rest)) b rest }
    ensures at_pair { (b : PlainBlock) (separator : Line) → IsBlock b → IsRuleWithin separator → (rest : List Line) → begins_blank rest ≡ false →
        ReadsBlock (above b separator (rule ∷ b.expected ++ rule ∷ rule ∷ rest)) b rest }
{}

/// Bytes are at most one script.
pub fn reads_once()
    ensures { (bytes : List ℕ) (a b : PlainScript) → Reads bytes a → Reads bytes b → a ≡ b }
{}

/// The cause of each fault of reading. No fault before it in the order holds.
pub fn faults_are()
    ensures script { (bytes : List ℕ) (fault : ScriptFault) → read_of bytes ≡ Err fault → IsScriptFault bytes fault }
    ensures block { (bytes : List ℕ) (fault : ScriptFault) → block_of bytes ≡ Err fault → IsBlockFault bytes fault }
{}

/// The line number of a block is that of the first line of its head, and the head's other lines follow. The numbers ascend, there
/// is one for each block, and they are unique.
pub fn head_lines_are()
    ensures stands { (ls : List Line) (bs : List PlainBlock) (ns : List ℕ) → AreHeadLines 1 ls bs ns → (k : ℕ) (b : PlainBlock) → slice_get bs k ≡ Some b → StandsOn ls b.head (slice_index ns k) }
    ensures ascend { (ls : List Line) (bs : List PlainBlock) (ns : List ℕ) → AreHeadLines 1 ls bs ns → (i j : ℕ) → i < j → j < length ns → slice_index ns i < slice_index ns j }
    ensures count { (ls : List Line) (bs : List PlainBlock) (ns : List ℕ) → AreHeadLines 1 ls bs ns → length ns ≡ length bs }
    ensures once { (ls : List Line) (bs : List PlainBlock) (ns ms : List ℕ) → AreHeadLines 1 ls bs ns → AreHeadLines 1 ls bs ms → ns ≡ ms }
{}

/// The directive of a valid block is the only one that the grammar derives from its head.
pub fn directive_is_derived()
    ensures derived { (b : PlainBlock) → IsBlock b → Derives (joined b.head) (directive_of b).name (directive_of b).args }
    ensures only { (b : PlainBlock) (name : List ℕ) (args : List PlainArgument) → Derives (joined b.head) name args → (name ≡ (directive_of b).name) × (args ≡ (directive_of b).args) }
    ensures inputs { (b : PlainBlock) → (directive_of b).inputs ≡ b.input }
{}

/// A script that is read is valid.
pub fn read_is_valid()
    ensures { (bytes : List ℕ) (s : PlainScript) → Reads bytes s → IsScript s }
{}

/// The text of each valid script reads as that script.
pub fn text_reads_back()
    ensures { (s : PlainScript) → IsScript s → Reads (text s) s }
{}

/// Lines can be expected if each reads as itself, no two neighbours are `----`, and the last one isn't.
pub fn expectations_are()
    ensures line { (line : Line) → (is_text_line line ≡ true) ↔ IsLine line }
    ensures lines { (ls : List Line) → (is_expectation ls ≡ true) ↔ CanBeExpected ls }
{}

/// Printable lines that are neither blank nor `----` nor too long can be expected, in the plain form. So whatever directives
/// print can be expected.
pub fn solid_lines_can_be_expected()
    ensures expected { (ls : List Line) → AllByRecursion IsSolid ls → is_expectation ls ≡ true }
    ensures plain { (ls : List Line) → AllByRecursion IsSolid ls → needs_double ls ≡ false }
{}

/// The cause of each fault of an edit. No fault before it in the order holds, and none holds for an accepted edit.
pub fn refusals_are()
    ensures refused { (s : PlainScript) (e : Edit) (outputs : List (List Line)) (fault : EditFault) → edited s e outputs ≡ Err fault → IsEditFault s e outputs fault }
    ensures made { (s : PlainScript) (e : Edit) (outputs : List (List Line)) (t : PlainScript) → edited s e outputs ≡ Ok t → MayBeMade s e outputs × (t ≡ made_by s e outputs) }
{}
