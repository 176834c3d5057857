//! A line says what its item is: each value stands under its name, and each event and each error in its own words.
ghost use Rattle.std.specs.Prelude.{◌≡◌, ◌++◌, ℕ, true, List, [], ◌∷◌, length, codes, decimal};
ghost use Rattle.rb_script.specs.Bytes.{backslash, carriage_return, closing, comma, equals_sign, hyphen, line_feed, number_sign, opening, space, tab};
ghost use Rattle.rb_vocab.specs.MessageTypes.{type_text};
ghost use Rattle.rb_vocab.specs.declared.directive_error.DirectiveError.{DirectiveError};
ghost use Rattle.rb_raftlog.specs.declared.entry.Entry.{Entry};
ghost use Rattle.rb_tracker.specs.Progresses.{PlainProgress};
ghost use Rattle.rb_message.specs.Messages.{has_term, type_of};
ghost use Rattle.rb_message.specs.declared.event.Event.{Event};
ghost use Rattle.rb_message.specs.declared.event.WhyIgnored.{WhyIgnored};
ghost use Rattle.rb_message.specs.declared.event.WhyRefused.{WhyRefused};
ghost use Rattle.rb_message.specs.declared.hard_state.HardState.{HardState};
ghost use Rattle.rb_message.specs.declared.message.Message.{Message};
ghost use Rattle.rb_texts.specs.Errors.{error_text};
ghost use Rattle.rb_texts.specs.Events.{event_text};
ghost use Rattle.rb_texts.specs.Items.{PlainNodeLine};
ghost use Rattle.rb_texts.specs.Messages.{message_text};
ghost use Rattle.rb_texts.specs.Reasons.{event_reason, reason_text, why_ignored_text, why_refused_text};
ghost use Rattle.rb_texts.specs.States.{hard_state_text, log_text, node_text, progress_text};
ghost use Rattle.rb_texts.specs.declared.item.LogLine.{LogLine};
ghost use Rattle.rb_texts.specs.declared.reason.Reason.TheVariants.{Ignored, Refused, GivesWay};
ghost use Rattle.rb_laws.specs.Lines.{Has, Names, NamesHardState, NamesKind, NamesLog, NamesNode, NamesView, SaysError, SaysEvent};
ghost use Rattle.rb_laws.specs.Reasons.{HasReason, SaysIgnored, SaysRefused, SaysThatTheyGiveWay};

/// Of a node, of what it saves, of its log and of its views, each number stands after its name.
pub fn states_are_shown_by_name()
    ensures hard { (h : HardState) → NamesHardState (hard_state_text h) h }
    ensures log { (v : LogLine) → NamesLog (log_text v) v }
    ensures node { (n : PlainNodeLine) → NamesNode (node_text n) n }
    ensures view { (id : ℕ) (p : PlainProgress) → NamesView (progress_text id p) id p }
{}

/// A message's line says from whom it is and for whom, its type, its term, if it is of one, and each of its values after its name.
pub fn messages_are_shown_by_name()
    ensures ends { (m : Message) → Has (message_text m) (decimal m.from ++ codes "->" ++ decimal m.to) }
    ensures named { (m : Message) → Has (message_text m) (codes " " ++ type_text (type_of m.kind)) }
    ensures term { (m : Message) → has_term m.kind ≡ true → Names (message_text m) (codes " term=") m.term }
    ensures values { (m : Message) → NamesKind (message_text m) m.kind }
{}

/// An event's line names the node and says what happened.
pub fn events_are_told()
    ensures node { (e : Event) → Has (event_text e) (decimal e.id) }
    ensures what { (e : Event) → SaysEvent (event_text e) e.kind }
{}

/// An error's line says what is wrong.
pub fn errors_say_what_is_wrong()
    ensures { (e : DirectiveError) → SaysError (error_text e) e }
{}

/// A message that is ignored, a vote that is refused and entries that give way have their reason, and its line says what it rests on.
pub fn reasons_are_told()
    ensures some { (e : Event) → HasReason e.kind (event_reason e) }
    ensures ignored { (why : WhyIgnored) → Has (reason_text (Ignored why)) (codes "ignored: " ++ why_ignored_text why) × SaysIgnored (why_ignored_text why) why }
    ensures refused { (why : WhyRefused) → Has (reason_text (Refused why)) (codes "refused: " ++ why_refused_text why) × SaysRefused (why_refused_text why) why }
    ensures gives_way { (last : ℕ) (es : List Entry) → SaysThatTheyGiveWay (reason_text (GivesWay last es)) (length es) }
{}

/// The bytes that have a meaning in a script are those of ASCII.
pub fn bytes_are_ascii()
    ensures blanks { codes " \t" ≡ space ∷ tab ∷ [] }
    ensures ends { codes "\n\r" ≡ line_feed ∷ carriage_return ∷ [] }
    ensures signs { codes "#-\\" ≡ number_sign ∷ hyphen ∷ backslash ∷ [] }
    ensures arguments { codes "=(,)" ≡ equals_sign ∷ opening ∷ comma ∷ closing ∷ [] }
{}
