//! Laws of answers, of notifications, and of conversations, for readers of the contracts. No function here does anything.

ghost use Rattle.rb_lsp.specs.Laws.{ConversationsAreOne, NotificationsHaveNoAnswer, RefusalsAreTold, RequestsHaveOneAnswer, ResultsStandInAnswers, TextsAreAnswered, TextsAreDiagnosed};

/// In every state of the server a request has exactly one answer. It has the request's id, and depends on no other text than that of the
/// document that the request names.
pub fn requests_have_one_answer()
    ensures { RequestsHaveOneAnswer }
{}

/// A notification has no answer, and neither has an answer.
pub fn notifications_have_no_answer()
    ensures { NotificationsHaveNoAnswer }
{}

/// Whatever was sent before, and whatever else is open: the answer to a request depends on the state of the server, and on the current text
/// of the document that the request names.
pub fn texts_are_answered()
    ensures { TextsAreAnswered }
{}

/// An answer whose result is the text of a value is the answer with that value.
pub fn results_stand_in_answers()
    ensures { ResultsStandInAnswers }
{}

/// If the server doesn't do all that a message asks, diagnostics or an error say so, and nothing else changes: memory was refused, the request
/// was cancelled, or a run stopped, which it does only after [`crate::server::MAX_WORK`].
pub fn refusals_are_told()
    ensures { RefusalsAreTold }
{}

/// Bytes have one conversation: in whatever pieces they come, the output and the ending are the same, if memory is refused for the
/// same messages. If no message ever begins with the bytes, either of two statuses may say so.
pub fn conversations_are_one()
    ensures { ConversationsAreOne }
{}

/// Whatever was sent before: a notification is followed by the diagnostics of its document's current text, or by the one that
/// says that memory was refused, with the document's URI and the notification's version; a notification without a document by nothing.
pub fn texts_are_diagnosed()
    ensures { TextsAreDiagnosed }
{}
