//! Errors of directives. The error is the directive's whole output, and the cluster doesn't change.

use crate::script_word::ScriptWord;

/// Why a directive is refused. An error shows the first 64 bytes of a word.
#[derive(Drop)]
pub enum DirectiveError<'a> {
    /// The name of the directive.
    UnknownDirective(ScriptWord<'a>),
    /// The key of the option.
    UnsupportedOption(ScriptWord<'a>),
    /// The key of an option, or a positional word.
    BadArgument(ScriptWord<'a>),
    /// The name of the missing argument.
    MissingArgument(ScriptWord<'a>),
    /// An id that no node has.
    NoSuchNode(u64),
    /// More nodes than a cluster may have.
    TooManyNodes,
    /// The index of a base is below 2, or is needed and missing.
    IndexTooLow,
    /// The log is already compacted up to this index.
    AlreadyCompacted,
    /// The index is not applied yet.
    IndexPastApplied,
    /// The word is not a change of the configuration.
    BadChange(ScriptWord<'a>),
    /// A change of the first version has exactly one word, and no transition.
    FirstVersionTakesOne,
}

impl<'a> DirectiveError<'a> {
    ghost use Rattle.std.specs.Prelude.{◌≡◌};

    /// Copies the error. Its words stay borrowed.
    pub fn copy(&self) -> DirectiveError<'a>
        ensures { result ≡ self.now }
    {
        match self {
            DirectiveError::UnknownDirective(name) => DirectiveError::UnknownDirective(name.copy()),
            DirectiveError::UnsupportedOption(key) => DirectiveError::UnsupportedOption(key.copy()),
            DirectiveError::BadArgument(word) => DirectiveError::BadArgument(word.copy()),
            DirectiveError::MissingArgument(name) => DirectiveError::MissingArgument(name.copy()),
            DirectiveError::NoSuchNode(id) => DirectiveError::NoSuchNode(*id),
            DirectiveError::TooManyNodes => DirectiveError::TooManyNodes,
            DirectiveError::IndexTooLow => DirectiveError::IndexTooLow,
            DirectiveError::AlreadyCompacted => DirectiveError::AlreadyCompacted,
            DirectiveError::IndexPastApplied => DirectiveError::IndexPastApplied,
            DirectiveError::BadChange(word) => DirectiveError::BadChange(word.copy()),
            DirectiveError::FirstVersionTakesOne => DirectiveError::FirstVersionTakesOne,
        }
    }
}
