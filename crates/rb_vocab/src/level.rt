//! Log levels. They are ordered: setting one hides whatever has a lower level.

ghost use Rattle.std.specs.Prelude.{◌≡◌};
ghost use Rattle.std.specs.Str.{bytes_eq, str_to_ascii_lowercase};
ghost use Rattle.rb_vocab.specs.Levels.{level_of, rank};

/// The lowest level shown. Errors of directives and `ok` are always shown.
#[derive(Clone, Copy, Debug, PartialEq, Eq)]
pub enum Level {
    /// Everything is shown.
    Debug,
    /// Events of this level and those above it, and states.
    Info,
    /// Events of this level and those above it, and states.
    Warn,
    /// Events of this level and those above it, and states.
    Error,
    /// Events of this level, and states.
    Fatal,
    /// Neither events nor states.
    None,
}

impl Level {
    /// The position in the order of levels, from 0 for `Debug`.
    pub fn rank(self) -> u8
        ensures { result ≡ rank self }
    {
        match self {
            Level::Debug => 0,
            Level::Info => 1,
            Level::Warn => 2,
            Level::Error => 3,
            Level::Fatal => 4,
            Level::None => 5,
        }
    }
}

/// Finds the level with this name, in any letter case.
#[tactic(auto, unfolding(crate::specs::Levels::level_of))]
pub fn level_of(word: &[u8]) -> Option<Level>
    ensures { result ≡ level_of word.now }
{
    if is_word(word, b"debug") {
        Some(Level::Debug)
    } else if is_word(word, b"info") {
        Some(Level::Info)
    } else if is_word(word, b"warn") {
        Some(Level::Warn)
    } else if is_word(word, b"error") {
        Some(Level::Error)
    } else if is_word(word, b"fatal") {
        Some(Level::Fatal)
    } else if is_word(word, b"none") {
        Some(Level::None)
    } else {
        None
    }
}

// Compares the word with a lower-case name, ignoring case.
fn is_word(word: &[u8], name: &[u8]) -> bool
    requires { str_to_ascii_lowercase name.now ≡ name.now }
    ensures { result ≡ bytes_eq (str_to_ascii_lowercase word.now) name.now }
{
    word.eq_ignore_ascii_case(name)
}
