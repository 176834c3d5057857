//! Answers to the questions of a review.

ghost use Rattle.std.specs.Prelude.{◌≡◌, option_map};
ghost use Rattle.rb_check.specs.Reviews.{answer_of, answer_to, heard_as, heard_by_key, heard_by_line, heard_by_read, heard_in, visible_key};

// What Ctrl-D is, where the terminal gives each key at once.
const CTRL_D: u8 = 4;

/// What was answered.
#[derive(Clone, Copy)]
pub(crate) enum Answer {
    /// This output is accepted.
    Yes,
    /// It isn't.
    No,
    /// It is accepted, with all that follow in the script.
    All,
    /// It isn't, nor is one that follows in the script.
    Skip,
    /// It isn't, nor is one that follows in any script.
    Quit,
}

/// A line from the terminal, or a key.
#[derive(Clone, Copy)]
pub(crate) enum HeardAnswer {
    Answer(Answer),
    /// Something else.
    Else,
    /// Nothing more comes.
    End,
}

/// What a read of a line means. An empty line is the end of the input, and a read that failed ends it too.
pub(crate) fn heard_by_line(line: Option<&str>) -> HeardAnswer
    ensures { result ≡ heard_by_line (option_map (λ line. line.now) line.entry) }
{
    match line {
        Some(line) if !line.is_empty() => heard_in(line),
        _ => HeardAnswer::End,
    }
}

// What the line means.
fn heard_in(line: &str) -> HeardAnswer
    ensures { result ≡ heard_in line.now }
{
    heard_as(answer_to(line.trim().as_bytes()))
}

/// What a read of keys means. One that failed is the end, as nothing is.
pub(crate) fn heard_by_read(keys: Option<&[u8]>, is_soon: bool) -> HeardAnswer
    ensures { result ≡ heard_by_read is_soon (option_map (λ keys. keys.now) keys.entry) }
{
    match keys {
        Some(keys) => heard_by_key(keys, is_soon),
        None => HeardAnswer::End,
    }
}

// What the bytes of one read mean, if the terminal gives each key at once. Several that come together, as of an arrow key or a text that is
// pasted, are no answer, nor is what comes soon after them.
fn heard_by_key(keys: &[u8], is_soon: bool) -> HeardAnswer
    ensures { result ≡ heard_by_key is_soon keys.now }
{
    match keys {
        [] => HeardAnswer::End,
        _ if is_soon => HeardAnswer::Else,
        [key] if *key == CTRL_D => HeardAnswer::End,
        [key] => heard_as(answer_of(*key)),
        _ => HeardAnswer::Else,
    }
}

/// What is shown of them: a key alone that is visible.
pub(crate) fn visible_key(keys: &[u8]) -> &[u8]
    ensures { result.now ≡ visible_key keys.now }
{
    match keys {
        [key] if 32 < *key && *key < 127 => keys,
        _ => b"",
    }
}

// An answer, or something else.
fn heard_as(answer: Option<Answer>) -> HeardAnswer
    ensures { result ≡ heard_as answer }
{
    match answer {
        Some(answer) => HeardAnswer::Answer(answer),
        None => HeardAnswer::Else,
    }
}

// What the word means.
fn answer_to(word: &[u8]) -> Option<Answer>
    ensures { result ≡ answer_to word.now }
{
    match word {
        [letter] => answer_of(*letter),
        _ => None,
    }
}

fn answer_of(letter: u8) -> Option<Answer>
    ensures { result ≡ answer_of letter }
{
    match letter {
        b'y' => Some(Answer::Yes),
        b'n' => Some(Answer::No),
        b'a' => Some(Answer::All),
        b's' => Some(Answer::Skip),
        b'q' => Some(Answer::Quit),
        _ => None,
    }
}
