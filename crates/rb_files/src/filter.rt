//! Which paths are kept, by the values of `--filter`.

ghost use Rattle.std.specs.Prelude.{◌≡◌, ◌↔◌, true};
ghost use Rattle.std.specs.Str.Iter.{HasSubslice};
ghost use Rattle.rb_files.specs.Finds.{IsMet, IsKept};

// Whether the path has the word in it.
#[tactic(auto, using(std::proofs::lemmas::Str::Pattern::contains_text))]
fn has_word(path: &str, word: &str) -> bool
    ensures { (result ≡ true) ↔ HasSubslice path.now word.now }
{
    path.contains(word)
}

// Whether the path contains the word, or doesn't contain the part after its `!`.
fn is_met(path: &str, word: &str) -> bool
    ensures { (result ≡ true) ↔ IsMet word.now path.now }
{
    match word.strip_prefix('!') {
        Some(rest) => !has_word(path, rest),
        None => has_word(path, word),
    }
}

/// Whether each of the words lets the path be kept.
pub(crate) fn is_kept(path: &str, words: &[String]) -> bool
    ensures { (result ≡ true) ↔ IsKept words.now path.now }
{
    for word in words {
        if !is_met(path, word.as_str()) {
            return false;
        }
    }
    true
}
