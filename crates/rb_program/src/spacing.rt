//! The number after `--every`.

ghost use Rattle.std.specs.Prelude.{◌≡◌, option_map};
ghost use Rattle.rb_program.specs.Work.{spacing_of};

use rb_bench::DEFAULT_CHECKPOINT_INTERVAL;
use rb_text::number_of;

/// The number that the argument says. It may still be outside what a session takes.
pub(crate) fn spacing(word: Option<&str>) -> Option<u64>
    ensures { result ≡ spacing_of (option_map (λ word. word.now) word.entry) }
{
    match word {
        Some(word) => number_of(word.as_bytes()),
        None => Some(DEFAULT_CHECKPOINT_INTERVAL),
    }
}
