//! Where the program says why it ends early.

ghost use Rattle.std.specs.Prelude.{◌≡◌, ◌||◌, not, ℕ, Bool, false, IsTrue, List, Option, None, IfSome};
ghost use Rattle.std.specs.Io.KnownBytes.{Appends, Keeps};

use std::fmt::Display;

/// Standard error, and standard output for help. Code over it is proved of whatever is known of them.
pub trait Console {
    // what is on standard error, if it is known
    ghost told: { Self → Option (List ℕ) };

    // what is on standard output, if it is known
    ghost printed: { Self → Option (List ℕ) };

    // a write to standard output failed
    ghost has_lost: { Self → Bool };

    // no write fails
    ghost takes_all: { Self → Type 0 };

    /// Writes on standard error. If that fails, it can't be told.
    fn tell<D: Display + Drop>(&mut self, text: D)
        ensures told { takes_all self.old → takes_all self.new × IfSome (D.output text) (Appends (told self.old) (told self.new)) }
        ensures printed { Keeps (printed self.old) (printed self.new) }
        ensures lost { has_lost self.new ≡ has_lost self.old };

    /// Writes on standard output, and returns whether it went out.
    fn print<D: Display + Drop>(&mut self, text: D) -> bool
        ensures printed { takes_all self.old → takes_all self.new × IsTrue result × IfSome (D.output text) (Appends (printed self.old) (printed self.new)) }
        ensures told { Keeps (told self.old) (told self.new) }
        ensures lost { has_lost self.new ≡ has_lost self.old || not result };
}

/// The streams of a runtime.
#[derive(Drop)]
pub struct RuntimeConsole<'a, R> {
    rt: &'a R,
    has_lost: bool,
}

impl<'a, R> RuntimeConsole<'a, R> {
    /// Nothing is lost yet.
    pub fn new(rt: &'a R) -> RuntimeConsole<'a, R>
        ensures { result.has_lost ≡ false }
    {
        RuntimeConsole {
            rt,
            has_lost: false,
        }
    }
}

// What is on them is not known.
impl<'a, R: Print + Eprint> Console for RuntimeConsole<'a, R> {
    ghost told = { λ _. None };

    ghost printed = { λ _. None };

    ghost has_lost = { λ console. console.has_lost };

    ghost takes_all = { λ _. ⊥ };

    fn tell<D: Display + Drop>(&mut self, text: D) {
        let _ = self.rt.eprint(text);
    }

    fn print<D: Display + Drop>(&mut self, text: D) -> bool {
        let went_out = self.rt.print(text).is_ok();
        self.has_lost = self.has_lost || !went_out;
        went_out
    }
}
