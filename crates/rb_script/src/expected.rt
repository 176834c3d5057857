//! Expected lines, and their form.

use crate::lines::Lines;
use crate::reading::is_readable;
use crate::writing::{form_len, needs_double};
use std::marker::Model;

/// Expected lines, with the form that they need, so that it is found only once.
#[derive(Drop)]
pub(crate) struct Expected {
    lines: Lines,
    is_double: bool,
}

impl Model for Expected {
    ghost use Rattle.std.specs.Prelude.{◌≡◌, List, ℕ};
    ghost use Rattle.rb_script.specs.Script.{needs_double};

    ghost Value = { List (List ℕ) };

    ghost view = { λ e. e.lines };

    ghost invariant = { λ e. e.is_double ≡ needs_double e.lines };
}

impl Expected {
    ghost use Rattle.std.specs.Prelude.{◌≡◌, length};
    ghost use Rattle.rb_script.specs.Lines.{text_of};
    ghost use Rattle.rb_script.specs.Script.{needs_double, shown};
    ghost use Rattle.rb_script.specs.Reads.{is_readable};
    ghost use Rattle.rb_script.specs.Reading.{capped};

    /// Finds the form that these lines need.
    pub(crate) fn new(lines: Lines) -> Expected
        ensures { result ≡ lines }
    {
        let is_double = needs_double(&lines);
        Expected { lines, is_double }
    }

    /// Lines that need this form.
    pub(crate) fn in_form(lines: Lines, is_double: bool) -> Expected
        requires { is_double ≡ needs_double lines }
        ensures { result ≡ lines }
    {
        Expected { lines, is_double }
    }

    /// Whether no line ---- is the last one or directly before another. Lines in the plain form contain none.
    #[tactic(auto, using(crate::proofs::ReadingLaws::plain_readable))]
    pub(crate) fn is_readable(&self) -> bool
        ensures { result ≡ is_readable self.now }
    {
        if !self.is_double {
            return true;
        }
        is_readable(&self.lines)
    }

    /// The length of their text, with the lines ---- of the double form.
    pub(crate) fn shown_len(&self) -> usize
        ensures { result ≡ capped (length (text_of (shown self.now))) }
    {
        form_len(&self.lines, self.is_double)
    }

    /// The lines.
    pub(crate) fn into_lines(self) -> Lines
        ensures { result ≡ self }
    {
        self.lines
    }
}
