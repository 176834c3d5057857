//! The format of a report.

ghost use Rattle.std.specs.Prelude.{◌≡◌, option_map};
ghost use Rattle.rb_program.specs.Choices.{format_of, is_text, style_of};

use rb_check::Format;

/// The values of `--format`.
#[derive(Clone, Copy, PartialEq, Eq)]
pub(crate) enum Style {
    /// Text for people.
    Text,
    /// A format for programs.
    Program(Format),
}

impl Style {
    /// Whether people read it.
    pub(crate) fn is_text(self) -> bool
        ensures { result ≡ is_text self }
    {
        match self {
            Style::Text => true,
            Style::Program(_) => false,
        }
    }

    /// The format for programs, if it is one.
    pub(crate) fn format(self) -> Option<Format>
        ensures { result ≡ format_of self }
    {
        match self {
            Style::Text => None,
            Style::Program(format) => Some(format),
        }
    }
}

/// The value of `--format`; none, if it isn't one.
pub(crate) fn style_of(word: Option<&str>) -> Option<Style>
    ensures { result ≡ style_of (option_map (λ word. word.now) word.entry) }
{
    match word {
        None => Some(Style::Text),
        Some(word) if word == "text" => Some(Style::Text),
        Some(word) if word == "json" => Some(Style::Program(Format::Json)),
        Some(word) if word == "github" => Some(Style::Program(Format::Github)),
        Some(word) if word == "junit" => Some(Style::Program(Format::Junit)),
        Some(_) => None,
    }
}
