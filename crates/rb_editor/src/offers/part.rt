//! What a line of a text is, by the lines above it.

ghost use Rattle.std.specs.Prelude.{◌≡◌};
ghost use Rattle.rb_editor.specs.Above.{begins_head, goes_on, next};

use rb_script::{continues, is_blank, is_comment, is_lead, is_rule, is_separator};

/// What a line may be.
#[derive(Clone, Copy, Debug, PartialEq, Eq)]
pub(crate) enum Part {
    /// A lead line, or the first line of a head.
    Lead,
    /// A line that continues a head.
    Head,
    /// Input, or the separator after it.
    Input,
    /// The first line of an expectation.
    First,
    /// A line of an expectation in the plain form, or the blank line after it.
    Plain,
    /// A line of an expectation in the double form.
    Double,
    /// A line in the double form below a line `----`.
    Closing,
}

// What follows a line of a head.
fn begins_head(line: &[u8]) -> Part
    ensures { result ≡ begins_head line.now }
{
    if continues(line) {
        Part::Head
    } else {
        Part::Input
    }
}

impl Part {
    /// What the line below this one is.
    pub(crate) fn next(self, line: &[u8]) -> Part
        ensures { result ≡ next self line.now }
    {
        match self {
            Part::Lead if is_lead(line) => Part::Lead,
            Part::Lead | Part::Head => begins_head(line),
            Part::Input if is_separator(line) => Part::First,
            Part::Input => Part::Input,
            Part::First if is_rule(line) => Part::Double,
            Part::First | Part::Plain if is_blank(line) => Part::Lead,
            Part::First | Part::Plain => Part::Plain,
            Part::Double if is_rule(line) => Part::Closing,
            Part::Closing if is_rule(line) => Part::Lead,
            Part::Double | Part::Closing => Part::Double,
        }
    }

    /// Whether a line that begins so can be one of a head.
    pub(crate) fn goes_on(self, front: &[u8]) -> bool
        ensures { result ≡ goes_on self front.now }
    {
        match self {
            Part::Lead => !is_comment(front),
            Part::Head => true,
            _ => false,
        }
    }
}
