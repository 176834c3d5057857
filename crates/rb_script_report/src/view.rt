//! The options of a script's report.

use rb_report::check::Colors;

/// How much of a script is shown.
#[derive(Clone, Copy, Debug, PartialEq, Eq)]
pub enum Detail {
    /// Each mismatch, and each error that no comment expects.
    Differing,
    /// All directives with their outputs, step by step.
    All,
    /// The first directive that differs.
    First,
    /// One line with the number of mismatches.
    Brief,
}

/// The options of a script's report.
#[derive(Clone, Copy, Debug)]
pub struct View<'a> {
    /// The script's path, as it is shown.
    pub path: &'a [u8],
    /// Whether diffs have colours.
    pub colors: Colors,
    /// How much is shown.
    pub shown: Detail,
}
