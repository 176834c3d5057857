//! The summary of a checked script.

/// The summary of a checked script.
#[derive(Clone, Copy, Debug, PartialEq, Eq)]
pub struct ScriptSummary {
    /// The line of the head of the first directive that differs.
    pub first: Option<usize>,
    /// How many directives answer an error that no comment expects.
    pub errors: usize,
}
