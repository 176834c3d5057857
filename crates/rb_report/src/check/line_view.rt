//! How lines are shown.

use crate::check::colors::Colors;
use crate::check::why::Why;

/// How lines are shown.
#[derive(Clone, Copy)]
pub(crate) struct LineView<'a> {
    /// Whether lines that differ have colours.
    pub colors: Colors,
    /// The reasons of the lines of the output.
    pub why: Why<'a>,
}
