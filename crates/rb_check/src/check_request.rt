//! The options of a check.

use crate::format::Format;
use crate::target::Target;
use rb_report::check::Colors;
use rb_script_report::Detail;

/// The options of a check.
#[derive(Clone, Copy)]
pub struct CheckRequest<'a> {
    pub targets: &'a [Target],
    pub filters: &'a [String],
    pub accepts: bool,
    /// Whether new errors are accepted too.
    pub accepts_errors: bool,
    /// Whether outputs of a script that has warnings are.
    pub is_forced: bool,
    /// Whether each output that differs is asked about.
    pub reviews: bool,
    /// Whether the terminal gives each key at once, so that a key is an answer.
    pub gives_keys: bool,
    pub is_quiet: bool,
    /// Whether reasons are shown below the lines of outputs.
    pub explains: bool,
    /// Whether new errors and warnings count as mismatches for the status.
    pub is_strict: bool,
    pub shown: Detail,
    /// The format for programs, if one was chosen.
    pub format: Option<Format>,
    pub colors: Colors,
    pub wants_progress: bool,
}
