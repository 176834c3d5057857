//! The outcome of one path.

use crate::check::failure::Failure;
use rb_script::ScriptFault;

/// The outcome of one path.
#[derive(Clone, Copy, Debug, PartialEq, Eq)]
pub enum Outcome {
    /// The script ran.
    Ran {
        /// How many directives it has.
        directives: usize,
        /// How many mismatches were not accepted.
        mismatches: usize,
        /// How many mismatches were accepted: their actual outputs are in the script now.
        accepted: usize,
        /// How many directives have an error that no comment expects.
        errors: usize,
        /// How many warnings it has.
        warnings: usize,
    },
    /// The script was refused, or there was no memory to read it.
    Refused(ScriptFault),
    /// A file or a folder failed.
    Failed(Failure),
}
