//! The replies of a session.

use rb_replay::Changed;
use rb_script::{EditFault, ScriptFault};

/// An answer, before it is written.
#[derive(Clone, Copy, Debug, PartialEq, Eq)]
pub(crate) enum Reply {
    /// Nothing is written.
    Nothing,
    /// The line is no command.
    BadCommand,
    /// The lines are not one block.
    BadBlock(ScriptFault),
    /// The edit is refused, or there is no such place.
    BadEdit(EditFault),
    /// A line is too long.
    LineTooLong,
    /// The input ended within the lines of a command.
    CutOff,
    /// The edit was made.
    Done(Changed),
    /// The output at this place is shown, if there is one.
    Output(usize),
    /// The report.
    Report,
    /// The script.
    Script,
    /// The script with its outputs.
    Rewrite,
}
