//! Faults of scripts and of edits.

ghost use Rattle.std.specs.Prelude.{◌≡◌};
ghost use Rattle.rb_script.specs.declared.fault.ScriptFault.TheVariants.{OutOfMemory as ScriptOutOfMemory};
ghost use Rattle.rb_script.specs.declared.fault.EditFault.TheVariants.{OutOfMemory as EditOutOfMemory};

use std::alloc::{AllocError, AllocFailed};
use thiserror::Error;

/// Why bytes are not a script. Lines are counted from 1.
#[derive(Clone, Copy, Debug, PartialEq, Eq, Error)]
pub enum ScriptFault {
    /// The bytes or the canonical text are longer than [`crate::MAX_SCRIPT`].
    #[error("the script is too long")]
    TooLong,
    /// This line has more than [`crate::MAX_LINE`] bytes.
    #[error("line {0} is too long")]
    LineTooLong(usize),
    /// The head that begins at this line is not a name with arguments.
    #[error("line {0} is no directive")]
    BadLine(usize),
    /// No line `----` follows the head that begins at this line.
    #[error("the directive at line {0} has no separator")]
    NoSeparator(usize),
    /// The expectation below the line `----` at this line is not closed, or it is plain and couldn't be read back:
    /// its last line is `----`, or two lines `----` are neighbours.
    #[error("the expectation after line {0} is not closed")]
    NotClosed(usize),
    /// There are more than [`crate::MAX_DIRECTIVES`] directives.
    #[error("there are too many directives")]
    TooManyDirectives,
    /// The bytes are not exactly one block, or lines follow it.
    #[error("this is not one block")]
    NotOneBlock,
    /// The head that begins at this line has more than [`crate::MAX_ARGUMENTS`] arguments, or an argument
    /// with more than [`crate::MAX_VALUES`] values.
    #[error("the directive at line {0} has too many arguments")]
    TooManyArguments(usize),
    /// There was no memory.
    #[error("out of memory")]
    OutOfMemory,
}

impl From<AllocError> for ScriptFault {
    ghost from_gives = { λ _ e. e ≡ ScriptOutOfMemory };

    fn from(_e: AllocError) -> ScriptFault {
        ScriptFault::OutOfMemory
    }
}

impl<T: Drop> From<AllocFailed<T>> for ScriptFault {
    ghost from_gives = { λ _ e. e ≡ ScriptOutOfMemory };

    fn from(_e: AllocFailed<T>) -> ScriptFault {
        ScriptFault::OutOfMemory
    }
}

/// Why an edit is refused.
#[derive(Clone, Copy, Debug, PartialEq, Eq, Error)]
pub enum EditFault {
    /// There is no directive at this place, or none can be inserted there.
    #[error("there is no such place")]
    NoSuchPlace,
    /// These lines can't be read as an expectation.
    #[error("the expectation can't be read")]
    BadExpectation,
    /// The script already has [`crate::MAX_DIRECTIVES`] directives.
    #[error("there are too many directives")]
    TooManyDirectives,
    /// The canonical text would have more than [`crate::MAX_SCRIPT`] bytes.
    #[error("the script is too long")]
    TooLong,
    /// There was no memory.
    #[error("out of memory")]
    OutOfMemory,
}

impl From<AllocError> for EditFault {
    ghost from_gives = { λ _ e. e ≡ EditOutOfMemory };

    fn from(_e: AllocError) -> EditFault {
        EditFault::OutOfMemory
    }
}

impl<T: Drop> From<AllocFailed<T>> for EditFault {
    ghost from_gives = { λ _ e. e ≡ EditOutOfMemory };

    fn from(_e: AllocFailed<T>) -> EditFault {
        EditFault::OutOfMemory
    }
}
