//! Why a path failed.

ghost use Rattle.std.specs.Prelude.{◌≡◌, Some, None};
ghost use Rattle.std.specs.IoError.{error_kind};
ghost use Rattle.rb_report.specs.declared.check.failure.Failure.TheVariants.{OutOfMemory};
ghost use Rattle.rb_files.specs.PathErrors.{reading_failure, writing_failure};

use rb_report::check::Failure;
use std::alloc::AllocError;
use std::io;
use std::io::ErrorKind;

/// Why a path failed, with the system's error.
#[derive(Clone, Copy, Debug)]
pub struct PathError {
    /// Why.
    pub failure: Failure,
    /// The system's error, if there is one.
    pub cause: Option<io::Error>,
}

impl PathError {
    /// Of a path that could not be opened, listed or read.
    pub fn of_reading(error: io::Error) -> PathError
        ensures { result ≡ record { failure = reading_failure (error_kind error); cause = Some error } }
    {
        let failure = match error.kind() {
            ErrorKind::NotFound | ErrorKind::NotADirectory => Failure::NotFound,
            ErrorKind::PermissionDenied => Failure::NoPermission,
            ErrorKind::FilesystemLoop => Failure::LinkLoop,
            ErrorKind::OutOfMemory => Failure::OutOfMemory,
            _ => Failure::NotRead,
        };
        PathError {
            failure,
            cause: Some(error),
        }
    }

    /// Of a file that could not be given its new text.
    pub fn of_writing(error: io::Error) -> PathError
        ensures { result ≡ record { failure = writing_failure (error_kind error); cause = Some error } }
    {
        let failure = match error.kind() {
            ErrorKind::OutOfMemory => Failure::OutOfMemory,
            _ => Failure::NotWritten,
        };
        PathError {
            failure,
            cause: Some(error),
        }
    }

    /// Without an error of the system's.
    pub fn alone(failure: Failure) -> PathError
        ensures { result ≡ record { failure = failure; cause = None } }
    {
        PathError {
            failure,
            cause: None,
        }
    }
}

impl From<AllocError> for PathError {
    ghost from_gives = { λ _ made. made ≡ record { failure = OutOfMemory; cause = None } };

    fn from(_error: AllocError) -> PathError {
        PathError::alone(Failure::OutOfMemory)
    }
}
