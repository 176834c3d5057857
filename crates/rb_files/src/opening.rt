//! Opening a script.

ghost use Rattle.std.specs.Prelude.{MatchResult};
ghost use Rattle.std.specs.Fs.{IsFile, file_type};
ghost use Rattle.rb_files.specs.PathErrors.{IsOfOpening};

use crate::path_error::PathError;
use rb_report::check::Failure;
use std::fs;
use std::fs::{File, Metadata, OpenFile};
use std::os::unix::fs::MetadataExt;
use std::rt::Files;

/// The file at the path, opened for reading, and its metadata.
///
/// A pipe would be waited for, and a device may give bytes without end: so it is looked at before it is opened, and the file that was
/// opened once more. Its size is no bound: some file systems tell none, and a file may grow while it is read.
///
/// # Errors
///
/// `NoFile` if it is not a regular file, or one of /proc without a size: some of those are waited for, such as the kernel's messages. Else why it
/// couldn't be looked at or opened.
pub fn opened<R: Files>(rt: &R, path: &str) -> Result<(R::File, Metadata), PathError>
    ensures { MatchResult result (λ opened. IsFile (file_type opened.1)) IsOfOpening }
{
    match fs::metadata(rt, path) {
        Ok(metadata) if metadata.is_file() => {}
        Ok(_) => return Err(PathError::alone(Failure::NoFile)),
        Err(error) => return Err(PathError::of_reading(error)),
    }
    let file = match File::open(rt, path) {
        Ok(file) => file,
        Err(error) => return Err(PathError::of_reading(error)),
    };
    match file.metadata() {
        Ok(metadata) if metadata.is_file() && !is_waited_for(rt, &metadata) => Ok((file, metadata)),
        Ok(_) => Err(PathError::alone(Failure::NoFile)),
        Err(error) => Err(PathError::of_reading(error)),
    }
}

// Whether a file is one of /proc that tells no size. Which device a file is on is nothing that the standard library's contracts say.
fn is_waited_for<R: Files>(rt: &R, metadata: &Metadata) -> bool {
    if metadata.len() > 0 {
        return false;
    }
    match fs::metadata(rt, "/proc") {
        Ok(processes) => processes.dev() == metadata.dev(),
        Err(_) => false,
    }
}
