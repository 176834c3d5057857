//! A folder of the system as a site.

use rb_book::{BookFault, Site};
use std::fs::File;
use std::io::Write;
use std::path::Path;
use std::rt::Files;
use std::{fs, io};

/// A folder of the system. What real files hold is not known.
#[derive(Drop)]
pub(crate) struct SiteFolder<'a, R> {
    pub(crate) rt: &'a R,
    pub(crate) path: &'a str,
}

impl<R: Files + AllocGlobal> Site for SiteFolder<'_, R> {
    ghost use Rattle.std.specs.Prelude.{None};

    ghost files = { λ _. None };

    fn write(&mut self, path: &str, text: &[u8]) -> Result<(), BookFault> {
        let path = Path::new(self.path)
            .join(self.rt.alloc(), path)?
            .into_string();
        match write_new(self.rt, path.as_str(), text) {
            Ok(()) => Ok(()),
            Err(error) => Err(BookFault::Unwritten(path, error)),
        }
    }
}

// Writes a file that isn't there yet, in a folder that is made if it isn't there. What can't be written whole is removed again.
fn write_new<R: Files>(rt: &R, path: &str, text: &[u8]) -> io::Result<()> {
    if let Some(folder) = Path::new(path).parent() {
        fs::create_dir_all(rt, folder)?;
    }
    let written = File::create_new(rt, path)?.write_all(text);
    if written.is_err() {
        let _ = fs::remove_file(rt, path);
    }
    written
}
