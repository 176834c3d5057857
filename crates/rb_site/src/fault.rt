//! Why a site was not written.

ghost use Rattle.std.specs.Prelude.{◌≡◌};
ghost use Rattle.rb_book.specs.declared.fault.BookFault.TheVariants as faults;
ghost use Rattle.rb_site.specs.declared.fault.SiteFault.TheVariants.{Book};

use rb_book::BookFault;
use rb_files::PathError;
use std::alloc::{AllocError, Global};

/// Why a site was not written.
#[derive(Drop)]
pub enum SiteFault {
    /// The path could not be read; its last name may not be UTF-8.
    Lost(Vec<u8>, PathError),
    /// The book could not be written.
    Book(BookFault),
}

impl From<BookFault> for SiteFault {
    ghost from_gives = { λ fault made. made ≡ Book fault };

    fn from(fault: BookFault) -> SiteFault {
        SiteFault::Book(fault)
    }
}

impl From<AllocError> for SiteFault {
    ghost from_gives = { λ _ made. made ≡ Book faults.OutOfMemory };

    fn from(_error: AllocError) -> SiteFault {
        SiteFault::Book(BookFault::OutOfMemory)
    }
}

/// The fault of a path that could not be read.
pub(crate) fn lost(alloc: Global, path: &str, error: PathError) -> SiteFault {
    match Vec::from_slice(alloc, path.as_bytes()) {
        Ok(path) => SiteFault::Lost(path, error),
        Err(_) => SiteFault::Book(BookFault::OutOfMemory),
    }
}
