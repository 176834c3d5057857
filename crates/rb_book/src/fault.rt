//! Why a book was not written.

ghost use Rattle.std.specs.Prelude.{◌≡◌};
ghost use Rattle.rb_book.specs.declared.fault.BookFault.TheVariants.{OutOfMemory};

use rb_script::ScriptFault;
use std::alloc::AllocError;
use std::io;

/// Why a book was not written.
#[derive(Drop)]
pub enum BookFault {
    /// The bytes are not a script.
    NoScript(ScriptFault),
    /// A page has no room for what happens in a script.
    PageTooLarge,
    /// A picture has no room for it.
    PictureTooLarge,
    /// The file of this path could not be written.
    Unwritten(String, io::Error),
    /// There was no memory.
    OutOfMemory,
}

impl From<AllocError> for BookFault {
    ghost from_gives = { λ _ made. made ≡ OutOfMemory };

    fn from(_error: AllocError) -> BookFault {
        BookFault::OutOfMemory
    }
}
