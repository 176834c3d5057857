//! Why a script isn't shown.

use thiserror::Error;

/// Why a script isn't shown, or only in part.
#[derive(Clone, Copy, Debug, PartialEq, Eq, Error)]
pub enum ShowFault {
    /// The writer failed.
    #[error("the writer failed")]
    Writing,
    /// Memory was refused, and nothing was written.
    #[error("out of memory")]
    OutOfMemory,
}
