//! Why a script is not run.

ghost use Rattle.std.specs.Prelude.{◌≡◌};
ghost use Rattle.rb_bench.specs.declared.fault.BenchFault.TheVariants.{Io};
ghost use Rattle.rb_bench.specs.Faults.{of_reading, of_starting};

use rb_replay::StartFault;
use rb_script::{ScriptFault, WriteFault};
use rb_text::ReadFault;
use thiserror::Error;

/// Why a script is not run to its end.
#[derive(Clone, Copy, Debug, PartialEq, Eq, Error)]
pub enum BenchFault {
    /// The number of directives from one checkpoint to the next is outside 1 to 64.
    #[error("checkpoints stand 1 to 64 directives apart")]
    Spacing,
    /// The bytes are not a script.
    #[error(transparent)]
    Script(ScriptFault),
    /// The reader or the writer failed.
    #[error("input or output failed")]
    Io,
    /// Memory was refused.
    #[error("out of memory")]
    OutOfMemory,
}

impl From<ReadFault> for BenchFault {
    ghost from_gives = { λ fault made. made ≡ of_reading fault };

    fn from(fault: ReadFault) -> BenchFault {
        match fault {
            ReadFault::Io => BenchFault::Io,
            ReadFault::OutOfMemory => BenchFault::OutOfMemory,
        }
    }
}

impl From<WriteFault> for BenchFault {
    ghost from_gives = { λ _ made. made ≡ Io };

    fn from(_fault: WriteFault) -> BenchFault {
        BenchFault::Io
    }
}

impl From<StartFault> for BenchFault {
    ghost from_gives = { λ fault made. made ≡ of_starting fault };

    fn from(fault: StartFault) -> BenchFault {
        match fault {
            StartFault::Script(fault) => BenchFault::Script(fault),
            StartFault::BadSpacing => BenchFault::Spacing,
            StartFault::OutOfMemory => BenchFault::OutOfMemory,
        }
    }
}
