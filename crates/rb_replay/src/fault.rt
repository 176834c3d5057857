//! Faults of starting a session.

ghost use Rattle.std.specs.Prelude.{◌≡◌};
ghost use Rattle.rb_replay.specs.declared.fault.StartFault.TheVariants.{OutOfMemory as StartOutOfMemory};
ghost use Rattle.rb_replay.specs.Start.{of_reading};

use rb_script::ScriptFault;
use std::alloc::AllocError;
use thiserror::Error;

/// Why a session can't start.
#[derive(Clone, Copy, Debug, PartialEq, Eq, Error)]
pub enum StartFault {
    /// The bytes are not a script.
    #[error("{0}")]
    Script(ScriptFault),
    /// The checkpoint interval is not from 1 to 64.
    #[error("clusters are kept 1 to 64 directives apart")]
    BadSpacing,
    /// There was no memory.
    #[error("out of memory")]
    OutOfMemory,
}

impl From<AllocError> for StartFault {
    ghost from_gives = { λ _ e. e ≡ StartOutOfMemory };

    fn from(_e: AllocError) -> StartFault {
        StartFault::OutOfMemory
    }
}

impl From<ScriptFault> for StartFault {
    ghost from_gives = { λ fault made. made ≡ of_reading fault };

    fn from(fault: ScriptFault) -> StartFault {
        match fault {
            ScriptFault::OutOfMemory => StartFault::OutOfMemory,
            _ => StartFault::Script(fault),
        }
    }
}
