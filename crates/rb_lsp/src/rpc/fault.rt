//! Why a conversation breaks off.

use rb_script::WriteFault;
use rb_text::InputFault;
use std::alloc::AllocError;

/// Why a conversation breaks off.
#[derive(Clone, Copy, Debug, PartialEq, Eq)]
pub enum ServeFault {
    /// A read or a write failed, or all calls of the source were made.
    Io,
    /// Memory was refused.
    OutOfMemory,
}

impl From<AllocError> for ServeFault {
    ghost use Rattle.std.specs.Prelude.{◌≡◌};
    ghost use Rattle.rb_lsp.specs.declared.rpc.fault.ServeFault.TheVariants.{OutOfMemory};

    ghost from_gives = { λ _ e. e ≡ OutOfMemory };

    fn from(_e: AllocError) -> ServeFault {
        ServeFault::OutOfMemory
    }
}

impl From<InputFault> for ServeFault {
    ghost use Rattle.std.specs.Prelude.{◌≡◌};
    ghost use Rattle.rb_lsp.specs.declared.rpc.fault.ServeFault.TheVariants.{Io};

    ghost from_gives = { λ _ e. e ≡ Io };

    fn from(_e: InputFault) -> ServeFault {
        ServeFault::Io
    }
}

impl From<WriteFault> for ServeFault {
    ghost use Rattle.std.specs.Prelude.{◌≡◌};
    ghost use Rattle.rb_lsp.specs.declared.rpc.fault.ServeFault.TheVariants.{Io};

    ghost from_gives = { λ _ e. e ≡ Io };

    fn from(_e: WriteFault) -> ServeFault {
        ServeFault::Io
    }
}
