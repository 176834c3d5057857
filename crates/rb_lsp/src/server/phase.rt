//! The phases of a server, and how it ends.

ghost use Rattle.std.specs.Prelude.{◌≡◌};
ghost use Rattle.rb_lsp.specs.Replies.{status_of};

use crate::server::client::Client;

/// The phase of a server.
#[derive(Clone, Copy, Debug, PartialEq, Eq)]
pub(crate) enum Phase {
    /// Before `initialize`.
    Fresh,
    /// Between `initialize` and `shutdown`: requests of this client are answered.
    Running(Client),
    /// Between `shutdown` and `exit`.
    Stopped,
}

/// How a server ends.
#[derive(Clone, Copy, Debug, PartialEq, Eq)]
pub enum ExitStatus {
    /// `exit` came after `shutdown`.
    Done,
    /// `exit` came without `shutdown`.
    Exited,
    /// The input ended before `exit`.
    Closed,
    /// The input ended within a message.
    CutOff,
    /// The input continued with bytes that no message begins with.
    NoMessage,
}

/// How a server ends at `exit`.
pub(crate) fn status_of(phase: Phase) -> ExitStatus
    ensures { result ≡ status_of phase }
{
    match phase {
        Phase::Stopped => ExitStatus::Done,
        _ => ExitStatus::Exited,
    }
}
