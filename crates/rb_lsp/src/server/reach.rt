//! How far a server did what a message asks of a text.

ghost use Rattle.std.specs.Prelude.{◌≡◌};
ghost use Rattle.rb_lsp.specs.Notices.{reach_of};

use crate::server::stop::Stop;

/// How far a server did what a message asks of a text.
#[derive(Clone, Copy, Debug, PartialEq, Eq)]
pub enum Reach {
    /// It did all.
    Whole,
    /// The run of the text stopped.
    Stopped(Stop),
    /// The client had cancelled the request.
    Cancelled,
    /// Memory was refused.
    NoMemory,
}

/// How far a server did it if the run of the text stopped here, or didn't.
pub(crate) fn reach_of(stop: Option<Stop>) -> Reach
    ensures { result ≡ reach_of stop }
{
    match stop {
        None => Reach::Whole,
        Some(stop) => Reach::Stopped(stop),
    }
}
