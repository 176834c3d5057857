//! Where the run of a text stopped.

ghost use Rattle.std.specs.Prelude.{◌≤◌};
ghost use Rattle.rb_lsp.specs.declared.server.limits.TheConstants.{MAX_WORK};

/// Where the run of a text stopped: never before it had done [`crate::server::MAX_WORK`].
#[derive(Clone, Copy, Debug, PartialEq, Eq)]
pub struct Stop {
    /// The line above which it stopped, counted from 1.
    pub line: usize,
    /// The work that it had done.
    pub work: u64,
    ghost enough: { MAX_WORK ≤ work },
}
