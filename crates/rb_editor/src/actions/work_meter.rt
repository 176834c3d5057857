//! A meter of an editor's run.

ghost use Rattle.std.specs.Prelude.{◌≤◌};
ghost use Rattle.rb_lsp.specs.declared.server.limits.TheConstants.{MAX_WORK};

use rb_machine::Count;

/// Work at which a run may stop: never less than [`rb_lsp::server::MAX_WORK`].
#[derive(Clone, Copy)]
pub(crate) struct EnoughWork {
    pub(crate) work: u64,
    ghost enough: { MAX_WORK ≤ work },
}

/// Counts directives, and remembers at how much work the last one was refused.
#[derive(Drop)]
pub(crate) struct WorkMeter {
    count: u64,
    bound: u64,
    refused: Option<EnoughWork>,
    ghost room: { MAX_WORK ≤ bound },
}

impl WorkMeter {
    ghost use Rattle.std.specs.Prelude.{◌≡◌, ◌+◌, ◌<◌, ◌≤◌, ◌^◌, None, option_map};
    ghost use Rattle.rb_editor.specs.Stops.{refused_at};
    ghost use Rattle.rb_lsp.specs.declared.server.limits.TheConstants.{MAX_WORK};

    /// A count of 0, for runs that may do this much work.
    pub(crate) fn new(bound: u64) -> WorkMeter
        requires { MAX_WORK ≤ bound }
        ensures count { result.count ≡ 0 }
        ensures bound { result.bound ≡ bound }
    {
        WorkMeter {
            count: 0,
            bound,
            refused: None,
        }
    }

    /// Counts one more directive, which isn't refused yet.
    pub(crate) fn raise(&mut self)
        requires { self.old.count < 2 ^ 63 }
        ensures count { self.new.count ≡ self.old.count + 1 }
        ensures bound { self.new.bound ≡ self.old.bound }
        ensures refused { self.new.refused ≡ None }
    {
        self.count += 1;
        self.refused = None;
    }

    /// Remembers that a directive was refused at this much work, if that meets the bound.
    pub(crate) fn refuse(&mut self, work: u64)
        ensures count { self.new.count ≡ self.old.count }
        ensures bound { self.new.bound ≡ self.old.bound }
        ensures refused { option_map (λ e. e.work) self.new.refused ≡ refused_at self.old.bound work (option_map (λ e. e.work) self.old.refused) }
    {
        if work >= self.bound {
            self.refused = Some(EnoughWork { work });
        }
    }

    /// How much work a run may do.
    pub(crate) fn bound(&self) -> u64
        ensures { result ≡ self.now.bound }
    {
        self.bound
    }

    /// The work at which the last directive was refused, if it met the bound.
    pub(crate) fn refused(&self) -> Option<EnoughWork>
        ensures { result ≡ self.now.refused }
    {
        self.refused
    }
}

impl Count for WorkMeter {
    ghost count_of = { λ m. m.count };

    fn count(&self) -> u64 {
        self.count
    }
}
