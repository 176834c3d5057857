//! Limits of what a server keeps and reads, which definitions of the crates below name.

ghost use Rattle.std.specs.Prelude.{◌≡◌, ◌^◌};
ghost use Rattle.rb_lsp.specs.declared.rpc.limits.TheConstants.{MAX_FIELDS, MAX_HEAD, MAX_BODY, MAX_CALLS, MAX_WAITING};
ghost use Rattle.rb_lsp.specs.declared.document.limits.TheConstants.{MAX_TEXT};
ghost use Rattle.rb_lsp.specs.declared.server.limits.TheConstants.{MAX_DOCUMENTS, MAX_WORK};

/// How many documents a server keeps at once. Each text has at most [`crate::document::MAX_TEXT`] bytes.
pub const MAX_DOCUMENTS: usize = 1_000;

/// The work after which the run of a text may stop, since an editor waits for it. A service says what it counts.
pub const MAX_WORK: u64 = 16_000_000;

/// The limits that definitions name are these numbers.
pub fn limits_are()
    ensures fields { MAX_FIELDS ≡ 16 }
    ensures head { MAX_HEAD ≡ 4096 }
    ensures body { MAX_BODY ≡ 33554432 }
    ensures calls { MAX_CALLS ≡ 2 ^ 40 }
    ensures waiting { MAX_WAITING ≡ 1000 }
    ensures text { MAX_TEXT ≡ 67108864 }
    ensures documents { MAX_DOCUMENTS ≡ 1000 }
    ensures work { MAX_WORK ≡ 16000000 }
{}
