//! The kinds of notices to programs: what each is called in JSON and as a workflow command.

ghost use Rattle.std.specs.Prelude.{◌≡◌};
ghost use Rattle.rb_check.specs.Formats.{command_of, severity, status_of};

/// The kind of a notice to programs about a script.
#[derive(Clone, Copy, Debug, PartialEq, Eq)]
pub(crate) enum NoticeKind {
    /// It is no script.
    Refused,
    /// It could not be read, or not be written.
    Failed,
    /// A line looks like a slip.
    Warning,
    /// An output was not accepted.
    Left,
    /// Outputs were accepted.
    Accepted,
}

/// A notice to programs about a script, or about a line of it.
#[derive(Clone, Copy)]
pub(crate) struct ScriptNotice<'a> {
    pub(crate) path: &'a [u8],
    pub(crate) line: Option<usize>,
    pub(crate) kind: NoticeKind,
    pub(crate) message: &'a [u8],
}

impl NoticeKind {
    /// Its word in JSON.
    pub(crate) fn status(self) -> &'static [u8]
        ensures { result.now ≡ status_of self }
    {
        match self {
            NoticeKind::Refused => b"refused",
            NoticeKind::Failed => b"failed",
            NoticeKind::Warning => b"warning",
            NoticeKind::Left => b"left",
            NoticeKind::Accepted => b"accepted",
        }
    }

    /// Its workflow command.
    pub(crate) fn command(self, is_strict: bool) -> &'static [u8]
        ensures { result.now ≡ command_of is_strict self }
    {
        match self {
            NoticeKind::Refused | NoticeKind::Failed => b"error",
            NoticeKind::Warning => severity(is_strict),
            NoticeKind::Left => b"warning",
            NoticeKind::Accepted => b"notice",
        }
    }
}

/// The command for what fails only if the check is strict.
pub(crate) fn severity(is_strict: bool) -> &'static [u8]
    ensures { result.now ≡ severity is_strict }
{
    if is_strict { b"error" } else { b"warning" }
}
