//! What the arguments choose, and why they choose nothing.

use clap::Error;

/// What the program is asked to do.
#[derive(Clone, Copy, PartialEq, Eq)]
pub enum Subcommand {
    /// `check`: check scripts, and folders of them.
    Check,
    /// `directives`: show what directives there are, or one of them.
    Directives,
    /// `lsp`: answer an editor.
    Lsp,
    /// What is done with the script in FILE.
    Script(ScriptCommand),
}

/// What is done with one script.
#[derive(Clone, Copy, PartialEq, Eq)]
pub enum ScriptCommand {
    /// `run`: write its report.
    Run,
    /// `rewrite`: write it with its outputs.
    Rewrite,
    /// `session`: keep it, and answer edits of it.
    Session,
    /// `look`: show the cluster as it is after a directive.
    Look,
    /// `page`: write its page.
    Page,
    /// `chart`: write its picture.
    Chart,
    /// `trace`: write its trace.
    Trace,
}

/// What the arguments choose. What they don't give is `None`.
pub struct CommandChoice {
    /// The subcommand.
    pub subcommand: Option<Subcommand>,
    /// Its FILE, or of `look` its FILE:LINE, as it was given.
    pub file: Option<String>,
    /// Its NAME, as it was given.
    pub name: Option<String>,
    /// The text of its `--every`, as it was given.
    pub every: Option<String>,
    /// The text of its `--from`, as it was given.
    pub from: Option<String>,
    /// The text of its `--until`, as it was given.
    pub until: Option<String>,
    /// The text of its `--out`, as it was given.
    pub out: Option<String>,
    /// Whether `--warn` is given.
    pub warns: bool,
    /// What is said to `check` alone.
    pub check: CheckChoice,
}

// Written out, as that of what is said to `check`: so giving one back is a call wherever it is owned, and is proved here alone.
impl Drop for CommandChoice {
    fn drop(self) {
        let CommandChoice {
            subcommand: _,
            file: _,
            name: _,
            every: _,
            from: _,
            until: _,
            out: _,
            warns: _,
            check: _,
        } = self;
    }
}

impl CommandChoice {
    ghost use Rattle.std.specs.Prelude.{◌≡◌};

    /// The subcommand, its FILE, and the text of its `--every`.
    pub fn into_run(self) -> (Option<Subcommand>, Option<String>, Option<String>)
        ensures { result ≡ (self.subcommand, self.file, self.every) }
    {
        let CommandChoice {
            subcommand,
            file,
            name: _,
            every,
            from: _,
            until: _,
            out: _,
            warns: _,
            check: _,
        } = self;
        (subcommand, file, every)
    }
}

/// What the arguments choose of `check`. Where another subcommand is meant, nothing of it is given.
pub struct CheckChoice {
    /// Its PATHs, as they were given and in that order.
    pub paths: Vec<String>,
    /// The texts of its `--filter`, in that order.
    pub filters: Vec<String>,
    /// The text of its `--color`, as it was given.
    pub color: Option<String>,
    /// The text of its `--format`, as it was given.
    pub format: Option<String>,
    /// The text of its `--pages`, as it was given.
    pub pages: Option<String>,
    /// Whether `--accept` is given.
    pub accepts: bool,
    /// Whether `--accept-errors` is given.
    pub accepts_errors: bool,
    /// Whether `--force` is given.
    pub is_forced: bool,
    /// Whether `--review` is given.
    pub reviews: bool,
    /// Whether `--verbose` is given.
    pub is_verbose: bool,
    /// Whether `--first` is given.
    pub is_first: bool,
    /// Whether `--brief` is given.
    pub is_brief: bool,
    /// Whether `--quiet` is given.
    pub is_quiet: bool,
    /// Whether `--why` is given.
    pub explains: bool,
    /// Whether `--strict` is given.
    pub is_strict: bool,
}

impl Drop for CheckChoice {
    fn drop(self) {
        let CheckChoice {
            paths: _,
            filters: _,
            color: _,
            format: _,
            pages: _,
            accepts: _,
            accepts_errors: _,
            is_forced: _,
            reviews: _,
            is_verbose: _,
            is_first: _,
            is_brief: _,
            is_quiet: _,
            explains: _,
            is_strict: _,
        } = self;
    }
}

/// Why the arguments choose nothing.
#[derive(Drop)]
pub enum ChoiceFault {
    /// `clap` refuses the arguments, or they ask for help, which the error prints.
    Refused(Error),
    /// Memory was refused.
    OutOfMemory,
}
