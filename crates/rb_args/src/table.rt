//! The arguments of the command line: a line for each subcommand, and a row for each of its arguments.
//!
//! They are data. `CommandLine` says what clap is to make of a line and of a row, and what the whole command line is.

/// How an argument is given.
#[derive(Clone, Copy)]
pub(crate) enum ArgumentForm {
    /// FILE. The program itself says that it is missing, so to clap it isn't required; how it is used says that it is.
    File,
    /// NAME, which need not be given.
    Name,
    /// PATH, one or more.
    Paths,
    /// --NAME VALUE
    Value(&'static str),
    /// --NAME VALUE, any number of times.
    Values(&'static str),
    /// --NAME
    Flag,
    /// --NAME, or -N
    Letter(char),
}

/// An argument, and what help says of it.
#[derive(Clone, Copy)]
pub(crate) struct ArgumentRow {
    pub(crate) form: ArgumentForm,
    pub(crate) name: &'static str,
    /// What help says of it; an option of which it says nothing isn't shown there.
    pub(crate) help: &'static str,
}

/// A subcommand, and what help says of it.
#[derive(Clone, Copy)]
pub(crate) struct Line {
    pub(crate) name: &'static str,
    pub(crate) about: &'static str,
    /// How it is used, where it takes FILE.
    pub(crate) usage: &'static str,
    /// What its FILE is.
    pub(crate) after: &'static str,
    pub(crate) rows: &'static [ArgumentRow],
}

const FILE: ArgumentRow = ArgumentRow {
    form: ArgumentForm::File,
    name: "file",
    help: "",
};

#[rattlefmt::skip]
const EVERY: ArgumentRow = ArgumentRow { form: ArgumentForm::Value("K"), name: "every", help: "Directives from one checkpoint to the next, 1 to 64 [default: 16]" };

// It changes nothing where it is taken, so help doesn't have it.
const EVERY_UNSEEN: ArgumentRow = ArgumentRow {
    form: ArgumentForm::Value("K"),
    name: "every",
    help: "",
};

#[rattlefmt::skip]
const CHECK: [ArgumentRow; 16] = [
    ArgumentRow { form: ArgumentForm::Paths, name: "path", help: "Script, or folder whose *.txt and those of its folders are the scripts" },
    ArgumentRow { form: ArgumentForm::Flag, name: "accept", help: "Writes the actual outputs into the scripts, up to the first new error; of FILE:LINE that of one directive" },
    ArgumentRow { form: ArgumentForm::Flag, name: "accept-errors", help: "Accepts new errors too" },
    ArgumentRow { form: ArgumentForm::Flag, name: "force", help: "Accepts outputs of a script that has warnings too" },
    ArgumentRow { form: ArgumentForm::Flag, name: "review", help: "Asks about each output that differs, on a terminal, and accepts those that you say" },
    ArgumentRow { form: ArgumentForm::Values("WORD"), name: "filter", help: "Keeps the paths that have WORD in them, or with !WORD those that don't; given several times, each holds" },
    ArgumentRow { form: ArgumentForm::Letter('v'), name: "verbose", help: "Shows each directive with its output" },
    ArgumentRow { form: ArgumentForm::Flag, name: "first", help: "Shows the first mismatch of each script alone" },
    ArgumentRow { form: ArgumentForm::Flag, name: "brief", help: "Shows one line for each script that differs" },
    ArgumentRow { form: ArgumentForm::Letter('q'), name: "quiet", help: "Shows nothing: the status tells whether all match" },
    ArgumentRow { form: ArgumentForm::Flag, name: "why", help: "Tells why nothing came of a message, or which entries gave way, below the output that is shown" },
    ArgumentRow { form: ArgumentForm::Flag, name: "strict", help: "Ends with 1 also for warnings, and for errors that no comment expects" },
    EVERY_UNSEEN,
    ArgumentRow { form: ArgumentForm::Value("WHEN"), name: "color", help: "Shows colours: auto (on a terminal), always or never [default: auto]" },
    ArgumentRow { form: ArgumentForm::Value("FORMAT"), name: "format", help: "Writes what differs as text, json, github (workflow commands) or junit (XML) [default: text]" },
    ArgumentRow { form: ArgumentForm::Value("SITE"), name: "pages", help: "Writes a page for each script that differs into a new folder SITE" },
];

const FILE_ALONE: [ArgumentRow; 1] = [FILE];

const FILE_AND_EVERY: [ArgumentRow; 2] = [FILE, EVERY];

#[rattlefmt::skip]
const PAGE: [ArgumentRow; 3] = [
    FILE,
    EVERY_UNSEEN,
    ArgumentRow { form: ArgumentForm::Value("SITE"), name: "out", help: "Writes a page for each script of the folder FILE, with contents, into a new folder SITE" },
];

#[rattlefmt::skip]
const REWRITE: [ArgumentRow; 3] = [
    FILE,
    EVERY,
    ArgumentRow { form: ArgumentForm::Flag, name: "warn", help: "Names new errors and probable mistakes on standard error, as it does on a terminal" },
];

#[rattlefmt::skip]
const FILE_AND_LINES: [ArgumentRow; 3] = [
    FILE,
    ArgumentRow { form: ArgumentForm::Value("LINE"), name: "from", help: "Shows the directives from the one at this line on" },
    ArgumentRow { form: ArgumentForm::Value("LINE"), name: "until", help: "Shows the directives up to the one at this line" },
];

#[rattlefmt::skip]
const NAME: [ArgumentRow; 1] = [ArgumentRow { form: ArgumentForm::Name, name: "name", help: "Directive to show" }];

const FILE_OR_INPUT: &str = "FILE is a script's file; - is standard input";

/// The subcommands, in the order in which help has them.
pub(crate) static LINES: [Line; 10] = [
    Line {
        name: "check",
        about: "Checks scripts and folders of scripts, and shows each line that differs",
        usage: "",
        after: "",
        rows: &CHECK,
    },
    Line {
        name: "run",
        about: "Runs a script and reports where its output differs from what it expects",
        usage: "raftbench run [OPTIONS] <FILE>",
        after: FILE_OR_INPUT,
        rows: &FILE_AND_EVERY,
    },
    Line {
        name: "rewrite",
        about: "Runs a script and writes it with the output that it gives",
        usage: "raftbench rewrite [OPTIONS] <FILE>",
        after: FILE_OR_INPUT,
        rows: &REWRITE,
    },
    Line {
        name: "session",
        about: "Keeps a script and answers the edits that standard input asks for",
        usage: "raftbench session [OPTIONS] <FILE>",
        after: "FILE is a script's file",
        rows: &FILE_AND_EVERY,
    },
    Line {
        name: "look",
        about: "Shows each node, its log and the messages on their way after a directive",
        usage: "raftbench look <FILE:LINE>",
        after: "FILE:LINE is a script's file and the line of a directive in it",
        rows: &FILE_ALONE,
    },
    Line {
        name: "page",
        about: "Runs a script and writes a page that shows what it does, step by step",
        usage: "raftbench page [OPTIONS] <FILE>",
        after: FILE_OR_INPUT,
        rows: &PAGE,
    },
    Line {
        name: "chart",
        about: "Runs a script and writes a picture of what it does, as SVG",
        usage: "raftbench chart [OPTIONS] <FILE>",
        after: FILE_OR_INPUT,
        rows: &FILE_AND_LINES,
    },
    Line {
        name: "trace",
        about: "Runs a script and writes each thing that happens, as a line of JSON",
        usage: "raftbench trace <FILE>",
        after: FILE_OR_INPUT,
        rows: &FILE_ALONE,
    },
    Line {
        name: "directives",
        about: "Shows the directives of scripts, or one of them with what it takes and an example",
        usage: "",
        after: "",
        rows: &NAME,
    },
    Line {
        name: "lsp",
        about: "Answers an editor on standard input and output, by the Language Server Protocol",
        usage: "",
        after: "",
        rows: &[],
    },
];
