//! The arguments of a run or a session, for a program that needs no others.

use crate::tests::is_in_row;
use rb_bench::{ChoiceFault, ScriptCommand, Subcommand, chosen};

/// The subcommand, FILE and `--every`.
type Arguments = (
    Option<Subcommand>,
    Option<&'static str>,
    Option<&'static str>,
);

/// Words that are taken. A missing argument, and a text of `--every` that is no number, are for the caller to find.
static TAKEN: [(&[&str], Arguments); 5] = [
    (
        &["raftbench", "run", "a.txt"],
        (
            Some(Subcommand::Script(ScriptCommand::Run)),
            Some("a.txt"),
            None,
        ),
    ),
    (
        &["raftbench", "rewrite", "--every", "4", "-"],
        (
            Some(Subcommand::Script(ScriptCommand::Rewrite)),
            Some("-"),
            Some("4"),
        ),
    ),
    (
        &["raftbench", "session", "a.txt", "--every=many"],
        (
            Some(Subcommand::Script(ScriptCommand::Session)),
            Some("a.txt"),
            Some("many"),
        ),
    ),
    (
        &["raftbench", "run"],
        (Some(Subcommand::Script(ScriptCommand::Run)), None, None),
    ),
    (&["raftbench"], (None, None, None)),
];

/// Words that `clap` answers itself.
static REFUSED: [&[&str]; 4] = [
    &["raftbench", "walk", "a.txt"],
    &["raftbench", "run", "a.txt", "b.txt"],
    &["raftbench", "run", "a.txt", "--every"],
    &["raftbench", "--help"],
];

#[test]
fn arguments_are_taken(rt: HostRuntime) {
    for (k, (words, arguments)) in TAKEN.iter().enumerate() {
        let so = match chosen(rt.alloc(), words) {
            Ok(choice) => {
                choice.mode == arguments.0
                    && choice.file.as_deref() == arguments.1
                    && choice.every.as_deref() == arguments.2
            }
            Err(_) => false,
        };
        is_in_row(&rt, so, "the arguments", k);
    }
}

#[test]
fn arguments_are_refused(rt: HostRuntime) {
    for (k, words) in REFUSED.iter().enumerate() {
        let so = matches!(chosen(rt.alloc(), words), Err(ChoiceFault::Refused(_)));
        is_in_row(&rt, so, "refused", k);
    }
}
