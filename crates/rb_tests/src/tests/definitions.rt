//! Outside examples of definitions that no script, command or line of input reaches.

use super::{is, is_text};
use rb_bench::{Command, command_of};
use rb_message::{Event, EventKind, WhyNoCampaign};
use rb_script::{Lines, Through};
use rb_text::put_number;
use rb_texts::{DirectiveError, Item, Level, ScriptWord, level_of, put};
use std::alloc::Global;
use std::process::Abort;

#[test]
fn words_that_are_no_levels(rt: HostRuntime) {
    for word in [b"".as_slice(), b" info"] {
        is(&rt, level_of(word).is_none(), "no level");
    }
}

#[test]
fn a_carriage_return_is_of_its_word(rt: HostRuntime) {
    is(&rt, command_of(b"accept\r") == Command::Bad, "no command");
}

#[test]
fn the_greatest_number(rt: HostRuntime) {
    let mut out = Through(Vec::new(rt.alloc()));
    put_number(&mut out, u64::MAX).expect(&rt, "memory");
    is_text(&rt, out.0.as_slice(), b"18446744073709551615");
    drop(out);
}

/// The item is shown so at the level.
fn is_shown(rt: &impl Abort, alloc: Global, level: Level, item: &Item<'_>, want: &[u8]) {
    let mut lines = Lines::new(alloc);
    put(&mut lines, level, item).expect(rt, "memory");
    is_text(rt, lines.text(), want);
    drop(lines);
}

/// Words of errors: an empty one, one with a blank, and some with line feeds, which count among the 64 bytes that are shown.
static QUOTED: [(&[u8], &[u8]); 4] = [
    (b"", b"error: bad argument \"\"\n"),
    (b" az~", b"error: bad argument \" az~\"\n"),
    (
        b"\x1f\n\xc3\xa9b",
        b"error: bad argument \"\\x1f\\x0a\\xc3\\xa9b\"\n",
    ),
    (
        b"0123456789abcdef0123456789abcdef0123456789abcdef0123456789abcde\n\n",
        b"error: bad argument \"0123456789abcdef0123456789abcdef0123456789abcdef0123456789abcde\\x0a\"\n",
    ),
];

#[test]
fn words_that_stand_in_no_script(rt: HostRuntime) {
    for (word, want) in &QUOTED {
        let item = Item::Error(DirectiveError::BadArgument(ScriptWord::new(word)));
        is_shown(&rt, rt.alloc(), Level::Info, &item, want);
    }
}

/// The warning is told at its level, and not at the one above.
fn is_warning(rt: &impl Abort, alloc: Global, event: &Event, want: &[u8]) {
    let item = Item::Event(event);
    is_shown(rt, alloc, Level::Warn, &item, want);
    is_shown(rt, alloc, Level::Error, &item, b"");
}

#[test]
fn events_past_the_limits_of_scripts(rt: HostRuntime) {
    let nothing = Event {
        id: 1,
        kind: EventKind::AppendsNothing,
    };
    let want = b"WARN 1 appends nothing: index limit\n";
    is_warning(&rt, rt.alloc(), &nothing, want);
    drop(nothing);
    let last = Event {
        id: 1,
        kind: EventKind::CannotCampaign {
            why: WhyNoCampaign::TermLimit,
        },
    };
    let want = b"WARN 1 can't campaign: term limit\n";
    is_warning(&rt, rt.alloc(), &last, want);
    drop(last);
}
