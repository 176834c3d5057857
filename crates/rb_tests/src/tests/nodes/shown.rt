//! All that is tested, over both logs.

use super::making::Player;
use super::seen::{Case, shows};
use super::{calls, held, leading, roles, rules, terms};
use rb_node::Node;
use rb_raftlog::{PlainLog, SplitLog};
use std::alloc::Global;
use std::process::Abort;

/// Each table with its name.
static TABLES: [(&str, &[Case]); 19] = [
    ("at followers", &roles::AT_FOLLOWERS),
    ("at precandidates", &roles::AT_PRECANDIDATES),
    ("at candidates", &roles::AT_CANDIDATES),
    ("at leaders", &roles::AT_LEADERS),
    ("earlier", &terms::EARLIER),
    ("answered where it asks", &terms::ANSWERED_WHERE_IT_ASKS),
    ("answered where it checks", &terms::ANSWERED_WHERE_IT_CHECKS),
    ("later", &terms::LATER),
    ("later at leaders", &terms::LATER_AT_LEADERS),
    ("undisturbed", &terms::UNDISTURBED),
    ("votes", &rules::VOTES),
    ("campaigns", &rules::CAMPAIGNS),
    ("following", &rules::FOLLOWING),
    ("ticks", &rules::TICKS),
    ("full logs", &rules::FULL_LOGS),
    ("answers", &leading::ANSWERS),
    ("windows", &leading::WINDOWS),
    ("transfers", &leading::TRANSFERS),
    ("changes", &leading::CHANGES),
];

fn all_shows<P: Player>(rt: &impl Abort, alloc: Global, tables: &[(&str, &[Case])]) {
    for (name, rows) in tables {
        shows::<P>(rt, alloc, name, rows);
    }
}

fn all<P: Player>(rt: &impl Abort, alloc: Global) {
    all_shows::<P>(rt, alloc, &TABLES);
    held::all::<P>(rt, alloc);
    calls::all::<P>(rt, alloc);
}

#[test]
fn all_over_plain_logs(rt: HostRuntime) {
    all::<Node<PlainLog>>(&rt, rt.alloc())
}

#[test]
fn all_over_split_logs(rt: HostRuntime) {
    all::<Node<SplitLog>>(&rt, rt.alloc())
}
