//! Changes of a configuration, worked out by hand: what each word does, each fault, and which of several faults is told.

use super::{are, number, put, voting};
use crate::tests::{is, is_in_row};
use Ask::{Enter, Entry, Leave, Simple};
use rb_tracker::ChangeFault::{
    AlreadyJoint, MoreThanOneVoter, NoVoters, NotJoint, SimpleWhileJoint,
};
use rb_tracker::{ChangeFault, Config};
use rb_vocab::Transition::{Auto, Explicit, Implicit};
use rb_vocab::{ConfState, Shared, Transition, Word, WordKind};
use std::alloc::Global;
use std::process::Abort;

/// Incoming voters, outgoing voters, learners, next learners, and the flag.
type Sets = (&'static str, &'static str, &'static str, &'static str, bool);

/// A call that changes a configuration.
#[derive(Clone, Copy)]
enum Ask {
    Simple,
    Enter(bool),
    Leave,
    Entry(Transition),
}

/// A configuration, a change of it, its words (a letter and an id each), and what comes of it.
type Row = (Sets, Ask, &'static str, Result<Sets, ChangeFault>);

const ONE: Sets = ("1", "", "", "", false);

const TWO: Sets = ("12", "", "", "", false);

const THREE: Sets = ("123", "", "5", "", false);

const NOBODY: Sets = ("", "", "3", "", false);

const JOINT: Sets = ("24", "123", "56", "3", true);

const LEFT: Sets = ("24", "", "356", "", false);

static SIMPLE: [Row; 20] = [
    (THREE, Simple, "", Ok(THREE)),
    (THREE, Simple, "u1l5v2r9", Ok(THREE)),
    (THREE, Simple, "v4", Ok(("1234", "", "5", "", false))),
    (THREE, Simple, "v5u1", Ok(("1235", "", "", "", false))),
    (THREE, Simple, "r3", Ok(("12", "", "5", "", false))),
    (THREE, Simple, "l2r5", Ok(("13", "", "2", "", false))),
    (THREE, Simple, "l6l4l5", Ok(("123", "", "456", "", false))),
    // What goes and comes again is no voter less, and no voter more.
    (THREE, Simple, "r2v2", Ok(THREE)),
    (THREE, Simple, "v4r4", Ok(THREE)),
    (THREE, Simple, "l1v1", Ok(THREE)),
    (NOBODY, Simple, "v1", Ok(("1", "", "3", "", false))),
    (JOINT, Simple, "v1", Err(SimpleWhileJoint)),
    (JOINT, Simple, "r2r4", Err(SimpleWhileJoint)),
    (JOINT, Simple, "v1v3", Err(SimpleWhileJoint)),
    (NOBODY, Simple, "", Err(NoVoters)),
    (TWO, Simple, "r1l2", Err(NoVoters)),
    (TWO, Simple, "v3v4", Err(MoreThanOneVoter)),
    (TWO, Simple, "v3r1", Err(MoreThanOneVoter)),
    (THREE, Simple, "r1l2", Err(MoreThanOneVoter)),
    (NOBODY, Simple, "v1v2", Err(MoreThanOneVoter)),
];

static JOINING: [Row; 14] = [
    (THREE, Enter(true), "l3v4r1l5l6", Ok(JOINT)),
    (TWO, Enter(false), "v3", Ok(("123", "12", "", "", false))),
    (TWO, Enter(false), "l1", Ok(("2", "12", "", "1", false))),
    (TWO, Enter(true), "l1v1", Ok(("12", "12", "", "", true))),
    (TWO, Enter(true), "l1r1", Ok(("2", "12", "", "", true))),
    (TWO, Enter(true), "l3v3", Ok(("123", "12", "", "", true))),
    (TWO, Enter(true), "r1r2v3", Ok(("3", "12", "", "", true))),
    (JOINT, Enter(true), "v1", Err(AlreadyJoint)),
    (JOINT, Enter(false), "r2r4", Err(AlreadyJoint)),
    (TWO, Enter(true), "r1r2", Err(NoVoters)),
    (NOBODY, Enter(false), "v1", Err(NoVoters)),
    (JOINT, Leave, "", Ok(LEFT)),
    (("1", "1", "", "", false), Leave, "", Ok(ONE)),
    (THREE, Leave, "", Err(NotJoint)),
];

/// A change as an entry has it: no words leave, one word is simple unless the transition says otherwise, several enter.
static ENTRIES: [Row; 14] = [
    (TWO, Entry(Auto), "v3", Ok(("123", "", "", "", false))),
    (TWO, Entry(Implicit), "v3", Ok(("123", "12", "", "", true))),
    (TWO, Entry(Explicit), "v3", Ok(("123", "12", "", "", false))),
    (ONE, Entry(Auto), "v3l4", Ok(("13", "1", "4", "", true))),
    (ONE, Entry(Implicit), "v3l4", Ok(("13", "1", "4", "", true))),
    (
        ONE,
        Entry(Explicit),
        "v3l4",
        Ok(("13", "1", "4", "", false)),
    ),
    (JOINT, Entry(Auto), "", Ok(LEFT)),
    (JOINT, Entry(Explicit), "", Ok(LEFT)),
    (TWO, Entry(Implicit), "", Err(NotJoint)),
    (ONE, Entry(Auto), "r1", Err(NoVoters)),
    (ONE, Entry(Explicit), "r1", Err(NoVoters)),
    (JOINT, Entry(Auto), "v1", Err(SimpleWhileJoint)),
    (JOINT, Entry(Auto), "v1v3", Err(AlreadyJoint)),
    (JOINT, Entry(Explicit), "v1", Err(AlreadyJoint)),
];

fn kind(letter: u8) -> WordKind {
    match letter {
        b'v' => WordKind::Voter,
        b'l' => WordKind::Learner,
        b'r' => WordKind::Remove,
        _ => WordKind::Update,
    }
}

fn words(rt: &impl Abort, alloc: Global, text: &str) -> Vec<Word> {
    let mut words = Vec::new(alloc);
    for word in text.as_bytes().chunks(2) {
        if let [letter, id] = word {
            words
                .push(Word {
                    kind: kind(*letter),
                    id: number(*id),
                })
                .expect(rt, "memory");
        }
    }
    words
}

fn config(rt: &impl Abort, alloc: Global, sets: Sets) -> Config {
    let mut config = voting(rt, alloc, sets.0, sets.1);
    put(rt, &mut config.learners, sets.2);
    put(rt, &mut config.next, sets.3);
    config.auto = sets.4;
    config
}

/// Whether a configuration has these sets and this flag.
fn has_sets(config: &Config, sets: Sets) -> bool {
    are(config.incoming.as_slice(), sets.0)
        && are(config.outgoing.as_slice(), sets.1)
        && are(config.learners.as_slice(), sets.2)
        && are(config.next.as_slice(), sets.3)
        && config.auto == sets.4
}

fn changed(config: &Config, ask: Ask, words: &[Word]) -> Result<Config, ChangeFault> {
    match ask {
        Ask::Simple => config.simple(words),
        Ask::Enter(auto) => config.enter_joint(auto, words),
        Ask::Leave => config.leave_joint(),
        Ask::Entry(transition) => config.changed(transition, words),
    }
}

fn is_wanted(changed: &Result<Config, ChangeFault>, want: Result<Sets, ChangeFault>) -> bool {
    match (changed, want) {
        (Ok(config), Ok(sets)) => has_sets(config, sets),
        (Err(fault), Err(wanted)) => *fault == wanted,
        _ => false,
    }
}

/// Whether a change comes to what the row wants, and leaves the configuration that it is a change of.
fn holds(rt: &impl Abort, alloc: Global, row: &Row) -> bool {
    let old = config(rt, alloc, row.0);
    let words = words(rt, alloc, row.2);
    let new = changed(&old, row.1, &words);
    let so = is_wanted(&new, row.3) && has_sets(&old, row.0);
    drop(new);
    drop(words);
    drop(old);
    so
}

fn all_hold(rt: &impl Abort, alloc: Global, rows: &[Row], name: &str) {
    for (k, row) in rows.iter().enumerate() {
        is_in_row(rt, holds(rt, alloc, row), name, k);
    }
}

#[test]
fn changes(rt: HostRuntime) {
    all_hold(&rt, rt.alloc(), &SIMPLE, "simple");
    all_hold(&rt, rt.alloc(), &JOINING, "joint");
    all_hold(&rt, rt.alloc(), &ENTRIES, "entries");
}

/// Who votes (`v`), who else is a member (`m`), and who is neither, from id 0 on.
const MEMBERS: &[u8] = b"-vvvvmm-";

/// Whether each id is what it should be.
fn has_members(config: &Config) -> bool {
    let mut id: u64 = 0;
    for member in MEMBERS {
        if config.is_voter(id) != (*member == b'v') || config.is_member(id) != (*member != b'-') {
            return false;
        }
        id = id.saturating_add(1);
    }
    true
}

/// Whether the lists of voters and of members are these.
fn lists_are(rt: &impl Abort, config: &Config, voters: &str, members: &str) -> bool {
    let voting = config.voters().expect(rt, "memory");
    let all = config.members().expect(rt, "memory");
    let so = are(voting.as_slice(), voters) && are(all.as_slice(), members);
    drop(all);
    drop(voting);
    so
}

fn is_joint_of_six(rt: &impl Abort, config: &Config) -> bool {
    config.is_joint() && has_members(config) && lists_are(rt, config, "1234", "123456")
}

#[test]
fn members_of_a_joint_configuration(rt: HostRuntime) {
    let joint = config(&rt, rt.alloc(), JOINT);
    is(&rt, is_joint_of_six(&rt, &joint), "joint, of six");
    drop(joint);
}

fn shared(rt: &impl Abort, alloc: Global, ids: &[u64]) -> Shared<u64> {
    Shared::new(Vec::from_slice(alloc, ids).expect(rt, "memory")).expect(rt, "memory")
}

fn any_order(rt: &impl Abort, alloc: Global) -> ConfState {
    ConfState {
        incoming: shared(rt, alloc, &[4, 2, 4]),
        outgoing: shared(rt, alloc, &[3, 2, 1]),
        learners: shared(rt, alloc, &[6, 5]),
        next: shared(rt, alloc, &[3]),
        auto: true,
    }
}

/// Whatever order a snapshot's lists have, and however often they name an id, the sets are ascending.
fn reads_any_order(rt: &impl Abort, alloc: Global) -> bool {
    let state = any_order(rt, alloc);
    let read = Config::of_state(alloc, &state).expect(rt, "memory");
    let so = has_sets(&read, JOINT);
    drop(read);
    drop(state);
    so
}

#[test]
fn snapshots_carry_configurations(rt: HostRuntime) {
    is(&rt, reads_any_order(&rt, rt.alloc()), "the sets of a state");
}
