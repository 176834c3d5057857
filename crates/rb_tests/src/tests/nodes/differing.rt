//! Nodes that differ in one field of what a node knows. The fields of a copy are written, each by itself.

use super::making::{Player, install_of};
use super::moves::{PLAIN, START};
use crate::tests::is_in_row;
use crate::tests::logs::making::{change, payload};
use crate::tests::logs::tested::Tested;
use rb_message::{Message, MessageKind, Outbox, Role};
use rb_node::{Clock, Node, Options, State};
use rb_raftlog::{PlainLog, RaftLog, SplitLog};
use rb_tracker::{Config, Progress, Tracker};
use std::alloc::Global;
use std::process::Abort;

/// A log of one entry: its base, the base's term, the entry's term, the byte of its payload, and whether it is durable.
#[derive(Clone, Copy)]
struct LogOf(u64, u64, u64, u8, bool);

/// A message of a node to another in a term, a heartbeat with a commit.
#[derive(Clone, Copy)]
struct Beat(u64, u64, u64, u64);

/// A set of a configuration.
#[derive(Clone, Copy)]
enum Set {
    Incoming,
    Outgoing,
    Learners,
    Next,
}

/// A view, and how it came to be.
#[derive(Clone, Copy)]
enum View {
    /// It replicates: what it holds, and what is next.
    Held(u32, u32),
    /// The same from 3 on, with room for three appends in flight.
    Wide,
    /// It is probed after 3.
    Probed,
    /// A probe is on its way.
    Waiting,
    /// It is probed after 3, once a snapshot up to an index was on its way.
    Snapshot(u32),
    /// It holds 3; appends up to 5 and 6 are in flight.
    TwoInFlight,
    /// It holds 3; one append up to 6 is in flight.
    OneInFlight,
    /// It holds 3 and was not heard of.
    Unheard,
}

/// A field, and what is written to it.
#[derive(Clone, Copy)]
enum Field {
    /// No field is written.
    Nothing,
    Id(u16),
    Term(u16),
    Vote(u16),
    Lead(u16),
    Commit(u16),
    Applied(u16),
    Transferee(u16),
    PendingChange(u16),
    Role(Role),
    Restored,
    Clock(Clock),
    SavedTerm(u16),
    SavedVote(u16),
    SavedCommit(u16),
    Options(Options),
    Log(LogOf),
    /// The entry after index 10 adds this voter.
    LogOfChange(u64),
    /// The saved snapshot: its term and its index.
    Saves(u64, u64),
    /// A log without entries.
    EmptyLog,
    Content,
    /// An id is added to a set of the configuration.
    Member(Set, u64),
    Auto,
    /// The view of node 2.
    View(View),
    /// An answer to a campaign.
    Answer(u64, bool),
    /// The only sent message, or the only waiting one.
    Sent(Beat),
    SentNothing,
    Waiting(Beat),
    NothingWaits,
}

/// What each node holds before a field is written.
const LOG: LogOf = LogOf(10, 1, 1, b'e', false);

const BEAT: Beat = Beat(1, 2, 1, 10);

const CLOCK: Clock = Clock {
    elapsed: 0,
    heartbeat_elapsed: 0,
    timeout: 3,
};

/// Two fields that are written to a node each.
type Pair = (Field, Field);

static NUMBERS: [Pair; 20] = [
    (Field::Nothing, Field::Id(2)),
    (Field::Nothing, Field::Term(1)),
    (Field::Nothing, Field::Vote(1)),
    (Field::Nothing, Field::Lead(1)),
    (Field::Nothing, Field::Role(Role::Precandidate)),
    (Field::Role(Role::Candidate), Field::Role(Role::Leader)),
    (Field::Nothing, Field::Commit(11)),
    (Field::Nothing, Field::Applied(9)),
    (Field::Nothing, Field::Transferee(1)),
    (Field::Nothing, Field::PendingChange(1)),
    (Field::Nothing, Field::Restored),
    (
        Field::Nothing,
        Field::Clock(Clock {
            elapsed: 1,
            ..CLOCK
        }),
    ),
    (
        Field::Nothing,
        Field::Clock(Clock {
            heartbeat_elapsed: 1,
            ..CLOCK
        }),
    ),
    (
        Field::Nothing,
        Field::Clock(Clock {
            timeout: 4,
            ..CLOCK
        }),
    ),
    (Field::Nothing, Field::SavedTerm(1)),
    (Field::Nothing, Field::SavedVote(1)),
    (Field::Nothing, Field::SavedCommit(11)),
    (
        Field::Nothing,
        Field::Options(Options {
            pre_vote: true,
            ..PLAIN
        }),
    ),
    (
        Field::Nothing,
        Field::Options(Options {
            check_quorum: true,
            ..PLAIN
        }),
    ),
    (
        Field::Options(Options {
            inflight: 3,
            ..PLAIN
        }),
        Field::Options(Options {
            inflight: 3,
            step_down_on_removal: true,
            ..PLAIN
        }),
    ),
];

static LISTS: [Pair; 39] = [
    (
        Field::Nothing,
        Field::Options(Options {
            inflight: 3,
            ..PLAIN
        }),
    ),
    // the log: its base, the base's term, the entry's term, its body, what is durable, how many entries
    (Field::Nothing, Field::Log(LogOf(11, 1, 1, b'e', false))),
    (Field::Nothing, Field::Log(LogOf(10, 2, 1, b'e', false))),
    (Field::Nothing, Field::Log(LogOf(10, 1, 2, b'e', false))),
    (Field::Nothing, Field::Log(LogOf(10, 1, 1, b'f', false))),
    (Field::Nothing, Field::Log(LogOf(10, 1, 1, b'e', true))),
    (Field::Nothing, Field::LogOfChange(4)),
    (Field::LogOfChange(4), Field::LogOfChange(5)),
    (Field::Nothing, Field::EmptyLog),
    (Field::Nothing, Field::Saves(1, 9)),
    (Field::Saves(1, 9), Field::Saves(1, 8)),
    (Field::Saves(1, 9), Field::Saves(2, 9)),
    (Field::Nothing, Field::Content),
    // the configuration
    (Field::Nothing, Field::Member(Set::Incoming, 4)),
    (Field::Nothing, Field::Member(Set::Outgoing, 4)),
    (Field::Nothing, Field::Member(Set::Learners, 4)),
    (Field::Nothing, Field::Member(Set::Next, 4)),
    (Field::Member(Set::Next, 4), Field::Member(Set::Next, 5)),
    (Field::Nothing, Field::Auto),
    // a view: that there is one, its state, what it holds, what is next, a probe and a snapshot on their way, appends in flight, how many
    // may be, and its mark
    (Field::Nothing, Field::View(View::Held(3, 4))),
    (Field::View(View::Held(3, 4)), Field::View(View::Probed)),
    (Field::View(View::Held(3, 9)), Field::View(View::Held(4, 9))),
    (Field::View(View::Held(3, 9)), Field::View(View::Held(3, 8))),
    (Field::View(View::Probed), Field::View(View::Waiting)),
    (
        Field::View(View::Snapshot(50)),
        Field::View(View::Snapshot(60)),
    ),
    (
        Field::View(View::TwoInFlight),
        Field::View(View::OneInFlight),
    ),
    (Field::View(View::Held(3, 4)), Field::View(View::Wide)),
    (Field::View(View::Held(3, 4)), Field::View(View::Unheard)),
    // votes
    (Field::Nothing, Field::Answer(2, true)),
    (Field::Nothing, Field::Answer(2, false)),
    (Field::Answer(2, true), Field::Answer(2, false)),
    (Field::Answer(2, true), Field::Answer(3, true)),
    // messages
    (Field::Nothing, Field::SentNothing),
    (Field::Nothing, Field::Sent(Beat(1, 3, 1, 10))),
    (Field::Nothing, Field::Sent(Beat(1, 2, 2, 10))),
    (Field::Nothing, Field::Sent(Beat(1, 2, 1, 11))),
    (Field::Nothing, Field::NothingWaits),
    (Field::Nothing, Field::Waiting(Beat(1, 3, 1, 10))),
    (Field::Nothing, Field::Waiting(Beat(1, 2, 1, 11))),
];

/// What can be written, copied and compared. What goes over rows is proved without knowing what a node's state is.
trait Written: Drop {
    fn before(rt: &impl Abort, alloc: Global) -> Self;

    fn write(&mut self, rt: &impl Abort, alloc: Global, field: Field);

    fn copied(&self, rt: &impl Abort) -> Self;

    fn is_same(&self, other: &Self) -> bool;
}

fn log_of<L: RaftLog>(rt: &impl Abort, alloc: Global, log: LogOf) -> L {
    let LogOf(base, base_term, term, byte, saved) = log;
    let mut made = <L as Tested>::begin(rt, alloc, base, base_term);
    Tested::put(&mut made, rt, payload(rt, alloc, term, byte));
    if saved {
        Tested::save(&mut made, rt);
    }
    made
}

fn log_of_change<L: RaftLog>(rt: &impl Abort, alloc: Global, id: u64) -> L {
    let mut made = <L as Tested>::begin(rt, alloc, 10, 1);
    Tested::put(&mut made, rt, change(rt, alloc, 1, id));
    made
}

fn beat_of(rt: &impl Abort, alloc: Global, beat: Beat) -> Outbox {
    let Beat(from, to, term, commit) = beat;
    let mut outbox = Outbox::new(alloc);
    let kind = MessageKind::Heartbeat { commit };
    outbox
        .push(Message {
            from,
            to,
            term,
            kind,
        })
        .expect(rt, "memory");
    outbox
}

fn own(rt: &impl Abort, alloc: Global, capacity: usize, matched: u32, next: u32) -> Progress {
    Progress::own(alloc, capacity, u64::from(matched), u64::from(next)).expect(rt, "memory")
}

/// Leads a view that holds 3 to where it is to be.
fn lead(view: &mut Progress, to: View) {
    match to {
        View::Probed => view.to_probe(),
        View::Waiting => {
            view.to_probe();
            view.sent(9);
        }
        View::Snapshot(index) => {
            view.to_snapshot(u64::from(index));
            view.to_probe();
        }
        View::TwoInFlight => {
            view.sent(5);
            view.sent(6);
        }
        View::OneInFlight => view.sent(6),
        View::Unheard => view.set_active(false),
        _ => {}
    }
}

fn view_of(rt: &impl Abort, alloc: Global, view: View) -> Progress {
    match view {
        View::Held(matched, next) => own(rt, alloc, 2, matched, next),
        View::Wide => own(rt, alloc, 3, 3, 4),
        _ => {
            let mut made = own(rt, alloc, 2, 3, 4);
            lead(&mut made, view);
            made
        }
    }
}

/// Puts in a view of node 2.
fn put_view(rt: &impl Abort, alloc: Global, tracker: &mut Tracker, view: View) {
    if !tracker.has_view(2) {
        let made = view_of(rt, alloc, view);
        tracker.add(2, made).expect(rt, "memory");
    }
}

fn insert(rt: &impl Abort, config: &mut Config, set: Set, id: u64) {
    let inserted = match set {
        Set::Incoming => config.incoming.insert(id),
        Set::Outgoing => config.outgoing.insert(id),
        Set::Learners => config.learners.insert(id),
        Set::Next => config.next.insert(id),
    };
    inserted.expect(rt, "memory");
}

/// Adds an id to a set of the configuration.
fn add_member(rt: &impl Abort, tracker: &mut Tracker, set: Set, id: u64) {
    let mut config = tracker.config().try_copy().expect(rt, "memory");
    insert(rt, &mut config, set, id);
    tracker.set_config(config);
}

fn set_auto(rt: &impl Abort, tracker: &mut Tracker) {
    let mut config = tracker.config().try_copy().expect(rt, "memory");
    config.auto = true;
    tracker.set_config(config);
}

fn write_number<L: RaftLog>(state: &mut State<L>, field: Field) {
    match field {
        Field::Id(n) => state.id = u64::from(n),
        Field::Term(n) => state.term = u64::from(n),
        Field::Vote(n) => state.vote = u64::from(n),
        Field::Lead(n) => state.lead = u64::from(n),
        Field::Commit(n) => state.commit = u64::from(n),
        Field::Applied(n) => state.applied = u64::from(n),
        Field::Transferee(n) => state.transferee = u64::from(n),
        Field::PendingChange(n) => state.pending_change = u64::from(n),
        _ => {}
    }
}

fn write_value<L: RaftLog>(state: &mut State<L>, field: Field) {
    match field {
        Field::Role(role) => state.role = role,
        Field::Restored => state.restored = true,
        Field::Clock(clock) => state.clock = clock,
        Field::SavedTerm(n) => state.saved.term = u64::from(n),
        Field::SavedVote(n) => state.saved.vote = u64::from(n),
        Field::SavedCommit(n) => state.saved.commit = u64::from(n),
        Field::Options(options) => state.options = options,
        _ => write_number(state, field),
    }
}

fn write_members<L: RaftLog>(rt: &impl Abort, alloc: Global, state: &mut State<L>, field: Field) {
    match field {
        Field::Member(set, id) => add_member(rt, &mut state.tracker, set, id),
        Field::Auto => set_auto(rt, &mut state.tracker),
        Field::View(view) => put_view(rt, alloc, &mut state.tracker, view),
        Field::Answer(id, granted) => state.votes.answer(id, granted).expect(rt, "memory"),
        _ => write_value(state, field),
    }
}

fn write_messages<L: RaftLog>(rt: &impl Abort, alloc: Global, state: &mut State<L>, field: Field) {
    match field {
        Field::Sent(beat) => state.sent = beat_of(rt, alloc, beat),
        Field::SentNothing => state.sent = Outbox::new(alloc),
        Field::Waiting(beat) => state.waiting = beat_of(rt, alloc, beat),
        Field::NothingWaits => state.waiting = Outbox::new(alloc),
        _ => write_members(rt, alloc, state, field),
    }
}

fn write_list<L: RaftLog>(rt: &impl Abort, alloc: Global, state: &mut State<L>, field: Field) {
    match field {
        Field::Log(log) => state.log = log_of(rt, alloc, log),
        Field::LogOfChange(id) => state.log = log_of_change(rt, alloc, id),
        Field::EmptyLog => state.log = <L as Tested>::begin(rt, alloc, 10, 1),
        Field::Saves(term, index) => state.start = install_of(rt, alloc, term, index),
        Field::Content => state.content.append(b"c").expect(rt, "memory"),
        _ => write_messages(rt, alloc, state, field),
    }
}

impl<L: RaftLog> Written for State<L> {
    fn before(rt: &impl Abort, alloc: Global) -> State<L> {
        let node: Node<L> = Player::start(rt, alloc, &START);
        let mut state = node.status().try_copy().expect(rt, "memory");
        drop(node);
        state.log = log_of(rt, alloc, LOG);
        state.sent = beat_of(rt, alloc, BEAT);
        state.waiting = beat_of(rt, alloc, BEAT);
        state
    }

    fn write(&mut self, rt: &impl Abort, alloc: Global, field: Field) {
        write_list(rt, alloc, self, field);
    }

    fn copied(&self, rt: &impl Abort) -> State<L> {
        self.try_copy().expect(rt, "memory")
    }

    fn is_same(&self, other: &State<L>) -> bool {
        self.same(other)
    }
}

fn with_field<T: Written>(rt: &impl Abort, alloc: Global, before: &T, field: Field) -> T {
    let mut state = before.copied(rt);
    state.write(rt, alloc, field);
    state
}

fn is_its_copy<T: Written>(rt: &impl Abort, state: &T) -> bool {
    let copy = state.copied(rt);
    let so = state.is_same(&copy) && copy.is_same(state);
    drop(copy);
    so
}

/// Whether a state differs from the one that has another field written, and that one is its own copy.
fn is_apart<T: Written>(
    rt: &impl Abort,
    alloc: Global,
    before: &T,
    state: &T,
    field: Field,
) -> bool {
    let other = with_field(rt, alloc, before, field);
    let so = !state.is_same(&other) && !other.is_same(state) && is_its_copy(rt, &other);
    drop(other);
    so
}

fn are_apart<T: Written>(rt: &impl Abort, alloc: Global, before: &T, pair: Pair) -> bool {
    let state = with_field(rt, alloc, before, pair.0);
    let so = is_its_copy(rt, &state) && is_apart(rt, alloc, before, &state, pair.1);
    drop(state);
    so
}

fn all_are_apart<T: Written>(rt: &impl Abort, alloc: Global, pairs: &[Pair]) {
    let before = T::before(rt, alloc);
    for (k, pair) in pairs.iter().enumerate() {
        let so = are_apart(rt, alloc, &before, *pair);
        is_in_row(rt, so, "they differ", k);
    }
    drop(before);
}

#[test]
fn fields_over_plain_logs(rt: HostRuntime) {
    all_are_apart::<State<PlainLog>>(&rt, rt.alloc(), &NUMBERS);
    all_are_apart::<State<PlainLog>>(&rt, rt.alloc(), &LISTS);
}

#[test]
fn fields_over_split_logs(rt: HostRuntime) {
    all_are_apart::<State<SplitLog>>(&rt, rt.alloc(), &NUMBERS);
    all_are_apart::<State<SplitLog>>(&rt, rt.alloc(), &LISTS);
}
