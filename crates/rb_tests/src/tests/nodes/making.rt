//! Nodes and messages to test with.

use super::calls::{Gone, Ready};
use super::held::Held;
use super::moves::{Members, Move, Says, Start};
use super::seen::{Seen, said_first, seen_of};
use crate::tests::counting::entries_in;
use crate::tests::is;
use rb_message::{Append, Event, HardState, Install, Message, MessageKind};
use rb_node::Node;
use rb_raftlog::{Body, CompactFault, Content, Entries, Entry, MAX_INDEX, RaftLog, Snapshot};
use rb_vocab::{ConfState, Shared, Transition, Word, WordKind};
use std::alloc::{AllocError, Global};
use std::process::Abort;

/// A payload of one byte.
fn payload(rt: &impl Abort, alloc: Global, byte: u8) -> Shared<u8> {
    let bytes = vec![in alloc; byte].expect(rt, "memory");
    Shared::new(bytes).expect(rt, "memory")
}

fn ids(rt: &impl Abort, alloc: Global, ids: &[u64]) -> Shared<u64> {
    let list = ids.to_vec(alloc).expect(rt, "memory");
    Shared::new(list).expect(rt, "memory")
}

/// The voters, those of the other half, and the learners.
fn sets_of(members: Members) -> (&'static [u64], &'static [u64], &'static [u64]) {
    match members {
        Members::Three => (&[1, 2, 3], &[], &[]),
        Members::One => (&[1], &[], &[]),
        Members::Two => (&[1, 2], &[], &[]),
        Members::Others => (&[2, 3], &[], &[]),
        Members::Learner => (&[1, 2, 3], &[], &[4]),
        Members::Joint => (&[1, 2, 3], &[1, 2, 3], &[]),
    }
}

fn config_of(rt: &impl Abort, alloc: Global, members: Members) -> ConfState {
    let (incoming, outgoing, learners) = sets_of(members);
    ConfState {
        incoming: ids(rt, alloc, incoming),
        outgoing: ids(rt, alloc, outgoing),
        learners: ids(rt, alloc, learners),
        next: ids(rt, alloc, &[]),
        auto: false,
    }
}

/// A snapshot of an index and a term, with this content.
fn snapshot_of(
    rt: &impl Abort,
    alloc: Global,
    at: (u64, u64),
    content: &[u8],
    members: Members,
) -> Snapshot {
    Snapshot {
        index: at.0,
        term: at.1,
        content: Content::from_slice(alloc, content).expect(rt, "memory"),
        config: config_of(rt, alloc, members),
    }
}

/// One more entry of a term, a payload of one byte.
fn add_entry(rt: &impl Abort, alloc: Global, term: u64, entries: &mut Vec<Entry>) {
    let body = Body::Payload(payload(rt, alloc, b'e'));
    entries.push(Entry { term, body }).expect(rt, "memory");
}

/// As many entries of a term.
fn entries_of(rt: &impl Abort, alloc: Global, term: u64, count: u64) -> Entries {
    let mut entries = Vec::new(alloc);
    for _ in 0..count {
        add_entry(rt, alloc, term, &mut entries);
    }
    is(rt, entries.len() <= 1_000, "few entries");
    Entries::from_vec(entries).expect(rt, "memory")
}

fn append_of(
    rt: &impl Abort,
    alloc: Global,
    term: u64,
    prev: (u64, u64),
    commit: u64,
    count: u64,
) -> MessageKind {
    let entries = entries_of(rt, alloc, term, count);
    is(rt, entries.len() <= 1_000, "few entries");
    is(rt, prev.1 <= 1_000, "after one of the first");
    MessageKind::Append(Append::new(prev.0, prev.1, commit, entries))
}

/// A snapshot of voters 1 to 3 without content.
pub fn install_of(rt: &impl Abort, alloc: Global, term: u64, index: u64) -> Install {
    let snapshot = snapshot_of(rt, alloc, (index, term), b"", Members::Three);
    is(rt, snapshot.index <= MAX_INDEX, "an index that there is");
    Install::new(alloc, snapshot).expect(rt, "memory")
}

fn kind_of(rt: &impl Abort, alloc: Global, term: u64, says: Says) -> MessageKind {
    match says {
        Says::Vote(last_term, last_index, transfer) => MessageKind::Vote {
            last_term,
            last_index,
            transfer,
        },
        Says::PreVote(last_term, last_index) => MessageKind::PreVote {
            last_term,
            last_index,
        },
        Says::VoteAnswer(granted) => MessageKind::VoteResponse { granted },
        Says::PreVoteAnswer(granted) => MessageKind::PreVoteResponse { granted },
        Says::Append(prev_term, prev, commit, count) => {
            append_of(rt, alloc, term, (prev_term, prev), commit, count)
        }
        Says::Accepted(matched) => MessageKind::AppendResponse { matched },
        Says::Refused(refused, hint) => MessageKind::AppendRefusal { refused, hint },
        Says::Heartbeat(commit) => MessageKind::Heartbeat { commit },
        Says::HeartbeatAnswer => MessageKind::HeartbeatResponse,
        Says::Snapshot(snapshot_term, index) => {
            MessageKind::Snapshot(install_of(rt, alloc, snapshot_term, index))
        }
        Says::Payload => MessageKind::Proposal(Body::Payload(payload(rt, alloc, b'p'))),
        Says::TransferTo(target) => MessageKind::TransferLeader { target },
        Says::TimeoutNow => MessageKind::TimeoutNow,
    }
}

/// A message for node 1.
fn message_of(rt: &impl Abort, alloc: Global, from: u64, term: u64, says: Says) -> Message {
    Message {
        from,
        to: 1,
        term,
        kind: kind_of(rt, alloc, term, says),
    }
}

/// A change of one word.
fn words_of(rt: &impl Abort, alloc: Global, kind: WordKind, id: u64) -> Shared<Word> {
    let words = vec![in alloc; Word { kind, id }].expect(rt, "memory");
    Shared::new(words).expect(rt, "memory")
}

fn no_words(rt: &impl Abort, alloc: Global) -> Shared<Word> {
    Shared::new(Vec::new(alloc)).expect(rt, "memory")
}

fn advance<L: RaftLog>(
    alloc: Global,
    node: &mut Node<L>,
    events: &mut Vec<Event>,
) -> Result<(), AllocError> {
    let mut sent = Vec::new(alloc);
    let outcome = node.advance(&mut sent, events);
    drop(sent);
    outcome
}

/// Lets a node do what nothing comes of but what it notes.
fn note<L: RaftLog>(node: &mut Node<L>, what: Move) {
    match what {
        Move::ForgetLeader => node.forget_leader(),
        Move::ReportUnreachable(id) => node.report_unreachable(id),
        Move::SetTimeout(timeout) => node.set_timeout(timeout),
        Move::Compact(index) => {
            let _ = node.compact(index);
        }
        _ => {}
    }
}

/// Makes a node do one thing for which nothing need be made before.
fn act_by_itself<L: RaftLog>(
    node: &mut Node<L>,
    what: Move,
    events: &mut Vec<Event>,
) -> Result<(), AllocError> {
    match what {
        Move::Campaign => node.campaign(events),
        Move::Transfer(to) => node.transfer(to, events),
        Move::Tick => node.tick(events),
        _ => {
            note(node, what);
            Ok(())
        }
    }
}

/// Makes a node do one thing.
fn act<L: RaftLog>(
    rt: &impl Abort,
    alloc: Global,
    node: &mut Node<L>,
    what: Move,
    events: &mut Vec<Event>,
) -> Result<(), AllocError> {
    match what {
        Move::Get(from, term, says) => {
            let message = message_of(rt, alloc, from, term, says);
            let outcome = node.step(&message, events);
            drop(message);
            outcome
        }
        Move::Propose(byte) => node.propose(payload(rt, alloc, byte), events),
        Move::Change(transition, kind, id) => {
            node.propose_change(transition, words_of(rt, alloc, kind, id), events)
        }
        Move::Leave => node.propose_change(Transition::Auto, no_words(rt, alloc), events),
        Move::Advance => advance(alloc, node, events),
        _ => act_by_itself(node, what, events),
    }
}

fn numbers(hard: HardState) -> (u64, u64, u64) {
    (hard.term, hard.vote, hard.commit)
}

/// What starts somewhere, does things and is looked at. A row of a table needs no more of a node; so what goes over rows is proved
/// without knowing what a node is.
pub trait Player: Drop {
    fn start(rt: &impl Abort, alloc: Global, start: &Start) -> Self;

    /// Does one thing, and tells what shows then.
    fn act(&mut self, rt: &impl Abort, alloc: Global, what: Move) -> Seen;

    fn held(&self) -> Held;

    fn ready(&self) -> Ready;

    fn has_ready(&self) -> bool;

    /// Whether two entries are to be applied, of which the second is the second that is to be saved.
    fn applies_what_it_saves(&self) -> bool;

    fn gone_out(&mut self, rt: &impl Abort, alloc: Global) -> Gone;

    /// The index and the term of its snapshot, and whether this is the content.
    fn snapshot_seen(&self, rt: &impl Abort, content: &[u8]) -> (u64, u64, bool);

    fn compact(&mut self, index: u64) -> Result<(), CompactFault>;
}

impl<L: RaftLog> Player for Node<L> {
    fn start(rt: &impl Abort, alloc: Global, start: &Start) -> Node<L> {
        let snapshot = snapshot_of(rt, alloc, (start.index, 1), b"ab", start.members);
        is(rt, snapshot.index <= MAX_INDEX, "an index that there is");
        let mut events = Vec::new(alloc);
        let node = Node::new(alloc, 1, &snapshot, start.options, &mut events);
        drop(events);
        drop(snapshot);
        node.expect(rt, "memory")
    }

    fn act(&mut self, rt: &impl Abort, alloc: Global, what: Move) -> Seen {
        let mut events = Vec::new(alloc);
        act(rt, alloc, self, what, &mut events).expect(rt, "memory");
        let seen = seen_of(self, events.as_slice());
        drop(events);
        seen
    }

    fn held(&self) -> Held {
        let state = self.status();
        let log = &state.log;
        (
            log.first_index().saturating_sub(1),
            log.last_index(),
            log.last_term(),
            log.durable(),
            state.commit,
            state.applied,
        )
    }

    fn ready(&self) -> Ready {
        let ready = self.ready();
        (
            ready.hard().map(numbers),
            ready.snapshot(),
            entries_in(ready.save()),
            ready.apply_len(),
            ready.sent().len(),
            ready.waiting().len(),
        )
    }

    fn has_ready(&self) -> bool {
        self.has_ready()
    }

    fn applies_what_it_saves(&self) -> bool {
        let ready = self.ready();
        match ready.save().next() {
            Some([_, entry, ..]) => ready.apply_len() == 2 && ready.apply(1).same(entry),
            _ => false,
        }
    }

    fn gone_out(&mut self, rt: &impl Abort, alloc: Global) -> Gone {
        let mut sent = Vec::new(alloc);
        let mut events = Vec::new(alloc);
        self.advance(&mut sent, &mut events).expect(rt, "memory");
        let said = said_first(sent.as_slice());
        let gone = (said, sent.len(), events.len(), self.has_ready());
        drop(events);
        drop(sent);
        gone
    }

    fn snapshot_seen(&self, rt: &impl Abort, content: &[u8]) -> (u64, u64, bool) {
        let snapshot = self.snapshot().expect(rt, "memory");
        let is_so = snapshot.content.end() == content;
        let seen = (snapshot.index, snapshot.term, is_so);
        drop(snapshot);
        seen
    }

    fn compact(&mut self, index: u64) -> Result<(), CompactFault> {
        self.compact(index)
    }
}

pub fn act_all<P: Player>(rt: &impl Abort, alloc: Global, player: &mut P, moves: &[Move]) {
    for what in moves {
        let _seen = player.act(rt, alloc, *what);
    }
}

/// A node that started somewhere and did all this, in order.
pub fn played<P: Player>(rt: &impl Abort, alloc: Global, start: &Start, moves: &[Move]) -> P {
    let mut player = P::start(rt, alloc, start);
    act_all(rt, alloc, &mut player, moves);
    player
}
