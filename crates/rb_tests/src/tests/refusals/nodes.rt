//! Nodes, and the messages between them.

use super::{entry, ids};
use crate::tests::is;
use rb_message::{Append, Install, Message, MessageKind};
use rb_node::{Node, Options};
use rb_raftlog::{Content, Entries, MAX_INDEX, PlainLog, RaftLog, Snapshot, SplitLog};
use rb_tracker::ProgressState;
use rb_vocab::ConfState;
use std::alloc::Global;
use std::process::Abort;

const OPTIONS: Options = Options {
    pre_vote: false,
    check_quorum: false,
    step_down_on_removal: false,
    inflight: 2,
};

/// Nodes 1 and 2 vote, and node 3 learns.
fn config_of(alloc: Global) -> Option<ConfState> {
    Some(ConfState {
        incoming: ids(alloc, &[1, 2])?,
        outgoing: ids(alloc, &[])?,
        learners: ids(alloc, &[3])?,
        next: ids(alloc, &[])?,
        auto: false,
    })
}

fn snapshot_of(alloc: Global) -> Option<Snapshot> {
    let content = Content::from_slice(alloc, b"ab").ok()?;
    let config = config_of(alloc)?;
    Some(Snapshot {
        index: 10,
        term: 1,
        content,
        config,
    })
}

/// A node that starts at a snapshot.
fn started<L: RaftLog>(alloc: Global, snapshot: &Snapshot) -> Option<Node<L>> {
    if snapshot.index > MAX_INDEX {
        return None;
    }
    let mut events = Vec::new(alloc);
    let node = Node::new(alloc, 1, snapshot, OPTIONS, &mut events).ok();
    drop(events);
    node
}

fn node_of<L: RaftLog>(alloc: Global) -> Option<Node<L>> {
    let snapshot = snapshot_of(alloc)?;
    let node = started(alloc, &snapshot);
    drop(snapshot);
    node
}

/// A message of node 2.
fn hear<L: RaftLog>(alloc: Global, node: &mut Node<L>, kind: MessageKind) -> Option<()> {
    let message = Message {
        from: 2,
        to: 1,
        term: 1,
        kind,
    };
    let mut events = Vec::new(alloc);
    let done = node.step(&message, &mut events).ok();
    drop(events);
    drop(message);
    done
}

fn campaign<L: RaftLog>(alloc: Global, node: &mut Node<L>) -> Option<()> {
    let mut events = Vec::new(alloc);
    let done = node.campaign(&mut events).ok();
    drop(events);
    done
}

fn advance<L: RaftLog>(alloc: Global, node: &mut Node<L>) -> Option<()> {
    let mut sent = Vec::new(alloc);
    let mut events = Vec::new(alloc);
    let done = node.advance(&mut sent, &mut events).ok();
    drop(events);
    drop(sent);
    done
}

/// Node 2 grants its vote, and holds the first entry of the term.
fn lead<L: RaftLog>(alloc: Global, node: &mut Node<L>) -> Option<()> {
    campaign(alloc, node)?;
    advance(alloc, node)?;
    hear(alloc, node, MessageKind::VoteResponse { granted: true })?;
    advance(alloc, node)?;
    hear(alloc, node, MessageKind::AppendResponse { matched: 11 })
}

/// How node 2 is sent what it lacks.
fn state_of_2<L: RaftLog>(node: &Node<L>) -> Option<ProgressState> {
    let tracker = &node.status().tracker;
    match tracker.place(2) {
        Some(place) => Some(tracker.progress(place).state()),
        None => None,
    }
}

fn takes_no_memory<L: RaftLog>(rt: &impl Abort, leader: &mut Node<L>, copy: &Node<L>) {
    is(rt, leader.same(copy), "the same");
    leader.set_timeout(7);
    is(rt, leader.status().clock.timeout == 7, "the timeout");
    is(rt, !leader.same(copy), "another timeout");
    let replicates = state_of_2(leader) == Some(ProgressState::Replicate);
    is(rt, replicates, "it replicates");
    leader.report_unreachable(2);
    let probes = state_of_2(leader) == Some(ProgressState::Probe);
    is(rt, probes, "it probes");
}

/// A leader's calls, if there is memory for a leader and its copy.
fn leads<L: RaftLog>(rt: &impl Abort, alloc: Global, leader: &mut Node<L>) -> bool {
    if lead(alloc, leader).is_none() {
        return false;
    }
    let Ok(copy) = leader.try_copy() else {
        return false;
    };
    takes_no_memory(rt, leader, &copy);
    drop(copy);
    true
}

fn a_leader<L: RaftLog>(rt: &impl Abort, alloc: Global) -> bool {
    let Some(node) = node_of::<L>(alloc) else {
        return false;
    };
    let mut leader = node;
    let is_whole = leads(rt, alloc, &mut leader);
    drop(leader);
    is_whole
}

/// A follower's call, if there is memory for a follower.
fn follows<L: RaftLog>(rt: &impl Abort, alloc: Global, node: &mut Node<L>) -> bool {
    if hear(alloc, node, MessageKind::Heartbeat { commit: 0 }).is_none() {
        return false;
    }
    is(rt, node.status().lead == 2, "it follows");
    node.forget_leader();
    is(rt, node.status().lead == 0, "it forgets");
    true
}

fn a_follower<L: RaftLog>(rt: &impl Abort, alloc: Global) -> bool {
    let Some(node) = node_of::<L>(alloc) else {
        return false;
    };
    let mut follower = node;
    let is_whole = follows(rt, alloc, &mut follower);
    drop(follower);
    is_whole
}

/// Makes each call, if there is memory for the nodes.
fn all<L: RaftLog>(rt: &impl Abort, alloc: Global) -> bool {
    a_leader::<L>(rt, alloc) && a_follower::<L>(rt, alloc)
}

#[test]
fn each_call_of_a_node(rt: HostRuntime) {
    is(&rt, all::<PlainLog>(&rt, rt.alloc()), "a plain log");
    is(&rt, all::<SplitLog>(&rt, rt.alloc()), "a split log");
}

#[test]
fn plain_nodes_under_refusals(rt: HostRuntime) {
    let _whole = all::<PlainLog>(&rt, rt.alloc());
}

#[test]
fn split_nodes_under_refusals(rt: HostRuntime) {
    let _whole = all::<SplitLog>(&rt, rt.alloc());
}

fn append_of(alloc: Global) -> Option<MessageKind> {
    let mut list = Vec::new(alloc);
    list.push(entry(alloc, 1)?).ok()?;
    let entries = Entries::from_vec(list).ok()?;
    if entries.len() > 1 {
        return None;
    }
    Some(MessageKind::Append(Append::new(1, 10, 10, entries)))
}

fn install_of(alloc: Global) -> Option<MessageKind> {
    let snapshot = snapshot_of(alloc)?;
    if snapshot.index > MAX_INDEX {
        return None;
    }
    Some(MessageKind::Snapshot(Install::new(alloc, snapshot).ok()?))
}

fn message_of(kind: MessageKind) -> Message {
    Message {
        from: 1,
        to: 2,
        term: 1,
        kind,
    }
}

/// Compares a message with itself, another and a copy, if there is memory for one.
fn is_compared(rt: &impl Abort, message: &Message, other: &Message) -> bool {
    is(rt, message.same(message), "the same");
    is(rt, !message.same(other), "another");
    let Ok(copy) = message.try_copy() else {
        return false;
    };
    is(rt, message.same(&copy), "the copy");
    drop(copy);
    true
}

/// The same of a message of this kind, if there is memory for it.
fn compares(rt: &impl Abort, kind: Option<MessageKind>, other: &Message) -> bool {
    let Some(kind) = kind else {
        return false;
    };
    let message = message_of(kind);
    let is_whole = is_compared(rt, &message, other);
    drop(message);
    is_whole
}

fn all_messages(rt: &impl Abort, alloc: Global) -> bool {
    let other = message_of(MessageKind::TimeoutNow);
    let append = compares(rt, append_of(alloc), &other);
    let install = compares(rt, install_of(alloc), &other);
    drop(other);
    append && install
}

#[test]
fn messages_are_compared(rt: HostRuntime) {
    is(&rt, all_messages(&rt, rt.alloc()), "both messages");
}

#[test]
fn messages_under_refusals(rt: HostRuntime) {
    let _whole = all_messages(&rt, rt.alloc());
}
