//! Running a directive.
//!
//! The first of these faults refuses a directive: its name is unknown or its arguments are wrong (rb_directive), a node that it names
//! doesn't exist, or this cluster can't do it. Otherwise it has its effect.

ghost use Rattle.std.specs.Prelude.{◌≡◌, ◌+◌, ◌<◌, ◌^◌, IfOk, OnOk, None};
ghost use Rattle.rb_script.specs.Tokens.{plain};
ghost use Rattle.rb_directive.specs.Requests.{request, IsWithin};
ghost use Rattle.rb_texts.specs.Items.{error};
ghost use Rattle.rb_machine.specs.Cluster.{is_node};
ghost use Rattle.rb_machine.specs.Outcome.{absent, first_absent, missing_node, fault, act_with, effect, execution, shown_items, lines_at};
ghost use Rattle.rb_machine.specs.Observers.{watched, after, after_directive};

use crate::add_nodes::add_nodes_fault;
use crate::cluster::Cluster;
use crate::meter::Meter;
use crate::shared_node::SharedNode;
use rb_directive::{NodeCommandWithArg, Request, request};
use rb_machine::{Observer, PrintedLines};
use rb_raftlog::RaftLog;
use rb_script::{DirectiveRef, Lines};
use rb_texts::Item;
use rb_vocab::{DirectiveError, Level};
use std::alloc::AllocError;

// Whether a node has this id.
fn is_node<L: RaftLog>(nodes: &[SharedNode<L>], id: u64) -> bool
    ensures { result ≡ is_node nodes.now id }
{
    1 <= id && id <= nodes.len() as u64
}

fn absent<'d, L: RaftLog>(nodes: &[SharedNode<L>], id: u64) -> Option<DirectiveError<'d>>
    ensures { result ≡ absent nodes.now id }
{
    if is_node(nodes, id) {
        return None;
    }
    Some(DirectiveError::NoSuchNode(id))
}

// The first id without a node.
fn first_absent<'d, L: RaftLog>(nodes: &[SharedNode<L>], ids: &[u8]) -> Option<DirectiveError<'d>>
    ensures { result ≡ first_absent nodes.now ids.now }
{
    for id in ids {
        if let Some(fault) = absent(nodes, u64::from(*id)) {
            return Some(fault);
        }
    }
    None
}

// The first node that a request names and that doesn't exist.
fn missing_node<'d, L: RaftLog>(
    nodes: &[SharedNode<L>],
    wanted: &Request<'_>,
) -> Option<DirectiveError<'d>>
    ensures { result ≡ missing_node nodes.now wanted.now }
{
    match wanted {
        Request::AddNodes(_) | Request::LogLevel(_) | Request::RaftState => None,
        Request::ProposeConfChange(asked) => absent(nodes, asked.id),
        Request::DeliverMsgs(asked) => first_absent(nodes, asked.nodes.as_slice()),
        Request::ProcessReady(ids) | Request::Restart(ids) | Request::Stabilize(ids, _) => {
            first_absent(nodes, ids.as_slice())
        }
        Request::NodeCommand(_, id)
        | Request::Propose(id, _)
        | Request::NodeCommandWithArg(_, id, _)
        | Request::RaftLog(id)
        | Request::Status(id) => absent(nodes, *id),
    }
}

// Shows the error of a refused directive.
fn refuse<'d, L: RaftLog, O: Observer<L>>(
    observer: &mut O,
    level: Level,
    fault: DirectiveError<'d>,
) -> Result<(), AllocError>
    ensures { OnOk result (O.meaning observer.new ≡ O.taking (O.starting (O.meaning observer.old) level) (error fault.entry)) }
{
    observer.start(level);
    observer.observe(&Item::Error(fault))
}

impl<L: RaftLog> Cluster<L> {
    // The first fault for which this cluster refuses a request: a node that doesn't exist, or something that it can't do.
    #[tactic(auto, unfolding(rb_machine::specs::Outcome::fault))]
    fn fault<'d>(&self, wanted: &Request<'d>) -> Option<DirectiveError<'d>>
        ensures { result ≡ fault wanted.now self.now }
    {
        let missing = missing_node(&self.nodes, wanted);
        if missing.is_some() {
            return missing;
        }
        match wanted {
            Request::AddNodes(asked) => add_nodes_fault(asked, &self.nodes),
            Request::ProposeConfChange(asked) => asked.fault.as_ref().map(DirectiveError::copy),
            Request::NodeCommandWithArg(what, id, number) => match what {
                NodeCommandWithArg::Compact => self.compact_error(*id, *number),
                _ => None,
            },
            _ => None,
        }
    }

    // Calls a node with a number, as the directive says.
    fn act_with<O: Observer<L>>(
        &mut self,
        what: NodeCommandWithArg,
        id: u64,
        number: u64,
        observer: &mut O,
    ) -> Result<(), AllocError>
        ensures { OnOk result (watched self.new (O.meaning observer.new) ≡ after O.taking O.settling (O.meaning observer.old) (act_with what id number self.old)) }
    {
        match what {
            NodeCommandWithArg::SetRandomizedElectionTimeout => {
                self.set_timeout(id, number)?;
                Ok(())
            }
            NodeCommandWithArg::TransferLeadership => self.transfer(id, number, observer),
            NodeCommandWithArg::ReportUnreachable => {
                self.report_unreachable(id, number)?;
                Ok(())
            }
            NodeCommandWithArg::SendSnapshot => self.send_snapshot(id, number, observer),
            NodeCommandWithArg::Compact => self.compact(id, number, observer),
        }
    }

    // Does what a request asks for, and shows each item of it.
    #[tactic(auto, using(crate::proofs::OutcomeLaws::room_for, crate::proofs::OutcomeLaws::index_for))]
    fn perform<O: Observer<L>>(
        &mut self,
        wanted: &Request<'_>,
        observer: &mut O,
    ) -> Result<(), AllocError>
        requires none { fault wanted.now self.old ≡ None }
        requires within { IsWithin wanted.now }
        ensures { OnOk result (watched self.new (O.meaning observer.new) ≡ after O.taking O.settling (O.meaning observer.old) (effect wanted.now self.old)) }
    {
        match wanted {
            Request::AddNodes(asked) => self.add_nodes(asked, observer),
            Request::NodeCommand(what, id) => self.act(*what, *id, observer),
            Request::Propose(id, payload) => self.propose(*id, payload, observer),
            Request::ProposeConfChange(asked) => self.propose_change(asked, observer),
            Request::ProcessReady(ids) => self.process_ready(ids.as_slice(), observer),
            Request::DeliverMsgs(asked) => self.deliver_msgs(asked, observer),
            Request::Stabilize(ids, rounds) => self.stabilize(ids, *rounds, observer),
            Request::NodeCommandWithArg(what, id, number) => self.act_with(
                *what, *id, *number, observer,
            ),
            Request::Restart(ids) => self.restart(ids.as_slice(), observer),
            Request::LogLevel(level) => {
                self.level = *level;
                Ok(())
            }
            Request::RaftLog(id) => self.show_log(*id, observer),
            Request::Status(id) => self.show_status(*id, observer),
            Request::RaftState => self.show_states(observer),
        }
    }

    /// Runs a directive, and shows an observer each item: its error, or its effects.
    ///
    /// # Errors
    ///
    /// If memory was refused. The cluster and the observer are then unknown.
    #[tactic(auto, unfolding(rb_machine::specs::Outcome::execution))]
    pub fn run_watched<O: Observer<L>>(
        &mut self,
        directive: &DirectiveRef<'_>,
        observer: &mut O,
    ) -> Result<(), AllocError>
        ensures { OnOk result (watched self.new (O.meaning observer.new) ≡ after_directive O.starting O.taking O.settling (O.meaning observer.old) (execution self.old (plain directive.now))) }
    {
        // The request is borrowed, since it is large.
        let read = request(directive);
        let asked = match &read {
            Ok(asked) => asked,
            Err(error) => return refuse(observer, self.level, error.copy()),
        };
        if let Some(error) = self.fault(&asked.request) {
            return refuse(observer, self.level, error);
        }
        observer.start(asked.log_level.unwrap_or(self.level));
        self.perform(&asked.request, observer)
    }

    /// Runs a directive as [`Cluster::run_watched`] does. The meter rises by one, even if this fails; at its end it stays.
    pub fn run_counted<O: Observer<L>>(
        &mut self,
        directive: &DirectiveRef<'_>,
        observer: &mut O,
        meter: &mut Meter,
    ) -> Result<(), AllocError>
        ensures watched { OnOk result (watched self.new (O.meaning observer.new) ≡ after_directive O.starting O.taking O.settling (O.meaning observer.old) (execution self.old (plain directive.now))) }
        ensures counted { meter.old < 2 ^ 63 → meter.new ≡ meter.old + 1 }
    {
        meter.raise_or_stay();
        self.run_watched(directive, observer)
    }

    /// Runs a directive, and returns what it prints.
    pub(crate) fn printed(&mut self, directive: &DirectiveRef<'_>) -> Result<Lines, AllocError>
        ensures cluster { OnOk result (self.new ≡ (execution self.old (plain directive.now)).cluster) }
        ensures output { IfOk result (λ lines. lines ≡ lines_at (execution self.old (plain directive.now)).level (shown_items (execution self.old (plain directive.now)))) }
    {
        let mut printed = PrintedLines::new(self.alloc);
        self.run_watched(directive, &mut printed)?;
        printed.or_ok()
    }
}
