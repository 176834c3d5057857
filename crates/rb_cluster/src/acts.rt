//! Directives that call nodes.

ghost use Rattle.std.specs.Prelude.{◌≡◌, OnOk};
ghost use Rattle.rb_node.specs.Node.{node_step};
ghost use Rattle.rb_machine.specs.Acts.{ticked_times, step_by, act, propose, set_timeout, transfer, restart, restart_each, report_unreachable};
ghost use Rattle.rb_machine.specs.Effects.{acted};
ghost use Rattle.rb_machine.specs.Observers.{watched, after};
ghost use Rattle.rb_cluster.specs.Calls.{step_of};

use crate::cluster::{Cluster, place_of};
use rb_directive::NodeCommand;
use rb_machine::{Observer, show_events};
use rb_message::{Event, Message};
use rb_node::{ELECTION_TICKS, Node};
use rb_raftlog::RaftLog;
use rb_vocab::{ScriptWord, Shared, Transition, Word};
use std::alloc::AllocError;

// Ticks a node n times.
#[tactic(auto, using(crate::proofs::TickLaws::ticked_on, crate::proofs::TickLaws::ticked_out))]
fn tick_times<L: RaftLog>(
    node: &mut Node<L>,
    times: u64,
    events: &mut Vec<Event>,
) -> Result<(), AllocError>
    ensures { OnOk result (node_step node.new events.new.items ≡ ticked_times times (node_step node.old events.old.items)) }
{
    for _tick in 0..times {
        node.tick(events)?;
    }
    Ok(())
}

// Calls a node, as the directive says.
fn call_node<L: RaftLog>(
    node: &mut Node<L>,
    what: NodeCommand,
    events: &mut Vec<Event>,
) -> Result<(), AllocError>
    ensures { OnOk result (node_step node.new events.new.items ≡ step_by what (node_step node.old events.old.items)) }
{
    match what {
        NodeCommand::Campaign => node.campaign(events),
        NodeCommand::TickElection => tick_times(node, ELECTION_TICKS, events),
        NodeCommand::TickHeartbeat => node.tick(events),
        NodeCommand::ForgetLeader => {
            node.forget_leader();
            Ok(())
        }
    }
}

/// A call of a node, by a directive or by a message.
#[derive(Drop)]
pub(crate) enum NodeCall<'m> {
    /// A directive that has no more arguments.
    Command(NodeCommand),
    /// A payload is proposed.
    Propose(Shared<u8>),
    /// A change of the configuration is proposed.
    ProposeChange(Transition, Shared<Word>),
    /// Leadership is to be transferred to a node.
    Transfer(u64),
    /// The node restarts.
    Restart,
    /// A message is stepped.
    Step(&'m Message),
}

fn make_call<L: RaftLog>(
    node: &mut Node<L>,
    call: NodeCall<'_>,
    events: &mut Vec<Event>,
) -> Result<(), AllocError>
    ensures { OnOk result (node_step node.new events.new.items ≡ step_of call.entry (node_step node.old events.old.items)) }
{
    match call {
        NodeCall::Command(what) => call_node(node, what, events),
        NodeCall::Propose(payload) => node.propose(payload, events),
        NodeCall::ProposeChange(transition, words) => {
            node.propose_change(transition, words, events)
        }
        NodeCall::Transfer(to) => node.transfer(to, events),
        NodeCall::Restart => node.restart(events),
        NodeCall::Step(message) => node.step(message, events),
    }
}

impl<L: RaftLog> Cluster<L> {
    /// Calls a node. Shows its events, and then the node, which has settled.
    pub(crate) fn call_and_settle<O: Observer<L>>(
        &mut self,
        id: u64,
        call: NodeCall<'_>,
        observer: &mut O,
    ) -> Result<(), AllocError>
        ensures { OnOk result (watched self.new (O.meaning observer.new) ≡ after O.taking O.settling (O.meaning observer.old) (acted self.old id (step_of call.entry))) }
    {
        let mut events = Vec::new(self.alloc);
        let Some(shared) = self.nodes.get_mut(place_of(id)) else {
            return Ok(());
        };
        let node = shared.make_mut()?;
        make_call(node, call, &mut events)?;
        show_events(observer, &events)?;
        observer.settle(id, node)
    }

    /// Calls a node, as the directive says.
    pub(crate) fn act<O: Observer<L>>(
        &mut self,
        what: NodeCommand,
        id: u64,
        observer: &mut O,
    ) -> Result<(), AllocError>
        ensures { OnOk result (watched self.new (O.meaning observer.new) ≡ after O.taking O.settling (O.meaning observer.old) (act what id self.old)) }
    {
        self.call_and_settle(id, NodeCall::Command(what), observer)
    }

    /// Proposes a payload at a node.
    pub(crate) fn propose<O: Observer<L>>(
        &mut self,
        id: u64,
        payload: &ScriptWord<'_>,
        observer: &mut O,
    ) -> Result<(), AllocError>
        ensures { OnOk result (watched self.new (O.meaning observer.new) ≡ after O.taking O.settling (O.meaning observer.old) (propose id payload.now self.old)) }
    {
        let bytes = Shared::new(Vec::from_slice(self.alloc, payload.bytes())?)?;
        self.call_and_settle(id, NodeCall::Propose(bytes), observer)
    }

    /// Sets a node's election timeout in ticks.
    pub(crate) fn set_timeout(&mut self, id: u64, ticks: u64) -> Result<(), AllocError>
        ensures { OnOk result (self.new ≡ set_timeout id ticks self.old) }
    {
        if let Some(shared) = self.nodes.get_mut(place_of(id)) {
            shared.make_mut()?.set_timeout(ticks);
        }
        Ok(())
    }

    /// Asks a node to transfer leadership to another.
    pub(crate) fn transfer<O: Observer<L>>(
        &mut self,
        from: u64,
        to: u64,
        observer: &mut O,
    ) -> Result<(), AllocError>
        ensures { OnOk result (watched self.new (O.meaning observer.new) ≡ after O.taking O.settling (O.meaning observer.old) (transfer from to self.old)) }
    {
        self.call_and_settle(from, NodeCall::Transfer(to), observer)
    }

    // Restarts a node.
    fn restart_one<O: Observer<L>>(&mut self, id: u64, observer: &mut O) -> Result<(), AllocError>
        ensures { OnOk result (watched self.new (O.meaning observer.new) ≡ after O.taking O.settling (O.meaning observer.old) (restart self.old id)) }
    {
        self.call_and_settle(id, NodeCall::Restart, observer)
    }

    /// Restarts nodes, in their order.
    pub(crate) fn restart<O: Observer<L>>(
        &mut self,
        ids: &[u8],
        observer: &mut O,
    ) -> Result<(), AllocError>
        ensures { OnOk result (watched self.new (O.meaning observer.new) ≡ after O.taking O.settling (O.meaning observer.old) (restart_each self.old ids.now)) }
    {
        for id in ids {
            self.restart_one(u64::from(*id), observer)?;
        }
        Ok(())
    }

    /// Reports to a node that another can't be reached.
    pub(crate) fn report_unreachable(&mut self, id: u64, peer: u64) -> Result<(), AllocError>
        ensures { OnOk result (self.new ≡ report_unreachable id peer self.old) }
    {
        if let Some(shared) = self.nodes.get_mut(place_of(id)) {
            shared.make_mut()?.report_unreachable(peer);
        }
        Ok(())
    }
}
