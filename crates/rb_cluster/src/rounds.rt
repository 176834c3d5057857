//! `stabilize`: runs rounds over nodes until there is no work left.
//!
//! A round first processes the ready of each chosen node, and then delivers each one's pending messages. One pass over the pending messages
//! marks their receivers, so a round doesn't search them once a node.

ghost use Rattle.std.specs.Prelude.{◌≡◌, OnOk, IfOk};
ghost use Rattle.rb_directive.specs.Requests.{all_mail};
ghost use Rattle.rb_machine.specs.Deliveries.{delivered_each};
ghost use Rattle.rb_machine.specs.Rounds.{is_chosen, chosen, is_ready, has_mail, has_work, each_ready_processed, round, rounds_run, stabilized};
ghost use Rattle.rb_cluster.specs.Receivers.{IsMarked, is_marked};
ghost use Rattle.rb_machine.specs.Observers.{watched, after};

use crate::cluster::Cluster;
use crate::shared_message::SharedMessage;
use rb_directive::{IdList, MAX_ID, MailChoice};
use rb_machine::Observer;
use rb_raftlog::RaftLog;
use rb_texts::Item;
use std::alloc::AllocError;

// The number of ids that can be marked: 0, and those of nodes.
const MARKS: usize = MAX_ID as usize + 1;

/// The nodes with pending messages.
#[derive(Drop)]
struct Receivers {
    has: [bool; MARKS],
}

impl Receivers {
    // Marks the receivers of these messages.
    fn of(pending: &[SharedMessage]) -> Receivers
        ensures { IsMarked pending.now result.has }
    {
        let mut has = [false; MARKS];
        for shared in pending {
            let to = shared.message().to as usize;
            if to < MARKS {
                has[to] = true;
            }
        }
        Receivers { has }
    }

    // Whether a message may be for this node.
    fn has(&self, id: u64) -> bool
        ensures { result ≡ is_marked self.now.has id }
    {
        id >= MARKS as u64 || self.has[id as usize]
    }
}

// Whether a message is for this node.
fn has_mail(pending: &[SharedMessage], id: u64) -> bool
    ensures { result ≡ has_mail pending.now id }
{
    pending.iter().any(|shared| shared.message().to == id)
}

// Whether the node is chosen. Without named nodes, all are.
#[tactic(auto, using(crate::proofs::RoundLaws::chosen_named))]
fn is_chosen(named: &IdList, id: u64) -> bool
    ensures { result ≡ is_chosen named.now id }
{
    named.as_slice().is_empty() || named.holds(id)
}

impl<L: RaftLog> Cluster<L> {
    // The chosen nodes, ascending.
    fn chosen(&self, named: &IdList) -> Result<Vec<u64>, AllocError>
        ensures { IfOk result (λ ids. ids.items ≡ chosen named.now self.now.nodes) }
    {
        let mut ids = Vec::new(self.alloc);
        for id in 1..self.nodes.len() as u64 + 1 {
            if is_chosen(named, id) {
                ids.push(id)?;
            }
        }
        Ok(ids)
    }

    // Whether the node has something ready.
    fn is_ready(&self, id: u64) -> bool
        ensures { result ≡ is_ready self.now id }
    {
        match self.node_with(id) {
            Some(node) => node.has_ready(),
            None => false,
        }
    }

    // Whether a node has something ready, or a message is pending for it.
    #[tactic(auto, unfolding(rb_machine::specs::Rounds::has_work))]
    fn has_work(&self, ids: &[u64]) -> bool
        ensures { result ≡ has_work self.now ids.now }
    {
        let receivers = Receivers::of(&self.pending);
        for id in ids {
            if self.is_ready(*id) || (receivers.has(*id) && has_mail(&self.pending, *id)) {
                return true;
            }
        }
        false
    }

    // Processes the ready of each node that has one.
    fn process_each_ready<O: Observer<L>>(
        &mut self,
        ids: &[u64],
        observer: &mut O,
    ) -> Result<(), AllocError>
        ensures { OnOk result (watched self.new (O.meaning observer.new) ≡ after O.taking O.settling (O.meaning observer.old) (each_ready_processed self.old ids.now)) }
    {
        for id in ids {
            if self.is_ready(*id) {
                self.process_one_ready(*id, observer)?;
            }
        }
        Ok(())
    }

    // Delivers each node's pending messages.
    fn deliver_to_each<O: Observer<L>>(
        &mut self,
        ids: &[u64],
        observer: &mut O,
    ) -> Result<(), AllocError>
        ensures { OnOk result (watched self.new (O.meaning observer.new) ≡ after O.taking O.settling (O.meaning observer.old) (delivered_each all_mail self.old ids.now)) }
    {
        let receivers = Receivers::of(&self.pending);
        let all = MailChoice::all();
        for id in ids {
            if receivers.has(*id) {
                self.deliver(*id, &all, observer)?;
            }
        }
        Ok(())
    }

    #[tactic(auto, unfolding(rb_machine::specs::Rounds::round))]
    fn round<O: Observer<L>>(&mut self, ids: &[u64], observer: &mut O) -> Result<(), AllocError>
        ensures { OnOk result (watched self.new (O.meaning observer.new) ≡ after O.taking O.settling (O.meaning observer.old) (round ids.now self.old)) }
    {
        self.process_each_ready(ids, observer)?;
        self.deliver_to_each(ids, observer)
    }

    // Runs rounds while there is work, up to a limit.
    fn run_rounds<O: Observer<L>>(
        &mut self,
        rounds: u64,
        ids: &[u64],
        observer: &mut O,
    ) -> Result<(), AllocError>
        ensures { OnOk result (watched self.new (O.meaning observer.new) ≡ after O.taking O.settling (O.meaning observer.old) (rounds_run rounds rounds ids.now self.old)) }
    {
        for _round in 0..rounds {
            if !self.has_work(ids) {
                return Ok(());
            }
            self.round(ids, observer)?;
        }
        if self.has_work(ids) {
            return observer.observe(&Item::Stopped(rounds));
        }
        Ok(())
    }

    /// Runs rounds over the named nodes, or over all if none is named, until there is no work left or the limit is reached.
    pub(crate) fn stabilize<O: Observer<L>>(
        &mut self,
        named: &IdList,
        rounds: u64,
        observer: &mut O,
    ) -> Result<(), AllocError>
        ensures { OnOk result (watched self.new (O.meaning observer.new) ≡ after O.taking O.settling (O.meaning observer.old) (stabilized named.now rounds self.old)) }
    {
        let ids = self.chosen(named)?;
        self.run_rounds(rounds, &ids, observer)
    }
}
