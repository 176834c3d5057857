//! Configurations: who votes, and who learns.
//!
//! A plain configuration has one set of voters, the incoming ones, and learners, which get entries and never vote. A *joint* one also has
//! the voters from before the change, the outgoing ones. Then a majority of each set must agree, so neither decides alone. An outgoing
//! voter that becomes a learner waits in `next` (Ongaro's thesis, section 4.3; etcd raft documentation, "Learners").
ghost use Rattle.std.specs.Prelude.{◌≡◌, ◌↔◌, [], false, IsTrue, IfOk};
ghost use Rattle.rb_tracker.specs.Configs.{is_joint, is_voter, is_member, voters, members, config_of, state_of};

use crate::id_set::IdSet;
use rb_vocab::ConfState;
use std::alloc::{AllocError, Global};

/// The voters, the learners, and those that become learners when the joint configuration is left. Each set is a small ascending vector.
#[derive(Clone, Drop)]
pub struct Config {
    /// The voters.
    pub incoming: IdSet,
    /// In a joint configuration, the voters from before the change; otherwise none.
    pub outgoing: IdSet,
    /// The nodes that get entries and don't vote.
    pub learners: IdSet,
    /// Outgoing voters that become learners when the joint configuration is left.
    pub next: IdSet,
    /// Whether a leader leaves the joint configuration by itself.
    pub auto: bool,
}

impl Config {
    /// A configuration without members.
    pub fn new(alloc: Global) -> Config
        ensures { result ≡ record { incoming = []; outgoing = []; learners = []; next = []; auto = false } }
    {
        Config {
            incoming: IdSet::new(alloc),
            outgoing: IdSet::new(alloc),
            learners: IdSet::new(alloc),
            next: IdSet::new(alloc),
            auto: false,
        }
    }

    /// The configuration of a snapshot.
    pub fn of_state(alloc: Global, state: &ConfState) -> Result<Config, AllocError>
        ensures { IfOk result (λ config. config ≡ config_of state.now) }
    {
        Ok(Config {
            incoming: IdSet::of(alloc, state.incoming.as_slice())?,
            outgoing: IdSet::of(alloc, state.outgoing.as_slice())?,
            learners: IdSet::of(alloc, state.learners.as_slice())?,
            next: IdSet::of(alloc, state.next.as_slice())?,
            auto: state.auto,
        })
    }

    /// The configuration in the form of a snapshot.
    pub fn to_state(&self) -> Result<ConfState, AllocError>
        ensures { IfOk result (λ state. state ≡ state_of self.now) }
    {
        Ok(ConfState {
            incoming: self.incoming.to_shared()?,
            outgoing: self.outgoing.to_shared()?,
            learners: self.learners.to_shared()?,
            next: self.next.to_shared()?,
            auto: self.auto,
        })
    }

    /// Whether the configuration is joint.
    pub fn is_joint(&self) -> bool
        ensures { result ≡ is_joint self.now }
    {
        !self.outgoing.is_empty()
    }

    /// Whether an id is a voter, in either set.
    pub fn is_voter(&self, id: u64) -> bool
        ensures { result ≡ is_voter self.now id }
    {
        self.incoming.contains(id) || self.outgoing.contains(id)
    }

    /// Whether an id is a voter or a learner, now or later.
    pub fn is_member(&self, id: u64) -> bool
        ensures { result ≡ is_member self.now id }
    {
        self.is_voter(id) || self.learners.contains(id) || self.next.contains(id)
    }

    /// The voters of both sets.
    pub fn voters(&self) -> Result<IdSet, AllocError>
        ensures { IfOk result (λ ids. ids ≡ voters self.now) }
    {
        let mut ids = self.outgoing.try_copy()?;
        ids.extend(self.incoming.as_slice())?;
        Ok(ids)
    }

    /// Voters and learners.
    pub fn members(&self) -> Result<IdSet, AllocError>
        ensures { IfOk result (λ ids. ids ≡ members self.now) }
    {
        let mut ids = self.voters()?;
        ids.extend(self.learners.as_slice())?;
        ids.extend(self.next.as_slice())?;
        Ok(ids)
    }

    pub fn try_copy(&self) -> Result<Config, AllocError>
        ensures { IfOk result (λ copy. copy ≡ self.now) }
    {
        self.clone()
    }

    /// Whether both configurations are equal. Takes no memory.
    pub fn same(&self, other: &Config) -> bool
        ensures { IsTrue result ↔ (self.now ≡ other.now) }
    {
        self.incoming.same(&other.incoming)
            && self.outgoing.same(&other.outgoing)
            && self.learners.same(&other.learners)
            && self.next.same(&other.next)
            && self.auto == other.auto
    }
}
