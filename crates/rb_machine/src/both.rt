//! Two observers of one run.

use crate::observer::Observer;
use rb_node::Node;
use rb_raftlog::RaftLog;
use rb_texts::Item;
use rb_vocab::Level;
use std::alloc::AllocError;

/// Two observers that each get everything: a page has the lines and the rows of one run.
#[derive(Drop)]
pub struct Both<A, B> {
    pub first: A,
    pub second: B,
}

impl<L: RaftLog, A: Observer<L>, B: Observer<L>> Observer<L> for Both<A, B> {
    ghost Meaning = { A.Meaning × B.Meaning };

    ghost meaning = { λ o. (A.meaning o.first, B.meaning o.second) };

    ghost starting = { λ m level. (A.starting m.0 level, B.starting m.1 level) };

    ghost taking = { λ m item. (A.taking m.0 item, B.taking m.1 item) };

    ghost settling = { λ m id n. (A.settling m.0 id n, B.settling m.1 id n) };

    fn start(&mut self, level: Level) {
        self.first.start(level);
        self.second.start(level);
    }

    fn observe(&mut self, item: &Item<'_>) -> Result<(), AllocError> {
        self.first.observe(item)?;
        self.second.observe(item)
    }

    fn settle(&mut self, id: u64, node: &Node<L>) -> Result<(), AllocError> {
        self.first.settle(id, node)?;
        self.second.settle(id, node)
    }
}
