//! How many nodes a machine has.

ghost use Rattle.std.specs.Prelude.{◌≡◌, length};

use rb_cluster::Cluster;
use rb_machine::Machine;
use rb_raftlog::RaftLog;

/// A machine that knows how many nodes it has.
pub trait Nodes: Machine {
    /// How many nodes there are.
    fn count(&self) -> usize
        ensures { result ≡ length (Self.meaning self.now).nodes };
}

impl<L: RaftLog> Nodes for Cluster<L> {
    fn count(&self) -> usize {
        self.nodes().len()
    }
}
