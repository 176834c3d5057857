//! A prepared change, and installing its checkpoints.

ghost use Rattle.std.specs.Prelude.{◌≡◌, ◌+◌, ◌≤◌, ℕ, ◌++◌, length, take, drop, map, vec_len, vec_capacity};
ghost use Rattle.rb_machine.specs.Cluster.{Cluster};
ghost use Rattle.rb_replay.specs.Points.{thin};

use crate::points::{replace_range, thin};
use crate::prepare::Rejoin;
use crate::run::Run;
use rb_machine::Machine;
use rb_script::{ChunkedList, Lines};

/// A prepared change: the rerun, where the old run continues, and the new outputs, points and mismatches.
#[derive(Drop)]
pub(crate) struct Ready<M> {
    pub(crate) running: Run<M>,
    pub(crate) rejoin: Rejoin,
    pub(crate) outputs: ChunkedList<Lines>,
    pub(crate) points: Vec<usize>,
    pub(crate) mismatches: Vec<usize>,
}

/// Replaces the old clusters by those of the rerun, and thins them. Allocates nothing.
pub(crate) fn install_checkpoints<M: Machine>(
    mut running: Run<M>,
    rejoin: Rejoin,
    points: &mut Vec<usize>,
    kept: &mut Vec<M>,
)
    requires order { rejoin.front ≤ rejoin.rest }
    requires within { rejoin.rest ≤ vec_len kept.old }
    requires room { vec_len kept.old + vec_len running.kept ≤ vec_capacity kept.old }
    requires paired { length (take rejoin.front kept.old.items ++ (running.kept.items ++ drop rejoin.rest kept.old.items)) ≡ length points.old.items }
    ensures points { points.new.items ≡ thin running.checkpoint_interval points.old.items }
    ensures kept { (f : ℕ → Cluster) → map M.meaning (take rejoin.front kept.old.items ++ (running.kept.items ++ drop rejoin.rest kept.old.items)) ≡ map f points.old.items → map M.meaning kept.new.items ≡ map f points.new.items }
{
    replace_range(kept, rejoin.front, rejoin.rest, &mut running.kept);
    thin(points, kept, running.checkpoint_interval);
}
