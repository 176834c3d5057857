//! Sessions and clusters by their calls: worked examples of edits with what each executes and where checkpoints are kept after it, an
//! insert at each position of a long script, edits that are refused, and each allocation refused.

mod clusters;
mod edits;
mod tested;

use rb_cluster::Cluster;
use rb_raftlog::{PlainLog, SplitLog};
use rb_replay::Session;

/// A session as the program has it.
type BenchSession = Session<Cluster<SplitLog>>;

/// The same over plain logs.
type PlainSession = Session<Cluster<PlainLog>>;
