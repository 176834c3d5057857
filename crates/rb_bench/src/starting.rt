//! Sessions on the script of some bytes.

ghost use Rattle.std.specs.Prelude.{◌≡◌, ◌≢◌, ◌↔◌, Err, true, false, IfOk, IfErr, IfSome};
ghost use Rattle.rb_script.specs.Script.{PlainScript};
ghost use Rattle.rb_script.specs.Reads.{Reads};
ghost use Rattle.rb_script.specs.Reading.{read_of, early_fault};
ghost use Rattle.rb_replay.specs.Start.{is_checkpoint_interval};
ghost use Rattle.rb_bench.specs.Faults.{TellsFault};
ghost use Rattle.rb_bench.specs.Serves.{IsStarted};

use crate::fault::BenchFault;
use rb_cluster::{Cluster, Meter};
use rb_raftlog::SplitLog;
use rb_replay::Session;
use std::alloc::Global;

/// The sessions that the program holds: over the cluster of scripts.
pub(crate) type BenchSession = Session<Cluster<SplitLog>>;

/// Starts a session of the script, with a checkpoint interval of `every`.
pub(crate) fn started(alloc: Global, bytes: &[u8], every: u64) -> Result<BenchSession, BenchFault>
    ensures started { IfOk result (λ s. IsStarted bytes.now every s) }
    // The checkpoint interval is checked first.
    ensures checkpoint_interval { (result ≡ Err BenchFault.Spacing) ↔ (is_checkpoint_interval every ≡ false) }
    // A script is refused only if there is no memory.
    ensures only { (s : PlainScript) → Reads bytes.now s → is_checkpoint_interval every ≡ true → IfErr result (λ fault. fault ≡ BenchFault.OutOfMemory) }
    ensures refused { IfErr result (λ fault. TellsFault fault (read_of bytes.now)) }
    // Faults of length are found whether or not there is memory.
    ensures early { is_checkpoint_interval every ≡ true → IfSome (early_fault bytes.now) (λ fault. result ≡ Err (BenchFault.Script fault)) }
    // Nothing else is read or written.
    ensures own { IfErr result (λ fault. fault ≢ BenchFault.Io) }
{
    let mut meter = Meter::new();
    Ok(Session::start(alloc, bytes, every, &mut meter)?)
}
