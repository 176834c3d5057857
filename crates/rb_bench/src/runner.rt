//! Running scripts.

use crate::directive_observer::DirectiveObserver;
use crate::progress::RunProgress;
use crate::starting::BenchSession;
use rb_cluster::{Cluster, Meter};
use rb_machine::Machine;
use rb_raftlog::SplitLog;
use rb_replay::{Outputs, Session, StartFault, block_at};
use rb_script::{DirectiveRef, Lines, Script, ScriptWithLines, limits_are};
use rb_script_report::Layout;
use std::alloc::{AllocError, Global};
use std::marker::Model;

/// Runs scripts on clusters of nodes with split logs. It counts the directives that it has run, and reports to a [`RunProgress`] which one runs.
#[derive(Drop)]
pub struct Runner<'p, P> {
    alloc: Global,
    progress: &'p P,
    meter: Meter,
}

/// A runner is the number of directives that it has run.
impl<'p, P> Model for Runner<'p, P> {
    ghost use Rattle.std.specs.Prelude.{ℕ};

    ghost Value = { ℕ };

    ghost view = { λ r. r.meter };
}

/// A script that ran.
#[derive(Drop)]
pub struct ScriptRun {
    /// A session on it, without checkpoints.
    pub session: BenchSession,
    /// Its layout in its bytes.
    pub layout: Layout,
    /// The reasons of its outputs, if they were asked for.
    pub whys: Vec<Lines>,
}

// What the directives of a script gave: their outputs, and the reasons of each if they were asked for.
#[derive(Drop)]
struct ScriptOutputs {
    outputs: Outputs,
    whys: Vec<Lines>,
}

impl ScriptOutputs {
    ghost use Rattle.std.specs.Prelude.{◌≡◌, ◌∷◌, ◌++◌, [], OnOk, option_map};
    ghost use Rattle.rb_machine.specs.Outcome.{or_ok};
    ghost use Rattle.rb_script_report.specs.Whys.{all_reasons};
    ghost use Rattle.rb_bench.specs.Reasons.{listed};

    fn new(alloc: Global) -> ScriptOutputs
        ensures outputs { result.outputs ≡ [] }
        ensures whys { result.whys.items ≡ [] }
    {
        ScriptOutputs {
            outputs: Outputs::new(alloc),
            whys: Vec::new(alloc),
        }
    }

    // Appends the output of a directive that was observed, and its reasons.
    fn push<P>(&mut self, observed: DirectiveObserver<'_, '_, P>) -> Result<(), AllocError>
        ensures outputs { OnOk result (self.new.outputs ≡ self.old.outputs ++ or_ok observed.entry.printed.level observed.entry.printed.lines ∷ []) }
        ensures whys { OnOk result (self.new.whys.items ≡ self.old.whys.items ++ listed (option_map all_reasons observed.entry.reasons)) }
    {
        self.outputs.push(observed.printed.or_ok()?)?;
        if let Some(reasons) = observed.reasons {
            self.whys.push(reasons.all()?)?;
        }
        Ok(())
    }
}

impl<'p, P: RunProgress> Runner<'p, P> {
    ghost use Rattle.std.specs.Prelude.{◌≡◌, ◌≢◌, ◌+◌, ◌<◌, ◌≤◌, ◌^◌, ◌∷◌, ◌++◌, [], Err, IfErr, IfOk, IfSome, OnOk, length};
    ghost use Rattle.rb_script.specs.declared.limits.TheConstants.{MAX_DIRECTIVES};
    ghost use Rattle.rb_script.specs.Reading.{early_fault, read_of};
    ghost use Rattle.rb_script.specs.Reads.{Reads};
    ghost use Rattle.rb_script.specs.Script.{PlainScript};
    ghost use Rattle.rb_script.specs.Tokens.{plain};
    ghost use Rattle.rb_machine.specs.Outcome.{execution, outcome};
    ghost use Rattle.rb_replay.specs.Holding.{IsOneRun};
    ghost use Rattle.rb_replay.specs.Run.{outputs};
    ghost use Rattle.rb_replay.specs.Start.{TellsStartFault};
    ghost use Rattle.rb_script_report.specs.Layouts.{IsLayout};
    ghost use Rattle.rb_bench.specs.Reasons.{asked_reasons, listed, reasons_if};

    /// Has run nothing.
    pub fn new(alloc: Global, progress: &'p P) -> Runner<'p, P>
        ensures { result ≡ 0 }
    {
        Runner {
            alloc,
            progress,
            meter: Meter::new(),
        }
    }

    /// Reads the script of the bytes, and runs it on the empty cluster, each directive once. If reasons are asked for, those of the same run are kept.
    /// The progress is told when the run begins, and when it has ended.
    ///
    /// # Errors
    ///
    /// `Script` if the bytes are not a script, and `OutOfMemory`.
    pub fn run_script(&mut self, bytes: &[u8], explains: bool) -> Result<ScriptRun, StartFault>
        ensures script { IfOk result (λ run. IsLayout bytes.now run.session.script run.layout) }
        ensures run { IfOk result (λ run. IsOneRun run.session) }
        ensures whys { IfOk result (λ run. run.whys.items ≡ asked_reasons explains run.session.script) }
        // A script is refused only if there is no memory.
        ensures only { (s : PlainScript) → Reads bytes.now s → IfErr result (λ fault. fault ≡ StartFault.OutOfMemory) }
        ensures refused { IfErr result (λ fault. TellsStartFault fault (read_of bytes.now)) }
        // Faults of length are found whether or not there is memory.
        ensures early { IfSome (early_fault bytes.now) (λ fault. result ≡ Err (StartFault.Script fault)) }
        // There is no checkpoint interval to check.
        ensures spaced { result ≢ Err StartFault.BadSpacing }
        // Each directive is run once; if memory is refused, none is run twice.
        ensures counted { self.old ≤ 2 ^ 62 → IfOk result (λ run. self.new ≡ self.old + length run.session.script.blocks) }
        ensures most { self.old ≤ 2 ^ 62 → IfOk (read_of bytes.now) (λ s. self.new ≤ self.old + length s.blocks) }
        // If there is no script, nothing is run.
        ensures none { IfErr (read_of bytes.now) (λ _. self.new ≡ self.old) }
    {
        let read = ScriptWithLines::read(self.alloc, bytes)?;
        let layout = Layout {
            text: read.lines,
            heads: read.heads,
        };
        let (session, whys) = self.run_read(read.script, explains)?;
        Ok(ScriptRun {
            session,
            layout,
            whys,
        })
    }

    // Runs a script; returns a session on it, and the reasons of its outputs if they are asked for.
    fn run_read(
        &mut self,
        script: Script,
        explains: bool,
    ) -> Result<(BenchSession, Vec<Lines>), AllocError>
        requires { length script.blocks ≤ MAX_DIRECTIVES }
        ensures script { IfOk result (λ ran. ran.0.script ≡ script) }
        ensures whys { IfOk result (λ ran. ran.1.items ≡ asked_reasons explains script) }
        ensures counted { self.old ≤ 2 ^ 62 → OnOk result (self.new ≡ self.old + length script.blocks) }
        ensures most { self.old ≤ 2 ^ 62 → self.new ≤ self.old + length script.blocks }
    {
        self.progress.begin(script.len());
        let ran = self.run(&script, explains);
        self.progress.end();
        let ScriptOutputs { outputs, whys } = ran?;
        Ok((Session::from_outputs(self.alloc, script, outputs)?, whys))
    }

    // Runs the directives of a script on the empty cluster.
    fn run(&mut self, script: &Script, explains: bool) -> Result<ScriptOutputs, AllocError>
        requires { length script.now.blocks ≤ MAX_DIRECTIVES }
        ensures outputs { IfOk result (λ ran. ran.outputs ≡ outputs script.now) }
        ensures whys { IfOk result (λ ran. ran.whys.items ≡ asked_reasons explains script.now) }
        ensures counted { self.old ≤ 2 ^ 62 → OnOk result (self.new ≡ self.old + length script.now.blocks) }
        ensures most { self.old ≤ 2 ^ 62 → self.new ≤ self.old + length script.now.blocks }
    {
        limits_are();
        let mut ran = ScriptOutputs::new(self.alloc);
        let mut cluster: Cluster<SplitLog> = Machine::empty(self.alloc)?;
        for i in 0..script.len() {
            let directive = block_at(script, i).directive();
            self.run_directive(&mut cluster, &directive, explains, &mut ran)?;
        }
        Ok(ran)
    }

    // Runs a directive. Appends its output to those of the directives before it, and the reasons below its lines if they are asked for. It is
    // counted, even if this fails. If it fails, the cluster is unknown.
    #[tactic(auto, unfolding(rb_machine::specs::Outcome::outcome))]
    fn run_directive(
        &mut self,
        cluster: &mut Cluster<SplitLog>,
        directive: &DirectiveRef<'_>,
        explains: bool,
        ran: &mut ScriptOutputs,
    ) -> Result<(), AllocError>
        ensures counted { self.old < 2 ^ 63 → self.new ≡ self.old + 1 }
        ensures cluster { OnOk result (cluster.new ≡ (outcome cluster.old (plain directive.now)).cluster) }
        ensures outputs { OnOk result (ran.new.outputs ≡ ran.old.outputs ++ (outcome cluster.old (plain directive.now)).output ∷ []) }
        ensures whys { OnOk result (ran.new.whys.items ≡ ran.old.whys.items ++ listed (reasons_if explains (execution cluster.old (plain directive.now)))) }
    {
        let mut observer = DirectiveObserver::new(self.alloc, self.progress, directive, explains);
        cluster.run_counted(directive, &mut observer, &mut self.meter)?;
        ran.push(observer)
    }
}
