//! Runs and sessions over any source and outlet.
//!
//! A [`Runner`] runs scripts, and tells a [`RunProgress`] where the run is: [`run_over`] writes the report of one.
//! [`serve`] serves a session: it reads one command a line, and answers each before it reads the next.
//!
//! [`command_of`] reads the command of a line. A line that isn't a command is [`Command::Bad`], and a blank one is
//! [`Command::Blank`]. It never fails, and allocates nothing.
#![tactic(auto)]

mod choosing;
mod command;
mod directive_observer;
mod fault;
mod gather;
mod given_lines;
mod hear;
mod laws;
mod limits;
mod names;
mod outlet;
mod progress;
mod reply;
mod respond;
mod runner;
mod running;
mod send;
mod session;
mod starting;

pub use choosing::{Choice, chosen};
pub use command::{Command, Purpose, command_of};
pub use fault::BenchFault;
pub use laws::{
    conversations_answer_as_one_run, conversations_are_one, names_are_distinct, runs_are_one,
    sessions_start_as_one,
};
pub use limits::{DEFAULT_CHECKPOINT_INTERVAL, MAX_GIVEN, MAX_READS, limits_are};
pub use names::{edit_fault_name, script_fault_name};
pub use outlet::Outlet;
pub use progress::{NoProgress, RunProgress};
pub use rb_args::{ChoiceFault, ScriptCommand, Subcommand};
pub use rb_report::check::Status;
pub use runner::{Runner, ScriptRun};
pub use running::{Mode, run_over, write_run};
pub use session::serve;
