//! The program's subcommands except `lsp`, over the files, the streams, the environment and the clock of a runtime.
//!
//! [`check_all`] checks scripts, [`show_directives`] shows the directives, and [`carry_out`] runs a subcommand for one script.
//! Each returns its status, or a [`ProgramError`], which reports itself on standard error.
//!
//! `page_over` reads a script, runs it and writes its page, `chart_over` the picture of its run, and `trace_over` its trace: what rb_bench's `run_over` is for a report,
//! with the same faults and statuses. They write nothing before all memory is there.
#![tactic(auto)]

mod arguments;
mod chart;
mod chart_over;
mod checking;
mod clap_text;
mod colors;
mod console;
mod directives;
mod document;
mod environment;
mod error_lines;
mod job;
mod laws;
mod limits;
mod look;
mod noting;
mod page_over;
mod path_kind;
mod program_error;
mod progress;
mod reading;
mod rewriting;
mod running;
mod script_chart;
mod script_steps;
mod shown;
mod spacing;
mod style;
mod subcommands;
mod target;
mod trace_over;
mod usage_error;
mod work;

pub use arguments::choice_by;
pub use checking::{Terminals, check_all};
pub use console::{Console, RuntimeConsole};
pub use directives::show_directives;
pub use environment::Environment;
pub use laws::pages_are_one;
pub use limits::limits_are;
pub use path_kind::{PathKind, PathKinds};
pub use program_error::ProgramError;
pub use subcommands::carry_out;
pub use usage_error::UsageError;
