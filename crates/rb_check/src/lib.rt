//! A check of scripts and folders of scripts: they are found, run one after another, shown and accepted.
//!
//! [`check`] does a [`CheckRequest`] over the files, the terminal and the clock of a runtime, and rb_bench's [`Runner`](rb_bench::Runner) runs the scripts. What is found out about scripts goes to standard output, failures and how far the work
//! goes to a stream of errors. The texts of a report are in rb_report and rb_script_report, accepting in rb_script_report.
//!
//! Programs read a [`Format`]: JSON, with an object on each line; workflow commands, which GitHub shows next to the lines of a file; or JUnit's XML.
//! `formatted` gives the report of a script that ran, and `notice_of` everything else. Their texts are `Formats.script_text` and
//! `Formats.notice_text`. A text is made in memory first, so a lack of memory never leaves half of one.
#![tactic(auto)]

mod accepting;
mod alone;
mod answer;
mod check_request;
mod checked_script;
mod checking;
mod command;
mod comment;
mod differing;
mod ending;
mod error_stream;
mod escape;
mod format;
mod formatted;
mod junit;
mod kind;
mod laws;
mod limits;
mod notes;
mod notices;
mod object;
mod paths;
mod person;
mod picking;
mod piece;
mod place;
mod progress;
mod question;
mod ran_directive;
mod remark;
mod replaced;
mod report;
mod report_sink;
mod report_state;
mod results;
mod review;
mod running_check;
mod script_result;
mod showing;
mod system;
mod target;
mod totals_object;
mod visible;
mod xml;

pub use check_request::CheckRequest;
pub use format::Format;
pub use laws::{
    commands_are_lines, objects_are_ascii, suites_hold_texts, visible_texts_act_in_nothing,
};
pub use limits::limits_are;
pub use paths::check;
pub use place::place_at;
pub use progress::ProgressClock;
pub use target::Target;
pub use visible::{Showing, VisibleSink, shown_of_script};
