//! The report of `raftbench check` for a script that ran: each mismatch, in order, with the line on which its head begins, and
//! each error that no comment expects; and the script after its outputs are accepted.
//!
//! [`put_checked`] writes the report of a session on any [`Machine`](rb_machine::Machine) into any sink. One definition says what it
//! writes: `Checked.checked_text`, or `Whys.told_text` with the reasons why messages had no effect. The laws say that it is the
//! mismatches. [`accept`] gives the text with the accepted outputs, and [`warnings`] finds probable mistakes.
#![tactic(auto)]

mod accept_options;
mod accepting;
mod alone;
mod answers;
mod errors;
mod fault;
mod hint;
mod laws;
mod layout;
mod names;
mod part;
mod put;
mod reasons;
mod shown_script;
mod splice;
mod summary;
mod text;
mod unnamed;
mod view;
mod warning;
mod whole_lines;
mod written;

pub use accept_options::{AcceptFilter, AcceptOptions, is_picked};
pub use accepting::put_left_errors;
pub use alone::put_alone;
pub use answers::{block_at, number_at, output_at};
pub use errors::{first_line, has_errors, is_error, is_unexpected};
pub use fault::ShowFault;
pub use hint::hint_of;
pub use laws::{
    accepted_scripts_are, called_lines_look_like_directives, echoes_are_left,
    errors_are_accepted_on_request, matching_scripts_show_nothing, mismatches_are_shown,
    new_errors_are_left, nothing_is_told_unasked, others_stay, reasons_stand_between_outputs,
    shown_lines_are_of_heads,
};
pub use layout::Layout;
pub use names::begins_with_name;
pub use put::{first_index, is_quiet, is_same, put_checked, summary_of};
pub use reasons::{LineReasons, why_at};
pub use shown_script::ShownScript;
pub use summary::ScriptSummary;
pub use unnamed::picked_unnamed;
pub use view::{Detail, View};
pub use warning::{Warning, warnings};
pub use written::{AcceptFault, Accepted, accept};
