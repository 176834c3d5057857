//! What the run of a script is, step by step, as a page shows it.
//!
//! [`steps_of`] runs the directives of a session once more and keeps, as texts of rows (docs/FORMATS.md), what is in the script, what each
//! directive printed, what it did whatever the level is, and what is after each event that didn't stand so before. So the rows grow
//! with what happens, and not with nodes times directives. [`put_page`] writes them, and a page around them. Nothing is written before all
//! memory is there. [`rows_of_some`] makes the rows of some directives alone, from a checkpoint of the session.

mod cells;
mod committed;
mod fresh;
mod laws;
mod log;
mod meant;
mod node;
mod page;
mod room;
mod rows;
mod script;
mod shown;
mod some;
mod step;
mod steps;
mod stretch;
mod views;
mod written;

pub use laws::{
    changes_grow_with_what_differs, clusters_meet_after_what_ran, committed_entries_stay,
    few_run_before, logs_read_back, pages_grow_with_what_happens, rows_are_a_page, rows_stay,
    some_steps_are_rows, steps_are_inert, steps_are_json, steps_are_rows,
    what_is_not_written_stood, what_stands_still_has_no_row,
};
pub use page::{FORMAT, Frame, put_page, put_steps};
pub use room::MAX_PAGE;
pub use shown::{DirectiveRun, StepMachine};
pub use some::{SomeDirectives, rows_of_some};
pub use steps::steps_of;
