//! The texts of `raftbench check`, and the statuses of the program: mismatches, why a script is refused or a file failed,
//! totals, and the final status.
//!
//! It opens no file and runs no script: it writes to any sink. Its only memory is a [`Table`], which is allocated once.
//! If a line is empty, ends in a space, a tab or `$`, or looks like a fold, a `$` is shown after its end: so blanks are visible,
//! and no two lines look alike. All other bytes are written as they are.

mod accepted;
mod brief;
mod colors;
mod diff;
mod end;
mod failure;
mod file_line;
mod fold;
mod head;
mod highlight;
mod hint;
mod laws;
mod left;
mod line;
mod line_range;
mod line_view;
mod longest;
mod mismatch;
mod name;
mod outcome;
mod piece;
mod position;
mod refusal;
mod side;
mod status;
mod steps;
mod stretch;
mod table;
mod totals;
mod warning_kind;
mod why;

pub use accepted::put_accepted;
pub use brief::put_brief;
pub use colors::Colors;
pub use diff::{put_diff_within, put_explained_diff};
pub use failure::{Failure, failure_sentence, put_failure};
pub use file_line::FileLine;
pub use head::put_head;
pub use hint::Hint;
pub use laws::{
    colors_go_around, comparing_is_bounded, counts_are_sums, diffs_are, diffs_are_longest,
    diffs_are_their_stretches, diffs_tell_both_sides, highlights_are_least, highlights_need_colors,
    highlights_take_nothing_away, lines_are_told_apart, reasons_stand_between,
    same_lines_are_plain, sentences_are_distinct, shown_diffs_tell_both_sides,
    shown_names_act_in_nothing, statuses_are_greatest,
};
pub use left::put_left;
pub use line_range::LineRange;
pub use mismatch::{MismatchView, Sides, put_directive, put_mismatch, put_note};
pub use name::{acts_in_line, by_number, has_acting_char, put_name, shown_name};
pub use outcome::Outcome;
pub use piece::ReportPiece;
pub use refusal::{fault_line, put_refusal, sentence};
pub use side::Side;
pub use status::Status;
pub use steps::put_run;
pub use stretch::{StretchObserver, show_diff};
pub use table::{MAX_CELLS, MAX_SCRIPT_CELLS, Table};
pub use totals::{Totals, put_totals};
pub use warning_kind::{WarningKind, put_unaccepted, put_warning, warning_sentence};
pub use why::Why;
