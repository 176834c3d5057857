//! What an editor offers of a script without running it: folds, an outline, the canonical text, and completion.
//!
//! [`add_folds`], [`add_symbols`], [`add_formatting`] and [`add_completion`] append the result of a request, as JSON. Each is a function of the
//! document's text and of what columns count in. Completion also depends on a [`CompletionPlace`], and on how many nodes the cluster has.

mod above;
mod block_lines;
mod completion;
mod folds;
mod formatting;
mod ids;
mod laws;
mod offer;
mod part;
mod place;
mod symbols;
mod unfinished;
mod words;
mod writing;

pub(crate) use above::{begun_lines, line_begin};
pub(crate) use block_lines::{all_lines, blocks_of, script_of};
pub use block_lines::{BlockLines, begins_rule};
pub use completion::add_completion;
pub use folds::add_folds;
pub use formatting::add_formatting;
pub(crate) use formatting::{add_edits, formatted, has_canonical};
pub use laws::{
    blocks_stand_apart, changes_are_those_of_the_nodes, formatting_makes_the_canonical_text,
    heads_are_known, ids_are_those_of_the_nodes, keys_are_those_of_the_table, lines_stay_in_order,
    names_are_those_of_the_table, range_formatting_keeps_the_script,
    values_are_those_of_the_option,
};
pub use place::CompletionPlace;
pub(crate) use symbols::line_at;
pub use symbols::{MAX_NAME, add_symbols};
pub use writing::add_range_member;
pub(crate) use writing::{add_position, add_range};
