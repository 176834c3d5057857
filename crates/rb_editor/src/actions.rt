//! What an editor is shown of a script: the language server of scripts.
//!
//! [`lsp`] publishes mismatches, errors, and why a text isn't a script. On request it shows the output of a directive with its reasons and the
//! cluster after it, offers actions and lenses that correct words and accept outputs, and completes. All this is what one fresh run of the text gives.
//! Each document keeps its session, and what is shown depends on the text alone. A run stops after as much work as an editor waits for: then
//! the diagnostics are those of the text above, and one where it stopped.

mod above;
mod action;
mod actual_output;
mod bench;
mod bounded;
mod comparisons;
mod completing;
mod correction;
mod diagnostic;
mod document;
mod explain;
mod extent;
mod finding;
mod findings;
mod fix;
mod front;
mod hover;
mod inlay_hint;
mod laws;
mod layout;
mod leadership;
mod lens;
mod message_lines;
mod message_places;
mod piece;
mod publishing;
mod quiet;
mod range_formatting;
mod replacement;
mod run;
mod same_directives;
mod selection_range;
mod served;
mod shown_message;
mod some_rows;
mod stopped_text;
mod stopping;
mod told;
mod work_meter;

pub use bench::lsp;
pub use laws::{
    accepts_as_check_does, comparing_is_bounded, diffs_are_bounded, edited_lines_read,
    edited_texts_read, edits_replace_lines, ids_are_those_of_the_cluster, limits_are,
    matching_texts_have_none, texts_have_one_run,
};
