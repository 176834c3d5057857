//! Reads, edits and writes interaction scripts.
//!
//! A script is a list of blocks and a tail of lines. A block is a directive with its expectation: lead lines
//! (blank lines and comments), the head (a name and arguments), input lines, a line `----`, and the expected
//! lines. [`Script::read`] reads the bytes of a script, [`Script::edited`] applies an edit, and
//! [`Script::write_to`] writes its canonical text, which reads as the same script. [`ScriptWithLines`] is a script with its
//! lines and the line numbers of its directives.
#![tactic(auto)]

mod argument;
mod block;
mod chunk;
mod chunk_position;
mod chunked_list;
mod directive;
mod edit;
mod edits;
mod expected;
mod fault;
mod flat;
mod front;
mod head_cursor;
mod laws;
mod limits;
mod line_part;
mod line_text;
mod lines;
mod marks;
mod reading;
mod script;
mod shared_lines;
mod short_text;
mod sink;
mod span;
mod tokens;
mod with_lines;
mod writing;
mod written_line;

pub use block::Block;
pub use chunked_list::ChunkedList;
pub use directive::DirectiveRef;
pub use edit::Edit;
pub use fault::{EditFault, ScriptFault};
pub use head_cursor::ByteClass;
pub use laws::{
    blanks_are, directive_is_derived, double_expectations_end, expectations_are, faults_are,
    head_lines_are, heads_are_joined, lead_lines_are, plain_expectations_end, read_is_valid,
    reads_once, refusals_are, separators_are, solid_lines_can_be_expected, text_reads_back,
};
pub use limits::{MAX_ARGUMENTS, MAX_DIRECTIVES, MAX_LINE, MAX_SCRIPT, MAX_VALUES, limits_are};
pub use line_text::LineText;
pub use lines::{Lines, lines_of, next_line, without_returns};
pub use marks::{
    continues, is_blank, is_comment, is_lead, is_rule, is_separator, is_space, trim_blanks,
};
pub use script::Script;
pub use sink::{Sink, Through, WriteFault, Writer};
pub use span::Span;
pub use with_lines::ScriptWithLines;
pub use writing::needs_double;
pub use written_line::WrittenLine;
