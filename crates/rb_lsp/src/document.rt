//! A text that an editor changes.
//!
//! An editor's lines end at LF, CR LF and CR. Its columns count units of UTF-16, or bytes if it offers them. [`offset`] is the offset of
//! a [`Position`] in a text, and [`position_of`] the position of an offset. A [`Document`] takes the changes that an editor
//! sends, and [`edit_between`] is one that a server sends. A [`LineTable`] knows where the lines of a script begin, which end at LF alone.

mod document;
mod edit;
mod laws;
mod limits;
mod line_table;
mod position;

pub use document::{Document, TextFault};
pub use edit::{TextEdit, edit_between, is_within};
pub use laws::{edits_make_the_new_text, places_return, replaces_part};
pub use limits::MAX_TEXT;
pub use line_table::LineTable;
pub use position::{Encoding, Position, Range, offset, position_of};
