//! The rows of a page, as one JSON text.
//!
//! A page shows what a script did, step by step; what it shows is between its marks as one JSON text: a list of rows, each of a
//! name and cells that are numbers or texts (docs/FORMATS.md). Scripts come from strangers, so nothing of a script may end that text or
//! act in the page: no byte of it is `<`, `>` or `&`, or past ASCII. Writing rows takes no memory; where they are kept first, each is a text.

mod cell;
mod event;
mod item;
mod kept;
mod laws;
mod message;
mod names;
mod number;
mod plain;
mod reason;
mod row;
mod span;

pub use cell::Cell;
pub use item::put_item;
pub use kept::{keep_item, keep_lines, keep_row, keep_texts, put_texts};
pub use laws::{
    rows_are_inert, rows_are_json, rows_grow_with_what_they_say, texts_grow_little,
    what_happens_has_a_row,
};
pub use message::flag;
pub use rb_texts::role_name;
pub(crate) use reason::{past, reason_line};
pub use row::{RowPlace, put_end, put_row};
