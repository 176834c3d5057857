//! Bytes in, text out: the lines of a source, words and numbers, and texts that are written in pieces.
//!
//! A [`LineReader`] gives the lines of a [`Source`], as [`rb_script`] cuts them: a line ends with LF, the carriage returns directly before
//! it belong to the end, and bytes after the last LF are a line. A line of more than [`rb_script::MAX_LINE`] bytes is too long. The reader
//! takes all its memory when it is made. A [`LineBuffer`] holds one line. [`read_up_to`] reads the first bytes of a source at once.
//!
//! [`first_word`] splits a line at its first blank. [`number_of`] reads a number of one to ten digits: in directives, commands and the command
//! line. [`put_number`] writes one.
//!
//! [`put_pieces`] writes a text and [`add_pieces`] appends it to a text in memory. Pieces are bytes, numbers, and bytes escaped for a string
//! of JSON ([`Json`]). [`put_escaped`] writes bytes in another escape.
#![tactic(auto)]

mod escape;
mod fail_fast;
mod input_buffer;
mod json;
mod line_buffer;
mod line_reader;
mod number;
mod piece;
mod reading;
mod source;
mod words;

pub use escape::{Escape, put_escaped};
pub use fail_fast::FailFast;
pub use json::{Json, hex_digit};
pub use line_buffer::{LineBuffer, PushByte};
pub use line_reader::{LineReader, Next};
pub use number::{number_of, put_number};
pub use piece::{Piece, WrittenPiece, add_pieces, put_pieces};
pub use reading::{ReadFault, read_up_to};
pub use source::{InputFault, ReadSource, Source};
pub use words::first_word;
