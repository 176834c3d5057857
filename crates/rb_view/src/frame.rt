//! What is around the rows of a page (docs/FORMATS.md): its own elements, its style and its code. Made by `tests/page/assemble.py sources`.
//!
//! The files are in assets, and the sources are made of them. The page's head names its style and its code by their hashes, so that no other
//! runs in it.

mod after_style;
mod describe;
mod difference;
mod dom;
mod frame;
mod history;
mod html;
mod keys;
mod layout;
mod legend;
mod lines;
mod logs;
mod logs_style;
mod mail;
mod measure;
mod narrow_style;
mod page;
mod paint;
mod paper_style;
mod picture;
mod picture_style;
mod play;
mod position;
mod print;
mod route;
mod rows;
mod script;
mod script_style;
mod search;
mod sizes;
mod source;
mod start;
mod state;
mod style;
mod text;
mod words;
mod wrap;

pub use frame::{back, front};
