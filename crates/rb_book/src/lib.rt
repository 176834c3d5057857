//! A book of scripts: a page and a picture for each script, a contents page, and the style and the code of all pages once.
//!
//! [`write_book`] writes its files into a [`Site`]. A page and a picture are made by [`ChapterTexts`]; what is around them is here. Which files are
//! written, with which texts, is `Books.IsBookOf`. Nothing here knows what runs a script, or where a site is.
#![tactic(auto)]

mod book;
mod chapter;
mod chapter_texts;
mod contents;
mod fault;
mod html;
mod page;
mod piece;
mod site;
mod title;

pub use book::{Assets, write_book};
pub use chapter::Chapter;
pub use chapter_texts::ChapterTexts;
pub use fault::BookFault;
pub use site::Site;
pub use title::title_of;
