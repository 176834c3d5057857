//! Help on directives: an overview with a page on each, a line on each option and value, and which word was probably meant if one is wrong.
//!
//! The texts are those of docs/SCRIPTS.md, by `tests/repository/manual.py`. So what the laws say of the directives and options in them,
//! that they are those by which directives are read, holds of the document.
//!
//! A name is near another if one or two letters make one from the other, and not all letters differ. [`suggested`] looks at what is wrong with a
//! directive: its name, the key of an option, or a value of an option that takes some values alone, those of [`choices_of`]. If no word is near, it says how the directive is written, or what is missing. It takes no memory.

mod argument;
mod choices;
mod distance;
mod forms;
mod keys;
mod laws;
mod nearest;
mod options;
mod other_names;
mod page;
mod pages;
mod suggest;
mod values;

pub use choices::choices_of;
pub use keys::KEYS;
pub use laws::{
    choices_are_taken, lines_are_on_all, options_are_those_of_the_table, other_names_are_free,
    pages_are_of_the_table, suggestions_are_near,
};
pub use nearest::{Known, nearest_name};
pub use page::{page_of, put_manual};
pub use pages::PAGES;
pub use suggest::{suggested, suggested_word, wrong_word};
pub use values::{option_line, value_line};
