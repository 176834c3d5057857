//! A site of the scripts of a folder: they are found, run, and written as a book.
//!
//! [`write_site`] does it over the files of a runtime. What a book has is in rb_book; which scripts a folder has is in rb_files.
#![tactic(auto)]

mod chapters;
mod fault;
mod folder;
mod ran_scripts;
mod site;
mod steps;

pub use fault::SiteFault;
pub use site::{SiteRequest, write_site};
