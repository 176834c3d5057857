//! The pages of the manual, and its overview.

ghost use Rattle.std.specs.Prelude.{◌≡◌, IsOk, map, option_map};
ghost use Rattle.rb_script.specs.Writes.{Writes};
ghost use Rattle.rb_report.specs.Manual.{pages, page_in, lines_text, manual_text};

use crate::help::pages::{CLOSING, PAGES};
use rb_script::{Sink, WriteFault};

// Finds the page of the directive with this name, among these.
fn page_in<'a>(pages: &[(&'a [u8], &'a [u8], &'a [u8])], name: &[u8]) -> Option<&'a [u8]>
    ensures { option_map (λ p. p.now) result ≡ page_in (map (λ p. (p.0.now, p.1.now, p.2.now)) pages.now) name.now }
{
    for page in pages {
        if page.0 == name {
            return Some(page.2);
        }
    }
    None
}

/// Finds the page of the directive with this name: its usage, what it does, what each argument may be, and an example.
#[tactic(auto, unfolding(crate::specs::Manual::pages))]
pub fn page_of(name: &[u8]) -> Option<&'static [u8]>
    ensures { option_map (λ p. p.now) result ≡ page_in pages name.now }
{
    page_in(&PAGES, name)
}

// Writes the line of each page.
fn put_lines<S: Sink>(sink: &mut S, pages: &[(&[u8], &[u8], &[u8])]) -> Result<(), WriteFault>
    ensures wrote { Writes result (S.held sink.old) (S.held sink.new) (lines_text (map (λ p. (p.0.now, p.1.now, p.2.now)) pages.now)) }
    ensures all { S.takes_all sink.old → IsOk result × S.takes_all sink.new }
{
    for page in pages {
        sink.put(page.1)?;
    }
    Ok(())
}

/// Writes the overview: each directive's usage, and what it does. If it fails, a beginning of the text was written.
pub fn put_manual<S: Sink>(sink: &mut S) -> Result<(), WriteFault>
    ensures wrote { Writes result (S.held sink.old) (S.held sink.new) manual_text }
    ensures all { S.takes_all sink.old → IsOk result × S.takes_all sink.new }
{
    put_lines(sink, &PAGES)?;
    sink.put(CLOSING)
}
