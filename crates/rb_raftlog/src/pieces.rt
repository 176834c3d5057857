//! Entries in pieces.
//!
//! A log lends its entries without a copy: one slice, or the rest of a page, the pages after it, and the last page.

use crate::entry::Entry;
use crate::page::Page;
use crate::pages::Pages;
use std::marker::Model;

/// Entries, in slices one after another. Contracts see the list of the entries.
#[derive(Drop)]
pub struct Pieces<'a> {
    front: &'a [Entry],
    pages: &'a [Page<Entry>],
    back: &'a [Entry],
}

impl<'a> Model for Pieces<'a> {
    ghost use Rattle.std.specs.Prelude.{List, ◌++◌};
    ghost use Rattle.rb_raftlog.specs.declared.entry.Entry.{Entry};
    ghost use Rattle.rb_raftlog.specs.Packed.{joined};

    ghost Value = { List Entry };

    ghost view = { λ p. p.front.now ++ (joined p.pages.now ++ p.back.now) };
}

impl<'a> Pieces<'a> {
    ghost use Rattle.std.specs.Prelude.{◌≡◌, ◌<◌, ◌≤◌, ◌++◌, [], length, drop, IfNone, IfSome};

    /// One slice.
    pub(crate) fn one(back: &'a [Entry]) -> Pieces<'a>
        ensures { result ≡ back.now }
    {
        Pieces {
            front: &[],
            pages: &[],
            back,
        }
    }

    /// The items of a list in pages from a place on.
    pub(crate) fn of(all: &'a Pages<Entry>, from: usize) -> Pieces<'a>
        requires { from ≤ length all.now }
        ensures { result ≡ drop from all.now }
    {
        if from == all.len() {
            return Pieces::one(&[]);
        }
        let (front, pages, back) = all.from(from);
        Pieces { front, pages, back }
    }

    /// Returns the next piece, which has at least one entry.
    pub fn next(&mut self) -> Option<&'a [Entry]>
        ensures none { IfNone result ((self.old ≡ []) × (self.new ≡ [])) }
        ensures some { IfSome result (λ piece. self.old ≡ piece.now ++ self.new) }
        ensures shorter { IfSome result (λ piece. length self.new < length self.old) }
    {
        if !self.front.is_empty() {
            let piece = self.front;
            self.front = &[];
            return Some(piece);
        }
        if !self.pages.is_empty() {
            let piece = self.pages[0].as_slice();
            self.pages = &self.pages[1..];
            return Some(piece);
        }
        if !self.back.is_empty() {
            let piece = self.back;
            self.back = &[];
            return Some(piece);
        }
        None
    }
}
