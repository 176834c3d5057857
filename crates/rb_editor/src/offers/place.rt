//! A place of a text where words are offered.

ghost use Rattle.std.specs.Prelude.{◌≡◌, ◌≤◌, IfOk, length, option_map};
ghost use Rattle.rb_editor.specs.Places.{begun_line, change_in, completion_place, head_takes_ids, is_change, place_takes_ids};

use crate::offers::above::{begun_lines, behind_lines, head_in, line_above, line_begin};
use crate::offers::ids::takes_ids;
use crate::offers::part::Part;
use crate::offers::unfinished::{name_of, wanted_of};
use rb_lsp::document::{Encoding, Position, offset};
use rb_script::{Lines, lines_of};
use std::alloc::{AllocError, Global};
use std::marker::Model;

/// A place of a text: in a head, in the input of a change of the configuration, or elsewhere.
#[derive(Drop)]
pub struct CompletionPlace {
    /// Its offset.
    pub(crate) at: usize,
    /// Where the first line of its block begins.
    pub(crate) block: usize,
    /// The head up to it, its lines joined.
    pub(crate) head: Option<Vec<u8>>,
    /// Its line up to it, if that is input of `propose-conf-change`.
    pub(crate) change: Option<Vec<u8>>,
}

impl Model for CompletionPlace {
    ghost use Rattle.std.specs.Prelude.{option_map};
    ghost use Rattle.rb_editor.specs.Places.{PlainPlace};

    ghost Value = { PlainPlace };

    ghost view = { λ p. record { at = p.at; block = p.block; head = option_map (λ h. h.items) p.head; change = option_map (λ l. l.items) p.change } };
}

// Gives the first of the last lines.
fn begun_line(lines: &Lines, count: usize) -> &[u8]
    requires { count ≤ length lines.now }
    ensures { result.now ≡ begun_line lines.now count }
{
    let first = lines.len() - count;
    if first < lines.len() {
        lines.line(first)
    } else {
        b""
    }
}

// Gives the line up to a place, which is of this part, if it is input of a change.
fn change_in(
    alloc: Global,
    part: Part,
    above: &Lines,
    begun: usize,
    front: &[u8],
) -> Result<Option<Vec<u8>>, AllocError>
    requires { begun ≤ length above.now }
    ensures { IfOk result (λ found. option_map (λ l. l.items) found ≡ change_in part above.now begun front.now) }
{
    match part {
        Part::Input if name_of(begun_line(above, begun)) == b"propose-conf-change".as_slice() => {
            Ok(Some(Vec::from_slice(alloc, front)?))
        }
        _ => Ok(None),
    }
}

fn head_takes_ids(head: &Option<Vec<u8>>) -> bool
    ensures { result ≡ head_takes_ids (option_map (λ h. h.items) head.now) }
{
    match head {
        Some(head) => takes_ids(head.as_slice(), &wanted_of(head.as_slice())),
        None => false,
    }
}

impl CompletionPlace {
    ghost use Rattle.std.specs.Prelude.{◌≡◌, ◌≤◌, IfOk, length};
    ghost use Rattle.rb_editor.specs.Places.{completion_place, place_takes_ids};

    /// Finds the place at a position of a text. The text needn't be a script.
    #[tactic(auto, unfolding(crate::specs::Places::completion_place))]
    pub fn find(
        alloc: Global,
        encoding: Encoding,
        text: &[u8],
        position: Position,
    ) -> Result<CompletionPlace, AllocError>
        ensures place { IfOk result (λ p. p ≡ completion_place encoding text.now position) }
        ensures block { IfOk result (λ p. p.block ≤ length text.now) }
        ensures at { IfOk result (λ p. p.at ≤ length text.now) }
    {
        let at = offset(encoding, position, text);
        let start = line_begin(at, text);
        let above = lines_of(alloc, &text[..start])?;
        let (part, head) = behind_lines(alloc, &above)?;
        let begun = begun_lines(&above);
        let front = &text[start..at];
        let change = change_in(alloc, part, &above, begun, front)?;
        let head = head_in(part, head, front)?;
        Ok(CompletionPlace {
            at,
            block: line_above(begun, at, text),
            head,
            change,
        })
    }

    /// Where the first line of its block begins.
    pub fn block(&self) -> usize
        ensures { result ≡ self.now.block }
    {
        self.block
    }

    /// Whether ids are offered there, or words that have one.
    #[tactic(auto, unfolding(crate::specs::Places::place_takes_ids))]
    pub fn takes_ids(&self) -> bool
        ensures { result ≡ place_takes_ids self.now }
    {
        head_takes_ids(&self.head) || self.change.is_some()
    }
}
