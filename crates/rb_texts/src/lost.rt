//! What a restart loses, as a text: entries, a term, and a vote.

ghost use Rattle.std.specs.Prelude.{◌≡◌, ◌+◌, ◌++◌, [], codes, decimal, not, ◌&&◌, if◌then◌else◌, OnOk};
ghost use Rattle.rb_texts.specs.Lost.{loses_entries, loses_term, loses_vote, loses, indexes_text, lost_text};

use crate::piece::{LinePiece, add_field, add_pieces};
use rb_message::{HardState, Unsaved};
use rb_script::LineText;
use std::alloc::AllocError;

fn loses_entries(unsaved: Unsaved) -> bool
    ensures { result ≡ loses_entries unsaved }
{
    unsaved.durable < unsaved.last
}

fn loses_term(saved: HardState, unsaved: Unsaved) -> bool
    ensures { result ≡ loses_term saved unsaved }
{
    unsaved.term != saved.term
}

fn loses_vote(saved: HardState, unsaved: Unsaved) -> bool
    ensures { result ≡ loses_vote saved unsaved }
{
    unsaved.vote != 0 && (loses_term(saved, unsaved) || unsaved.vote != saved.vote)
}

/// Whether a node loses anything that had more than this hard state when it restarted.
pub(crate) fn loses(saved: HardState, unsaved: Unsaved) -> bool
    ensures { result ≡ loses saved unsaved }
{
    loses_entries(unsaved) || loses_term(saved, unsaved) || loses_vote(saved, unsaved)
}

fn add_indexes(line: &mut LineText, first: u64, last: u64) -> Result<(), AllocError>
    ensures { OnOk result (line.new ≡ line.old ++ indexes_text first last) }
{
    if first == last {
        return add_field(line, b"entry ", last);
    }
    let pieces = [
        LinePiece::Field(b"entries ", first),
        LinePiece::Field(b"..", last),
    ];
    add_pieces(line, &pieces)
}

fn add_entries(line: &mut LineText, unsaved: Unsaved) -> Result<(), AllocError>
    ensures { OnOk result (line.new ≡ line.old ++ (if loses_entries unsaved then indexes_text (unsaved.durable + 1) unsaved.last else [])) }
{
    if !loses_entries(unsaved) {
        return Ok(());
    }
    add_indexes(line, unsaved.durable + 1, unsaved.last)
}

fn neither(one: bool, other: bool) -> bool
    ensures { result ≡ (not one && not other) }
{
    !one && !other
}

// The text before a part: none before the first one.
fn separator(is_first: bool, is_last: bool) -> &'static [u8]
    ensures { result.now ≡ (if is_first then [] else if is_last then codes " and " else codes ", ") }
{
    if is_first {
        b""
    } else if is_last {
        b" and "
    } else {
        b", "
    }
}

// Adds a name and a number after a separator, if they are shown.
fn add_part<'a>(
    line: &mut LineText,
    shown: bool,
    before: &'a [u8],
    name: &'a [u8],
    n: u64,
) -> Result<(), AllocError>
    ensures { OnOk result (line.new ≡ line.old ++ (if shown then before.now ++ (name.now ++ decimal n) else [])) }
{
    if !shown {
        return Ok(());
    }
    let pieces = [LinePiece::Bytes(before), LinePiece::Field(name, n)];
    add_pieces(line, &pieces)
}

/// Adds what a node lost that had more than this hard state when it restarted.
pub(crate) fn add_lost(
    line: &mut LineText,
    saved: HardState,
    unsaved: Unsaved,
) -> Result<(), AllocError>
    ensures { OnOk result (line.new ≡ line.old ++ lost_text saved unsaved) }
{
    let entries = loses_entries(unsaved);
    let term = loses_term(saved, unsaved);
    let vote = loses_vote(saved, unsaved);
    let before_term = separator(!entries, !vote);
    let before_vote = separator(neither(entries, term), true);
    add_entries(line, unsaved)?;
    add_part(line, term, before_term, b"term ", unsaved.term)?;
    add_part(line, vote, before_vote, b"the vote for ", unsaved.vote)
}
