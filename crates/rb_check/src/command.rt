//! A directive as a workflow command.

ghost use Rattle.std.specs.Prelude.{◌≡◌, ◌==◌, ◌<◌, ◌≤◌, ◌++◌, OnOk, IfOk, codes, length, slice_index};
ghost use Rattle.rb_report.specs.Pieces.{noun};
ghost use Rattle.std.specs.List.{flat_map};
ghost use Rattle.rb_report.specs.declared.check.colors.Colors.TheVariants.{Off};
ghost use Rattle.rb_report.specs.Whys.{reasons_in, told_diff};
ghost use Rattle.rb_script_report.specs.Checked.{head_of};
ghost use Rattle.rb_check.specs.Commands.{command_with, difference_text, kept_of, last_end, legend_text, others_text, piece_text, rest_text, shortened};

use crate::piece::CommandPiece;
use crate::ran_directive::{RanDirective, head_of};
use rb_report::check::{Colors, Table, put_explained_diff};
use rb_script::Through;
use rb_text::{Piece, add_pieces};
use std::alloc::{AllocError, Global};

// How many bytes a diff may have in a command: GitHub shows the first lines of a message, and takes 64 KiB.
pub(crate) const MAX_DIFF: usize = 4_096;

/// Adds a command with the file, the line and the title that it is shown with, and then the pieces of its message.
pub(crate) fn add_command<'a>(
    text: &mut Vec<u8>,
    command: &'a [u8],
    path: &'a [u8],
    line: Option<usize>,
    title: &'a [u8],
    message: &[CommandPiece<'_>],
) -> Result<(), AllocError>
    ensures { OnOk result (text.new.items ≡ text.old.items ++ command_with command.now path.now line title.now (flat_map piece_text message.now)) }
{
    add_pieces(
        text,
        &[
            CommandPiece::Bytes(b"::"),
            CommandPiece::Bytes(command),
            CommandPiece::Bytes(b" file="),
            CommandPiece::File(path),
            CommandPiece::Line(line),
            CommandPiece::Bytes(b",title="),
            CommandPiece::Property(title),
            CommandPiece::Bytes(b"::"),
        ],
    )?;
    add_pieces(text, message)
}

// The differences, as a report shows them with their reasons.
fn diff_of(alloc: Global, ran: RanDirective<'_>, table: &mut Table) -> Result<Vec<u8>, AllocError>
    ensures { IfOk result (λ made. made.items ≡ told_diff table.old.left Off (reasons_in ran.entry.why) ran.entry.block.now.expected ran.entry.output.now) }
{
    let mut sink = Through(Vec::new(alloc));
    let expected = ran.block.expected();
    match put_explained_diff(&mut sink, table, expected, ran.output, ran.why, Colors::Off) {
        Ok(()) => Ok(sink.0),
        Err(_) => Err(AllocError),
    }
}

// What the signs mean, and how many other directives differ.
fn legend(alloc: Global, others: usize) -> Result<Vec<u8>, AllocError>
    ensures { IfOk result (λ made. made.items ≡ legend_text others) }
{
    let mut text = Vec::new(alloc);
    add_pieces(&mut text, &[Piece::Bytes(b"(- expected, + output")])?;
    add_others(&mut text, others)?;
    add_pieces(&mut text, &[Piece::Bytes(b")\n")])?;
    Ok(text)
}

// Adds how many other directives differ, if any does.
fn add_others(text: &mut Vec<u8>, others: usize) -> Result<(), AllocError>
    ensures { OnOk result (text.new.items ≡ text.old.items ++ others_text others) }
{
    if others == 0 {
        return Ok(());
    }
    add_pieces(
        text,
        &[
            Piece::Bytes(b"; "),
            Piece::Number(others as u64),
            Piece::Bytes(noun_of(others)),
        ],
    )
}

fn noun_of(others: usize) -> &'static [u8]
    ensures { result.now ≡ noun others (codes " other directive differs") (codes " other directives differ") }
{
    if others == 1 {
        b" other directive differs"
    } else {
        b" other directives differ"
    }
}

fn ends_line(diff: &[u8], index: usize) -> bool
    requires { index < length diff.now }
    ensures { result ≡ (slice_index diff.now index == 10) }
{
    diff[index] == b'\n'
}

// How many of the first n bytes are up to the last end of a line among them.
fn last_end(diff: &[u8], n: usize) -> usize
    requires { n ≤ length diff.now }
    ensures same { result ≡ last_end diff.now n }
    ensures within { result ≤ n }
{
    let mut kept = n;
    while kept > 0 {
        if ends_line(diff, kept - 1) {
            return kept;
        }
        kept -= 1;
    }
    0
}

// How many bytes of a diff are in its command: all if there are few, or else those of whole lines.
fn kept_of(diff: &[u8]) -> usize
    ensures same { result ≡ kept_of diff.now }
    ensures within { result ≤ length diff.now }
{
    if diff.len() <= MAX_DIFF {
        diff.len()
    } else {
        last_end(diff, MAX_DIFF)
    }
}

// The note in the place of n bytes; nothing if n is 0.
fn add_rest(text: &mut Vec<u8>, n: usize) -> Result<(), AllocError>
    ensures { OnOk result (text.new.items ≡ text.old.items ++ rest_text n) }
{
    if n == 0 {
        return Ok(());
    }
    add_pieces(
        text,
        &[
            Piece::Bytes(b".. "),
            Piece::Number(n as u64),
            Piece::Bytes(b" more bytes\n"),
        ],
    )
}

// The diff, or its first lines and how many bytes are left out.
fn shortened(alloc: Global, diff: &[u8]) -> Result<Vec<u8>, AllocError>
    ensures { IfOk result (λ made. made.items ≡ shortened diff.now) }
{
    let kept = kept_of(diff);
    let mut text = Vec::from_slice(alloc, &diff[..kept])?;
    add_rest(&mut text, diff.len() - kept)?;
    Ok(text)
}

/// Adds a command that says what differs in a directive's output, what its signs mean, and how many other directives of its script differ: the
/// head is its title.
pub(crate) fn add_difference(
    alloc: Global,
    text: &mut Vec<u8>,
    ran: RanDirective<'_>,
    others: usize,
    table: &mut Table,
) -> Result<(), AllocError>
    ensures { OnOk result (text.new.items ≡ text.old.items ++ difference_text table.old.left ran.entry.place.path.now ran.entry.place.line (head_of ran.entry.block.now) ran.entry.block.now.expected ran.entry.output.now (reasons_in ran.entry.why) others) }
{
    let head = head_of(alloc, ran.block)?;
    let diff = diff_of(alloc, ran, table)?;
    let short = shortened(alloc, diff.as_slice())?;
    let legend = legend(alloc, others)?;
    let message = [
        CommandPiece::Message(short.as_slice()),
        CommandPiece::Bytes(legend.as_slice()),
    ];
    let place = ran.place;
    add_command(
        text,
        b"error",
        place.path,
        Some(place.line),
        head.as_slice(),
        &message,
    )
}
