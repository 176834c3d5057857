//! A directive as an object of JSON.

ghost use Rattle.std.specs.Prelude.{◌≡◌, ◌++◌, IfOk, OnOk};
ghost use Rattle.rb_report.specs.Heads.{before_value};
ghost use Rattle.rb_report.specs.Whys.{reasons_in};
ghost use Rattle.rb_check.specs.Objects.{lines_members, object_end, object_front, object_text, quoted, reasons_member, strings_from};
ghost use Rattle.rb_check.specs.Subjects.{plain_ran};

use crate::ran_directive::{RanDirective, head_of};
use rb_report::check::{FileLine, Why};
use rb_script::Lines;
use rb_text::{Json, Piece, add_pieces};
use std::alloc::{AllocError, Global};

// The text before the line at an index.
fn separator(index: usize) -> &'static [u8]
    ensures { result.now ≡ before_value index }
{
    if index == 0 { b"" } else { b"," }
}

fn add_string(text: &mut Vec<u8>, index: usize, line: &[u8]) -> Result<(), AllocError>
    ensures { OnOk result (text.new.items ≡ text.old.items ++ (before_value index ++ quoted line.now)) }
{
    add_pieces(
        text,
        &[
            Piece::Bytes(separator(index)),
            Piece::Bytes(b"\""),
            Piece::Escaped(Json::Ascii, line),
            Piece::Bytes(b"\""),
        ],
    )
}

// Adds the lines, each between quotes.
fn add_strings(text: &mut Vec<u8>, lines: &Lines) -> Result<(), AllocError>
    ensures { OnOk result (text.new.items ≡ text.old.items ++ strings_from 0 lines.now) }
{
    for i in 0..lines.len() {
        add_string(text, i, lines.line(i))?;
    }
    Ok(())
}

fn add_front<'a>(
    text: &mut Vec<u8>,
    place: FileLine<'a>,
    head: &'a [u8],
    status: &'a [u8],
) -> Result<(), AllocError>
    ensures { OnOk result (text.new.items ≡ text.old.items ++ object_front place.entry.path.now place.entry.line head.now status.now) }
{
    add_pieces(
        text,
        &[
            Piece::Bytes(b"{\"script\":\""),
            Piece::Escaped(Json::Ascii, place.path),
            Piece::Bytes(b"\",\"line\":"),
            Piece::Number(place.line as u64),
            Piece::Bytes(b",\"directive\":\""),
            Piece::Escaped(Json::Ascii, head),
            Piece::Bytes(b"\",\"status\":\""),
            Piece::Bytes(status),
            Piece::Bytes(b"\",\"expected\":["),
        ],
    )
}

/// Adds a directive with its expected lines, its output and the reasons of that, in a line.
pub(crate) fn add_object(
    alloc: Global,
    text: &mut Vec<u8>,
    ran: RanDirective<'_>,
    status: &[u8],
) -> Result<(), AllocError>
    ensures { IfOk result (λ _. text.new.items ≡ text.old.items ++ object_text ran.entry.place.path.now status.now (plain_ran ran.entry)) }
{
    let head = head_of(alloc, ran.block)?;
    let expected = ran.block.expected();
    add_lines(
        text,
        ran.place,
        head.as_slice(),
        status,
        expected,
        ran.output,
    )?;
    add_end(text, ran.why)?;
    Ok(())
}

// Adds the directive's members up to its output.
fn add_lines(
    text: &mut Vec<u8>,
    place: FileLine<'_>,
    head: &[u8],
    status: &[u8],
    expected: &Lines,
    output: &Lines,
) -> Result<(), AllocError>
    ensures { IfOk result (λ _. text.new.items ≡ text.old.items ++ lines_members place.entry.path.now place.entry.line head.now status.now expected.now output.now) }
{
    add_front(text, place, head, status)?;
    add_strings(text, expected)?;
    add_pieces(text, &[Piece::Bytes(b"],\"output\":[")])?;
    add_strings(text, output)?;
    Ok(())
}

// Adds the reasons, a text for each line, if there are any, and the end of the object.
fn add_end(text: &mut Vec<u8>, why: Why<'_>) -> Result<(), AllocError>
    ensures { IfOk result (λ _. text.new.items ≡ text.old.items ++ object_end (reasons_in why.entry)) }
{
    if let Why::Given(reasons) = why {
        add_reasons(text, reasons)?;
    }
    add_pieces(text, &[Piece::Bytes(b"]}\n")])?;
    Ok(())
}

fn add_reasons(text: &mut Vec<u8>, reasons: &Lines) -> Result<(), AllocError>
    ensures { IfOk result (λ _. text.new.items ≡ text.old.items ++ reasons_member reasons.now) }
{
    if reasons.is_empty() {
        return Ok(());
    }
    add_pieces(text, &[Piece::Bytes(b"],\"reasons\":[")])?;
    add_strings(text, reasons)?;
    Ok(())
}
