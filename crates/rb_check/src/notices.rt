//! A notice to programs about a script, or about a line of it, in each format.

ghost use Rattle.std.specs.Prelude.{◌≡◌, ◌++◌, OnOk, IfOk};
ghost use Rattle.rb_check.specs.Formats.{notice_text};
ghost use Rattle.rb_check.specs.Objects.{notice_object};

use crate::command::add_command;
use crate::format::Format;
use crate::junit::add_notice_suite;
use crate::kind::ScriptNotice;
use crate::piece::CommandPiece;
use rb_text::{Json, Piece, add_pieces};
use std::alloc::{AllocError, Global};

fn add_object<'a>(
    text: &mut Vec<u8>,
    path: &'a [u8],
    line: Option<usize>,
    status: &'a [u8],
    message: &'a [u8],
) -> Result<(), AllocError>
    ensures { OnOk result (text.new.items ≡ text.old.items ++ notice_object path.now line status.now message.now) }
{
    match line {
        Some(line) => add_pieces(
            text,
            &[
                Piece::Bytes(b"{\"script\":\""),
                Piece::Escaped(Json::Ascii, path),
                Piece::Bytes(b"\",\"line\":"),
                Piece::Number(line as u64),
                Piece::Bytes(b",\"status\":\""),
                Piece::Bytes(status),
                Piece::Bytes(b"\",\"message\":\""),
                Piece::Escaped(Json::Ascii, message),
                Piece::Bytes(b"\"}\n"),
            ],
        ),
        None => add_pieces(
            text,
            &[
                Piece::Bytes(b"{\"script\":\""),
                Piece::Escaped(Json::Ascii, path),
                Piece::Bytes(b"\",\"line\":null"),
                Piece::Bytes(b",\"status\":\""),
                Piece::Bytes(status),
                Piece::Bytes(b"\",\"message\":\""),
                Piece::Escaped(Json::Ascii, message),
                Piece::Bytes(b"\"}\n"),
            ],
        ),
    }
}

fn add_notice(
    alloc: Global,
    text: &mut Vec<u8>,
    format: Format,
    is_strict: bool,
    notice: ScriptNotice<'_>,
) -> Result<(), AllocError>
    ensures { IfOk result (λ _. text.new.items ≡ text.old.items ++ notice_text format is_strict notice.entry.path.now notice.entry.line notice.entry.kind notice.entry.message.now) }
{
    let kind = notice.kind;
    match format {
        Format::Json => add_object(
            text,
            notice.path,
            notice.line,
            kind.status(),
            notice.message,
        ),
        Format::Github => {
            let pieces = [
                CommandPiece::Message(notice.message),
                CommandPiece::Bytes(b"\n"),
            ];
            add_command(
                text,
                kind.command(is_strict),
                notice.path,
                notice.line,
                b"raftbench",
                &pieces,
            )
        }
        Format::Junit => add_notice_suite(alloc, text, notice),
    }
}

/// A notice about a script, or about a line of it.
///
/// # Errors
///
/// If memory was refused.
pub(crate) fn notice_of(
    alloc: Global,
    format: Format,
    is_strict: bool,
    notice: ScriptNotice<'_>,
) -> Result<Vec<u8>, AllocError>
    ensures { IfOk result (λ made. made.items ≡ notice_text format is_strict notice.entry.path.now notice.entry.line notice.entry.kind notice.entry.message.now) }
{
    let mut text = Vec::new(alloc);
    add_notice(alloc, &mut text, format, is_strict, notice)?;
    Ok(text)
}
