//! What a report says of a script beside its run: a line to people, or a notice to programs.

ghost use Rattle.std.specs.Prelude.{◌≡◌, IfOk, codes};
ghost use Rattle.rb_report.specs.Pieces.{noun};
ghost use Rattle.rb_check.specs.Shown.{accepted_sentence, people_text, programs_text, remark_kind, remark_line, remark_sentence};

use crate::format::Format;
use crate::kind::{NoticeKind, ScriptNotice};
use crate::notes::put_note;
use crate::notices::notice_of;
use rb_report::check::{
    Failure, failure_sentence, fault_line, put_accepted, put_refusal, put_unaccepted, put_warning,
    sentence, warning_sentence,
};
use rb_script::{ScriptFault, Sink, WriteFault};
use rb_script_report::Warning;
use rb_text::{Piece, WrittenPiece, add_pieces};
use std::alloc::{AllocError, Global};

const ECHOES: &[u8] =
    b"nothing below this error was accepted, since it may follow from it; --accept-errors accepts it too";

const MATCHES: &[u8] = b"there is nothing to accept: the output is the expected one";

/// What a report says of a script.
#[derive(Clone, Copy)]
pub(crate) enum Remark {
    /// It is not a script.
    Refused(ScriptFault),
    /// It failed.
    Failed(Failure),
    /// A line looks like a slip.
    Warning(Warning),
    /// This many outputs were accepted.
    Accepted(usize),
    /// Nothing was accepted, since it has warnings.
    Unaccepted,
    /// The new error of the directive on this line was not accepted.
    Left(usize),
    /// Nothing below the new error on this line was accepted.
    Echoes(usize),
    /// The output of the directive on this line is the expected one.
    Matches(usize),
}

impl Remark {
    // The line that it is about.
    fn line(self) -> Option<usize>
        ensures { result ≡ remark_line self }
    {
        match self {
            Remark::Refused(fault) => fault_line(fault),
            Remark::Warning(warning) => Some(warning.line),
            Remark::Left(line) => Some(line),
            Remark::Echoes(line) => Some(line),
            Remark::Matches(line) => Some(line),
            Remark::Failed(_) => None,
            Remark::Accepted(_) => None,
            Remark::Unaccepted => None,
        }
    }

    fn kind(self) -> NoticeKind
        ensures { result ≡ remark_kind self }
    {
        match self {
            Remark::Refused(_) => NoticeKind::Refused,
            Remark::Failed(_) => NoticeKind::Failed,
            Remark::Warning(_) => NoticeKind::Warning,
            Remark::Accepted(_) => NoticeKind::Accepted,
            Remark::Unaccepted => NoticeKind::Left,
            Remark::Left(_) => NoticeKind::Left,
            Remark::Echoes(_) => NoticeKind::Left,
            Remark::Matches(_) => NoticeKind::Left,
        }
    }
}

// How many outputs were accepted, in words.
fn accepted_sentence(alloc: Global, n: usize) -> Result<Vec<u8>, AllocError>
    ensures { IfOk result (λ made. made.items ≡ accepted_sentence n) }
{
    let mut text = Vec::new(alloc);
    add_pieces(
        &mut text,
        &[
            Piece::Bytes(b"accepted "),
            Piece::Number(n as u64),
            Piece::Bytes(noun_of(n)),
        ],
    )?;
    Ok(text)
}

fn noun_of(n: usize) -> &'static [u8]
    ensures { result.now ≡ noun n (codes " output") (codes " outputs") }
{
    if n == 1 { b" output" } else { b" outputs" }
}

// What is said, in a sentence.
fn sentence_of(alloc: Global, remark: Remark) -> Result<Vec<u8>, AllocError>
    ensures { IfOk result (λ made. made.items ≡ remark_sentence remark) }
{
    match remark {
        Remark::Refused(fault) => Vec::from_slice(alloc, sentence(fault)),
        Remark::Failed(failure) => Vec::from_slice(alloc, failure_sentence(failure)),
        Remark::Warning(warning) => Vec::from_slice(alloc, warning_sentence(warning.doubt)),
        Remark::Accepted(n) => accepted_sentence(alloc, n),
        Remark::Unaccepted => Vec::from_slice(
            alloc,
            b"nothing was accepted, since it has warnings; --force accepts all the same",
        ),
        Remark::Left(_) => Vec::from_slice(
            alloc,
            b"this new error was not accepted; --accept-errors accepts it too",
        ),
        Remark::Echoes(_) => Vec::from_slice(alloc, ECHOES),
        Remark::Matches(_) => Vec::from_slice(alloc, MATCHES),
    }
}

/// The notice to programs.
///
/// # Errors
///
/// If memory was refused.
pub(crate) fn programs_text(
    alloc: Global,
    format: Format,
    is_strict: bool,
    path: &[u8],
    remark: Remark,
) -> Result<Vec<u8>, AllocError>
    ensures { IfOk result (λ made. made.items ≡ programs_text format is_strict path.now remark) }
{
    let message = sentence_of(alloc, remark)?;
    let notice = ScriptNotice {
        path,
        line: remark.line(),
        kind: remark.kind(),
        message: &message,
    };
    notice_of(alloc, format, is_strict, notice)
}

/// The line to people. It is empty, if the stream of errors or the directive itself says it.
#[derive(Clone, Copy)]
pub(crate) struct RemarkLine<'a> {
    pub(crate) path: &'a [u8],
    pub(crate) remark: Remark,
}

impl WrittenPiece for RemarkLine<'_> {
    ghost text = { λ line. people_text line.path.now line.remark };

    fn put<S: Sink>(&self, sink: &mut S) -> Result<(), WriteFault> {
        match self.remark {
            Remark::Refused(fault) => put_refusal(sink, self.path, fault),
            Remark::Warning(warning) => put_warning(sink, self.path, warning.line, warning.doubt),
            Remark::Accepted(n) => put_accepted(sink, self.path, n),
            Remark::Unaccepted => put_unaccepted(sink, self.path),
            Remark::Echoes(line) => put_note(sink, self.path, line, ECHOES),
            Remark::Matches(line) => put_note(sink, self.path, line, MATCHES),
            Remark::Failed(_) => sink.put(b""),
            Remark::Left(_) => sink.put(b""),
        }
    }
}
