//! The report of scripts as JUnit's XML. Each script is a suite with one case, so nothing has to be counted before it is written.

ghost use Rattle.std.specs.Prelude.{◌≡◌, ◌++◌, [], IfOk, OnOk, length};
ghost use Rattle.rb_report.specs.Notices.{warning_text};
ghost use Rattle.rb_check.specs.Junit.{body_of, counts_of, details_of, message_with, notice_suite, placed, script_suite, suite_front, suite_text, verdict_by, verdict_of, warnings_text};
ghost use Rattle.rb_check.specs.Subjects.{AreFindings, plain_of};

use crate::checked_script::CheckedScript;
use crate::kind::{NoticeKind, ScriptNotice};
use crate::script_result::{PathResult, ScriptResult};
use crate::xml::XmlPiece;
use rb_machine::Machine;
use rb_report::check::{Colors, Status, Totals, put_warning};
use rb_script::Through;
use rb_script_report::{Detail, View, Warning, put_checked};
use rb_text::add_pieces;
use std::alloc::{AllocError, Global};
use std::mem;

/// The verdict of a case.
#[derive(Clone, Copy, Debug, PartialEq, Eq)]
pub(crate) enum CaseVerdict {
    Passes,
    /// The script has a mismatch, or, if the check is strict, a new error or a warning.
    Fails,
    /// The script did not run.
    Errs,
}

fn counts_of(verdict: CaseVerdict) -> &'static [u8]
    ensures { result.now ≡ counts_of verdict }
{
    match verdict {
        CaseVerdict::Passes => b"\" tests=\"1\" failures=\"0\" errors=\"0\">",
        CaseVerdict::Fails => b"\" tests=\"1\" failures=\"1\" errors=\"0\">",
        CaseVerdict::Errs => b"\" tests=\"1\" failures=\"0\" errors=\"1\">",
    }
}

// Adds the suite up to what is in its case.
fn add_front(
    text: &mut Vec<u8>,
    path: &[u8],
    line: Option<usize>,
    verdict: CaseVerdict,
) -> Result<(), AllocError>
    ensures { OnOk result (text.new.items ≡ text.old.items ++ suite_front path.now line verdict) }
{
    add_pieces(
        text,
        &[
            XmlPiece::Bytes(b"<testsuite name=\""),
            XmlPiece::Value(path),
            XmlPiece::Bytes(counts_of(verdict)),
            XmlPiece::Bytes(b"<testcase classname=\"raftbench\" name=\""),
            XmlPiece::Value(path),
            XmlPiece::Bytes(b"\" file=\""),
            XmlPiece::File(path),
            XmlPiece::LineEnd(line),
        ],
    )
}

// Adds what is in its case.
fn add_body<'a>(
    text: &mut Vec<u8>,
    verdict: CaseVerdict,
    message: &'a [u8],
    details: &'a [u8],
) -> Result<(), AllocError>
    ensures { OnOk result (text.new.items ≡ text.old.items ++ body_of verdict message.now details.now) }
{
    match verdict {
        CaseVerdict::Passes => add_output(text, details),
        CaseVerdict::Fails => add_pieces(
            text,
            &[
                XmlPiece::Bytes(b"<failure type=\"mismatch\" message=\""),
                XmlPiece::Value(message),
                XmlPiece::Bytes(b"\">"),
                XmlPiece::Text(details),
                XmlPiece::Bytes(b"</failure>"),
            ],
        ),
        CaseVerdict::Errs => add_pieces(
            text,
            &[
                XmlPiece::Bytes(b"<error type=\"refused\" message=\""),
                XmlPiece::Value(message),
                XmlPiece::Bytes(b"\">"),
                XmlPiece::Text(details),
                XmlPiece::Bytes(b"</error>"),
            ],
        ),
    }
}

// The element of a case that passes.
fn add_output(text: &mut Vec<u8>, details: &[u8]) -> Result<(), AllocError>
    ensures { OnOk result (text.new.items ≡ text.old.items ++ body_of CaseVerdict.Passes [] details.now) }
{
    if details.is_empty() {
        return Ok(());
    }
    add_pieces(
        text,
        &[
            XmlPiece::Bytes(b"<system-out>"),
            XmlPiece::Text(details),
            XmlPiece::Bytes(b"</system-out>"),
        ],
    )
}

// Adds the suite of a script.
fn add_suite(
    text: &mut Vec<u8>,
    path: &[u8],
    line: Option<usize>,
    verdict: CaseVerdict,
    message: &[u8],
    details: &[u8],
) -> Result<(), AllocError>
    ensures { IfOk result (λ _. text.new.items ≡ text.old.items ++ suite_text path.now line verdict message.now details.now) }
{
    add_front(text, path, line, verdict)?;
    add_body(text, verdict, message, details)?;
    add_pieces(text, &[XmlPiece::Bytes(b"</testcase></testsuite>\n")])?;
    Ok(())
}

fn verdict_by(status: Status) -> CaseVerdict
    ensures { result ≡ verdict_by status }
{
    match status {
        Status::Matched => CaseVerdict::Passes,
        _ => CaseVerdict::Fails,
    }
}

// The verdict of a script by itself.
fn verdict_of(ran: ScriptResult, is_strict: bool) -> CaseVerdict
    ensures { result ≡ verdict_of is_strict ran }
{
    let mut totals = Totals::new();
    PathResult::Ran(ran).count_in(&mut totals);
    verdict_by(totals.status(is_strict))
}

// What a case that fails says in a line.
fn message(
    alloc: Global,
    mismatches: usize,
    errors: usize,
    warnings: usize,
) -> Result<Vec<u8>, AllocError>
    ensures { IfOk result (λ made. made.items ≡ message_with mismatches errors warnings) }
{
    let mut text = Vec::new(alloc);
    add_pieces(
        &mut text,
        &[
            XmlPiece::Bytes(b"mismatches: "),
            XmlPiece::Number(mismatches as u64),
            XmlPiece::Bytes(b", errors: "),
            XmlPiece::Number(errors as u64),
            XmlPiece::Bytes(b", warnings: "),
            XmlPiece::Number(warnings as u64),
        ],
    )?;
    Ok(text)
}

fn add_warning(text: &mut Vec<u8>, path: &[u8], warning: Warning) -> Result<(), AllocError>
    ensures { OnOk result (text.new.items ≡ text.old.items ++ warning_text path.now warning.line warning.doubt) }
{
    let nothing = Vec::new(*text.allocator());
    let mut sink = Through(mem::replace(text, nothing));
    let written = put_warning(&mut sink, path, warning.line, warning.doubt);
    *text = sink.0;
    match written {
        Ok(()) => Ok(()),
        Err(_) => Err(AllocError),
    }
}

fn add_warnings(text: &mut Vec<u8>, path: &[u8], warnings: &[Warning]) -> Result<(), AllocError>
    ensures { IfOk result (λ _. text.new.items ≡ text.old.items ++ warnings_text path.now warnings.now) }
{
    for warning in warnings {
        add_warning(text, path, *warning)?;
    }
    Ok(())
}

// The script's report for people.
fn details_of<M: Machine>(
    alloc: Global,
    subject: &CheckedScript<'_, M>,
) -> Result<Vec<u8>, AllocError>
    requires { AreFindings subject.now }
    ensures { IfOk result (λ made. made.items ≡ details_of (plain_of subject.now)) }
{
    let path = subject.path.as_bytes();
    let mut text = Vec::new(alloc);
    add_warnings(&mut text, path, subject.warnings)?;
    let view = View {
        path,
        colors: Colors::Off,
        shown: Detail::Differing,
    };
    let mut sink = Through(text);
    let shown = put_checked(
        alloc,
        &mut sink,
        subject.session,
        subject.layout,
        view,
        subject.whys,
    );
    match shown {
        Ok(()) => Ok(sink.0),
        Err(_) => Err(AllocError),
    }
}

/// The suite of a script that ran: its case fails where the script alone would end the check with another status than 0.
pub(crate) fn script_suite<M: Machine>(
    alloc: Global,
    subject: &CheckedScript<'_, M>,
    is_strict: bool,
) -> Result<Vec<u8>, AllocError>
    requires { AreFindings subject.now }
    ensures { IfOk result (λ made. made.items ≡ script_suite is_strict (plain_of subject.now)) }
{
    let ran = subject.ran;
    let details = details_of(alloc, subject)?;
    let message = message(alloc, ran.left, ran.errors, ran.warnings)?;
    let mut text = Vec::new(alloc);
    let path = subject.path.as_bytes();
    let verdict = verdict_of(ran, is_strict);
    add_suite(&mut text, path, ran.first, verdict, &message, &details)?;
    Ok(text)
}

// The message after its path and its line.
fn placed<'a>(
    alloc: Global,
    path: &'a [u8],
    line: Option<usize>,
    message: &'a [u8],
) -> Result<Vec<u8>, AllocError>
    ensures { IfOk result (λ made. made.items ≡ placed path.now line message.now) }
{
    let mut text = Vec::new(alloc);
    match line {
        Some(line) => add_pieces(
            &mut text,
            &[
                XmlPiece::Name(path),
                XmlPiece::Bytes(b":"),
                XmlPiece::Number(line as u64),
                XmlPiece::Bytes(b": "),
                XmlPiece::Bytes(message),
                XmlPiece::Bytes(b"\n"),
            ],
        )?,
        None => add_pieces(
            &mut text,
            &[
                XmlPiece::Name(path),
                XmlPiece::Bytes(b": "),
                XmlPiece::Bytes(message),
                XmlPiece::Bytes(b"\n"),
            ],
        )?,
    }
    Ok(text)
}

// Adds the suite of a notice, with this verdict.
fn add_placed(
    alloc: Global,
    text: &mut Vec<u8>,
    verdict: CaseVerdict,
    notice: ScriptNotice<'_>,
) -> Result<(), AllocError>
    ensures { IfOk result (λ _. text.new.items ≡ text.old.items ++ suite_text notice.entry.path.now notice.entry.line verdict notice.entry.message.now (placed notice.entry.path.now notice.entry.line notice.entry.message.now)) }
{
    let details = placed(alloc, notice.path, notice.line, notice.message)?;
    add_suite(
        text,
        notice.path,
        notice.line,
        verdict,
        notice.message,
        &details,
    )?;
    Ok(())
}

/// Adds the suite of a notice about a script. A warning is in the suite of the script's run.
pub(crate) fn add_notice_suite(
    alloc: Global,
    text: &mut Vec<u8>,
    notice: ScriptNotice<'_>,
) -> Result<(), AllocError>
    ensures { IfOk result (λ _. text.new.items ≡ text.old.items ++ notice_suite notice.entry.path.now notice.entry.line notice.entry.kind notice.entry.message.now) }
{
    match notice.kind {
        NoticeKind::Refused | NoticeKind::Failed => {
            add_placed(alloc, text, CaseVerdict::Errs, notice)
        }
        NoticeKind::Left | NoticeKind::Accepted => {
            add_placed(alloc, text, CaseVerdict::Passes, notice)
        }
        NoticeKind::Warning => Ok(()),
    }
}
