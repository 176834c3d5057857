//! What programs get of a script that ran: JSON objects, workflow commands, or a suite of JUnit's.

ghost use Rattle.std.specs.Prelude.{◌≡◌, ◌++◌, ◌+◌, ◌-◌, ◌<◌, IfOk, length};
ghost use Rattle.rb_replay.specs.Report.{mismatches};
ghost use Rattle.rb_script_report.specs.Checked.{of_first};
ghost use Rattle.rb_check.specs.Formats.{differing_command, directive_object, error_command, errors_of, mismatch_command, objects_of, script_text};
ghost use Rattle.rb_check.specs.Subjects.{AreFindings, plain_of, plain_ran};

use crate::checked_script::CheckedScript;
use crate::command::{add_command, add_difference};
use crate::format::Format;
use crate::junit::script_suite;
use crate::kind::severity;
use crate::object::add_object;
use crate::piece::CommandPiece;
use crate::ran_directive::{RanDirective, directive_at, head_of};
use rb_machine::Machine;
use rb_replay::Session;
use rb_report::check::Table;
use rb_script::Lines;
use rb_script_report::{first_index, first_line, is_same, is_unexpected};
use std::alloc::{AllocError, Global};

// Adds a directive as an object if its output is a mismatch or a new error.
fn add_directive(
    alloc: Global,
    text: &mut Vec<u8>,
    lines: &Lines,
    ran: RanDirective<'_>,
) -> Result<(), AllocError>
    ensures { IfOk result (λ _. text.new.items ≡ text.old.items ++ directive_object lines.now ran.entry.place.path.now (plain_ran ran.entry)) }
{
    if !is_same(ran.block.expected(), ran.output) {
        return add_object(alloc, text, ran, b"mismatch");
    }
    if is_unexpected(lines, ran.place.line, ran.output) {
        return add_object(alloc, text, ran, b"error");
    }
    Ok(())
}

// Adds the script's directives as objects.
fn add_objects<M: Machine>(
    alloc: Global,
    text: &mut Vec<u8>,
    subject: &CheckedScript<'_, M>,
) -> Result<(), AllocError>
    requires { length subject.now.layout.now.heads.items ≡ length subject.now.session.now.script.blocks }
    ensures { IfOk result (λ _. text.new.items ≡ text.old.items ++ objects_of (plain_of subject.now)) }
{
    for i in 0..subject.session.len() {
        add_directive(alloc, text, &subject.layout.text, directive_at(subject, i))?;
    }
    Ok(())
}

// Adds a directive that expects its output, a new error, as a command.
fn add_error(
    alloc: Global,
    text: &mut Vec<u8>,
    is_strict: bool,
    lines: &Lines,
    ran: RanDirective<'_>,
) -> Result<(), AllocError>
    ensures { IfOk result (λ _. text.new.items ≡ text.old.items ++ error_command is_strict lines.now ran.entry.place.path.now (plain_ran ran.entry)) }
{
    let place = ran.place;
    if !is_same(ran.block.expected(), ran.output) || !is_unexpected(lines, place.line, ran.output) {
        return Ok(());
    }
    let made = head_of(alloc, ran.block)?;
    let head = made.as_slice();
    let pieces = [
        CommandPiece::Message(first_line(ran.output)),
        CommandPiece::Bytes(b"\n"),
    ];
    let severity = severity(is_strict);
    add_command(text, severity, place.path, Some(place.line), head, &pieces)?;
    Ok(())
}

// Adds the new errors that are expected, each as a command.
fn add_errors<M: Machine>(
    alloc: Global,
    text: &mut Vec<u8>,
    is_strict: bool,
    subject: &CheckedScript<'_, M>,
) -> Result<(), AllocError>
    requires { length subject.now.layout.now.heads.items ≡ length subject.now.session.now.script.blocks }
    ensures { IfOk result (λ _. text.new.items ≡ text.old.items ++ errors_of is_strict (plain_of subject.now)) }
{
    let lines = &subject.layout.text;
    for i in 0..subject.session.len() {
        add_error(alloc, text, is_strict, lines, directive_at(subject, i))?;
    }
    Ok(())
}

// How many mismatches there are besides the first.
fn others_of<M: Machine>(session: &Session<M>) -> usize
    ensures { result ≡ length (mismatches session.now.script) - 1 }
{
    session.mismatches().len().saturating_sub(1)
}

// Adds a directive that expects other lines, as a command.
fn add_differing(
    alloc: Global,
    text: &mut Vec<u8>,
    ran: RanDirective<'_>,
    others: usize,
) -> Result<(), AllocError>
    ensures { IfOk result (λ _. text.new.items ≡ text.old.items ++ differing_command ran.entry.place.path.now others (plain_ran ran.entry)) }
{
    let mut table = Table::new(alloc)?;
    add_difference(alloc, text, ran, others, &mut table)?;
    Ok(())
}

// Adds the mismatch at an index as a command.
fn add_mismatch<M: Machine>(
    alloc: Global,
    text: &mut Vec<u8>,
    subject: &CheckedScript<'_, M>,
    index: usize,
) -> Result<(), AllocError>
    requires count { length subject.now.layout.now.heads.items ≡ length subject.now.session.now.script.blocks }
    requires within { index < length subject.now.session.now.script.blocks }
    ensures { IfOk result (λ _. text.new.items ≡ text.old.items ++ mismatch_command (plain_of subject.now) (index + 1)) }
{
    let others = others_of(subject.session);
    add_differing(alloc, text, directive_at(subject, index), others)
}

// Adds the first mismatch as a command.
fn add_first<M: Machine>(
    alloc: Global,
    text: &mut Vec<u8>,
    subject: &CheckedScript<'_, M>,
) -> Result<(), AllocError>
    requires { length subject.now.layout.now.heads.items ≡ length subject.now.session.now.script.blocks }
    ensures { IfOk result (λ _. text.new.items ≡ text.old.items ++ of_first (mismatch_command (plain_of subject.now)) (mismatches subject.now.session.now.script)) }
{
    match first_index(subject.session) {
        Some(index) => add_mismatch(alloc, text, subject, index),
        None => Ok(()),
    }
}

/// The report of a script that ran, in this format. It is empty if there is nothing to report.
///
/// # Errors
///
/// If memory was refused.
pub(crate) fn formatted<M: Machine>(
    alloc: Global,
    format: Format,
    is_strict: bool,
    subject: &CheckedScript<'_, M>,
) -> Result<Vec<u8>, AllocError>
    requires { AreFindings subject.now }
    ensures { IfOk result (λ made. made.items ≡ script_text format is_strict (plain_of subject.now)) }
{
    let mut text = Vec::new(alloc);
    match format {
        Format::Json => add_objects(alloc, &mut text, subject)?,
        Format::Github => {
            add_first(alloc, &mut text, subject)?;
            add_errors(alloc, &mut text, is_strict, subject)?;
        }
        Format::Junit => return script_suite(alloc, subject, is_strict),
    }
    Ok(text)
}
