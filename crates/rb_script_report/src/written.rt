//! The text that accepting writes.

ghost use Rattle.std.specs.Prelude.{◌≡◌, ◌↔◌, if◌then◌else◌, IfOk, IfErr, IsTrue, length, nat_lt};
ghost use Rattle.rb_script.specs.declared.limits.TheConstants.{MAX_LINE};
ghost use Rattle.rb_script.specs.Script.{PlainScript, text, with_outputs};
ghost use Rattle.rb_script.specs.declared.edit.Edit.TheVariants.{Accept};
ghost use Rattle.rb_script.specs.Edits.{edited, EditFails};
ghost use Rattle.rb_script.specs.Reads.{Reads};
ghost use Rattle.rb_script.specs.Valid.{IsScript};
ghost use Rattle.rb_replay.specs.Run.{outputs};
ghost use Rattle.rb_script_report.specs.declared.written.AcceptFault.TheVariants.{OutOfMemory};
ghost use Rattle.rb_script_report.specs.Accepting.{accepted, accepted_of, left_heads};
ghost use Rattle.rb_script_report.specs.Layouts.{IsLayout};
ghost use Rattle.rb_script_report.specs.Splices.{IsWritten, accepted_bytes};
ghost use Rattle.rb_script_report.specs.Refusing.{has_long_line, bad_head, TellsAcceptFault};

use crate::accept_options::AcceptOptions;
use crate::accepting::{accepted_of, left_heads};
use crate::answers::number_at;
use crate::layout::Layout;
use crate::splice::spliced;
use crate::text::is_same_text;
use rb_machine::Machine;
use rb_replay::Session;
use rb_script::{ChunkedList, Edit, EditFault, Lines, MAX_LINE, Script, ScriptFault};
use std::alloc::{AllocError, Global};
use thiserror::Error;

/// A script after accepting.
#[derive(Drop)]
pub struct Accepted {
    /// The new text.
    pub text: Vec<u8>,
    /// The lines of the heads whose outputs are not accepted.
    pub left: Vec<usize>,
}

/// Why nothing of a script is accepted.
#[derive(Clone, Copy, Debug, PartialEq, Eq, Error)]
pub enum AcceptFault {
    /// The output of the directive whose head begins on this line has a line that is too long to be in a script.
    #[error("an output of line {0} can't be expected")]
    BadOutput(usize),
    /// The script's canonical text would be too long.
    #[error("the script would be too long")]
    TooLong,
    /// Memory was refused.
    #[error("out of memory")]
    OutOfMemory,
}

impl From<AllocError> for AcceptFault {
    ghost from_gives = { λ _ e. e ≡ OutOfMemory };

    fn from(_e: AllocError) -> AcceptFault {
        AcceptFault::OutOfMemory
    }
}

// Whether the bytes are the script of this canonical text.
fn reads_as(alloc: Global, bytes: &[u8], wanted: &[u8]) -> Result<bool, AllocError>
    ensures { (s : PlainScript) → IsScript s → wanted.now ≡ text s → IfOk result (λ same. IsTrue same ↔ Reads bytes.now s) }
{
    match Script::read(alloc, bytes) {
        Ok(script) => {
            let text = script.canonical_text(alloc)?;
            Ok(is_same_text(text.as_slice(), wanted))
        }
        Err(ScriptFault::OutOfMemory) => Err(AllocError),
        Err(_) => Ok(false),
    }
}

fn one_of(own: Vec<u8>, canonical: Vec<u8>, is_own: bool) -> Vec<u8>
    ensures { result.items ≡ (if is_own then own.items else canonical.items) }
{
    if is_own { own } else { canonical }
}

// The one of two texts of the script that is written: the first if it reads as the script, else the canonical one.
fn chosen(alloc: Global, own: Vec<u8>, script: &Script) -> Result<Vec<u8>, AllocError>
    requires { IsScript script.now }
    ensures reads { IfOk result (λ made. Reads made.items script.now) }
    ensures bytes { IfOk result (λ made. IsWritten own.items script.now made.items) }
{
    let canonical = script.canonical_text(alloc)?;
    let bytes = own.as_slice();
    let wanted = canonical.as_slice();
    let is_own = reads_as(alloc, bytes, wanted)?;
    Ok(one_of(own, canonical, is_own))
}

// The script of the bytes with these expectations.
fn expecting(
    alloc: Global,
    bytes: &[u8],
    expected: &ChunkedList<Lines>,
) -> Result<Script, EditFault>
    requires { (s : PlainScript) → Reads bytes.now s → length expected.now ≡ length s.blocks }
    ensures made { (s : PlainScript) → Reads bytes.now s → IfOk result (λ new. new ≡ with_outputs s expected.now) }
    ensures valid { IfOk result (λ new. IsScript new) }
    // Memory apart, the edit itself is refused.
    ensures refused { (s : PlainScript) → Reads bytes.now s → IfErr result (λ fault. EditFails fault (edited s Accept expected.now)) }
{
    match Script::read(alloc, bytes) {
        Ok(script) => script.edited(&Edit::Accept, expected),
        Err(_) => Err(EditFault::OutOfMemory),
    }
}

fn is_long(line: &[u8]) -> bool
    ensures { result ≡ nat_lt MAX_LINE (length line.now) }
{
    line.len() > MAX_LINE
}

// Whether a line is longer than one of a script may be.
fn has_long_line(lines: &Lines) -> bool
    ensures { result ≡ has_long_line lines.now }
{
    for i in 0..lines.len() {
        if is_long(lines.line(i)) {
            return true;
        }
    }
    false
}

// The line of the first head whose expectation has such a line; 0 if there is none.
fn bad_head(expected: &ChunkedList<Lines>, heads: &[usize]) -> usize
    requires { length heads.now ≡ length expected.now }
    ensures { result ≡ bad_head heads.now expected.now }
{
    for i in 0..expected.len() {
        let line = number_at(heads, i);
        if has_long_line(expected.at(i)) {
            return line;
        }
    }
    0
}

// Why an edit that was refused accepts nothing.
fn refusal(fault: EditFault, expected: &ChunkedList<Lines>, heads: &[usize]) -> AcceptFault
    requires { length heads.now ≡ length expected.now }
    ensures { (s : PlainScript) → EditFails fault (edited s Accept expected.now) → TellsAcceptFault result heads.now s expected.now }
{
    match fault {
        EditFault::BadExpectation => AcceptFault::BadOutput(bad_head(expected, heads)),
        EditFault::TooLong => AcceptFault::TooLong,
        _ => AcceptFault::OutOfMemory,
    }
}

// The text, if the script's layout is known.
fn accepted_text<M: Machine>(
    alloc: Global,
    session: &Session<M>,
    bytes: &[u8],
    layout: &Layout,
    wanted: AcceptOptions<'_>,
) -> Result<Vec<u8>, AcceptFault>
    requires { IsLayout bytes.now session.now.script layout.now }
    ensures reads { IfOk result (λ made. Reads made.items (accepted wanted.entry layout.now.text layout.now.heads.items session.now.script)) }
    ensures bytes { IfOk result (λ made. IsWritten (accepted_bytes wanted.entry bytes.now layout.now session.now.script) (accepted wanted.entry layout.now.text layout.now.heads.items session.now.script) made.items) }
    ensures refused { IfErr result (λ fault. TellsAcceptFault fault layout.now.heads.items session.now.script (accepted_of wanted.entry layout.now.text layout.now.heads.items session.now.script.blocks (outputs session.now.script))) }
{
    let heads = layout.heads.as_slice();
    let expected = accepted_of(alloc, session, heads, &layout.text, wanted)?;
    let own = spliced(alloc, session, bytes, layout, &expected)?;
    match expecting(alloc, bytes, &expected) {
        Ok(script) => Ok(chosen(alloc, own, &script)?),
        Err(fault) => Err(refusal(fault, &expected, heads)),
    }
}

/// Accepts outputs of the session's script, which has this layout in its bytes: of the directives that are picked all but new errors, or these too. The text is
/// the script's own bytes, but for the lines of the expectations that change; where that would not read as the script, it is the canonical text.
pub fn accept<M: Machine>(
    alloc: Global,
    session: &Session<M>,
    bytes: &[u8],
    layout: &Layout,
    wanted: AcceptOptions<'_>,
) -> Result<Accepted, AcceptFault>
    requires { IsLayout bytes.now session.now.script layout.now }
    // The text reads as the script with what is accepted.
    ensures reads { IfOk result (λ made. Reads made.text.items (accepted wanted.entry layout.now.text layout.now.heads.items session.now.script)) }
    // It is the script's own bytes, of which only the lines of the expectations that change are replaced, if these read so, and else the canonical text.
    ensures bytes { IfOk result (λ made. IsWritten (accepted_bytes wanted.entry bytes.now layout.now session.now.script) (accepted wanted.entry layout.now.text layout.now.heads.items session.now.script) made.text.items) }
    // The others are named.
    ensures left { IfOk result (λ made. made.left.items ≡ left_heads wanted.entry layout.now.text layout.now.heads.items session.now.script.blocks (outputs session.now.script)) }
    // A script is refused only where what is accepted does not fit into it.
    ensures refused { IfErr result (λ fault. TellsAcceptFault fault layout.now.heads.items session.now.script (accepted_of wanted.entry layout.now.text layout.now.heads.items session.now.script.blocks (outputs session.now.script))) }
{
    let left = left_heads(
        alloc,
        session,
        layout.heads.as_slice(),
        &layout.text,
        wanted,
    )?;
    let text = accepted_text(alloc, session, bytes, layout, wanted)?;
    Ok(Accepted { text, left })
}
