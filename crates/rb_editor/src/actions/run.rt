//! The run of a script, which is kept next to the text of an open document.
//!
//! Diagnostics, hovers and actions of a text are those of one fresh run of it, whatever the session ran before: that is what a session promises.
//! The next text of the document runs from there, so it runs only what differs.

ghost use Rattle.std.specs.Prelude.{◌≡◌, ◌+◌, ◌≤◌, ◌^◌, IsTrue, IfNone, IfOk, IfSome, OnOk, length};
ghost use Rattle.std.specs.Str.{bytes_eq};
ghost use Rattle.rb_script.specs.declared.limits.TheConstants.{MAX_DIRECTIVES};
ghost use Rattle.rb_script.specs.Lines.{lines};
ghost use Rattle.rb_script.specs.Reads.{Reads};
ghost use Rattle.rb_script.specs.HeadLines.{AreHeadLines};
ghost use Rattle.rb_lsp.specs.declared.document.limits.TheConstants.{MAX_TEXT};
ghost use Rattle.rb_editor.specs.Layouts.{IsLayout, IsNoScript};

use crate::actions::comparisons::Comparisons;
use crate::actions::layout::ScriptLayout;
use rb_lsp::document::{Encoding, LineTable};
use rb_machine::{Count, Machine};
use rb_replay::Session;
use rb_script::{ScriptFault, ScriptWithLines};
use rb_script_report::{Layout, warnings};
use std::alloc::{AllocError, Global};
use std::marker::Model;
use std::mem;

// The number of directives between checkpoints.
const SPACING: u64 = 16;

/// A text that is a script: the session on the script, where the script is in the text, and what comparing its mismatches gave.
#[derive(Drop)]
pub(crate) struct DocumentRun<M: Machine> {
    encoding: Encoding,
    text: Vec<u8>,
    layout: ScriptLayout,
    session: Session<M>,
    comparisons: Comparisons,
}

/// The run of a text: its session, and where the script is in the text.
#[derive(Clone, Copy)]
pub(crate) struct RunView<'a, M: Machine> {
    pub(crate) encoding: Encoding,
    pub(crate) text: &'a [u8],
    pub(crate) session: &'a Session<M>,
    pub(crate) layout: &'a ScriptLayout,
}

impl<M: Machine> Model for DocumentRun<M> {
    ghost use Rattle.rb_editor.specs.Layouts.{IsLayout, PlainRun};

    ghost Value = { PlainRun };

    ghost view = { λ r. record { encoding = r.encoding; bytes = r.text.items; script = r.session.script } };

    ghost invariant = { λ r. IsLayout r.encoding r.text.items r.session.script r.layout };
}

// Starts a session on the empty script, from which any other is reached.
fn begun<M: Machine>(alloc: Global, meter: &mut M::Meter) -> Result<Session<M>, AllocError>
    requires { M.Meter.count_of meter.old ≤ 2 ^ 61 }
    ensures { OnOk result (M.Meter.count_of meter.new ≤ M.Meter.count_of meter.old + MAX_DIRECTIVES) }
{
    match Session::start(alloc, b"", SPACING, meter) {
        Ok(session) => Ok(session),
        // No bytes are a script, and the spacing is allowed.
        Err(_) => Err(AllocError),
    }
}

// Whether columns count in the same units.
fn is_same(one: Encoding, other: Encoding) -> bool
    ensures { IsTrue result → one ≡ other }
{
    match (one, other) {
        (Encoding::Utf8, Encoding::Utf8) => true,
        (Encoding::Utf16, Encoding::Utf16) => true,
        _ => false,
    }
}

// Compares two texts.
fn is_same_text(one: &[u8], other: &[u8]) -> bool
    ensures { result ≡ bytes_eq one.now other.now }
{
    one == other
}

/// Gives the kept run, if it is that of the text.
#[tactic(auto, using(crate::proofs::RunLaws::same_text))]
pub(crate) fn kept_of<'k, M: Machine>(
    kept: &'k Option<DocumentRun<M>>,
    encoding: Encoding,
    text: &[u8],
) -> Option<&'k DocumentRun<M>>
    ensures encoding { IfSome result (λ run. run.now.encoding ≡ encoding) }
    ensures text { IfSome result (λ run. run.now.bytes ≡ text.now) }
{
    let Some(run) = kept else {
        return None;
    };
    if !is_same(run.encoding(), encoding) {
        return None;
    }
    if !is_same_text(run.text(), text) {
        return None;
    }
    Some(run)
}

impl<M: Machine> DocumentRun<M> {
    ghost use Rattle.std.specs.Prelude.{◌≡◌, ◌≤◌, ◌^◌, IfNone, IfOk, IfSome, length};
    ghost use Rattle.rb_script.specs.Lines.{lines};
    ghost use Rattle.rb_script.specs.Reads.{Reads};
    ghost use Rattle.rb_script.specs.HeadLines.{AreHeadLines};
    ghost use Rattle.rb_lsp.specs.declared.document.limits.TheConstants.{MAX_TEXT};
    ghost use Rattle.rb_editor.specs.Layouts.{IsLayout, IsNoScript};

    /// The units in which its columns count.
    fn encoding(&self) -> Encoding
        ensures { result ≡ self.now.encoding }
    {
        self.encoding
    }

    /// Its text.
    pub(crate) fn text(&self) -> &[u8]
        ensures { result.now ≡ self.now.bytes }
    {
        self.text.as_slice()
    }

    /// The session on its script.
    pub(crate) fn session(&self) -> &Session<M>
        ensures { result.now.script ≡ self.now.script }
    {
        &self.session
    }

    /// Where the script is in the text.
    pub(crate) fn layout(&self) -> &ScriptLayout
        ensures { IsLayout self.now.encoding self.now.bytes self.now.script result.now }
    {
        &self.layout
    }

    /// Takes what comparing the mismatches of the text before gave, for those of this one.
    pub(crate) fn take_comparisons(&mut self, alloc: Global) -> Comparisons
        ensures { self.new ≡ self.old }
    {
        let mut comparisons = mem::replace(&mut self.comparisons, Comparisons::none(alloc));
        comparisons.begin(self.session.mismatches().len());
        comparisons
    }

    /// Keeps what comparing its mismatches gave, for the next text.
    pub(crate) fn keep_comparisons(&mut self, mut comparisons: Comparisons)
        ensures { self.new ≡ self.old }
    {
        comparisons.end();
        self.comparisons = comparisons;
    }

    /// Runs a text that was read so. The session continues from the script that it has.
    pub(crate) fn of_read(
        alloc: Global,
        encoding: Encoding,
        kept: Option<DocumentRun<M>>,
        bytes: &[u8],
        read: ScriptWithLines,
        meter: &mut M::Meter,
    ) -> Result<DocumentRun<M>, AllocError>
        requires reads { Reads bytes.now read.script }
        requires lines { read.lines ≡ lines bytes.now }
        requires heads { AreHeadLines 1 (lines bytes.now) read.script.blocks read.heads.items }
        requires bounded { length bytes.now ≤ MAX_TEXT }
        requires meter { M.Meter.count_of meter.old ≤ 2 ^ 61 }
        ensures encoding { IfOk result (λ run. run.encoding ≡ encoding) }
        ensures text { IfOk result (λ run. run.bytes ≡ bytes.now) }
        // If nothing is kept, the empty script runs first.
        ensures counted { OnOk result (M.Meter.count_of meter.new ≤ M.Meter.count_of meter.old + MAX_DIRECTIVES + MAX_DIRECTIVES) }
    {
        let (mut session, comparisons) = match kept {
            Some(run) => (run.session, run.comparisons),
            None => (begun(alloc, meter)?, Comparisons::none(alloc)),
        };
        session.replace_script(read.script, meter)?;
        let script = Layout {
            text: read.lines,
            heads: read.heads,
        };
        let slips = warnings(alloc, &session, &script)?;
        let table = LineTable::new(alloc, encoding, bytes)?;
        let text = Vec::from_slice(alloc, bytes)?;
        let layout = ScriptLayout {
            script,
            table,
            slips,
        };
        Ok(DocumentRun {
            encoding,
            text,
            layout,
            session,
            comparisons,
        })
    }

    /// Runs a text of which nothing is kept. None if it isn't a script.
    pub(crate) fn fresh(
        alloc: Global,
        encoding: Encoding,
        text: &[u8],
        meter: &mut M::Meter,
    ) -> Result<Option<DocumentRun<M>>, AllocError>
        requires bounded { length text.now ≤ MAX_TEXT }
        requires meter { M.Meter.count_of meter.old ≤ 2 ^ 61 }
        ensures encoding { IfOk result (λ found. IfSome found (λ run. run.encoding ≡ encoding)) }
        ensures text { IfOk result (λ found. IfSome found (λ run. run.bytes ≡ text.now)) }
        ensures none { IfOk result (λ found. IfNone found (IsNoScript text.now)) }
        ensures counted { OnOk result (M.Meter.count_of meter.new ≤ M.Meter.count_of meter.old + MAX_DIRECTIVES + MAX_DIRECTIVES) }
    {
        match ScriptWithLines::read(alloc, text) {
            Ok(read) => Ok(Some(DocumentRun::of_read(alloc, encoding, None, text, read, meter)?)),
            Err(ScriptFault::OutOfMemory) => Err(AllocError),
            Err(_) => Ok(None),
        }
    }
}
