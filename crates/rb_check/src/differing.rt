//! The list of the scripts that differ.

ghost use Rattle.std.specs.Prelude.{IsOk};
ghost use Rattle.rb_script.specs.Writes.{Writes};
ghost use Rattle.rb_check.specs.Shown.{differing_text, list_text};

use rb_report::check::put_brief;
use rb_script::{Sink, WriteFault};
use rb_text::WrittenPiece;

/// A script that differs.
#[derive(Drop)]
pub(crate) struct Differing {
    pub(crate) path: String,
    pub(crate) directives: usize,
    pub(crate) mismatches: usize,
    /// The line of the first mismatch's head.
    pub(crate) line: usize,
}

/// The scripts that differ, a line each, and an empty line; nothing if there are none.
#[derive(Clone, Copy)]
pub(crate) struct DifferingList<'a>(pub(crate) &'a [Differing]);

impl WrittenPiece for DifferingList<'_> {
    ghost text = { λ list. list_text list.0.now };

    fn put<S: Sink>(&self, sink: &mut S) -> Result<(), WriteFault> {
        if self.0.is_empty() {
            return Ok(());
        }
        put_each_differing(sink, self.0)?;
        sink.put(b"\n")
    }
}

// Writes a line for each script.
fn put_each_differing<S: Sink>(sink: &mut S, scripts: &[Differing]) -> Result<(), WriteFault>
    ensures wrote { Writes result (S.held sink.old) (S.held sink.new) (differing_text scripts.now) }
    ensures all { S.takes_all sink.old → IsOk result × S.takes_all sink.new }
{
    for script in scripts {
        let path = script.path.as_bytes();
        put_brief(
            sink,
            path,
            script.mismatches,
            script.directives,
            script.line,
        )?;
    }
    Ok(())
}
