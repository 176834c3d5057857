//! A script, with its lines and line numbers.
//!
//! A script doesn't store line numbers, because an edit moves lines. The canonical text has other lines than the bytes: it adds an empty
//! line after each expectation, and uses the double form only if it is needed. So line numbers are found when the bytes are read.

use crate::fault::ScriptFault;
use crate::lines::Lines;
use crate::reading;
use crate::script::Script;
use std::alloc::Global;

/// A script, with the lines that it was read from.
#[derive(Drop)]
pub struct ScriptWithLines {
    pub script: Script,
    /// The lines, without their ends.
    pub lines: Lines,
    /// The line number of each block's head, in order. Lines are counted from 1, as in a [`ScriptFault`]. A last line without LF is a
    /// line.
    pub heads: Vec<usize>,
}

impl ScriptWithLines {
    ghost use Rattle.std.specs.Prelude.{◌≡◌, IfOk, IfErr, IfSome, Err};
    ghost use Rattle.rb_script.specs.Lines.{lines};
    ghost use Rattle.rb_script.specs.Script.{PlainScript};
    ghost use Rattle.rb_script.specs.Reads.{Reads};
    ghost use Rattle.rb_script.specs.Results.{Gives};
    ghost use Rattle.rb_script.specs.Reading.{read_of, early_fault};
    ghost use Rattle.rb_script.specs.HeadLines.{AreHeadLines};

    /// Reads a script as [`Script::read`] does, with its lines and line numbers, in one pass.
    pub fn read(alloc: Global, bytes: &[u8]) -> Result<ScriptWithLines, ScriptFault>
        // The result is the script that the bytes are, with their lines and the line numbers of the heads.
        ensures found { IfOk result (λ read. Reads bytes.now read.script) }
        ensures lines { IfOk result (λ read. read.lines ≡ lines bytes.now) }
        ensures heads { IfOk result (λ read. AreHeadLines 1 (lines bytes.now) read.script.blocks read.heads.items) }
        // The line numbers are those of any script that the bytes are.
        ensures same { (s : PlainScript) → Reads bytes.now s → IfOk result (λ read. AreHeadLines 1 (lines bytes.now) s.blocks read.heads.items) }
        // If the bytes are a script, it is read, unless memory runs out.
        ensures only { (s : PlainScript) → Reads bytes.now s → IfErr result (λ fault. fault ≡ ScriptFault.OutOfMemory) }
        // Which fault is reported.
        ensures exact { Gives (λ read. read.script) result (read_of bytes.now) }
        // Some faults are found before anything is allocated.
        ensures early { IfSome (early_fault bytes.now) (λ fault. result ≡ Err fault) }
    {
        reading::with_lines(alloc, bytes)
    }
}
