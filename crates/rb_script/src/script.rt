//! A script: blocks, and a tail of lines.

use crate::block::Block;
use crate::chunked_list::ChunkedList;
use crate::fault::ScriptFault;
use crate::line_part::LinePart;
use crate::reading;
use std::alloc::Global;
use std::marker::Model;

/// A script: blocks, and a tail of lines.
pub struct Script {
    pub(crate) alloc: Global,
    pub(crate) blocks: ChunkedList<Block>,
    pub(crate) tail: LinePart,
    // the length of the canonical text
    pub(crate) text_len: usize,
}

// Written by hand, so that dropping one is a call for the prover, and is proved only here.
impl Drop for Script {
    fn drop(self) {
        let Script {
            alloc: _,
            blocks: _,
            tail: _,
            text_len: _,
        } = self;
    }
}

impl Model for Script {
    ghost use Rattle.std.specs.Prelude.{◌≡◌, length};
    ghost use Rattle.rb_script.specs.Script.{PlainScript};

    ghost Value = { PlainScript };

    ghost use Rattle.rb_script.specs.Shared.{IsKeptScript};

    ghost view = { λ s. record { blocks = s.blocks; tail = s.tail } };

    ghost invariant = { λ s. IsKeptScript (record { blocks = s.blocks; tail = s.tail }) s.text_len };
}

impl Script {
    ghost use Rattle.std.specs.Prelude.{◌≡◌, ◌≢◌, ◌-◌, ◌==◌, IfOk, IfErr, IfSome, Ok, Err, None, length, slice_get, option_copied, if◌then◌else◌};
    ghost use Rattle.rb_script.specs.Script.{PlainScript};
    ghost use Rattle.rb_script.specs.Reads.{Reads};
    ghost use Rattle.rb_script.specs.Results.{Gives};
    ghost use Rattle.rb_script.specs.Reading.{read_of, early_fault};

    /// Reads a script.
    pub fn read(alloc: Global, bytes: &[u8]) -> Result<Script, ScriptFault>
        // The result is the script that the bytes are.
        ensures found { IfOk result (λ s. Reads bytes.now s) }
        // If the bytes are a script, it is read, unless memory runs out.
        ensures only { (s : PlainScript) → Reads bytes.now s → Gives {X = PlainScript} {Y = PlainScript} (λ s. s) result (Ok s) }
        // If there is a fault, the bytes are not a script, unless memory ran out.
        ensures refused { IfErr result (λ fault. fault ≢ ScriptFault.OutOfMemory → (s : PlainScript) → Reads bytes.now s → ⊥) }
        // Which fault is reported.
        ensures exact { Gives (λ s. s) result (read_of bytes.now) }
        // Some faults are found before anything is allocated.
        ensures early { IfSome (early_fault bytes.now) (λ fault. result ≡ Err fault) }
    {
        reading::script(alloc, bytes)
    }

    /// The number of blocks.
    pub fn len(&self) -> usize
        ensures { result ≡ length self.now.blocks }
    {
        self.blocks.len()
    }

    /// Whether there are no blocks.
    pub fn is_empty(&self) -> bool
        ensures { result ≡ (length self.now.blocks == 0) }
    {
        self.blocks.is_empty()
    }

    /// The block at a place, counted from 1.
    pub fn block(&self, place: usize) -> Option<&Block>
        ensures { option_copied result ≡ (if place == 0 then None else slice_get self.now.blocks (place - 1)) }
    {
        match place {
            0 => None,
            _ => self.blocks.get(place - 1),
        }
    }
}
