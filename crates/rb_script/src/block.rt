//! A block of a script.

use crate::directive::DirectiveRef;
use crate::expected::Expected;
use crate::fault::ScriptFault;
use crate::front::Front;
use crate::lines::Lines;
use crate::reading;
use crate::writing::shown_len;
use std::alloc::{AllocError, Global};
use std::marker::Model;

/// A directive with its expectation, as lines: lead lines, the head, input lines and the expected lines.
pub struct Block {
    front: Front,
    expected: Lines,
    // the length of the canonical text
    text_len: usize,
}

// Written by hand, so that dropping one is a call for the prover, and is proved only here.
impl Drop for Block {
    fn drop(self) {
        let Block {
            front: _,
            expected: _,
            text_len: _,
        } = self;
    }
}

impl Model for Block {
    ghost use Rattle.rb_script.specs.Script.{PlainBlock};

    ghost Value = { PlainBlock };

    ghost use Rattle.rb_script.specs.Fronts.{block_of_front, IsKeptBlock};

    ghost view = { λ b. block_of_front b.front b.expected };

    ghost invariant = { λ b. IsKeptBlock b.front b.expected b.text_len };
}

impl Block {
    ghost use Rattle.std.specs.Prelude.{◌≡◌, ◌≢◌, ◌+◌, ℕ, List, IfOk, IfErr, IfSome, Ok, Err, true, length};
    ghost use Rattle.rb_script.specs.Script.{PlainBlock, block_text, expecting};
    ghost use Rattle.rb_script.specs.Reads.{Reads, alone};
    ghost use Rattle.rb_script.specs.Valid.{IsBlock};
    ghost use Rattle.rb_script.specs.Edits.{is_expectation};
    ghost use Rattle.rb_script.specs.Fronts.{block_of_front, HasTokens};
    ghost use Rattle.rb_script.specs.Tokens.{plain};
    ghost use Rattle.rb_script.specs.Results.{Gives};
    ghost use Rattle.rb_script.specs.Heads.{directive_of};
    ghost use Rattle.rb_script.specs.Reading.{block_of, early_fault, capped};

    /// Reads bytes that are one block with no line after it. Faults count lines within the bytes.
    pub fn read(alloc: Global, bytes: &[u8]) -> Result<Block, ScriptFault>
        // The result is the block that the bytes are.
        ensures found { IfOk result (λ b. Reads bytes.now (alone b)) }
        // If the bytes are a block, it is read, unless memory runs out.
        ensures only { (b : PlainBlock) → Reads bytes.now (alone b) → Gives {X = PlainBlock} {Y = PlainBlock} (λ x. x) result (Ok b) }
        // If there is a fault, the bytes are not one block, unless memory ran out.
        ensures refused { IfErr result (λ fault. fault ≢ ScriptFault.OutOfMemory → (b : PlainBlock) → Reads bytes.now (alone b) → ⊥) }
        // Which fault is reported.
        ensures exact { Gives (λ b. b) result (block_of bytes.now) }
        // Some faults are found before anything is allocated.
        ensures early { IfSome (early_fault bytes.now) (λ fault. result ≡ Err fault) }
    {
        reading::one_block(alloc, bytes)
    }

    // Makes a block of the lines above its expectation, and the expectation.
    pub(crate) fn new(front: Front, expected: Expected) -> Block
        requires block { IsBlock (block_of_front front expected) }
        requires tokens { HasTokens front }
        ensures { result ≡ block_of_front front expected }
    {
        let text_len = front.text_len().saturating_add(expected.shown_len());
        Block {
            front,
            expected: expected.into_lines(),
            text_len,
        }
    }

    /// The directive, without copying.
    pub fn directive(&self) -> DirectiveRef<'_>
        // It is derived from the head by the grammar, with the input.
        ensures whole { plain result ≡ directive_of self.now }
        ensures head { result.head ≡ self.now.head }
    {
        DirectiveRef::new(&self.front)
    }

    /// The expected lines.
    pub fn expected(&self) -> &Lines
        ensures { result.now ≡ self.now.expected }
    {
        &self.expected
    }

    pub(crate) fn front(&self) -> &Front
        ensures { block_of_front result.now self.now.expected ≡ self.now }
    {
        &self.front
    }

    /// Copies the block.
    pub fn try_copy(&self) -> Result<Block, AllocError>
        ensures { IfOk result (λ copy. copy ≡ self.now) }
    {
        Ok(Block {
            front: self.front.try_copy()?,
            expected: self.expected.try_copy()?,
            text_len: self.text_len,
        })
    }

    /// Copies the block with other expected lines.
    pub(crate) fn with_expected(&self, lines: &Lines) -> Result<Block, AllocError>
        requires { is_expectation lines.now ≡ true }
        ensures { IfOk result (λ b. b ≡ expecting self.now lines.now) }
    {
        let expected = Expected::new(lines.try_copy()?);
        Ok(Block::new(self.front.try_copy()?, expected))
    }

    /// The length of the canonical text.
    pub(crate) fn text_len(&self) -> usize
        ensures len { result ≡ capped (length (block_text self.now)) }
        // The block is valid.
        ensures valid { IsBlock self.now }
    {
        self.text_len
    }

    /// The length of the canonical text with other expected lines.
    pub(crate) fn text_len_with(&self, lines: &Lines) -> usize
        ensures { result ≡ capped (length (block_text (expecting self.now lines.now))) }
    {
        self.front.text_len().saturating_add(shown_len(lines))
    }
}
