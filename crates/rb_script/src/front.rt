//! The lines of a block above its expectation.

use crate::argument::ArgumentSpans;
use crate::marks::RULE_LINE;
use crate::shared_lines::SharedLines;
use crate::span::Span;
use crate::tokens::Tokens;
use smallvec::SmallVec;
use std::alloc::AllocError;
use std::marker::Model;

/// The length of a separator and of the empty line after an expectation.
const AROUND_LEN: usize = RULE_LINE.len() + 1;

/// The lines of a block above its expectation: lead, head and input, which are consecutive lines of the script, and the spans of
/// the head's tokens. Line numbers of a script fit in a `u32`.
pub(crate) struct Front {
    all: SharedLines,
    // where lead, head and input begin, and where the input ends
    lead: u32,
    head: u32,
    input: u32,
    end: u32,
    name: Span,
    args: SmallVec<ArgumentSpans, 1>,
}

// Written by hand, so that dropping one is a call for the prover, and is proved only here.
impl Drop for Front {
    fn drop(self) {
        let Front {
            all: _,
            lead: _,
            head: _,
            input: _,
            end: _,
            name: _,
            args: _,
        } = self;
    }
}

impl Model for Front {
    ghost use Rattle.rb_script.specs.Fronts.{PlainFront};

    ghost Value = { PlainFront };

    ghost use Rattle.rb_script.specs.Fronts.{front_of, AreInOrder};

    ghost view = { λ f. front_of f.all f.lead f.head f.input f.end f.name f.args.items };

    ghost invariant = { λ f. AreInOrder f.all f.lead f.head f.input f.end };
}

impl Front {
    ghost use Rattle.std.specs.Prelude.{◌≡◌, ◌<◌, ◌≤◌, ◌^◌, length, slice_get, map, IfOk, Some};
    ghost use Rattle.rb_script.specs.Lines.{text_of};
    ghost use Rattle.rb_script.specs.Parsed.{spanned};
    ghost use Rattle.rb_script.specs.Reading.{capped};
    ghost use Rattle.rb_script.specs.Fronts.{front_of, lines_above, front_len};

    /// Borrows lead, head and input, which begin at these positions of the lines, without copying.
    pub(crate) fn new(
        all: &SharedLines,
        lead: usize,
        head: usize,
        input: usize,
        end: usize,
        tokens: Tokens,
    ) -> Result<Front, AllocError>
        requires lead_ends { lead ≤ head }
        requires head_ends { head ≤ input }
        requires input_ends { input ≤ end }
        requires within { end ≤ length all.now }
        requires short { end < 2 ^ 32 }
        ensures { IfOk result (λ front. front ≡ front_of all.now lead head input end tokens.name tokens.args.items) }
    {
        Ok(Front {
            all: all.try_copy()?,
            lead: lead as u32,
            head: head as u32,
            input: input as u32,
            end: end as u32,
            name: tokens.name,
            args: tokens.args,
        })
    }

    /// The text of lead, head and input.
    pub(crate) fn text(&self) -> &[u8]
        ensures { result.now ≡ text_of (lines_above self.now) }
    {
        self.all.text_between(self.lead as usize, self.end as usize)
    }

    /// Line `i` of the head.
    pub(crate) fn head_line(&self, i: usize) -> &[u8]
        requires { i < length self.now.head }
        ensures { slice_get self.now.head i ≡ Some result.now }
    {
        self.all.line(self.head as usize + i)
    }

    /// The number of input lines.
    pub(crate) fn inputs(&self) -> usize
        ensures { result ≡ length self.now.input }
    {
        (self.end - self.input) as usize
    }

    /// Input line `i`.
    pub(crate) fn input_line(&self, i: usize) -> &[u8]
        requires { i < length self.now.input }
        ensures { slice_get self.now.input i ≡ Some result.now }
    {
        self.all.line(self.input as usize + i)
    }

    /// The span of the name in the head.
    pub(crate) fn name(&self) -> Span
        ensures { result ≡ self.now.name }
    {
        self.name
    }

    /// The spans of the arguments in the head.
    pub(crate) fn arguments(&self) -> &[ArgumentSpans]
        ensures { map spanned result.now ≡ self.now.args }
    {
        self.args.as_slice()
    }

    /// Copies the pointer to the lines, and the spans.
    pub(crate) fn try_copy(&self) -> Result<Front, AllocError>
        ensures { IfOk result (λ copy. copy ≡ self.now) }
    {
        let args = SmallVec::from_clones(self.all.allocator(), self.args.as_slice())?;
        Ok(Front {
            all: self.all.try_copy()?,
            lead: self.lead,
            head: self.head,
            input: self.input,
            end: self.end,
            name: self.name,
            args,
        })
    }

    /// The length of the block's text without the expectation.
    pub(crate) fn text_len(&self) -> usize
        ensures { result ≡ capped (front_len self.now) }
    {
        self.text().len().saturating_add(AROUND_LEN)
    }
}
