//! A directive of a script that ran.

ghost use Rattle.std.specs.Prelude.{◌≡◌, ◌<◌, IfOk, Some, length, slice_get};
ghost use Rattle.rb_script_report.specs.Checked.{head_of};
ghost use Rattle.rb_check.specs.Subjects.{plain_of, plain_ran, runs_of};

use crate::checked_script::CheckedScript;
use rb_machine::Machine;
use rb_report::check::{FileLine, Why, put_head};
use rb_script::{Block, Lines, Through};
use rb_script_report::{block_at, number_at, output_at, why_at};
use std::alloc::{AllocError, Global};

/// A directive that ran: its index, its place, its block, its output and the reasons of that.
#[derive(Clone, Copy)]
pub(crate) struct RanDirective<'a> {
    pub(crate) index: usize,
    pub(crate) place: FileLine<'a>,
    pub(crate) block: &'a Block,
    pub(crate) output: &'a Lines,
    pub(crate) why: Why<'a>,
}

/// The directive at an index, which counts from 0.
pub(crate) fn directive_at<'a, M: Machine>(
    subject: &CheckedScript<'a, M>,
    index: usize,
) -> RanDirective<'a>
    requires count { length subject.now.layout.now.heads.items ≡ length subject.now.session.now.script.blocks }
    requires within { index < length subject.now.session.now.script.blocks }
    ensures path { result.place.path.now ≡ subject.now.path.now }
    ensures run { slice_get (runs_of (plain_of subject.now)) index ≡ Some (plain_ran result) }
{
    RanDirective {
        index,
        place: FileLine {
            path: subject.path.as_bytes(),
            line: number_at(subject.layout.heads.as_slice(), index),
        },
        block: block_at(subject.session, index),
        output: output_at(subject.session, index),
        why: why_at(subject.whys, index),
    }
}

/// The head of the block on one line.
pub(crate) fn head_of(alloc: Global, block: &Block) -> Result<Vec<u8>, AllocError>
    ensures { IfOk result (λ made. made.items ≡ head_of block.now) }
{
    let mut sink = Through(Vec::new(alloc));
    match put_head(&mut sink, &block.directive()) {
        Ok(()) => Ok(sink.0),
        Err(_) => Err(AllocError),
    }
}
