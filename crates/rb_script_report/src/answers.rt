//! A session's blocks and outputs by their index.

ghost use Rattle.std.specs.Prelude.{◌≡◌, ◌<◌, Some, length, slice_get};
ghost use Rattle.rb_replay.specs.Run.{outputs};

use rb_machine::Machine;
use rb_replay::Session;
use rb_script::{Block, Lines};

/// The block of the directive at an index, which counts from 0.
pub fn block_at<M: Machine>(session: &Session<M>, index: usize) -> &Block
    requires { index < length session.now.script.blocks }
    ensures { slice_get session.now.script.blocks index ≡ Some result.now }
{
    session.block_at(index)
}

/// The output of the directive at an index, which counts from 0.
pub fn output_at<M: Machine>(session: &Session<M>, index: usize) -> &Lines
    requires { index < length session.now.script.blocks }
    ensures { slice_get (outputs session.now.script) index ≡ Some result.now }
{
    session.output_at(index)
}

/// The number at an index, which counts from 0.
pub fn number_at(numbers: &[usize], index: usize) -> usize
    requires { index < length numbers.now }
    ensures { slice_get numbers.now index ≡ Some result }
{
    numbers[index]
}
