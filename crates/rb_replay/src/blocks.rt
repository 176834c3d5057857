//! The blocks of a script, by index.

ghost use Rattle.std.specs.Prelude.{◌≡◌, ◌-◌, ◌<◌, ◌≤◌, Some, length, slice_get};
ghost use Rattle.rb_script.specs.declared.limits.TheConstants.{MAX_DIRECTIVES};

use rb_script::{Block, Script};

/// The block at an index, counted from 0.
pub fn block_at(script: &Script, index: usize) -> &Block
    requires few { length script.now.blocks ≤ MAX_DIRECTIVES }
    requires within { index < length script.now.blocks }
    ensures { slice_get script.now.blocks index ≡ Some result.now }
{
    script.block(index + 1).unwrap()
}

/// The block at an index counted from the end, where the last block is 0.
pub(crate) fn block_from_last(script: &Script, index: usize) -> &Block
    requires few { length script.now.blocks ≤ MAX_DIRECTIVES }
    requires within { index < length script.now.blocks }
    ensures { slice_get script.now.blocks (length script.now.blocks - 1 - index) ≡ Some result.now }
{
    block_at(script, script.len() - 1 - index)
}
