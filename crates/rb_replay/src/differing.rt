//! Finding mismatches.

ghost use Rattle.std.specs.Prelude.{◌≡◌, ◌+◌, ◌-◌, ◌≤◌, length, drop, take, IfOk};
ghost use Rattle.rb_script.specs.declared.limits.TheConstants.{MAX_DIRECTIVES};
ghost use Rattle.rb_replay.specs.Report.{differing, same_lines};

use crate::blocks::block_at;
use rb_script::{ChunkedList, Lines, Script};
use std::alloc::{AllocError, Global};

/// Compares the lines.
fn is_same(a: &Lines, b: &Lines) -> bool
    ensures { result ≡ same_lines a.now b.now }
{
    a.same(b)
}

/// Lists the places after `from`, up to `to`, whose output isn't the expected one.
pub(crate) fn list_differing(
    alloc: Global,
    script: &Script,
    outputs: &ChunkedList<Lines>,
    from: usize,
    to: usize,
) -> Result<Vec<usize>, AllocError>
    requires few { length script.now.blocks ≤ MAX_DIRECTIVES }
    requires within { to ≤ length script.now.blocks }
    requires there { to ≤ length outputs.now }
    ensures { IfOk result (λ v. v.items ≡ differing (from + 1) (drop from script.now.blocks) (take (to - from) (drop from outputs.now))) }
{
    let mut places = Vec::new(alloc);
    for i in from..to {
        let block = block_at(script, i);
        let output = outputs.at(i);
        if !is_same(block.expected(), output) {
            places.push(i + 1)?;
        }
    }
    Ok(places)
}
