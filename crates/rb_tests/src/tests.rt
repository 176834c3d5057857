ghost use Rattle.std.specs.Prelude.{IsTrue};

use std::process::Abort;

mod bench;
mod counting;
mod definitions;
mod edits;
mod files;
mod logs;
mod nodes;
mod reading;
mod refusals;
mod sessions;
mod trackers;

// Two things make a test dear to prove. One is an assertion, so nothing but what stands here asserts. The other is a value that goes at
// the end of a function, on each way out: so who owns one gives it to `drop`, which is one call.

/// Ends the test where something isn't so.
fn is(rt: &impl Abort, so: bool, what: &str)
    ensures { IsTrue so }
{
    assert!(rt; so, "{what}");
}

/// The same of a row of a table.
fn is_in_row(rt: &impl Abort, so: bool, what: &str, row: usize) {
    assert!(rt; so, "{what}, row {row}");
}

/// Ends the test where a text isn't the one that is wanted.
fn is_text(rt: &impl Abort, came: &[u8], want: &[u8]) {
    assert_eq!(rt; came, want);
}
