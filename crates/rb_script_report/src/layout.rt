//! The lines of a script's bytes, and those on which its heads begin.

use rb_script::Lines;

/// A script's lines, and those on which its heads begin, as [`ScriptWithLines`](rb_script::ScriptWithLines) has read them.
#[derive(Drop)]
pub struct Layout {
    /// Its lines, without their ends.
    pub text: Lines,
    /// The lines on which its heads begin, which count from 1.
    pub heads: Vec<usize>,
}
