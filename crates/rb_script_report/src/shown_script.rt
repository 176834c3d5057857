//! A script that ran.

use crate::layout::Layout;
use rb_machine::Machine;
use rb_replay::Session;
use rb_script::Lines;

/// A script that ran.
#[derive(Drop)]
pub struct ShownScript<'a, M: Machine> {
    /// Its session.
    pub session: &'a Session<M>,
    /// Its lines, and those on which its heads begin.
    pub layout: &'a Layout,
    /// The reasons below the lines of each output; if there are fewer, the others have none.
    pub whys: &'a [Lines],
}
