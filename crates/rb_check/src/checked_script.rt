//! A script that is being checked.

use crate::script_result::ScriptResult;
use crate::system::Text;
use rb_machine::Machine;
use rb_replay::Session;
use rb_report::check::Colors;
use rb_script::Lines;
use rb_script_report::{Layout, Warning};

/// A script that ran, with its warnings, the reasons of its outputs if they were asked for, and its result before outputs are accepted.
#[derive(Drop)]
pub(crate) struct CheckedScript<'a, M: Machine> {
    pub(crate) path: &'a str,
    pub(crate) text: &'a Text,
    pub(crate) session: &'a Session<M>,
    pub(crate) layout: &'a Layout,
    pub(crate) whys: &'a [Lines],
    /// The colours that it is shown in.
    pub(crate) colors: Colors,
    pub(crate) warnings: &'a [Warning],
    pub(crate) ran: ScriptResult,
}
