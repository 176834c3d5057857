//! Scripts whose directives have no diagnostics. This is known without their texts, so a letter that changes nothing costs little.

ghost use Rattle.std.specs.Prelude.{◌≡◌};
ghost use Rattle.rb_editor.specs.Findings.{is_quiet};

use rb_machine::Machine;
use rb_replay::Session;
use rb_script_report::has_errors;

/// Says whether each output is expected, and none is an error.
pub(crate) fn is_quiet<M: Machine>(session: &Session<M>) -> bool
    ensures { result ≡ is_quiet session.now.script }
{
    session.mismatches().is_empty() && !has_errors(session)
}
