//! What is accepted of a script in which no directive is named.

ghost use Rattle.std.specs.Prelude.{◌≡◌, IfOk, length};
ghost use Rattle.rb_script_report.specs.declared.accept_options.AcceptFilter.TheVariants.{All};
ghost use Rattle.rb_script_report.specs.Accepting.{picked_unnamed, up_to_first};

use crate::accept_options::{AcceptFilter, AcceptOptions};
use crate::accepting::left_heads;
use crate::layout::Layout;
use rb_machine::Machine;
use rb_replay::Session;
use std::alloc::{AllocError, Global};

// All directives.
fn of_each(errors: bool) -> AcceptOptions<'static>
    ensures { result ≡ record { picked = All; errors = errors } }
{
    AcceptOptions {
        picked: AcceptFilter::All,
        errors,
    }
}

// All directives, up to the first of these heads.
fn up_to_first(left: &[usize]) -> AcceptFilter<'static>
    ensures { result ≡ up_to_first left.now }
{
    match left {
        [] => AcceptFilter::All,
        [line, ..] => AcceptFilter::UpTo(*line),
    }
}

/// The directives whose outputs are accepted if none is named: those above the first new error, or all if new errors are accepted too. The layout
/// is that of the session's script.
pub fn picked_unnamed<M: Machine>(
    alloc: Global,
    session: &Session<M>,
    layout: &Layout,
    errors: bool,
) -> Result<AcceptFilter<'static>, AllocError>
    requires { length layout.now.heads.items ≡ length session.now.script.blocks }
    ensures { IfOk result (λ picked. picked ≡ picked_unnamed errors layout.now.text layout.now.heads.items session.now.script) }
{
    let wanted = of_each(errors);
    let left = left_heads(alloc, session, &layout.heads, &layout.text, wanted)?;
    Ok(up_to_first(left.as_slice()))
}
