//! What was probably meant by a directive whose output differs or is an error.

ghost use Rattle.std.specs.Prelude.{◌≡◌};
ghost use Rattle.rb_report.specs.Hints.{plain_hint};
ghost use Rattle.rb_script_report.specs.Checked.{meant_by};

use crate::errors::is_error;
use crate::put::is_same;
use rb_report::check::Hint;
use rb_report::help::suggested;
use rb_script::{Block, Lines};

/// Suggests what was meant, if the output differs from the expectation or is an error.
pub fn hint_of(block: &Block, output: &Lines) -> Hint<'static>
    ensures { plain_hint result ≡ meant_by block.now output.now }
{
    if !is_error(output) && is_same(block.expected(), output) {
        Hint::Unknown
    } else {
        suggested(&block.directive())
    }
}
