//! Why nothing came of a message, or which entries give way to its own, as a text.

ghost use Rattle.std.specs.Prelude.{◌≡◌, ◌∷◌, [], IfOk, drop};
ghost use Rattle.rb_texts.specs.Reasons.{reason_text};

use rb_script::Lines;
use rb_texts::Reason;
use std::alloc::{AllocError, Global};

/// The line of a reason.
pub(crate) fn reason_line(alloc: Global, reason: &Reason) -> Result<Lines, AllocError>
    ensures { IfOk result (λ lines. lines ≡ reason_text reason.now ∷ []) }
{
    let mut lines = Lines::new(alloc);
    lines.push_written(reason)?;
    Ok(lines)
}

/// The bytes past the first few.
pub(crate) fn past(bytes: &[u8], few: usize) -> &[u8]
    ensures { result.now ≡ drop few bytes.now }
{
    &bytes[few.min(bytes.len())..]
}
