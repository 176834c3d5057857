//! The paths to check.

ghost use Rattle.std.specs.Prelude.{string_bytes};

use std::convert::AsStr;

/// A path, and the line of a directive if one is named with it.
#[derive(Drop)]
pub struct Target {
    pub path: String,
    pub line: Option<usize>,
}

impl AsStr for Target {
    ghost text = { λ target. string_bytes target.path };

    fn as_str(&self) -> &str {
        self.path.as_str()
    }
}
