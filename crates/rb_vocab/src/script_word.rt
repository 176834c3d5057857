//! Words of a directive, borrowed from the script. In contracts a word is the list of its bytes.

use std::marker::Model;

/// Bytes of a script, such as a name, a key or a value.
#[derive(Drop)]
pub struct ScriptWord<'a> {
    bytes: &'a [u8],
}

impl<'a> Model for ScriptWord<'a> {
    ghost use Rattle.std.specs.Prelude.{List, ℕ};

    ghost Value = { List ℕ };

    ghost view = { λ w. w.bytes.now };
}

impl<'a> ScriptWord<'a> {
    ghost use Rattle.std.specs.Prelude.{◌≡◌};

    /// Makes a word of these bytes.
    pub fn new(bytes: &'a [u8]) -> ScriptWord<'a>
        ensures { result ≡ bytes.now }
    {
        ScriptWord { bytes }
    }

    /// The bytes.
    pub fn bytes(&self) -> &'a [u8]
        ensures { result.now ≡ self.now }
    {
        self.bytes
    }

    /// Copies the word. The bytes stay borrowed.
    pub fn copy(&self) -> ScriptWord<'a>
        ensures { result ≡ self.now }
    {
        ScriptWord { bytes: self.bytes }
    }
}
