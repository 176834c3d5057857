//! The limits of a script.

ghost use Rattle.std.specs.Prelude.{◌≡◌};

/// The most bytes of a script, as read and as canonical text.
pub const MAX_SCRIPT: usize = 4_194_304;

/// The most bytes of a line, without its end.
pub const MAX_LINE: usize = 65_536;

/// The most directives of a script.
pub const MAX_DIRECTIVES: usize = 20_000;

/// The most arguments of a directive.
pub const MAX_ARGUMENTS: usize = 64;

/// The most values of an argument.
pub const MAX_VALUES: usize = 64;

/// The limits as numbers. Definitions only name the constants.
pub fn limits_are()
    ensures script { MAX_SCRIPT ≡ 4194304 }
    ensures line { MAX_LINE ≡ 65536 }
    ensures directives { MAX_DIRECTIVES ≡ 20000 }
    ensures arguments { MAX_ARGUMENTS ≡ 64 }
    ensures values { MAX_VALUES ≡ 64 }
{}
