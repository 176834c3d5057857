//! The limits of a check.

ghost use Rattle.std.specs.Prelude.{◌≡◌};
ghost use Rattle.rb_check.specs.declared.command.TheConstants.{MAX_DIFF};
ghost use Rattle.rb_check.specs.declared.person.TheConstants.{KEYS_APART, MOST_KEYS};
ghost use Rattle.rb_check.specs.declared.progress.TheConstants.{FIRST_MILLISECONDS, MILLISECONDS_APART};

/// The limits are these numbers: how many bytes of a diff a command has; how many bytes of keys a read takes, and for how many milliseconds after a key
/// that is no answer no other key is one; and after how many milliseconds the first progress line is shown, and each next one.
pub fn limits_are()
    ensures diff { MAX_DIFF ≡ 4096 }
    ensures keys { (MOST_KEYS ≡ 4096) × (KEYS_APART ≡ 200) }
    ensures progress { (FIRST_MILLISECONDS ≡ 1000) × (MILLISECONDS_APART ≡ 100) }
{}
