//! The values of flags.

ghost use Rattle.std.specs.Prelude.{◌≡◌, ◌<◌};
ghost use Rattle.rb_directive.specs.declared.argument.TheConstants.{FLAGS};
ghost use Rattle.rb_directive.specs.FlagValues.{flag_place, no_flags, value_in, with_value};

use crate::argument::{FLAGS, Flag};

// The position of a flag's value.
fn place(flag: Flag) -> usize
    ensures place { result ≡ flag_place flag }
    ensures within { result < FLAGS }
{
    flag as usize
}

/// The values of the flags. A value is `None` until it is given.
#[derive(Clone, Copy)]
pub(crate) struct FlagValues {
    // each at the position of its flag
    values: [Option<bool>; FLAGS],
}

impl FlagValues {
    /// No flag is given.
    #[tactic(auto, unfolding(crate::specs::FlagValues::no_flags))]
    pub(crate) fn nothing() -> FlagValues
        ensures { result ≡ no_flags }
    {
        FlagValues {
            values: [None; FLAGS],
        }
    }

    /// Sets a flag.
    pub(crate) fn with(self, flag: Flag, value: bool) -> FlagValues
        ensures { result ≡ with_value flag value self }
    {
        let mut values = self.values;
        values[place(flag)] = Some(value);
        FlagValues { values }
    }

    /// The value of the flag.
    pub(crate) fn get(&self, flag: Flag) -> Option<bool>
        ensures { result ≡ value_in self.now flag }
    {
        self.values[place(flag)]
    }
}
