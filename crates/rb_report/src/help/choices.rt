//! The values of options that take some values alone.

ghost use Rattle.std.specs.Prelude.{◌≡◌, map};
ghost use Rattle.rb_report.specs.Choices.{choices_of};

use crate::help::nearest::Known;
use rb_directive::{Argument, argument_of};
use rb_vocab::TYPE_NAMES;

pub(crate) static LEVELS: [&[u8]; 6] = [b"debug", b"info", b"warn", b"error", b"fatal", b"none"];

static FLAGS: [&[u8]; 2] = [b"true", b"false"];

static TRANSITIONS: [&[u8]; 3] = [b"auto", b"explicit", b"implicit"];

/// Gives the values of the option with this key, if it takes some values alone; none if it takes others too.
pub fn choices_of(key: &[u8]) -> &'static [Known]
    ensures { map (λ c. c.now) result.now ≡ choices_of key.now }
{
    match argument_of(key) {
        Some(Argument::Level(_)) => &LEVELS,
        Some(Argument::Flag(_)) => &FLAGS,
        Some(Argument::Transition) => &TRANSITIONS,
        Some(Argument::Types) => TYPE_NAMES,
        _ => &[],
    }
}
