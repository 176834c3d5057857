//! The side of a diff that a line belongs to.

ghost use Rattle.std.specs.Prelude.{◌≡◌};
ghost use Rattle.rb_report.specs.Shown.{before, after};

use crate::check::colors::Colors;

/// The side of a diff that a line belongs to.
#[derive(Clone, Copy, Debug, PartialEq, Eq)]
pub enum Side {
    /// Both: it is expected, and in the output.
    Both,
    /// It is expected only.
    Expected,
    /// It is in the output only.
    Output,
}

/// The sign before a line.
pub(crate) fn before(colors: Colors, side: Side) -> &'static [u8]
    ensures { result.now ≡ before colors side }
{
    match (colors, side) {
        (_, Side::Both) => b"  ",
        (Colors::Off, Side::Expected) => b"- ",
        (Colors::Off, Side::Output) => b"+ ",
        (Colors::On, Side::Expected) => b"\x1b[31m- ",
        (Colors::On, Side::Output) => b"\x1b[32m+ ",
    }
}

/// The text after a line.
pub(crate) fn after(colors: Colors, side: Side) -> &'static [u8]
    ensures { result.now ≡ after colors side }
{
    match (colors, side) {
        (_, Side::Both) | (Colors::Off, _) => b"",
        (Colors::On, _) => b"\x1b[0m",
    }
}
