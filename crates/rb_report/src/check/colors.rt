//! Whether colours are shown.

/// Whether colours are shown, by the SGR sequences of ECMA-48, which terminals know.
#[derive(Clone, Copy, Debug, PartialEq, Eq)]
pub enum Colors {
    /// None.
    Off,
    /// Red for expected lines that are missing, green for actual lines in their place.
    On,
}
