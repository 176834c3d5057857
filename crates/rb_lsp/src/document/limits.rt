//! Limits of a text.

/// The most bytes of a document's text: 64 MiB.
pub const MAX_TEXT: usize = 67_108_864;
