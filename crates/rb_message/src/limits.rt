//! The limits of an outbox.

/// The number of messages in each page. A copy of an outbox copies fewer messages, and shares all others.
pub(crate) const PAGE: usize = 16;

/// The most pages, so that the number of messages fits a `usize`.
pub(crate) const MAX_PAGES: usize = 2_000_000_000;
