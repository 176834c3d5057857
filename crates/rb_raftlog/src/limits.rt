//! The limits of indexes, terms and pages.
//!
//! Indexes and terms end far below the limit of `u64`, so sums of two of them never wrap. The sizes of pages and pieces limit the cost of a
//! change: it copies at most a page of pointers, and a content at most a piece of bytes.

ghost use Rattle.std.specs.Prelude.{◌≡◌};
ghost use Rattle.rb_raftlog.specs.declared.limits.TheConstants.{MAX_INDEX, MAX_TERM, END};

/// The greatest index of an entry.
pub const MAX_INDEX: u64 = 2_000_000_000;

/// The greatest term.
pub const MAX_TERM: u64 = 2_000_000_000;

/// The most items of a page.
pub(crate) const PAGE: usize = 64;

/// The number of bytes in each piece of a content, except the rest at its end.
pub(crate) const PIECE: usize = 1_024;

/// The number of last bytes of a content that are available as one slice.
pub(crate) const END: usize = 32;

/// The factor of a content's sum for each byte. It is odd, so no bit of the sum is lost, and its bits are mixed (Knuth's factor of a 64-bit
/// random number generator).
pub(crate) const FACTOR: u64 = 6_364_136_223_846_793_005;

/// States the limits as numbers, for definitions.
pub fn limits_are()
    ensures index { MAX_INDEX ≡ 2000000000 }
    ensures term { MAX_TERM ≡ 2000000000 }
    ensures content_end { END ≡ 32 }
{}
