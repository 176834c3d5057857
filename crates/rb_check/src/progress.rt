//! When it is time to show how far long work is.

use std::time::{Clock, Duration, Instant};

// Work of a second or less shows nothing, and the progress line changes at most ten times a second.
pub(crate) const FIRST_MILLISECONDS: u64 = 1_000;

pub(crate) const MILLISECONDS_APART: u64 = 100;

/// When it is time to show how far the work is.
#[derive(Clone, Copy)]
pub struct ProgressClock {
    // None if the clock can't be read
    start: Option<Instant>,
    // the time after the start at which it is next due
    next: Duration,
    is_wanted: bool,
}

impl ProgressClock {
    ghost use Rattle.std.specs.Prelude.{◌≡◌, IsTrue, true};

    /// Starts now. It is never due if it isn't wanted.
    pub fn from_now<C: Clock>(clock: &C, is_wanted: bool) -> ProgressClock
        ensures { result.is_wanted ≡ is_wanted }
    {
        ProgressClock {
            start: Instant::now(clock).ok(),
            next: Duration::from_millis(FIRST_MILLISECONDS),
            is_wanted,
        }
    }

    /// The time since the start; 0 if the clock can't be read.
    pub(crate) fn elapsed<C: Clock>(&self, clock: &C) -> Duration {
        match self.start {
            Some(start) => start.elapsed(clock).unwrap_or(Duration::ZERO),
            None => Duration::ZERO,
        }
    }

    /// Whether it is time to show how far the work is.
    pub fn is_due<C: Clock>(&mut self, clock: &C) -> bool
        ensures wanted { IsTrue result → self.old.is_wanted ≡ true }
        ensures as_before { self.new.is_wanted ≡ self.old.is_wanted }
    {
        if !self.is_wanted {
            return false;
        }
        let elapsed = self.elapsed(clock);
        if elapsed < self.next {
            return false;
        }
        self.next = elapsed.saturating_add(Duration::from_millis(MILLISECONDS_APART));
        true
    }
}
